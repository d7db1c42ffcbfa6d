// The PNML reader's loop: element after element, to the end of the text or to the offset where it leaves the shape.
#![tactic(auto)]

ghost use Rattle.std.specs.Prelude.{◌≡◌, ℕ, ◌+◌, ◌^◌, ◌≤◌, ◌<◌, length, Ok};
ghost use Rattle.pnml_shape.specs.Drawing as drawing;
ghost use Rattle.pnml_shape.specs.Machine as machine;
ghost use Rattle.pnml_scan.specs.Serving as scans;
ghost use Rattle.pnml_turn.specs.Serving as serving;

use pnml_scan::{Arc, ArcRead, Left, Number};
use pnml_state::Entries;

// One turn: a place with its mark, a transition with its entry, an arc, or the end of the text.
#[derive(Clone, Copy)]
pub enum Turn {
    Place(Number),
    Transition(Number),
    Join(ArcRead),
    End,
}

// What was read so far: the offset, how many places, transitions and arcs there are, the marking, and the least arc that can follow.
#[derive(Clone, Copy)]
pub struct State {
    pub at: usize,
    pub places: usize,
    pub transitions: usize,
    pub arcs: usize,
    pub marking: u64,
    pub least: Arc,
}

// A place, from `<p` on.
fn place_turn(text: &[u8], at: usize, places: usize) -> Result<Turn, Left>
    requires { at ≤ length text.now }
    ensures { (T A : ℕ) (l : drawing.Arc) → T ≡ 0 → serving.Seen text.now at at places T A l machine.place_format result }
{
    let place = pnml_scan::place(text, at, places)?;
    Ok(Turn::Place(place))
}

// A transition, from `<t` on.
fn transition_turn(text: &[u8], at: usize, transitions: usize) -> Result<Turn, Left>
    requires { at ≤ length text.now }
    ensures { (P A : ℕ) (l : drawing.Arc) → serving.Seen text.now at at P transitions A l machine.transition_format result }
{
    let transition = pnml_scan::transition(text, at, transitions)?;
    Ok(Turn::Transition(transition))
}

// An arc, from `<a` on.
fn arc_turn(text: &[u8], at: usize, s: &State) -> Result<Turn, Left>
    requires { (at ≤ length text.now) × scans.Open s.now.places s.now.transitions (scans.arc_of s.now.least) }
    ensures { serving.Seen text.now at at s.now.places s.now.transitions s.now.arcs (scans.arc_of s.now.least) (λ d. machine.arc_format d s.now.places s.now.transitions (scans.arc_of s.now.least)) result }
{
    let arc = pnml_scan::read_arc(text, at, s.arcs, s.places, s.transitions, s.least)?;
    Ok(Turn::Join(arc))
}

// The end, from `</` on.
fn closing_turn(text: &[u8], at: usize) -> Result<Turn, Left>
    requires { at ≤ length text.now }
    ensures { (P T A : ℕ) (l : drawing.Arc) → serving.Seen text.now at at P T A l machine.closing result }
{
    pnml_scan::closing(text, at)?;
    Ok(Turn::End)
}

// Whether an arc can still follow.
#[tactic(auto, unfolding(pnml_shape::specs::Machine::arc_open))]
fn arc_open(places: usize, transitions: usize, least: Arc) -> bool
    ensures { result ≡ machine.arc_open places transitions (scans.arc_of least) }
{
    (least.place < places) & (least.transition < transitions)
}

// What follows `<`: places while there is no transition, transitions while there is no arc, arcs while one can follow, or the end.
fn opened_turn(text: &[u8], at: usize, s: &State) -> Result<Turn, Left>
    requires { at ≤ length text.now }
    ensures { serving.Seen text.now at (at + 1) s.now.places s.now.transitions s.now.arcs (scans.arc_of s.now.least) machine.opened result }
{
    if text.len() <= at {
        return Err(Left { at });
    }
    let b = text[at];
    if (b == b'p') & (s.transitions == 0) {
        return place_turn(text, at + 1, s.places);
    }
    if (b == b't') & (s.arcs == 0) {
        return transition_turn(text, at + 1, s.transitions);
    }
    if (b == b'a') & arc_open(s.places, s.transitions, s.least) {
        return arc_turn(text, at + 1, s);
    }
    if b == b'/' {
        return closing_turn(text, at + 1);
    }
    Err(Left { at })
}

// White space, `<` and what follows it.
fn next_turn(text: &[u8], s: &State) -> Result<Turn, Left>
    requires { s.now.at ≤ length text.now }
    ensures { serving.Seen text.now s.now.at (s.now.at + 1) s.now.places s.now.transitions s.now.arcs (scans.arc_of s.now.least) machine.turn result }
{
    let start = pnml_scan::blank(text, s.at);
    if text.len() <= start {
        return Err(Left { at: start });
    }
    if text[start] != b'<' {
        return Err(Left { at: start });
    }
    opened_turn(text, start + 1, s)
}

// ---- what was read so far

impl State {
    // One place more.
    fn place(self, marking: u64, at: usize) -> State
        requires { self.places + 1 < 2 ^ 64 }
        ensures { result ≡ serving.placed_state self marking at }
    {
        State {
            at,
            places: self.places + 1,
            marking,
            ..self
        }
    }

    // One transition more.
    fn transition(self, at: usize) -> State
        requires { self.transitions + 1 < 2 ^ 64 }
        ensures { result ≡ serving.transition_state self at }
    {
        State {
            at,
            transitions: self.transitions + 1,
            ..self
        }
    }

    // One arc more.
    fn join(self, least: Arc, at: usize) -> State
        requires { self.arcs + 1 < 2 ^ 64 }
        ensures { result ≡ serving.joined_state self least at }
    {
        State {
            at,
            arcs: self.arcs + 1,
            least,
            ..self
        }
    }

    // What was read.
    fn reading(self) -> Reading
        ensures { result ≡ serving.reading_of self }
    {
        Reading {
            places: self.places,
            transitions: self.transitions,
            marking: self.marking,
        }
    }
}

// The state after an arc; the entries keep it.
fn put_arc(s: State, read: ArcRead, kept: &mut Entries) -> State
    requires { (read.arc.place < s.places) × (read.arc.transition + 1 < 2 ^ 64) × (s.arcs + 1 < 2 ^ 64) }
    ensures { serving.Put s read result kept.old kept.new }
{
    let arc = read.arc;
    if arc.post {
        pnml_state::join(&mut kept.post, true, arc.transition, arc.place);
    } else {
        pnml_state::join(&mut kept.pre, true, arc.transition, arc.place);
    }
    s.join(pnml_scan::arc_after(s.places, arc), read.at)
}

// One element further, or nothing at the end of the text. The entries keep what was read.
fn advance(text: &[u8], s: State, kept: &mut Entries) -> Result<Option<State>, Stopped>
    requires { serving.Read text.now s kept.old.pre kept.old.post kept.old.action }
    ensures { serving.Moved text.now s result kept.new.pre kept.new.post kept.new.action }
{
    let turn = match next_turn(text, &s) {
        Ok(turn) => turn,
        Err(left) => {
            return Err(Stopped {
                at: left.at,
                before: s.reading(),
            });
        }
    };
    match turn {
        Turn::Place(place) => {
            let marking = pnml_state::mark(s.marking, s.places, place.value);
            Ok(Some(s.place(marking, place.at)))
        }
        Turn::Transition(transition) => {
            pnml_state::note(&mut kept.action, s.transitions, transition.value as u32);
            Ok(Some(s.transition(transition.at)))
        }
        Turn::Join(arc) => Ok(Some(put_arc(s, arc, kept))),
        Turn::End => Ok(None),
    }
}

// ---- the whole text

// What was read of a text: how many places and transitions it has, and the marking of at most 64 places.
#[derive(Clone, Copy)]
pub struct Reading {
    pub places: usize,
    pub transitions: usize,
    pub marking: u64,
}

// Where a text leaves the shape, and what was read before.
#[derive(Clone, Copy)]
pub struct Stopped {
    pub at: usize,
    pub before: Reading,
}

// The state before the first element.
fn begin(at: usize) -> State
    ensures { result ≡ serving.begun at }
{
    State {
        at,
        places: 0,
        transitions: 0,
        arcs: 0,
        marking: 0,
        least: Arc {
            transition: 0,
            post: false,
            place: 0,
        },
    }
}

// Reads the elements of a text, which follow its opening, and its end, or answers where it leaves the shape and what was read before. The lent
// entries, all zero, get the sets and the entries of at most 64 transitions.
pub fn read_elements(text: &[u8], at: usize, kept: &mut Entries) -> Result<Reading, Stopped>
    requires opened { scans.Opened text.now (Ok at) }
    requires pre_value { (kept.old.pre ≡ serving.no_entry) × (kept.old.post ≡ serving.no_entry) × (kept.old.action ≡ serving.no_entry) }
    ensures { serving.ReadWhole text.now result kept.new.pre kept.new.post kept.new.action }
{
    let mut s = begin(at);
    while let Some(next) = advance(text, s, kept)? {
        s = next;
    }
    Ok(s.reading())
}

// The PNML text of a net with a marking, put into lent room. An element is put where the room left would hold the longest of its kind: one test
// for all its bytes. A text that fits is put whole, since the text's end is longer than the longest of a kind is over the shortest. Pressed and
// optional transitions are two kinds.
#![tactic(auto)]

ghost use Rattle.std.specs.Prelude.{◌≡◌, true, ◌+◌, ◌*◌, ◌^◌, ◌≤◌, ◌<◌, ◌∷◌, cond, length};
ghost use Rattle.texts.specs.Text as texts;
ghost use Rattle.net.specs.Table as table;
ghost use Rattle.pnml_shape.specs.Drawing as drawing;
ghost use Rattle.pnml_net.specs.Nets as nets;
ghost use Rattle.pnml_put.specs.Put as puts;

// Powers of ten, by the number of their zeros.
const POWERS: [usize; 5] = [1, 10, 100, 1000, 10000];

// The index after what was put, and how many arcs there are up to there.
#[derive(Clone, Copy)]
struct Spot {
    at: usize,
    arcs: usize,
}

// A place or a transition as an arc names it. As an enum, whose letter a `match` gives, a text of 8,192 arcs takes 1.04 times the instructions.
#[derive(Clone, Copy)]
struct Node {
    letter: u8,
    number: usize,
}

// ---- words and numbers, where there is room

// Puts a word, and answers the index after it. Not by `copy_from_slice`, with which a text of 8,192 arcs takes 1.3 times the instructions.
fn word(room: &mut [u8], at: usize, word: &[u8]) -> usize
    requires { at + length word.now ≤ length room.old }
    ensures { puts.Put (length word.now) room.old room.new at word.now result }
{
    for (i, byte) in word.iter().enumerate() {
        room[at + i] = *byte;
    }
    at + word.len()
}

// Puts a number of at most so many digits.
fn number(room: &mut [u8], at: usize, most: usize, n: usize) -> usize
    requires { (n < 10 ^ most) × (at + most ≤ length room.old) × (1 ≤ most) × (most ≤ 5) }
    ensures { puts.Put most room.old room.new at (texts.decimal n) result }
{
    let mut next = at;
    let mut rest = n;
    for i in (1..most).rev() {
        let unit = POWERS[i];
        if n >= unit {
            room[next] = 48 + (rest / unit) as u8;
            next += 1;
            rest %= unit;
        }
    }
    room[next] = 48 + rest as u8;
    next + 1
}

// ---- places

// The mark of a place: 1 where the marking has it.
fn mark(marking: u64, place: u32) -> usize
    ensures { (result ≡ nets.mark_of marking place) × (result < 10) }
{
    usize::from(bitset::member(marking, place))
}

// Puts a place. Where there is no room it answers the index itself, and no `Option`, which would cost a test more for each element.
fn place(room: &mut [u8], at: usize, i: usize, mark: usize) -> usize
    requires { (at ≤ length room.old) × (i < 100) × (mark < 10) }
    ensures { puts.Fit 71 room.old room.new at (drawing.joined (drawing.place_pieces i mark)) result }
{
    if room.len() - at < 71 {
        return at;
    }
    let at = word(room, at, b"<place id=\"p");
    let at = number(room, at, 2, i);
    let at = word(room, at, b"\"><initialMarking><text>");
    let at = number(room, at, 1, mark);
    word(room, at, b"</text></initialMarking></place>")
}

// Puts the places of a marking.
fn places(room: &mut [u8], at: usize, count: u32, marking: u64) -> usize
    requires { (at ≤ length room.old) × (count ≤ 64) }
    ensures { puts.Fit (71 * count) room.old room.new at (puts.places_text (nets.mark_of marking) count) result }
{
    let mut next = at;
    for i in 0..count {
        next = place(room, next, i as usize, mark(marking, i));
    }
    next
}

// ---- transitions

// How long a transition is at most, optional or pressed.
fn longest(optional: bool) -> usize
    ensures { result ≡ cond optional 104 65 }
{
    if optional { 104 } else { 65 }
}

// Puts a transition, optional or pressed. Where there is no room it answers the index itself, as `place` does.
fn transition(room: &mut [u8], at: usize, i: usize, action: u16, optional: bool) -> usize
    requires { (at ≤ length room.old) × (i < 100) }
    ensures { puts.Fit 104 room.old room.new at (drawing.joined (drawing.transition_pieces i (nets.entry_by action optional))) result }
{
    if room.len() - at < longest(optional) {
        return at;
    }
    let at = word(room, at, b"<transition id=\"t");
    let at = number(room, at, 2, i);
    let at = word(room, at, b"\"><name><text>");
    let at = number(room, at, 5, usize::from(action));
    if optional {
        return word(
            room,
            at,
            b"</text></name><toolspecific tool=\"desk\" version=\"1\"/></transition>",
        );
    }
    word(room, at, b"</text></name></transition>")
}

// Puts the transitions of a table.
fn transitions(room: &mut [u8], at: usize, count: usize, net: &[u8]) -> usize
    requires { (at ≤ length room.old) × (count ≤ 64) × (count * table.transition_size ≤ length net.now) }
    ensures { puts.Fit (104 * count) room.old room.new at (puts.transitions_text (puts.entry_at net.now) count) result }
{
    let mut next = at;
    for t in 0..count {
        let from = t * net::RECORD;
        let action = tables::u16_at(net, from + 16);
        next = transition(room, next, t, action, net[from + 18] == 1);
    }
    next
}

// ---- arcs

// Puts what names a place or a transition: its letter and its number.
fn node_name(room: &mut [u8], at: usize, node: Node) -> usize
    requires { (node.number < 100) × (at + 3 ≤ length room.old) }
    ensures { puts.Put 3 room.old room.new at (node.letter ∷ texts.decimal node.number) result }
{
    room[at] = node.letter;
    number(room, at + 1, 2, node.number)
}

// Puts the arc with this number from one to another. Where there is no room it answers the index itself, as `place` does.
fn arc_from(room: &mut [u8], at: usize, i: usize, source: Node, target: Node) -> usize
    requires { (at ≤ length room.old) × (i < 10000) × (source.number < 100) × (target.number < 100) }
    ensures { puts.Fit 43 room.old room.new at (puts.arc_text i source.letter source.number target.letter target.number) result }
{
    if room.len() - at < 43 {
        return at;
    }
    let at = word(room, at, b"<arc id=\"a");
    let at = number(room, at, 4, i);
    let at = word(room, at, b"\" source=\"");
    let at = node_name(room, at, source);
    let at = word(room, at, b"\" target=\"");
    let at = node_name(room, at, target);
    word(room, at, b"\"/>")
}

// Puts the arc with this number between a transition and a place.
fn arc(room: &mut [u8], at: usize, i: usize, transition: usize, post: bool, place: usize) -> usize
    requires { (at ≤ length room.old) × (i < 10000) × (transition < 100) × (place < 100) }
    ensures { puts.Fit 43 room.old room.new at (drawing.arc_piece i (puts.arc_of transition post place)) result }
{
    let transition = Node {
        letter: b't',
        number: transition,
    };
    let place = Node {
        letter: b'p',
        number: place,
    };
    if post {
        return arc_from(room, at, i, transition, place);
    }
    arc_from(room, at, i, place, transition)
}

// Puts the arc between a transition and a place where it is wanted.
fn arc_where(room: &mut [u8], spot: Spot, wanted: bool, t: usize, post: bool, p: usize) -> Spot
    requires { (spot.at ≤ length room.old) × (spot.arcs < 10000) × (t < 100) × (p < 100) }
    ensures { puts.FitArcs 1 room.old room.new spot.at spot.arcs (puts.arc_where wanted t post p) result.at result.arcs }
{
    if wanted {
        let at = arc(room, spot.at, spot.arcs, t, post, p);
        return Spot {
            at,
            arcs: spot.arcs + 1,
        };
    }
    spot
}

// Puts the arcs between a transition and the places of a set, of which 8 that are not in it are passed at once: so no `for` over the places.
fn arcs_by(room: &mut [u8], spot: Spot, set: u64, t: usize, post: bool, places: usize) -> Spot
    requires { (spot.at ≤ length room.old) × (spot.arcs ≤ 9100) × (t < 100) × (places ≤ 64) }
    ensures { puts.FitArcs 64 room.old room.new spot.at spot.arcs (nets.arcs_by set t post places) result.at result.arcs }
{
    let mut next = spot;
    let mut rest = set;
    let mut p = 0;
    while p < places {
        if rest == 0 {
            return next;
        }
        if rest % 256 == 0 && p + 8 <= places {
            rest /= 256;
            p += 8;
            continue;
        }
        next = arc_where(room, next, rest % 2 == 1, t, post, p);
        rest /= 2;
        p += 1;
    }
    next
}

// Puts the arcs of a transition with these sets: pre before post.
fn arcs_at(room: &mut [u8], spot: Spot, pre: u64, post: u64, t: usize, places: usize) -> Spot
    requires { (spot.at ≤ length room.old) × (spot.arcs ≤ 9000) × (t < 100) × (places ≤ 64) }
    ensures { puts.FitArcs 128 room.old room.new spot.at spot.arcs (puts.arcs_at pre post t places) result.at result.arcs }
{
    let spot = arcs_by(room, spot, pre, t, false, places);
    arcs_by(room, spot, post, t, true, places)
}

// Puts the arcs of a table.
fn all_arcs(room: &mut [u8], at: usize, places: usize, transitions: usize, net: &[u8]) -> usize
    requires { (at ≤ length room.old) × (places ≤ 64) × (transitions ≤ 64) × (transitions * table.transition_size ≤ length net.now) }
    ensures { puts.Fit (5504 * transitions) room.old room.new at (puts.arcs_text net.now places transitions) result }
{
    let mut spot = Spot { at, arcs: 0 };
    for t in 0..transitions {
        let from = t * net::RECORD;
        let pre = tables::u64_at(net, from);
        let post = tables::u64_at(net, from + 8);
        spot = arcs_at(room, spot, pre, post, t, places);
    }
    spot.at
}

// ---- the text

// Puts what stands before the places at the start of the room.
fn opening(room: &mut [u8]) -> usize
    ensures { puts.Fit 139 room.old room.new 0 (drawing.joined drawing.openings) result }
{
    if room.len() < 139 {
        return 0;
    }
    let at = word(
        room,
        0,
        b"<pnml xmlns=\"http://www.pnml.org/version-2009/grammar/pnml\">",
    );
    let at = word(
        room,
        at,
        b"<net id=\"n\" type=\"http://www.pnml.org/version-2009/grammar/ptnet\">",
    );
    word(room, at, b"<page id=\"g\">")
}

// Puts what stands before the end, and answers the index after it.
fn body(room: &mut [u8], places: u32, marking: u64, transitions: usize, net: &[u8]) -> usize
    requires { (places ≤ 64) × (transitions ≤ 64) × (transitions * table.transition_size ≤ length net.now) }
    ensures { puts.Fit (139 + 71 * places + 5608 * transitions) room.old room.new 0 (puts.body_text net.now places marking transitions) result }
{
    let at = opening(room);
    let at = self::places(room, at, places, marking);
    let at = self::transitions(room, at, transitions, net);
    all_arcs(room, at, places as usize, transitions, net)
}

// Puts the text at the start of the room where it fits, and answers its length.
pub fn text(room: &mut [u8], places: u32, marking: u64, net: &[u8]) -> usize
    requires { (places ≤ 64) × (table.table_sized net.now ≡ true) }
    ensures { puts.Whole (159 + 71 * places + 5608 * table.transitions net.now) room.old room.new (puts.net_text net.now places marking) result }
{
    let at = body(room, places, marking, net.len() / net::RECORD, net);
    if room.len() - at < 20 {
        return at;
    }
    word(room, at, b"</page></net></pnml>")
}

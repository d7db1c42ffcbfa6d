// The parts of a PNML text, one after another: words, white space, numbers, and the elements made of these.
#![tactic(auto)]

ghost use Rattle.std.specs.Prelude.{◌+◌, ◌*◌, ◌^◌, ◌≤◌, ◌<◌, ◌≡◌, length};
ghost use Rattle.pnml_shape.specs.Shape as shape;
ghost use Rattle.pnml_shape.specs.Machine as machine;
ghost use Rattle.pnml_scan.specs.Serving as serving;

pub use pnml_quick::Number;

// Where a text leaves the shape: the offset of the first byte that is not there.
// Text and offset stay two parameters: each part answers the next offset, and a cursor with this invariant would be taken apart in each clause: no plainer.
#[derive(Clone, Copy)]
pub struct Left {
    pub at: usize,
}

// These bytes, one by one: the offset after them. A `for`, whose invariant has `at + i` within the text: in a `find` that sum might wrap.
#[cold]
#[inline(never)]
fn literal_by_bytes(text: &[u8], at: usize, word: &[u8]) -> Result<usize, Left>
    requires { at ≤ length text.now }
    ensures { serving.Word text.now at word.now result }
{
    for i in 0..word.len() {
        let k = at + i;
        if k >= text.len() {
            return Err(Left { at: k });
        }
        if text[k] != word[i] {
            return Err(Left { at: k });
        }
    }
    Ok(at + word.len())
}

// These bytes: the offset after them. One by one only where they are not there, for the offset.
pub fn literal(text: &[u8], at: usize, word: &[u8]) -> Result<usize, Left>
    requires { at ≤ length text.now }
    ensures { serving.Word text.now at word.now result }
{
    if pnml_quick::there(text, at, word) {
        return Ok(at + word.len());
    }
    literal_by_bytes(text, at, word)
}

// Space, tab, CR or LF.
#[tactic(auto, unfolding(pnml_shape::specs::Shape::white))]
fn white(b: u8) -> bool
    ensures { result ≡ shape.white b }
{
    ((b == b' ') | (b == b'\t')) | ((b == b'\r') | (b == b'\n'))
}

// The offset after the white space.
pub fn blank(text: &[u8], at: usize) -> usize
    requires { at ≤ length text.now }
    ensures { serving.Skipped text.now at result }
{
    for i in at..text.len() {
        if !white(text[i]) {
            return i;
        }
    }
    text.len()
}

// ---- numbers

// Whether a number from lo to hi begins with the digits of v.
fn possible(v: usize, lo: usize, hi: usize) -> bool
    ensures { result ≡ machine.possible v lo hi }
{
    let mut low = lo;
    let mut high = hi;
    while v <= high {
        if low <= v {
            return true;
        }
        if v == 0 {
            return false;
        }
        low /= 10;
        high /= 10;
    }
    false
}

// Whether a number from lo to hi begins with the digits of v and the digit d. The sum is made only where it is at most hi.
fn digit_follows(v: usize, d: usize, lo: usize, hi: usize) -> bool
    ensures { result ≡ machine.possible (10 * v + d) lo hi }
{
    if d > hi {
        return false;
    }
    if v > (hi - d) / 10 {
        return false;
    }
    possible(10 * v + d, lo, hi)
}

// The digit at an offset, where there is one.
fn digit(text: &[u8], at: usize) -> Option<usize>
    ensures { serving.DigitAt text.now at result }
{
    let b = *text.get(at)?;
    if b < b'0' {
        return None;
    }
    if b > b'9' {
        return None;
    }
    Some(usize::from(b - b'0'))
}

// A number that ends at an offset, if it is not too low.
fn ended(v: usize, lo: usize, at: usize) -> Result<Number, Left>
    ensures { result ≡ serving.ended v lo at }
{
    if lo <= v {
        return Ok(Number { at, value: v });
    }
    Err(Left { at })
}

// The rest of a number from lo to hi, after digits that make n.
fn more_digits(text: &[u8], at: usize, n: usize, lo: usize, hi: usize) -> Result<Number, Left>
    requires { serving.Reading text.now at n hi }
    ensures { serving.Rest text.now at n lo hi result }
{
    let mut v = n;
    for k in at..text.len() {
        let Some(d) = digit(text, k) else {
            return ended(v, lo, k);
        };
        if v == 0 {
            return Err(Left { at: k });
        }
        if !digit_follows(v, d, lo, hi) {
            return Err(Left { at: k });
        }
        v = 10 * v + d;
    }
    ended(v, lo, text.len())
}

// A number from lo to hi, shortest, digit by digit.
#[cold]
#[inline(never)]
fn number_by_digits(text: &[u8], at: usize, lo: usize, hi: usize) -> Result<Number, Left>
    requires { at ≤ length text.now }
    ensures { serving.Value text.now at lo hi result }
{
    let Some(d) = digit(text, at) else {
        return Err(Left { at });
    };
    if !possible(d, lo, hi) {
        return Err(Left { at });
    }
    more_digits(text, at + 1, d, lo, hi)
}

// A number from lo to hi, shortest. Digit by digit only where it is not found at once: that stays a call, and the rest is made part of the
// code that calls it.
pub fn number(text: &[u8], at: usize, lo: usize, hi: usize) -> Result<Number, Left>
    requires { at ≤ length text.now }
    ensures { serving.Value text.now at lo hi result }
{
    if let Some(n) = pnml_quick::whole_number(text, at, lo, hi) {
        return Ok(n);
    }
    number_by_digits(text, at, lo, hi)
}

// ---- the frame

// White space and the end of the text: its offset.
fn end(text: &[u8], at: usize) -> Result<usize, Left>
    requires { at ≤ length text.now }
    ensures { serving.Ended text.now at result }
{
    let end = blank(text, at);
    if end < text.len() {
        return Err(Left { at: end });
    }
    Ok(end)
}

// All before the first element. White space and a word after it are two calls: so each is made part of the code that calls it.
pub fn opening(text: &[u8]) -> Result<usize, Left>
    ensures { serving.Opened text.now result }
{
    let pnml = literal(
        text,
        0,
        b"<pnml xmlns=\"http://www.pnml.org/version-2009/grammar/pnml\">",
    )?;
    let first = blank(text, pnml);
    let net = literal(
        text,
        first,
        b"<net id=\"n\" type=\"http://www.pnml.org/version-2009/grammar/ptnet\">",
    )?;
    let second = blank(text, net);
    literal(text, second, b"<page id=\"g\">")
}

// The end of the text from `</` of the page on.
pub fn closing(text: &[u8], at: usize) -> Result<usize, Left>
    requires { at ≤ length text.now }
    ensures { serving.Closed text.now at result }
{
    let page = literal(text, at, b"page>")?;
    let first = blank(text, page);
    let net = literal(text, first, b"</net>")?;
    let second = blank(text, net);
    let pnml = literal(text, second, b"</pnml>")?;
    end(text, pnml)
}

// ---- places and transitions

// A place from `<p` on, with its mark.
pub fn place(text: &[u8], at: usize, places: usize) -> Result<Number, Left>
    requires { at ≤ length text.now }
    ensures { serving.PlaceRead text.now at places result }
{
    let name = literal(text, at, b"lace id=\"p")?;
    let index = number(text, name, places, places)?;
    let start = literal(text, index.at, b"\">")?;
    let first = blank(text, start);
    let opens = literal(text, first, b"<initialMarking>")?;
    let second = blank(text, opens);
    let inner = literal(text, second, b"<text>")?;
    let mark = number(text, inner, 0, 1)?;
    let over = literal(text, mark.at, b"</text>")?;
    let third = blank(text, over);
    let closes = literal(text, third, b"</initialMarking>")?;
    let fourth = blank(text, closes);
    let at = literal(text, fourth, b"</place>")?;
    Ok(Number { at, ..mark })
}

// Whether `<t` is there, as the mark of an optional transition begins.
fn mark_opens(text: &[u8], at: usize) -> bool
    requires { at ≤ length text.now }
    ensures { result ≡ serving.mark_opens text.now at }
{
    if text.len() - at < 2 {
        return false;
    }
    (text[at] == b'<') & (text[at + 1] == b't')
}

// That mark and the white space after it, where it begins. The value is the action, with the mark 65,536 more: one number, as `entry_by` of
// pnml_net and the drawing's lists have it.
fn mark(text: &[u8], at: usize, action: usize) -> Result<Number, Left>
    requires { (at ≤ length text.now) × (action ≤ 65535) }
    ensures { serving.MarkRead text.now at action result }
{
    if !mark_opens(text, at) {
        return Ok(Number { at, value: action });
    }
    let mark = literal(text, at + 2, b"oolspecific tool=\"desk\" version=\"1\"/>")?;
    let at = blank(text, mark);
    Ok(Number {
        at,
        value: action + 65536,
    })
}

// All after a transition's action, tag by tag. The value is the action, for an optional transition 65,536 more: one number, as in `mark`.
fn ending_by_tags(text: &[u8], at: usize, action: usize) -> Result<Number, Left>
    requires { (at ≤ length text.now) × (action ≤ 65535) }
    ensures { serving.EndRead text.now at action result }
{
    let over = literal(text, at, b"</text>")?;
    let first = blank(text, over);
    let closes = literal(text, first, b"</name>")?;
    let second = blank(text, closes);
    let entry = mark(text, second, action)?;
    let at = literal(text, entry.at, b"</transition>")?;
    Ok(Number { at, ..entry })
}

// All after a transition's action. Tag by tag only where white space or a mark stands between, or something is not there.
fn ending(text: &[u8], at: usize, action: usize) -> Result<Number, Left>
    requires { (at ≤ length text.now) × (action ≤ 65535) }
    ensures { serving.EndRead text.now at action result }
{
    if pnml_quick::there(text, at, b"</text></name></transition>") {
        return Ok(Number {
            at: at + 27,
            value: action,
        });
    }
    ending_by_tags(text, at, action)
}

// A transition from `<t` on, with its action, for an optional one 65,536 more.
pub fn transition(text: &[u8], at: usize, transitions: usize) -> Result<Number, Left>
    requires { at ≤ length text.now }
    ensures { serving.TransitionRead text.now at transitions result }
{
    let name = literal(text, at, b"ransition id=\"t")?;
    let index = number(text, name, transitions, transitions)?;
    let start = literal(text, index.at, b"\">")?;
    let first = blank(text, start);
    let opens = literal(text, first, b"<name>")?;
    let second = blank(text, opens);
    let inner = literal(text, second, b"<text>")?;
    let action = number(text, inner, 0, 65535)?;
    ending(text, action.at, action.value)
}

// ---- arcs

// An arc into a transition from a place, or out of it (post).
#[derive(Clone, Copy)]
pub struct Arc {
    pub transition: usize,
    pub post: bool,
    pub place: usize,
}

// An arc, and the offset after it.
#[derive(Clone, Copy)]
pub struct ArcRead {
    pub at: usize,
    pub arc: Arc,
}

// The least arc that can follow this one.
pub fn arc_after(places: usize, a: Arc) -> Arc
    requires place_lt_places { a.place < places }
    requires transition_bound { a.transition + 1 < 2 ^ 64 }
    ensures { serving.arc_of result ≡ machine.after places (serving.arc_of a) }
{
    if a.place + 1 < places {
        return Arc {
            place: a.place + 1,
            ..a
        };
    }
    if a.post {
        return Arc {
            transition: a.transition + 1,
            post: false,
            place: 0,
        };
    }
    Arc {
        post: true,
        place: 0,
        ..a
    }
}

// Whether an arc into a transition can still follow.
fn pre_open(transitions: usize, least: Arc) -> bool
    requires { least.transition < transitions }
    ensures { result ≡ machine.pre_open transitions (serving.arc_of least) }
{
    !least.post | (least.transition + 1 < transitions)
}

// The lowest place of one.
fn pre_from(transitions: usize, least: Arc) -> usize
    requires { least.transition < transitions }
    ensures { result ≡ machine.pre_from transitions (serving.arc_of least) }
{
    if least.transition + 1 < transitions {
        return 0;
    }
    least.place
}

// The lowest transition for a place.
fn pre_into(transitions: usize, least: Arc, place: usize) -> usize
    requires { least.transition < transitions }
    ensures { result ≡ machine.pre_into (serving.arc_of least) place }
{
    if !least.post & (least.place <= place) {
        return least.transition;
    }
    least.transition + 1
}

// The lowest place of an arc out of a transition.
fn post_into(least: Arc, transition: usize) -> usize
    ensures { result ≡ machine.post_into (serving.arc_of least) transition }
{
    if least.post & (transition == least.transition) {
        return least.place;
    }
    0
}

// The letter of a source: whether it is a transition's, and not a place's, which may stand where that is open.
fn source(text: &[u8], at: usize, pre: bool) -> Result<bool, Left>
    requires { at ≤ length text.now }
    ensures { serving.Sourced text.now at pre result }
{
    if at >= text.len() {
        return Err(Left { at });
    }
    let b = text[at];
    if b == b't' {
        return Ok(true);
    }
    if !((b == b'p') & pre) {
        return Err(Left { at });
    }
    Ok(false)
}

// The rest of an arc into a transition, from its place's number on. This and `post_ends` differ in both bounds, the letter and which number is
// first, so one function for both would be no plainer.
fn pre_ends(
    text: &[u8],
    at: usize,
    places: usize,
    transitions: usize,
    least: Arc,
) -> Result<ArcRead, Left>
    requires at_in_bounds { at ≤ length text.now }
    requires fact { serving.Open places transitions (serving.arc_of least) }
    ensures { serving.PreRead text.now at places transitions (serving.arc_of least) result }
{
    let place = number(text, at, pre_from(transitions, least), places - 1)?;
    let target = literal(text, place.at, b"\" target=\"t")?;
    let low = pre_into(transitions, least, place.value);
    let transition = number(text, target, low, transitions - 1)?;
    let at = literal(text, transition.at, b"\"/>")?;
    let arc = Arc {
        transition: transition.value,
        post: false,
        place: place.value,
    };
    Ok(ArcRead { at, arc })
}

// The rest of an arc out of a transition, from the transition's number on.
fn post_ends(
    text: &[u8],
    at: usize,
    places: usize,
    transitions: usize,
    least: Arc,
) -> Result<ArcRead, Left>
    requires at_in_bounds { at ≤ length text.now }
    requires fact { serving.Open places transitions (serving.arc_of least) }
    ensures { serving.PostRead text.now at places transitions (serving.arc_of least) result }
{
    let transition = number(text, at, least.transition, transitions - 1)?;
    let target = literal(text, transition.at, b"\" target=\"p")?;
    let low = post_into(least, transition.value);
    let place = number(text, target, low, places - 1)?;
    let at = literal(text, place.at, b"\"/>")?;
    let arc = Arc {
        transition: transition.value,
        post: true,
        place: place.value,
    };
    Ok(ArcRead { at, arc })
}

// An arc from `<a` on, not below the least one.
pub fn read_arc(
    text: &[u8],
    at: usize,
    arcs: usize,
    places: usize,
    transitions: usize,
    least: Arc,
) -> Result<ArcRead, Left>
    requires at_in_bounds { at ≤ length text.now }
    requires fact { serving.Open places transitions (serving.arc_of least) }
    ensures { serving.ArcAt text.now at arcs places transitions (serving.arc_of least) result }
{
    let name = literal(text, at, b"rc id=\"a")?;
    let index = number(text, name, arcs, arcs)?;
    let middle = literal(text, index.at, b"\" source=\"")?;
    let post = source(text, middle, pre_open(transitions, least))?;
    let from = middle + 1;
    if post {
        return post_ends(text, from, places, transitions, least);
    }
    pre_ends(text, from, places, transitions, least)
}

// The length of the PNML text of a net with a marking, counted and not put.
#![tactic(auto)]

ghost use Rattle.std.specs.Prelude.{◌≡◌, true, ◌+◌, ◌*◌, ◌≤◌, ◌<◌, length};
ghost use Rattle.texts.specs.Text as texts;
ghost use Rattle.net.specs.Table as table;
ghost use Rattle.pnml_shape.specs.Drawing as drawing;
ghost use Rattle.pnml_net.specs.Nets as nets;
ghost use Rattle.pnml_put.specs.Put as puts;
ghost use Rattle.pnml_length.specs.Count as counts;

// The length of arcs, and how many there are up to the last of them.
#[derive(Clone, Copy)]
struct Tally {
    length: usize,
    arcs: usize,
}

// The number of digits of a number below 100,000.
fn digits(n: usize) -> usize
    requires { n < 100000 }
    ensures { (result ≡ length (texts.decimal n)) × (result ≤ 5) }
{
    match n {
        0..=9 => 1,
        10..=99 => 2,
        100..=999 => 3,
        1000..=9999 => 4,
        _ => 5,
    }
}

// The length of the places of a marking.
fn places_length(count: u32, marking: u64) -> usize
    requires { count ≤ 64 }
    ensures { counts.Count (74 * count) (puts.places_text (nets.mark_of marking) count) result }
{
    let mut length = 0;
    for i in 0..count {
        length += 69 + digits(i as usize);
    }
    length
}

// The length of a transition, optional or pressed.
fn transition_length(i: usize, action: u16, optional: bool) -> usize
    requires { i < 100 }
    ensures { counts.Count 107 (drawing.joined (drawing.transition_pieces i (nets.entry_by action optional))) result }
{
    let length = 58 + digits(i) + digits(usize::from(action));
    if optional {
        return length + 39;
    }
    length
}

// The length of the transitions of a table.
fn transitions_length(count: usize, net: &[u8]) -> usize
    requires { (count ≤ 64) × (count * table.transition_size ≤ length net.now) }
    ensures { counts.Count (107 * count) (puts.transitions_text (puts.entry_at net.now) count) result }
{
    let mut length = 0;
    for t in 0..count {
        let from = t * net::RECORD;
        let action = tables::u16_at(net, from + 16);
        length += transition_length(t, action, net[from + 18] == 1);
    }
    length
}

// The length of the arc with this number between a transition and a place, where it is wanted.
fn arc_where(tally: Tally, wanted: bool, t: usize, post: bool, p: usize) -> Tally
    requires { (tally.length ≤ 1000000) × (tally.arcs < 10000) × (t < 100) × (p < 100) }
    ensures { counts.CountArcs 1 tally.length tally.arcs (puts.arc_where wanted t post p) result.length result.arcs }
{
    if wanted {
        return Tally {
            length: tally.length + (35 + digits(tally.arcs) + digits(t) + digits(p)),
            arcs: tally.arcs + 1,
        };
    }
    tally
}

// The length of the arcs between a transition and the places of a set, of which 8 that are not in it are passed at once: so no `for` over the places.
// It counts what `pnml_put::arcs_by` puts: one function for both would take the room where none is lent.
fn arcs_by(tally: Tally, set: u64, t: usize, post: bool, places: usize) -> Tally
    requires { (tally.length ≤ 990000) × (tally.arcs ≤ 9100) × (t < 100) × (places ≤ 64) }
    ensures { counts.CountArcs 64 tally.length tally.arcs (nets.arcs_by set t post places) result.length result.arcs }
{
    let mut sum = tally;
    let mut rest = set;
    let mut p = 0;
    while p < places {
        if rest == 0 {
            return sum;
        }
        if rest % 256 == 0 && p + 8 <= places {
            rest /= 256;
            p += 8;
            continue;
        }
        sum = arc_where(sum, rest % 2 == 1, t, post, p);
        rest /= 2;
        p += 1;
    }
    sum
}

// The length of the arcs of a table.
fn arcs_length(places: usize, transitions: usize, net: &[u8]) -> usize
    requires { (places ≤ 64) × (transitions ≤ 64) × (transitions * table.transition_size ≤ length net.now) }
    ensures { counts.Count (6400 * transitions) (puts.arcs_text net.now places transitions) result }
{
    let mut sum = Tally { length: 0, arcs: 0 };
    for t in 0..transitions {
        let from = t * net::RECORD;
        let pre = tables::u64_at(net, from);
        let post = tables::u64_at(net, from + 8);
        let half = arcs_by(sum, pre, t, false, places);
        sum = arcs_by(half, post, t, true, places);
    }
    sum.length
}

// The length of the text of the net that a table holds, with a marking.
pub fn text_length(places: u32, marking: u64, net: &[u8]) -> usize
    requires { (places ≤ 64) × (table.table_sized net.now ≡ true) }
    ensures { result ≡ length (puts.net_text net.now places marking) }
{
    let count = net.len() / net::RECORD;
    let a = places_length(places, marking);
    let b = transitions_length(count, net);
    let c = arcs_length(places as usize, count, net);
    159 + a + b + c
}

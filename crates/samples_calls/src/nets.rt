// The samples of nets: firings, and which transitions conflict. A line has a name, and the answer's number, record, marking and two sets or
// the set of the transitions in conflict.
use sample_nets::{net_optional, net_r, put_transition, transition};
use std::io;

// ---- one line

// Prints what one firing answers.
fn firing(
    rt: HostRuntime,
    name: &str,
    places: u32,
    marking: u64,
    net: &[u8],
    t: u32,
) -> io::Result<()> {
    let said = net::firing_numbers(net::fire(places, marking, net, t));
    print!(rt; "{name} {} {} {}", said.number, said.place, said.marking)?;
    println!(rt; " {} {}", said.missing, said.occupied)
}

// A net of one transition, which is fired.
fn firing_one(
    rt: HostRuntime,
    name: &str,
    places: u32,
    marking: u64,
    pre: u64,
    post: u64,
) -> io::Result<()> {
    let net = transition(pre, post, 0);
    firing(rt, name, places, marking, &net, 0)
}

// A transition of net R.
pub(crate) fn firing_r(
    rt: HostRuntime,
    name: &str,
    places: u32,
    marking: u64,
    t: u32,
) -> io::Result<()> {
    let net = net_r();
    firing(rt, name, places, marking, &net, t)
}

// Transition 0 of the first bytes of net R, at most 72.
fn firing_cut(rt: HostRuntime, name: &str, size: usize) -> io::Result<()> {
    match net_r().get(..size) {
        Some(net) => firing(rt, name, 3, 3, net, 0),
        None => Ok(()),
    }
}

// Prints the transitions in conflict with t, by the decoded table.
pub(crate) fn conflicts(
    rt: HostRuntime,
    name: &str,
    places: u32,
    net: &[u8],
    t: u32,
) -> io::Result<()> {
    println!(rt; "{name} {}", sample_nets::conflicts(places, net, t))
}

// Those of the net 0→0, 1→1, 0→0.
fn conflicts_beside(rt: HostRuntime, name: &str, t: u32) -> io::Result<()> {
    let mut net = [0u8; 72];
    put_transition(&mut net, 1, 1, 1, 0);
    conflicts(rt, name, 1, &net, t)
}

// Those of net R.
fn conflicts_r(rt: HostRuntime, name: &str, t: u32) -> io::Result<()> {
    let net = net_r();
    conflicts(rt, name, 3, &net, t)
}

// ---- samples

fn starred(rt: HostRuntime) -> io::Result<()> {
    firing_one(rt, "1->2 at 1:", 2, 1, 1, 2)?;
    firing_one(rt, "1->2 at 3:", 2, 3, 1, 2)?;
    firing_one(rt, "1->1 at 1:", 1, 1, 1, 1)?;
    conflicts_beside(rt, "0->0 beside 1->1, decoded, t0:", 0)?;
    conflicts_beside(rt, "0->0 beside 1->1, decoded, t2:", 2)?;
    conflicts_r(rt, "R, decoded, t0:", 0)?;
    conflicts_r(rt, "R, decoded, t1:", 1)?;
    conflicts_r(rt, "R, decoded, t2:", 2)
}

// Each answer of the single firing, on net R; place 63 with 64 and with 63 places.
fn answers(rt: HostRuntime) -> io::Result<()> {
    firing_r(rt, "R, fire 0:", 3, 3, 0)?;
    firing_r(rt, "R, fire 1:", 3, 3, 1)?;
    firing_r(rt, "R, fire 2:", 3, 3, 2)?;
    firing_r(rt, "R, fire 3:", 3, 3, 3)?;
    firing_r(rt, "R, no places:", 0, 3, 0)?;
    firing_r(rt, "R, 65 places:", 65, 3, 0)?;
    firing_cut(rt, "R, 71 bytes:", 71)?;
    firing_cut(rt, "no bytes:", 0)?;
    firing_r(rt, "R, 2 places:", 2, 3, 0)?;
    firing_r(rt, "R, marking 8:", 3, 8, 0)?;
    firing_one(
        rt,
        "place 63 of 64:",
        64,
        9223372036854775808,
        9223372036854775808,
        0,
    )?;
    firing_one(rt, "place 63 of 63:", 63, 0, 9223372036854775808, 0)?;
    firing_one(rt, "marking 63 of 63:", 63, 9223372036854775808, 1, 2)
}

// A spare byte of t1 that is not zero.
fn spare(rt: HostRuntime) -> io::Result<()> {
    let mut net = [0u8; 48];
    put_transition(&mut net, 0, 1, 2, 0);
    put_transition(&mut net, 1, 1, 2, 0);
    net[47] = 1;
    firing(rt, "spare byte:", 2, 1, &net, 0)
}

// R with a byte of t1's record other than zero, t1 fired.
fn firing_byte(rt: HostRuntime, name: &str, byte: u8, value: u8) -> io::Result<()> {
    let mut net = net_r();
    sample_bytes::put_bytes(&mut net, 24 + usize::from(byte), &[value]);
    firing(rt, name, 3, 3, &net, 1)
}

// The mark of t1 and the spare bytes after it; R with t1 optional fires and conflicts as R does.
fn marks(rt: HostRuntime) -> io::Result<()> {
    let net = net_optional(1);
    firing(rt, "R, t1 optional, fire 0:", 3, 3, &net, 0)?;
    firing(rt, "R, t1 optional, fire 1:", 3, 3, &net, 1)?;
    firing(rt, "R, t1 optional, fire 2:", 3, 3, &net, 2)?;
    conflicts(rt, "R, t1 optional, decoded, t1:", 3, &net, 1)?;
    firing_byte(rt, "R, t1, byte 18 is 1:", 18, 1)?;
    firing_byte(rt, "R, t1, byte 18 is 2:", 18, 2)?;
    firing_byte(rt, "R, t1, byte 18 is 255:", 18, 255)?;
    firing_byte(rt, "R, t1, byte 19 is 1:", 19, 1)?;
    firing_byte(rt, "R, t1, byte 23 is 1:", 23, 1)
}

// Why a transition is not enabled: the places that lack a token, and those that are occupied. A place of pre may be in post.
fn why(rt: HostRuntime) -> io::Result<()> {
    firing_one(rt, "1->2 at 0:", 2, 0, 1, 2)?;
    firing_one(rt, "1->2 at 2:", 2, 2, 1, 2)?;
    firing_one(rt, "3->3 at 1:", 2, 1, 3, 3)?;
    firing_one(rt, "1->3 at 3:", 2, 3, 1, 3)?;
    firing_one(rt, "3->2 at 3:", 2, 3, 3, 2)?;
    firing_one(rt, "place 63 lacks a token:", 64, 0, 9223372036854775808, 0)?;
    firing_one(
        rt,
        "place 63 is occupied:",
        64,
        9223372036854775808,
        0,
        9223372036854775808,
    )?;
    firing_one(
        rt,
        "all 64 places lack a token:",
        64,
        0,
        18446744073709551615,
        0,
    )
}

// All samples of nets.
pub(crate) fn print_all(rt: HostRuntime) -> io::Result<()> {
    starred(rt)?;
    answers(rt)?;
    spare(rt)?;
    marks(rt)?;
    why(rt)
}

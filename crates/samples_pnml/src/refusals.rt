// The writer's answers in their order. No room is lent but where it is said.
use crate::calls::{first, write, write_in};
use sample_bytes::FILL;
use sample_nets::{net_r, transition};
use std::io;

// Writes the first bytes of a table into no room.
fn cut(
    rt: HostRuntime,
    name: &str,
    places: u32,
    marking: u64,
    net: &[u8],
    size: usize,
) -> io::Result<()> {
    let mut text = [FILL; 1000];
    write_in(rt, name, places, marking, first(net, size), &mut text, 0)
}

// 1 before 2 before 3 before 7 before 12, by net R, by R with a spare byte of t2 that is not zero, and by R with mark 2 of t1.
fn orders(rt: HostRuntime, net: &[u8], spare: &[u8], mark: &[u8]) -> io::Result<()> {
    cut(rt, "no place, 71 bytes", 0, 8, spare, 71)?;
    cut(rt, "65 places, no bytes", 65, 8, spare, 0)?;
    cut(rt, "71 bytes, a set beyond", 2, 8, net, 71)?;
    cut(rt, "no bytes", 3, 8, net, 0)?;
    cut(rt, "a set beyond, marking 8", 2, 8, net, 72)?;
    cut(rt, "a spare byte, marking 8", 3, 8, spare, 72)?;
    cut(rt, "mark 2 of t1, marking 8", 3, 8, mark, 72)?;
    cut(rt, "marking 8, no room", 3, 8, net, 72)?;
    cut(rt, "R, no room", 3, 3, net, 72)?;
    cut(rt, "t0 alone, no room", 3, 3, net, 24)
}

// 65 transitions.
fn many(rt: HostRuntime) -> io::Result<()> {
    let mut net = [0u8; 1560];
    sample_pnml::put_often(&mut net, &transition(0, 2, 0), 65);
    let mut text = [FILL; 10];
    write(
        rt,
        "65 transitions, a set and a marking beyond",
        1,
        2,
        &net,
        &mut text,
    )?;
    Ok(())
}

// All of them.
pub(crate) fn print_all(rt: HostRuntime) -> io::Result<()> {
    let net = net_r();
    let mut spare = net_r();
    spare[71] = 1;
    let mut mark = net_r();
    mark[42] = 2;
    orders(rt, &net, &spare, &mark)?;
    many(rt)
}

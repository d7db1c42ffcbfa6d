// Refused input, over net R with the formulas of document 01 and four without until.
use crate::calls::{write_in, write_small};
use sample_bytes::put_bytes;
use sample_nets::{net_r, transition};
use sample_trees::{ask, formula};
use sample_written::{formulas_r, put_formula};
use std::io;

// 1 and 7: an ask.
fn asked(
    rt: HostRuntime,
    name: &str,
    marking: u64,
    f: u16,
    places: u8,
    side: u8,
) -> io::Result<()> {
    let asked = ask(marking, f, places, side);
    write_small(rt, name, &asked, &net_r(), &formulas_r())
}

// 1: asks of 3 places with a byte too few and a byte too many.
fn ask_lengths(rt: HostRuntime) -> io::Result<()> {
    let mut short = [0u8; 11];
    short[10] = 3;
    let mut long = [0u8; 13];
    long[10] = 3;
    write_small(rt, "ask of 11 bytes", &short, &net_r(), &formulas_r())?;
    write_small(rt, "ask of 13 bytes", &long, &net_r(), &formulas_r())
}

// Asks.
fn asks(rt: HostRuntime) -> io::Result<()> {
    ask_lengths(rt)?;
    asked(rt, "no places", 3, 1, 0, 0)?;
    asked(rt, "65 places", 3, 1, 65, 0)?;
    asked(rt, "side 2", 3, 1, 3, 2)?;
    asked(rt, "marking 8", 8, 1, 3, 0)?;
    asked(rt, "formula 7", 3, 7, 3, 0)
}

// 2 and 3: a net.
fn over(rt: HostRuntime, name: &str, net: &[u8]) -> io::Result<()> {
    write_small(rt, name, &ask(3, 1, 3, 0), net, &formulas_r())
}

// R with another byte in its net.
fn with_net_byte(rt: HostRuntime, name: &str, at: usize, value: u8) -> io::Result<()> {
    let mut net = net_r();
    put_bytes(&mut net, at, &[value]);
    over(rt, name, &net)
}

// Nets.
fn nets(rt: HostRuntime) -> io::Result<()> {
    over(rt, "net of no bytes", b"")?;
    over(rt, "net of 71 bytes", &[0; 71])?;
    over(rt, "net of 65 records", &[0; 1560])?;
    with_net_byte(rt, "pre set of t0 beyond the places", 0, 9)?;
    with_net_byte(rt, "post set of t2 beyond the places", 56, 8)?;
    with_net_byte(rt, "mark 2 of t1", 42, 2)?;
    with_net_byte(rt, "spare byte of t2", 71, 1)
}

// 4 and 5: a table of formulas.
fn with(rt: HostRuntime, name: &str, formulas: &[u8]) -> io::Result<()> {
    write_small(rt, name, &ask(3, 1, 3, 0), &net_r(), formulas)
}

// R's formulas with another record f.
fn with_formula(
    rt: HostRuntime,
    name: &str,
    f: u16,
    operator: u8,
    left: u16,
    right: u16,
    action: u16,
) -> io::Result<()> {
    let mut table = formulas_r();
    put_formula(&mut table, f, operator, left, right, action);
    with(rt, name, &table)
}

// R's formulas with the spare byte of record 1.
fn with_spare(rt: HostRuntime) -> io::Result<()> {
    let mut table = formulas_r();
    table[9] = 1;
    with(rt, "spare byte of record 1", &table)
}

// Formulas.
fn formulas(rt: HostRuntime) -> io::Result<()> {
    with(rt, "formulas of no bytes", b"")?;
    with(rt, "formulas of 55 bytes", &[0; 55])?;
    with(rt, "257 formulas", &[0; 2056])?;
    with_formula(rt, "operator 6", 0, 6, 0, 0, 0)?;
    with_formula(rt, "not of record 0 in record 0", 0, 1, 0, 0, 0)?;
    with_formula(rt, "operand 5 in record 5", 5, 2, 3, 5, 0)?;
    with_formula(rt, "action of an and in record 6", 6, 2, 1, 3, 1)?;
    with_spare(rt)
}

// The formula that is true, at the marking of place 63, with so many places.
fn edge(rt: HostRuntime, name: &str, places: u8) -> io::Result<()> {
    let asked = ask(9223372036854775808, 0, places, 0);
    write_small(rt, name, &asked, &transition(0, 0, 0), &formula(0, 0, 0, 0))
}

// An ask over two tables, with no room.
fn roomless(
    rt: HostRuntime,
    name: &str,
    asked: [u8; 12],
    net: &[u8],
    formulas: &[u8],
) -> io::Result<()> {
    let mut room = [0u8; 1];
    write_in(rt, name, &asked, net, formulas, &mut room, 0)
}

// The refusals in their order: each call sets right what the one before is refused for.
fn orders(
    rt: HostRuntime,
    net: &[u8],
    beyond: &[u8],
    formulas: &[u8],
    bad: &[u8],
) -> io::Result<()> {
    roomless(rt, "1 first", ask(8, 2, 0, 0), &[9; 71], &[6; 55])?;
    roomless(rt, "then 2", ask(8, 2, 3, 0), &[9; 71], &[6; 55])?;
    roomless(rt, "then 3", ask(8, 2, 3, 0), beyond, &[6; 55])?;
    roomless(rt, "then 4", ask(8, 2, 3, 0), net, &[6; 55])?;
    roomless(rt, "then 5", ask(8, 2, 3, 0), net, bad)?;
    roomless(rt, "then 7", ask(8, 2, 3, 0), net, formulas)?;
    roomless(rt, "then 14", ask(3, 2, 3, 0), net, formulas)?;
    roomless(rt, "then 12", ask(3, 3, 3, 0), net, formulas)
}

// The same over R's tables, R with a pre set beyond the places, and formulas of which record 0 has operator 6.
fn in_order(rt: HostRuntime) -> io::Result<()> {
    let mut beyond = net_r();
    beyond[0] = 9;
    let mut bad = formulas_r();
    bad[0] = 6;
    orders(rt, &net_r(), &beyond, &formulas_r(), &bad)
}

// All of them.
pub(crate) fn print_all(rt: HostRuntime) -> io::Result<()> {
    asks(rt)?;
    nets(rt)?;
    formulas(rt)?;
    edge(rt, "marking 63 of 64 places", 64)?;
    edge(rt, "marking 63 of 63 places", 63)?;
    in_order(rt)
}

// Net R with the formulas of document 01 and four without until: either side asked, and rooms of several lengths.
use crate::calls::{write_in, write_small};
use sample_nets::net_r;
use sample_trees::ask;
use sample_written::formulas_r;
use std::io;

// Record f at a marking, the ask's side 0 and then 1.
fn both(rt: HostRuntime, name: &str, f: u16, marking: u64) -> io::Result<()> {
    print!(rt; "side 0, ")?;
    write_small(rt, name, &ask(marking, f, 3, 0), &net_r(), &formulas_r())?;
    print!(rt; "side 1, ")?;
    write_small(rt, name, &ask(marking, f, 3, 1), &net_r(), &formulas_r())
}

// The answer is the same on either side.
fn sides(rt: HostRuntime) -> io::Result<()> {
    both(rt, "R, 2 at 3", 2, 3)?;
    both(rt, "R, 1 at 3", 1, 3)?;
    both(rt, "R, 1 at 5", 1, 5)?;
    both(rt, "R, 3 at 3", 3, 3)?;
    both(rt, "R, 4 at 3", 4, 3)?;
    both(rt, "R, 5 at 3", 5, 3)?;
    both(rt, "R, 6 at 3", 6, 3)
}

// Record f at marking 3 with so many bytes of room, at most 300.
fn in_room(rt: HostRuntime, name: &str, f: u16, size: usize) -> io::Result<()> {
    let mut room = [0u8; 300];
    let asked = ask(3, f, 3, 0);
    write_in(rt, name, &asked, &net_r(), &formulas_r(), &mut room, size)
}

// Too short, just long enough, longer.
fn lengths(rt: HostRuntime) -> io::Result<()> {
    in_room(rt, "R, 3 at 3, no room", 3, 0)?;
    in_room(rt, "R, 3 at 3, 2 nodes and 39 bytes", 3, 119)?;
    in_room(rt, "R, 3 at 3, 3 nodes", 3, 120)?;
    in_room(rt, "R, 3 at 3, 3 nodes and a byte", 3, 121)?;
    in_room(rt, "R, 3 at 3, 4 nodes", 3, 160)?;
    in_room(rt, "R, 1 at 3, 39 bytes", 1, 39)?;
    in_room(rt, "R, 1 at 3, a node", 1, 40)
}

// All of them.
pub(crate) fn print_all(rt: HostRuntime) -> io::Result<()> {
    sides(rt)?;
    lengths(rt)
}

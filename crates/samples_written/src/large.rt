// Large trees, over a net of one transition that touches no place.
ghost use Rattle.std.specs.Prelude.{◌≡◌, length};

use crate::calls::{write_in, write_small};
use sample_nets::transition;
use sample_trees::ask;
use sample_written::{chains, longest_chain};
use std::io;

// Record f of the chains with so many bytes of a room.
fn chain_in(rt: HostRuntime, name: &str, f: u16, room: &mut [u8], size: usize) -> io::Result<()> {
    let net = transition(0, 0, 0);
    write_in(rt, name, &ask(1, f, 1, 0), &net, &chains(), room, size)
}

// 65,535 and 65,536 nodes, and one more, in a room for 65,537.
fn counts(rt: HostRuntime, room: &mut [u8]) -> io::Result<()> {
    chain_in(rt, "15 ands", 15, room, 2621480)?;
    chain_in(rt, "not 15 ands", 16, room, 2621480)?;
    chain_in(rt, "not not 15 ands", 17, room, 2621480)
}

// 65,536 nodes, with just the room and with a byte less.
fn lengths(rt: HostRuntime, room: &mut [u8]) -> io::Result<()> {
    chain_in(rt, "not 15 ands, just room", 16, room, 2621440)?;
    chain_in(rt, "not 15 ands, a byte short", 16, room, 2621439)
}

// 2^256 - 1 nodes.
fn longest(rt: HostRuntime, room: &mut [u8]) -> io::Result<()> {
    let net = transition(0, 0, 0);
    let formulas = longest_chain();
    write_in(
        rt,
        "255 ands",
        &ask(1, 255, 1, 0),
        &net,
        &formulas,
        room,
        2621480,
    )
}

// All of these.
fn with(rt: HostRuntime, room: &mut [u8]) -> io::Result<()> {
    counts(rt, room)?;
    lengths(rt, room)?;
    longest(rt, room)
}

// A room for 65,537 nodes.
fn large_room() -> [u8; 2621480]
    ensures { 2621480 ≡ length result }
{
    [0; 2621480]
}

// The calls in that room.
fn with_room(rt: HostRuntime) -> io::Result<()> {
    let mut room = large_room();
    with(rt, &mut room)
}

// A tree of three nodes, where the tree of the left operand would have too many.
fn small(rt: HostRuntime) -> io::Result<()> {
    let net = transition(0, 0, 0);
    let asked = ask(1, 19, 1, 0);
    write_small(
        rt,
        "and, left true by too many, right false",
        &asked,
        &net,
        &chains(),
    )
}

// All of them.
pub(crate) fn print_all(rt: HostRuntime) -> io::Result<()> {
    with_room(rt)?;
    small(rt)
}

// The lines of a join, and of the joint transitions.
use join::Numbers;
use sample_bytes::{FILL, kept};
use std::io;

// A net to be joined: its number of places, its marking and its table.
#[derive(Clone, Copy)]
pub(crate) struct Half<'a> {
    pub(crate) places: u32,
    pub(crate) marking: u64,
    pub(crate) net: &'a [u8],
}

impl<'a> Half<'a> {
    pub(crate) fn new(places: u32, marking: u64, net: &'a [u8]) -> Half<'a> {
        Half {
            places,
            marking,
            net,
        }
    }

    // One of three places at marking 3, as net R.
    pub(crate) fn at_three(net: &'a [u8]) -> Half<'a> {
        Half::new(3, 3, net)
    }
}

// Joins two nets and prints the answer, with how much of the rest of the room is as it was.
pub(crate) fn join(
    rt: HostRuntime,
    name: &str,
    first: Half,
    second: Half,
    room: &mut [u8],
) -> io::Result<Numbers> {
    let said = join::join_numbers(join::join(
        first.places,
        first.marking,
        first.net,
        second.places,
        second.marking,
        second.net,
        room,
    ));
    print!(rt; "{name}: {} {} {}", said.number, said.place, said.places)?;
    let kept = kept(room, said.length as usize);
    println!(rt; " {} {}{kept}", said.marking, said.length)?;
    Ok(said)
}

// Prints the sets, the action and the mark of record t, which lies inside the table.
fn fields(rt: HostRuntime, table: &[u8], t: u32) -> io::Result<()> {
    let at = t as usize * 24;
    let Some(record) = table.get(at..at + 24) else {
        return Ok(());
    };
    let pre = tables::u64_at(record, 0);
    let post = tables::u64_at(record, 8);
    let action = tables::u16_at(record, 16);
    print!(rt; " {pre} {post} {action} {}", record[18])
}

// Prints what firing t at the marking answers.
fn step(rt: HostRuntime, places: u32, marking: u64, table: &[u8], t: u32) -> io::Result<()> {
    let said = net::firing_numbers(net::fire(places, marking, table, t));
    print!(rt; ", fired {} {} {}", said.number, said.place, said.marking)?;
    print!(rt; " {} {}", said.missing, said.occupied)
}

// Prints the line of transition t of a net.
pub(crate) fn transition(
    rt: HostRuntime,
    places: u32,
    marking: u64,
    table: &[u8],
    t: u32,
) -> io::Result<()> {
    print!(rt; "  t {t}:")?;
    fields(rt, table, t)?;
    step(rt, places, marking, table, t)?;
    println!(rt; ", conflicts {}", sample_nets::conflicts(places, table, t))
}

// Joins two nets into a room of 222 bytes and prints the first transitions of the joint net.
pub(crate) fn join_small(
    rt: HostRuntime,
    name: &str,
    first: Half,
    second: Half,
    count: u32,
) -> io::Result<()> {
    let mut room = [FILL; 222];
    let said = join(rt, name, first, second, &mut room)?;
    let Some(table) = room.get(..said.length as usize) else {
        return Ok(());
    };
    for t in 0..count {
        transition(rt, said.places, said.marking, table, t)?;
    }
    Ok(())
}

// What is refused: each half's 1, 2, 3 and 7, the first before the second, then 12.
use crate::calls::{Half, join};
use sample_bytes::{FILL, put_bytes};
use sample_nets::net_r;
use std::io;

// Joins two nets into a room of 150 bytes.
fn refused(rt: HostRuntime, name: &str, first: Half, second: Half) -> io::Result<()> {
    let mut room = [FILL; 150];
    join(rt, name, first, second, &mut room)?;
    Ok(())
}

// Joins R and a half, in both orders.
fn with_r(rt: HostRuntime, name: &str, other: Half) -> io::Result<()> {
    let r = net_r();
    refused(rt, name, Half::at_three(&r), other)?;
    refused(rt, "  as the first", other, Half::at_three(&r))
}

// A half whose places or marking are refused.
fn places_and_markings(rt: HostRuntime) -> io::Result<()> {
    let r = net_r();
    with_r(rt, "second of 0 places", Half::new(0, 3, &r))?;
    with_r(rt, "second of 65 places", Half::new(65, 3, &r))?;
    with_r(
        rt,
        "second of 2^32 - 1 places",
        Half::new(4294967295, 3, &r),
    )?;
    with_r(rt, "second at 8", Half::new(3, 8, &r))?;
    with_r(
        rt,
        "second at 2^64 - 1",
        Half::new(3, 18446744073709551615, &r),
    )
}

// A half of no whole records, or of too many.
fn lengths(rt: HostRuntime) -> io::Result<()> {
    let short = [0u8; 71];
    let many = [0u8; 1560];
    with_r(rt, "second of no bytes", Half::at_three(b""))?;
    with_r(rt, "second of 71 bytes", Half::at_three(&short))?;
    with_r(rt, "second of 65 records", Half::at_three(&many))
}

// A half in which record 1 is bad at one byte.
fn bad_at(rt: HostRuntime, name: &str, at: usize, value: u8) -> io::Result<()> {
    let mut net = net_r();
    put_bytes(&mut net, at, &[value]);
    with_r(rt, name, Half::at_three(&net))
}

// A set beyond the places, a mark above 1, each spare byte.
fn records(rt: HostRuntime) -> io::Result<()> {
    bad_at(rt, "record 1, pre beyond the places", 24, 10)?;
    bad_at(rt, "record 1, post beyond the places", 39, 128)?;
    bad_at(rt, "record 1, mark 2", 42, 2)?;
    bad_at(rt, "record 1, mark 255", 42, 255)?;
    bad_at(rt, "record 1, spare byte 19", 43, 1)?;
    bad_at(rt, "record 1, spare byte 23", 47, 1)?;
    bad_at(rt, "record 2, mark 2", 66, 2)
}

// Both halves refused: the first is told.
fn both(rt: HostRuntime) -> io::Result<()> {
    let r = net_r();
    let mut bad = net_r();
    bad[42] = 2;
    refused(
        rt,
        "first at 8, second of 0 places",
        Half::new(3, 8, &r),
        Half::new(0, 0, &r),
    )?;
    refused(
        rt,
        "first bad at record 1, second of no bytes",
        Half::at_three(&bad),
        Half::at_three(b""),
    )?;
    refused(
        rt,
        "first of no bytes, second bad at record 1",
        Half::at_three(b""),
        Half::at_three(&bad),
    )?;
    refused(
        rt,
        "first of 0 places, second at 8",
        Half::new(0, 0, &r),
        Half::new(3, 8, &r),
    )
}

// Joins R and R into a room of so many bytes, at most 150.
fn room_of(rt: HostRuntime, name: &str, size: usize) -> io::Result<()> {
    let r = net_r();
    let mut room = [FILL; 150];
    if let Some(room) = room.get_mut(..size) {
        join(rt, name, Half::at_three(&r), Half::at_three(&r), room)?;
    }
    Ok(())
}

// Joins R and a half into no room: 12 comes after what is wrong with the half.
fn no_room(rt: HostRuntime, name: &str, places: u32, marking: u64) -> io::Result<()> {
    let r = net_r();
    join(
        rt,
        name,
        Half::at_three(&r),
        Half::new(places, marking, &r),
        &mut [],
    )?;
    Ok(())
}

// Rooms around the length of the joint records.
fn rooms(rt: HostRuntime) -> io::Result<()> {
    room_of(rt, "no room", 0)?;
    room_of(rt, "room for the first half", 72)?;
    room_of(rt, "room one byte short", 143)?;
    room_of(rt, "room just long enough", 144)?;
    room_of(rt, "room one byte longer", 145)?;
    no_room(rt, "second of 0 places, no room", 0, 3)?;
    no_room(rt, "second at 8, no room", 3, 8)?;
    no_room(rt, "65 places in all, no room", 62, 3)?;
    no_room(rt, "64 places in all, no room", 61, 3)
}

// All of them.
pub(crate) fn print_all(rt: HostRuntime) -> io::Result<()> {
    places_and_markings(rt)?;
    lengths(rt)?;
    records(rt)?;
    both(rt)?;
    rooms(rt)
}

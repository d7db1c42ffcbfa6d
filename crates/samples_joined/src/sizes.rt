// Places and transitions that add up to 64, and to more.
use crate::calls::{Half, join, transition};
use sample_bytes::FILL;
use sample_nets::{net_r, put_transition};
use std::io;

// Lets each of the first transitions, at most 64, loop at the place of its number.
fn loops(table: &mut [u8], count: u32) {
    for t in 0..count.min(64) {
        put_transition(table, t, 1u64 << t, 1u64 << t, t as u16);
    }
}

// 32 places with 32 transitions beside as many.
fn thirty_two(rt: HostRuntime) -> io::Result<()> {
    let mut table = [0u8; 768];
    let mut room = [FILL; 1539];
    loops(&mut table, 32);
    let all = Half::new(32, 4294967295, &table);
    let said = join(
        rt,
        "32 places and 32 transitions, twice",
        all,
        all,
        &mut room,
    )?;
    let table: &[u8] = &room[..1536];
    transition(rt, said.places, said.marking, table, 0)?;
    transition(rt, said.places, said.marking, table, 31)?;
    transition(rt, said.places, said.marking, table, 32)?;
    transition(rt, said.places, said.marking, table, 63)
}

// R with more places, beside R with more places.
fn places_of(rt: HostRuntime, name: &str, first: u32, second: u32) -> io::Result<()> {
    let r = net_r();
    let mut room = [FILL; 144];
    join(
        rt,
        name,
        Half::new(first, 3, &r),
        Half::new(second, 3, &r),
        &mut room,
    )?;
    Ok(())
}

// Places around the sum of 64.
fn places(rt: HostRuntime) -> io::Result<()> {
    places_of(rt, "33 and 32 places", 33, 32)?;
    places_of(rt, "32 and 33 places", 32, 33)?;
    places_of(rt, "64 and 3 places", 64, 3)?;
    places_of(rt, "3 and 64 places", 3, 64)?;
    places_of(rt, "64 and 64 places", 64, 64)?;
    places_of(rt, "61 and 3 places", 61, 3)?;
    places_of(rt, "3 and 61 places", 3, 61)
}

// One place each, so many records that touch none.
fn records_of(rt: HostRuntime, name: &str, first: usize, second: usize) -> io::Result<()> {
    let zeros = [0u8; 1536];
    let mut room = [FILL; 1539];
    if 64 < first {
        return Ok(());
    }
    if 64 < second {
        return Ok(());
    }
    let one = Half::new(1, 1, &zeros[..first * 24]);
    let other = Half::new(1, 1, &zeros[..second * 24]);
    join(rt, name, one, other, &mut room)?;
    Ok(())
}

// Transitions around the sum of 64.
fn counts(rt: HostRuntime) -> io::Result<()> {
    records_of(rt, "33 and 32 transitions", 33, 32)?;
    records_of(rt, "1 and 64 transitions", 1, 64)?;
    records_of(rt, "64 and 1 transitions", 64, 1)?;
    records_of(rt, "64 and 64 transitions", 64, 64)?;
    records_of(rt, "63 and 1 transitions", 63, 1)?;
    records_of(rt, "1 and 63 transitions", 1, 63)
}

// Joins R with so many places and another net into a room that is one byte short.
fn short(rt: HostRuntime, name: &str, places: u32, marking: u64, second: &[u8]) -> io::Result<()> {
    let r = net_r();
    let mut room = [FILL; 143];
    join(
        rt,
        name,
        Half::new(places, 3, &r),
        Half::new(3, marking, second),
        &mut room,
    )?;
    Ok(())
}

// 15 comes after what is wrong with the second half, and before 12.
fn order(rt: HostRuntime) -> io::Result<()> {
    let r = net_r();
    let mut bad = net_r();
    bad[42] = 2;
    short(rt, "64 places, second bad at record 1", 64, 3, &bad)?;
    short(rt, "64 places, second at 8", 64, 8, &r)?;
    short(rt, "64 places, room one byte short", 64, 3, &r)?;
    short(rt, "61 places, room one byte short", 61, 3, &r)
}

// All of them.
pub(crate) fn print_all(rt: HostRuntime) -> io::Result<()> {
    thirty_two(rt)?;
    places(rt)?;
    counts(rt)?;
    order(rt)
}

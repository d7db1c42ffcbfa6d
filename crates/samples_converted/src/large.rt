// Files of 2,000 records and of one more.
use crate::calls::{convert_cut, convert_good, convert_in};
use sample_bytes::FILL;
use sample_labels::{fill, put_record};
use std::io;

// Lets each record with an odd number borrow from the one as far from the file's end, so that lenders stand behind and before.
fn borrow_odd(file: &mut [u8]) {
    for k in 0..1000u16 {
        let i = 2 * k + 1;
        put_record(file, u32::from(i), i, 1, 1999 - i, b"");
    }
}

// Lets all records but the last borrow from it.
fn borrow_last(file: &mut [u8]) {
    for i in 0..1999u16 {
        put_record(file, u32::from(i), i, 1, 1999, b"");
    }
}

// Converts a file of 2,000 records, and prints some labels.
fn most(rt: HostRuntime, name: &str, file: &[u8; 64000], action: u16) -> io::Result<()> {
    let mut room = [FILL; 64003];
    let mut other = [FILL; 64000];
    convert_good(rt, name, file, &mut room, &mut other, action)
}

// None, half and nearly all of 2,000 records borrow.
fn borrowed(rt: HostRuntime) -> io::Result<()> {
    let mut file = [0u8; 64000];
    fill(&mut file, 2000);
    most(rt, "2000 records, none borrows", &file, 1997)?;
    borrow_odd(&mut file);
    most(rt, "2000 records, each second borrows", &file, 1)?;
    fill(&mut file, 2000);
    borrow_last(&mut file);
    most(rt, "2000 records, all but one borrow", &file, 1997)
}

// One record too many, also where the room is short.
fn too_many(rt: HostRuntime) -> io::Result<()> {
    let mut file = [0u8; 64032];
    fill(&mut file, 2001);
    convert_in(rt, "2001 records", &file, 160)?;
    convert_cut(rt, "2000 records, short room", &file, 64000, 160)
}

// All of them.
pub(crate) fn print_all(rt: HostRuntime) -> io::Result<()> {
    borrowed(rt)?;
    too_many(rt)
}

// What the converter refuses: 9 and 10 as document 01 has them, then 12.
use crate::calls::{convert_cut, convert_in};
use sample_labels::put_record;
use std::io;

// Two good records, the second of which borrows, converted into rooms around their length.
fn rooms(rt: HostRuntime) -> io::Result<()> {
    let mut file = [0u8; 64];
    put_record(&mut file, 0, 5, 0, 0, b"Go");
    put_record(&mut file, 1, 6, 1, 5, b"");
    convert_in(rt, "no room", &file, 0)?;
    convert_in(rt, "room for one record", &file, 32)?;
    convert_in(rt, "room one byte short", &file, 63)?;
    convert_in(rt, "room just long enough", &file, 64)?;
    convert_in(rt, "room one byte longer", &file, 65)?;
    convert_in(rt, "room longer", &file, 160)
}

// Lengths that are no whole number of records, also where the room is short.
fn lengths(rt: HostRuntime) -> io::Result<()> {
    let mut file = [0u8; 33];
    put_record(&mut file, 0, 5, 0, 0, b"Go");
    convert_in(rt, "33 bytes", &file, 160)?;
    convert_in(rt, "33 bytes, no room", &file, 0)?;
    convert_cut(rt, "31 bytes", &file, 31, 160)?;
    convert_cut(rt, "one byte", &file, 1, 160)
}

// The second of three records has these fields, between a lender and a borrower.
fn second(
    rt: HostRuntime,
    name: &str,
    action: u16,
    kind: u8,
    lender: u16,
    text: &[u8],
) -> io::Result<()> {
    let mut file = [0u8; 96];
    put_record(&mut file, 0, 5, 0, 0, b"Go");
    put_record(&mut file, 1, action, kind, lender, text);
    put_record(&mut file, 2, 7, 1, 5, b"");
    convert_in(rt, name, &file, 96)
}

// Borrowers, good and faulty; what is faulty in a record of kind 0; other kinds.
fn records(rt: HostRuntime) -> io::Result<()> {
    second(rt, "kind 1, lender 5", 6, 1, 5, b"")?;
    second(rt, "kind 1, lender missing", 6, 1, 9, b"")?;
    second(rt, "kind 1, lender is the record itself", 6, 1, 6, b"")?;
    second(rt, "kind 1, lender of kind 1", 6, 1, 7, b"")?;
    second(rt, "kind 1, lender and a text", 6, 1, 5, b"No")?;
    second(rt, "kind 0, no text", 6, 0, 0, b"")?;
    second(rt, "kind 0, a lender", 6, 0, 5, b"No")?;
    second(rt, "kind 0, byte 0x7F", 6, 0, 0, b"\x7F")?;
    second(rt, "kind 0, a byte after a zero byte", 6, 0, 0, b"A\0B")?;
    second(rt, "kind 2", 6, 2, 0, b"No")?;
    second(rt, "kind 255", 6, 255, 0, b"No")?;
    second(rt, "equal actions", 5, 0, 0, b"No")?;
    second(rt, "falling actions", 4, 0, 0, b"No")
}

// Each spare byte of a borrower.
fn spares(rt: HostRuntime) -> io::Result<()> {
    let mut file = [0u8; 64];
    put_record(&mut file, 0, 5, 0, 0, b"Go");
    put_record(&mut file, 1, 6, 1, 5, b"");
    file[35] = 1;
    convert_in(rt, "spare byte 3", &file, 64)?;
    file[35] = 0;
    file[38] = 1;
    convert_in(rt, "spare byte 6", &file, 64)?;
    file[38] = 0;
    file[39] = 1;
    convert_in(rt, "spare byte 7", &file, 64)?;
    file[39] = 0;
    convert_in(rt, "spare bytes 0", &file, 64)
}

// A faulty lender, which is then the only faulty record; the lowest of two; a faulty file beside a short room.
fn lowest(rt: HostRuntime) -> io::Result<()> {
    let mut file = [0u8; 96];
    put_record(&mut file, 0, 5, 1, 6, b"");
    put_record(&mut file, 1, 6, 0, 0, b"\x7F");
    put_record(&mut file, 2, 7, 1, 9, b"");
    convert_in(rt, "faulty lender, behind it a lender missing", &file, 96)?;
    put_record(&mut file, 1, 6, 0, 0, b"Go");
    convert_in(rt, "lender missing in the last", &file, 96)?;
    convert_in(rt, "lender missing in the last, no room", &file, 0)?;
    put_record(&mut file, 0, 5, 1, 9, b"");
    convert_in(rt, "lender missing in the first and the last", &file, 96)
}

// All of them.
pub(crate) fn print_all(rt: HostRuntime) -> io::Result<()> {
    rooms(rt)?;
    lengths(rt)?;
    records(rt)?;
    spares(rt)?;
    lowest(rt)
}

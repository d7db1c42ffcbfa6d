// Files that are valid under document 01, with borrowed texts and without.
use crate::calls::{convert_good, convert_in};
use sample_bytes::FILL;
use sample_labels::put_record;
use std::io;

// A file before its conversion and after it. The rooms are ten bytes longer than three records.
fn good(rt: HostRuntime, name: &str, file: &[u8]) -> io::Result<()> {
    let mut room = [FILL; 106];
    let mut other = [FILL; 106];
    convert_good(rt, name, file, &mut room, &mut other, 5)
}

// A lender before its borrower, one behind it, one of two borrowers around it, none.
fn lenders(rt: HostRuntime) -> io::Result<()> {
    let mut file = [0u8; 96];
    put_record(&mut file, 0, 5, 0, 0, b"accept");
    put_record(&mut file, 1, 6, 1, 5, b"");
    put_record(&mut file, 2, 7, 0, 0, b"hand over");
    good(rt, "lender before", &file)?;
    put_record(&mut file, 1, 6, 1, 7, b"");
    good(rt, "lender behind", &file)?;
    put_record(&mut file, 0, 5, 1, 6, b"");
    put_record(&mut file, 1, 6, 0, 0, b"to the shelf");
    put_record(&mut file, 2, 7, 1, 6, b"");
    good(rt, "two borrowers of one", &file)?;
    put_record(&mut file, 0, 5, 0, 0, b"accept");
    put_record(&mut file, 2, 7, 0, 0, b"hand over");
    good(rt, "none borrows", &file)
}

// A text of 24 bytes, one of one byte, and an action above 255 that is borrowed from.
fn texts(rt: HostRuntime) -> io::Result<()> {
    let mut file = [0u8; 96];
    put_record(&mut file, 0, 5, 1, 600, b"");
    put_record(&mut file, 1, 6, 0, 0, b"x");
    put_record(&mut file, 2, 600, 0, 0, b"abcdefghijklmnopqrstuvwx");
    good(rt, "text of 24 bytes", &file)?;
    put_record(&mut file, 0, 5, 1, 6, b"");
    good(rt, "text of one byte", &file)
}

// Files of no records and of one.
fn few(rt: HostRuntime) -> io::Result<()> {
    let one = sample_labels::record(5, 0, 0, b"accept");
    good(rt, "empty file", b"")?;
    good(rt, "one record", &one)?;
    convert_in(rt, "empty file, empty room", b"", 0)
}

// All bytes of a room after a conversion.
fn every_byte(rt: HostRuntime) -> io::Result<()> {
    let mut file = [0u8; 64];
    let mut room = [FILL; 67];
    put_record(&mut file, 0, 258, 1, 772, b"");
    put_record(&mut file, 1, 772, 0, 0, b"Go");
    let _ = category_convert::convert(&file, &mut room);
    print!(rt; "every byte:")?;
    for byte in room {
        print!(rt; " {byte}")?;
    }
    println!(rt;)
}

// All of them.
pub(crate) fn print_all(rt: HostRuntime) -> io::Result<()> {
    lenders(rt)?;
    texts(rt)?;
    few(rt)?;
    every_byte(rt)
}

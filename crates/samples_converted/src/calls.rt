// The lines of a conversion, and of a category file before and after it.
use sample_bytes::{FILL, alike, kept};
use std::io;

// Converts a file into a room: the number of the answer. Prints the numbers, and how much of the rest of the room is as it was.
fn convert(rt: HostRuntime, name: &str, file: &[u8], room: &mut [u8]) -> io::Result<u32> {
    let said = category_convert::convert_numbers(category_convert::convert(file, room));
    let written = if said.number == 0 { file.len() } else { 0 };
    let kept = kept(room, written);
    println!(rt;
        "{name}: {} {} {}{kept}",
        said.number, said.place, said.rewritten
    )?;
    Ok(said.number)
}

// Prints the label of an action from a house file alone, as that part of the file.
fn label(rt: HostRuntime, file: &[u8], action: u16) -> io::Result<()> {
    let place = category::place(b"", file, action);
    print!(rt; ", label {action} {} {} [", place.offset, place.length)?;
    rt.write_all(category::label(b"", file, action))?;
    print!(rt; "]")
}

// Prints what the check says of a house file, and the labels of three actions that follow each other.
fn state(rt: HostRuntime, name: &str, when: &str, file: &[u8], action: u16) -> io::Result<()> {
    let said = category::check_numbers(category::check(b"", file));
    print!(rt; "{name}{when} {} {}", said.number, said.place)?;
    if action < 65533 {
        label(rt, file, action)?;
        label(rt, file, action + 1)?;
        label(rt, file, action + 2)?;
    }
    println!(rt;)
}

// Converts what was converted once more, and prints how many bytes at the start of both rooms are the same.
fn again(rt: HostRuntime, name: &str, file: &[u8], room: &mut [u8]) -> io::Result<()> {
    convert(rt, name, file, room)?;
    println!(rt; "{name}, the same: {}", alike(file, room))
}

// A file before its conversion, the conversion, the converted file, and its conversion into another room.
pub(crate) fn convert_good(
    rt: HostRuntime,
    name: &str,
    file: &[u8],
    room: &mut [u8],
    other: &mut [u8],
    action: u16,
) -> io::Result<()> {
    state(rt, name, ", before:", file, action)?;
    if convert(rt, name, file, room)? != 0 {
        return Ok(());
    }
    let Some(converted) = room.get(..file.len()) else {
        return Ok(());
    };
    state(rt, name, ", after:", converted, action)?;
    again(rt, "  once more", converted, other)
}

// Converts a file into a room of so many bytes, at most 160.
pub(crate) fn convert_in(rt: HostRuntime, name: &str, file: &[u8], size: usize) -> io::Result<()> {
    let mut room = [FILL; 160];
    if let Some(room) = room.get_mut(..size) {
        convert(rt, name, file, room)?;
    }
    Ok(())
}

// The same with the first bytes of a file.
pub(crate) fn convert_cut(
    rt: HostRuntime,
    name: &str,
    file: &[u8],
    length: usize,
    size: usize,
) -> io::Result<()> {
    match file.get(..length) {
        Some(part) => convert_in(rt, name, part, size),
        None => Ok(()),
    }
}

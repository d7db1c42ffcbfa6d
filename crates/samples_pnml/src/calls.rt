// A line for a call of the writer or of the reader.
ghost use Rattle.std.specs.Prelude.{◌≡◌, take};

use pnml_read::Numbers;
use sample_bytes::{alike, checksum, kept};
use std::io;

// The first n bytes of a text; all where it has fewer.
pub(crate) fn first<'a>(text: &'a [u8], n: usize) -> &'a [u8]
    ensures { result.now ≡ take n text.now }
{
    &text[..n.min(text.len())]
}

// Writes a net into the room: number, record, length, and what of the room stayed.
pub(crate) fn write(
    rt: HostRuntime,
    name: &str,
    places: u32,
    marking: u64,
    net: &[u8],
    room: &mut [u8],
) -> io::Result<usize> {
    let said = sample_pnml::write(places, marking, net, room);
    let kept = kept(room, 0);
    println!(rt;
        "write, {name}: {} {} {}{kept}",
        said.number, said.place, said.length
    )?;
    Ok(said.length as usize)
}

// The same with the first bytes of a room.
pub(crate) fn write_in(
    rt: HostRuntime,
    name: &str,
    places: u32,
    marking: u64,
    net: &[u8],
    room: &mut [u8],
    size: usize,
) -> io::Result<()> {
    if let Some(room) = room.get_mut(..size) {
        write(rt, name, places, marking, net, room)?;
    }
    Ok(())
}

// Prints the reader's numbers, and how long the text is.
fn numbers(rt: HostRuntime, said: Numbers, text: &[u8]) -> io::Result<()> {
    print!(rt; " {} {} {}", said.number, said.place, said.places)?;
    print!(rt; " {} {}, text {}", said.marking, said.length, text.len())
}

// Reads a text into the room: number, offset, places, marking, length; how long the text is, where what the sample is about starts in it,
// and what of the room stayed.
pub(crate) fn read(
    rt: HostRuntime,
    name: &str,
    text: &[u8],
    from: usize,
    room: &mut [u8],
) -> io::Result<()> {
    let said = sample_pnml::read(text, room);
    print!(rt; "read, {name}:")?;
    numbers(rt, said, text)?;
    println!(rt; ", after {from}{}", kept(room, 0))
}

// The same with the first bytes of a room.
pub(crate) fn read_in(
    rt: HostRuntime,
    name: &str,
    text: &[u8],
    from: usize,
    room: &mut [u8],
    size: usize,
) -> io::Result<()> {
    match room.get_mut(..size) {
        Some(room) => read(rt, name, text, from, room),
        None => Ok(()),
    }
}

// Reads a text back into the room: number, offset, places, marking, length, and how many bytes are those of the net's table.
pub(crate) fn read_back(
    rt: HostRuntime,
    name: &str,
    text: &[u8],
    net: &[u8],
    room: &mut [u8],
) -> io::Result<()> {
    let said = sample_pnml::read(text, room);
    print!(rt; "back, {name}:")?;
    numbers(rt, said, text)?;
    println!(rt; ", as the table {} of {}", alike(room, net), net.len())
}

// Prints a text: its length, checksum, and the text.
pub(crate) fn show(rt: HostRuntime, name: &str, text: &[u8]) -> io::Result<()> {
    print!(rt;
        "text, {name}: {}, checksum {}, ",
        text.len(),
        checksum(text)
    )?;
    rt.write_all(text)?;
    println!(rt;)
}

// Prints of a text its length, checksum, first and last bytes.
pub(crate) fn outline(rt: HostRuntime, name: &str, text: &[u8]) -> io::Result<()> {
    let n = text.len();
    print!(rt; "text, {name}: {n}, checksum {}, ", checksum(text))?;
    rt.write_all(first(text, 200))?;
    if n < 100 {
        return Ok(());
    }
    print!(rt; "...")?;
    rt.write_all(&text[n - 100..])?;
    println!(rt;)
}

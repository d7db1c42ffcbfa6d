// Nets written and read back.
use crate::calls::{first, outline, read, read_back, show, write, write_in};
use sample_bytes::FILL;
use sample_nets::{net_optional, net_r, optional, transition};
use std::io;

// All places of 64.
const ALL: u64 = 18446744073709551615;

// Reads the first n bytes of a text back.
fn back(rt: HostRuntime, name: &str, text: &[u8], n: usize, net: &[u8]) -> io::Result<()> {
    let mut room = [FILL; 1600];
    read_back(rt, name, first(text, n), net, &mut room)
}

// A net written, shown and read back.
fn small(rt: HostRuntime, name: &str, places: u32, marking: u64, net: &[u8]) -> io::Result<()> {
    let mut text = [FILL; 1000];
    let n = write(rt, name, places, marking, net, &mut text)?;
    show(rt, name, first(&text, n))?;
    back(rt, name, &text, n, net)
}

// A text of R with white space after each tag but `<text>`.
fn spaced(rt: HostRuntime, name: &str, net: &[u8], text: &[u8]) -> io::Result<()> {
    if 2000 < text.len() {
        return Ok(());
    }
    let mut wide = [FILL; 2000];
    let m = sample_pnml::put_spaced(&mut wide, text);
    back(rt, name, &wide, m, net)
}

// R's text, of n bytes, without its last byte, and with a byte after it.
fn ends(rt: HostRuntime, net: &[u8], text: &mut [u8], n: usize) -> io::Result<()> {
    if n < 1 {
        return Ok(());
    }
    if text.len() <= n {
        return Ok(());
    }
    let mut room = [FILL; 100];
    text[n] = b'x';
    read(rt, "R, last byte missing", first(text, n - 1), 0, &mut room)?;
    read(rt, "R followed by x", first(text, n + 1), 0, &mut room)?;
    text[n] = b'\n';
    back(rt, "R followed by LF", text, n + 1, net)
}

// R's text as it is not written.
fn changed(rt: HostRuntime) -> io::Result<()> {
    let net = net_r();
    let mut text = [FILL; 1000];
    let n = write(rt, "R at 3", 3, 3, &net, &mut text)?;
    spaced(rt, "R at 3, white space", &net, first(&text, n))?;
    ends(rt, &net, &mut text, n)
}

// R with t1 optional, with white space, and with just the room.
fn with_tag(rt: HostRuntime) -> io::Result<()> {
    let net = net_optional(1);
    let name: &str = "R at 3, t1 optional";
    small(rt, name, 3, 3, &net)?;
    let mut text = [FILL; 1000];
    let n = write(rt, name, 3, 3, &net, &mut text)?;
    spaced(
        rt,
        "R at 3, t1 optional, white space",
        &net,
        first(&text, n),
    )?;
    write_in(rt, name, 3, 3, &net, &mut text, 777)?;
    write_in(rt, name, 3, 3, &net, &mut text, 778)
}

// The largest net: its text.
fn largest_text(rt: HostRuntime, net: &[u8]) -> io::Result<usize> {
    let mut text = [FILL; 400000];
    let n = write(rt, "largest net", 64, ALL, net, &mut text)?;
    outline(rt, "largest net", first(&text, n))?;
    back(rt, "largest net", &text, n, net)?;
    Ok(n)
}

// The largest net with one byte less than its text and with just that room.
fn largest_room(rt: HostRuntime, net: &[u8], n: usize) -> io::Result<()> {
    if n < 1 {
        return Ok(());
    }
    let mut text = [FILL; 400000];
    write_in(
        rt,
        "largest net, a byte short",
        64,
        ALL,
        net,
        &mut text,
        n - 1,
    )?;
    write_in(rt, "largest net, just room", 64, ALL, net, &mut text, n)
}

// The largest net: all transitions are optional.
pub(crate) fn largest(rt: HostRuntime) -> io::Result<()> {
    let mut net = [0u8; 1536];
    sample_pnml::put_often(&mut net, &optional(ALL, ALL, 65535), 64);
    let n = largest_text(rt, &net)?;
    largest_room(rt, &net, n)
}

// Those of a few places.
pub(crate) fn print_all(rt: HostRuntime) -> io::Result<()> {
    small(rt, "R at 3", 3, 3, &net_r())?;
    small(rt, "smallest net", 1, 0, &transition(0, 0, 0))?;
    changed(rt)?;
    with_tag(rt)
}

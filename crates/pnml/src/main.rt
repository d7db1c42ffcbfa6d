// `pnml write ASK NET` writes the text of the net with the ask's places and marking to standard output. `pnml read FILE NET` reads a text,
// writes its records to the file NET and its places and marking as one line. A refusal is one line, and then no file is written. With any
// other arguments it writes nothing but its usage, to standard error.
#![tactic(auto)]

ghost use Rattle.std.specs.Prelude.{◌≤◌, length};
ghost use Rattle.pnml_read.specs.Answer as reads;

use pnml_line::Trouble;
use pnml_read::{Found, ReadRefusal};
use pnml_write::WriteRefusal;
use std::io::Write;
use std::{fs, io};

// Room for the longest text: 64 places, 64 optional transitions with actions of five digits and all 8,192 arcs are 359,925 bytes.
const TEXT: usize = 400000;

// Room for a text of at most 1,000,000 bytes in a file: a longer one fills it.
const FILE: usize = 1000001;

// Room for the records of 64 transitions, which are the most that a text can have.
const RECORDS: usize = 1536;

// Writes the file that an argument names, made or overwritten: none where it is not whole. A path that is not UTF-8 is no file's, as std opens
// none there.
fn write_argument(rt: HostRuntime, i: usize, bytes: &[u8]) -> Option<()> {
    let mut path = [0u8; 4096];
    let size = files::argument(&rt, i, &mut path)?;
    let path = str::from_utf8(&path[..size]).ok()?;
    let mut file = fs::create(&rt, path).ok()?;
    file.write_all(bytes).ok()
}

// Tells that a file is not read or not written.
fn tell_trouble(rt: HostRuntime, t: Trouble) -> io::Result<()> {
    let mut line = [0u8; 40];
    let size = pnml_line::trouble_line(t, &mut line);
    rt.write_all(&line[..size])
}

// Tells why there is no text.
fn tell_refused(rt: HostRuntime, w: Result<usize, WriteRefusal>) -> io::Result<()> {
    let mut line = [0u8; 40];
    let size = pnml_line::write_line(w, &mut line);
    rt.write_all(&line[..size])
}

// Tells the text of the net with the ask's places and marking.
fn tell_written(rt: HostRuntime, ask: &[u8], net: &[u8]) -> io::Result<()> {
    let mut room: [u8; TEXT] = files::zeros();
    let w = pnml_line::write_ask(ask, net, &mut room);
    let Ok(size) = w else {
        return tell_refused(rt, w);
    };
    rt.write_all(&room[..size])
}

// Reads the ask and the net, and then tells the text.
fn write(rt: HostRuntime) -> Result<io::Result<()>, Trouble> {
    let mut ask: [u8; files::ROOM] = files::zeros();
    let a = files::read_argument(&rt, 2, &mut ask).ok_or(Trouble::UnreadAsk)?;
    let mut net: [u8; files::ROOM] = files::zeros();
    let n = files::read_argument(&rt, 3, &mut net).ok_or(Trouble::UnreadNet)?;
    Ok(tell_written(rt, &ask[..a], &net[..n]))
}

// Writes the records of a text that was read, if it was, to the file NET.
fn keep(rt: HostRuntime, r: Result<Found, ReadRefusal>, records: &[u8]) -> Result<(), Trouble>
    requires { (reads.found_of r).length ≤ length records.now }
{
    let Ok(found) = r else {
        return Ok(());
    };
    let size = found.length;
    write_argument(rt, 3, &records[..size]).ok_or(Trouble::UnwrittenNet)
}

// Tells what reading a text found, once the file NET has its records.
fn tell_read(rt: HostRuntime, text: &[u8]) -> Result<io::Result<()>, Trouble> {
    let mut records: [u8; RECORDS] = files::zeros();
    let r = pnml_read::read(text, &mut records);
    keep(rt, r, &records)?;
    let mut line = [0u8; 40];
    let size = pnml_line::read_line(r, &mut line);
    Ok(rt.write_all(&line[..size]))
}

// Reads the file, and then its text.
fn read(rt: HostRuntime) -> Result<io::Result<()>, Trouble> {
    let mut text: [u8; FILE] = files::zeros();
    let n = files::read_argument(&rt, 2, &mut text).ok_or(Trouble::UnreadFile)?;
    tell_read(rt, &text[..n])
}

// What was told, or else the trouble, which is told then.
fn finish(rt: HostRuntime, told: Result<io::Result<()>, Trouble>) -> io::Result<()> {
    match told {
        Ok(done) => done,
        Err(trouble) => tell_trouble(rt, trouble),
    }
}

// Whether there are arguments 0, the program's own name, to 3, and no more.
fn has_three(rt: HostRuntime) -> bool {
    let mut word = [0u8; 1];
    files::argument(&rt, 3, &mut word).is_some() && files::argument(&rt, 4, &mut word).is_none()
}

fn main(rt: HostRuntime) -> io::Result<()> {
    let mut buf = [0u8; 4096];
    let word: &[u8] = match files::argument(&rt, 1, &mut buf) {
        Some(size) => &buf[..size],
        None => b"",
    };
    let three = has_three(rt);
    if three && word == b"write".as_slice() {
        finish(rt, write(rt))
    } else if three && word == b"read".as_slice() {
        finish(rt, read(rt))
    } else {
        let _ = rt
            .stderr()
            .write_all(b"usage: pnml write ASK NET | pnml read FILE NET\n");
        Ok(())
    }
}

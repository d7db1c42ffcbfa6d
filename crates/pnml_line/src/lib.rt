// What the program `pnml` writes: the text of a net by an ask, and its lines, each put into a buffer.
#![tactic(auto)]

ghost use Rattle.std.specs.Prelude.{◌≡◌, ◌≤◌};
ghost use Rattle.texts.specs.Line as texts;
ghost use Rattle.pnml_write.specs.Answer as writes;
ghost use Rattle.pnml_read.specs.Answer as reads;
ghost use Rattle.pnml_line.specs.Line as lines;

use net::Refusal;
use nodes::read;
use pnml_read::{Found, ReadRefusal};
use pnml_write::WriteRefusal;

// A file that cannot be read or written.
#[derive(Clone, Copy)]
pub enum Trouble {
    UnreadAsk,
    UnreadNet,
    UnreadFile,
    UnwrittenNet,
}

// Writes the text of the net with the ask's places and marking at the start of the room, whose other bytes stay: its length, or the first of
// 1, 2, 3, 7 and 12, and then the whole room stays.
pub fn write_ask(ask: &[u8], net: &[u8], room: &mut [u8]) -> Result<usize, WriteRefusal>
    ensures { writes.answer_of result room.new ≡ lines.ask_answer ask.now net.now room.old }
{
    if ask.len() != read::ASK {
        return Err(WriteRefusal::Net(Refusal::Places));
    }
    let a = read::ask_of(ask);
    if a.side > 1 {
        return Err(WriteRefusal::Net(Refusal::Places));
    }
    pnml_write::write(u32::from(a.places), a.marking, net, room)
}

// The line of a refusal.
fn put_refused(line: &mut [u8; 40], number: u32, place: u64) -> usize
    requires { number ≤ 255 }
    ensures { texts.Put line.old line.new 0 (lines.refused_line number place) result }
{
    texts::put_placed(line, b"refused ", number as u8, place as usize)
}

// Writes the line of a write's answer at the start of the buffer, whose other bytes stay, and answers its length.
pub fn write_line(w: Result<usize, WriteRefusal>, line: &mut [u8; 40]) -> usize
    ensures { texts.Put line.old line.new 0 (lines.write_line w) result }
{
    let n = pnml_write::written_numbers(w);
    if n.number == 0 {
        return 0;
    }
    put_refused(line, n.number, n.place)
}

// The line of a text that was read.
fn put_found(line: &mut [u8; 40], places: u32, marking: u64) -> usize
    requires { places ≤ 64 }
    ensures { texts.Put line.old line.new 0 (lines.found_line places marking) result }
{
    let at = texts::put_word(line, 0, b"places ");
    let at = texts::put_number(line, at, places as usize);
    let at = texts::put_word(line, at, b" marking ");
    let at = texts::put_number(line, at, marking as usize);
    texts::put_word(line, at, b"\n")
}

// Writes the line of a read's answer at the start of the buffer, whose other bytes stay, and answers its length.
pub fn read_line(r: Result<Found, ReadRefusal>, line: &mut [u8; 40]) -> usize
    requires { (reads.found_of r).places ≤ 64 }
    ensures { texts.Put line.old line.new 0 (lines.read_line r) result }
{
    let f = pnml_read::read_numbers(r);
    if f.number == 0 {
        return put_found(line, f.places, f.marking);
    }
    put_refused(line, f.number, f.place)
}

// Writes the line of a file that cannot be read or written at the start of the buffer, whose other bytes stay, and answers its length.
pub fn trouble_line(t: Trouble, line: &mut [u8; 40]) -> usize
    ensures { texts.Put line.old line.new 0 (lines.trouble_line t) result }
{
    match t {
        Trouble::UnreadAsk => texts::put_unread(line, b"ASK"),
        Trouble::UnreadNet => texts::put_unread(line, b"NET"),
        Trouble::UnreadFile => texts::put_unread(line, b"FILE"),
        Trouble::UnwrittenNet => texts::put_word(line, 0, b"unwritten NET\n"),
    }
}

// Reads a tree with its ask, net and formulas, and writes what the check says of it as one line. With no argument the files are ASK, NET,
// FORMULA and TREE in the working folder; with four, they are the paths in that order. With any other number of arguments it writes
// nothing but its usage, to standard error.
#![tactic(auto)]

ghost use Rattle.std.specs.Prelude.{IfOk};
ghost use Rattle.files.specs.Reading.{IsPrefixLen};

mod inputs;

use line::Input;
use std::io;

// Tells that a file is not read.
fn tell_unread(rt: HostRuntime, file: Input) -> io::Result<()> {
    let mut text = [0u8; 40];
    let size = line::unread_line(file, &mut text);
    rt.write_all(&text[..size])
}

// Reads all four files and puts what the check says of them at the start of the line: its length, or the first file that is not read.
fn check(rt: HostRuntime, named: bool, text: &mut [u8; 40]) -> Result<usize, Input>
    ensures { IfOk result (λ n. IsPrefixLen n text.new) }
{
    let mut ask: [u8; files::ROOM] = files::zeros();
    let a = inputs::read_input(rt, Input::Ask, named, &mut ask)?;
    let mut net: [u8; files::ROOM] = files::zeros();
    let n = inputs::read_input(rt, Input::Net, named, &mut net)?;
    let mut formulas: [u8; files::ROOM] = files::zeros();
    let f = inputs::read_input(rt, Input::Formula, named, &mut formulas)?;
    let mut tree: [u8; files::ROOM] = files::zeros();
    let t = inputs::read_input(rt, Input::Tree, named, &mut tree)?;
    Ok(line::check_line(&ask[..a], &net[..n], &formulas[..f], &tree[..t], text))
}

// Tells what the check says, or which file is not read.
fn run(rt: HostRuntime, named: bool) -> io::Result<()> {
    let mut text = [0u8; 40];
    match check(rt, named, &mut text) {
        Ok(size) => rt.write_all(&text[..size]),
        Err(file) => tell_unread(rt, file),
    }
}

// Whether there are arguments 0, the program's own name, to last, and no more.
fn ends_with(rt: HostRuntime, last: u8) -> bool {
    let last = usize::from(last);
    let mut word = [0u8; 1];
    files::argument(&rt, last, &mut word).is_some()
        && files::argument(&rt, last + 1, &mut word).is_none()
}

fn main(rt: HostRuntime) -> io::Result<()> {
    if ends_with(rt, 0) {
        run(rt, false)
    } else if ends_with(rt, 4) {
        run(rt, true)
    } else {
        let _ = rt
            .stderr()
            .write_all(b"usage: treecheck [ASK NET FORMULA TREE]\n");
        Ok(())
    }
}

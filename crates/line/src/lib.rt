// The line that the program `treecheck` writes, put into a buffer.
#![tactic(auto)]

ghost use Rattle.std.specs.Prelude.{◌≡◌, Err};
ghost use Rattle.checker.specs.Outcomes as outcomes;
ghost use Rattle.texts.specs.Line as texts;
ghost use Rattle.line.specs.Line as lines;

use checker::Rejection;

// The four files that the program reads.
#[derive(Clone, Copy)]
pub enum Input {
    Ask,
    Net,
    Formula,
    Tree,
}

impl Input {
    // Its name in the working folder and in the line that it gets where it is not read.
    pub fn name(self) -> &'static [u8]
        ensures { result.now ≡ lines.name_of self }
    {
        match self {
            Input::Ask => b"ASK",
            Input::Net => b"NET",
            Input::Formula => b"FORMULA",
            Input::Tree => b"TREE",
        }
    }
}

// The line of an accepted tree.
fn put_accepted(line: &mut [u8; 40], nodes: usize) -> usize
    ensures { texts.Put line.old line.new 0 (lines.accepted_line nodes) result }
{
    let at = texts::put_word(line, 0, b"accepted nodes ");
    let at = texts::put_number(line, at, nodes);
    texts::put_word(line, at, b"\n")
}

// The line of a tree that is not accepted: refused where the input checks find a fault, broken where a node fails.
fn put_rejected(line: &mut [u8; 40], why: Rejection) -> usize
    ensures { texts.Put line.old line.new 0 (lines.line_of (outcomes.verdict (Err why))) result }
{
    match why {
        Rejection::Input(fault) => {
            let n = checker::input_numbers(fault);
            texts::put_placed(line, b"refused ", n.number as u8, n.place as usize)
        }
        Rejection::Node(fault, node) => {
            texts::put_placed(line, b"broken ", fault.number() as u8, node)
        }
    }
}

// Writes the line of the check's answer at the start of the buffer, whose other bytes stay, and answers its length.
pub fn write_line(v: Result<usize, Rejection>, line: &mut [u8; 40]) -> usize
    ensures { texts.Put line.old line.new 0 (lines.line_of (outcomes.verdict v)) result }
{
    match v {
        Ok(nodes) => put_accepted(line, nodes),
        Err(why) => put_rejected(line, why),
    }
}

// Writes the line of a file that is not read at the start of the buffer, whose other bytes stay, and answers its length.
pub fn unread_line(file: Input, line: &mut [u8; 40]) -> usize
    ensures { texts.Put line.old line.new 0 (lines.unread_line file) result }
{
    texts::put_unread(line, file.name())
}

// Writes the line that the four tables get at the start of the buffer, whose other bytes stay, and answers its length.
pub fn check_line(
    ask: &[u8],
    net: &[u8],
    formulas: &[u8],
    tree: &[u8],
    line: &mut [u8; 40],
) -> usize
    ensures { texts.Put line.old line.new 0 (lines.line_of (outcomes.check_outcome ask.now net.now formulas.now tree.now)) result }
{
    write_line(checker::check(ask, net, formulas, tree), line)
}

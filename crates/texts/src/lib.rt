// Texts as bytes, and numbers as text: definitions and their laws, and the putting of words and numbers into a line of 40 bytes.
#![tactic(auto)]

ghost use Rattle.std.specs.Prelude.{◌+◌, ◌≤◌, length};
ghost use Rattle.texts.specs.Text as text;
ghost use Rattle.texts.specs.Line as lines;

// Copies a word into the line from an index on, and answers the index after it.
pub fn put_word(line: &mut [u8; 40], at: usize, word: &[u8]) -> usize
    requires { at + length word.now ≤ 40 }
    ensures { lines.Put line.old line.new at word.now result }
{
    let end = at + word.len();
    line[at..end].copy_from_slice(word);
    end
}

// Writes a number in decimal into the line from an index on, and answers the index after it.
pub fn put_number(line: &mut [u8; 40], at: usize, n: usize) -> usize
    requires { at + length (text.decimal n) ≤ 40 }
    ensures { lines.Put line.old line.new at (text.decimal n) result }
{
    if n < 10 {
        line[at] = 48 + n as u8;
        return at + 1;
    }
    let last = put_number(line, at, n / 10);
    line[last] = 48 + (n % 10) as u8;
    last + 1
}

// A word, a number and a place.
pub fn put_placed(line: &mut [u8; 40], word: &[u8], number: u8, place: usize) -> usize
    requires { length word.now ≤ 8 }
    ensures { lines.Put line.old line.new 0 (lines.placed_line word.now number place) result }
{
    let number = number as usize;
    let at = put_word(line, 0, word);
    let at = put_number(line, at, number);
    let at = put_word(line, at, b" at ");
    let at = put_number(line, at, place);
    put_word(line, at, b"\n")
}

// The line of an unread file.
pub fn put_unread(line: &mut [u8; 40], name: &[u8]) -> usize
    requires { length name.now ≤ 8 }
    ensures { lines.Put line.old line.new 0 (lines.unread_named name.now) result }
{
    let at = put_word(line, 0, b"unread ");
    let at = put_word(line, at, name);
    put_word(line, at, b"\n")
}

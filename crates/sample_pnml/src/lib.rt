// The samples of PNML: texts built from elements and bytes, and the answers of the writer and of the reader in numbers.
#![tactic(auto)]

ghost use Rattle.std.specs.Prelude.{◌≡◌, ◌+◌, ◌≤◌, ◌<◌, length};
ghost use Rattle.std.proofs.lemmas.List.Edits.{sets};
ghost use Rattle.texts.specs.Text as texts;
ghost use Rattle.pnml_shape.specs.Theorem as theorem;
ghost use Rattle.pnml_write.specs.Answer as writing;
ghost use Rattle.pnml_read.specs.Answer as reading;
ghost use Rattle.sample_pnml.specs.Built as built;
ghost use Rattle.sample_pnml.specs.Told as told;

// ---- texts. What lies past the room's end is left off.

// Puts some bytes from an offset on, and answers the offset after them.
pub fn put_part(room: &mut [u8], at: usize, part: &[u8]) -> usize
    requires { at + length part.now ≤ 1000000 }
    ensures { built.Put room.old room.new at part.now result }
{
    sample_bytes::put_bytes(room, at, part);
    at + part.len()
}

// Puts a number below 100 in decimal, and answers the offset after it.
fn put_decimal(room: &mut [u8], at: usize, n: u8) -> usize
    requires { (at ≤ 900000) × (n < 100) }
    ensures { built.Put room.old room.new at (texts.decimal n) result }
{
    if n < 10 {
        return put_part(room, at, &[b'0' + n]);
    }
    put_part(room, at, &[b'0' + n / 10, b'0' + n % 10])
}

// Puts an element with this number between its opening and its closing.
fn put_element(room: &mut [u8], at: usize, opening: &[u8], n: u8, closing: &[u8]) -> usize
    requires { (at ≤ 800000) × (length opening.now ≤ 100) × (n < 100) × (length closing.now ≤ 100) }
    ensures { built.Put room.old room.new at (built.element opening.now n closing.now) result }
{
    let at = put_part(room, at, opening);
    let at = put_decimal(room, at, n);
    put_part(room, at, closing)
}

// Puts n such elements, numbered from 0 on.
fn put_elements(room: &mut [u8], at: usize, opening: &[u8], closing: &[u8], n: u8) -> usize
    requires { (at ≤ 700000) × (length opening.now ≤ 100) × (n ≤ 100) × (length closing.now ≤ 100) }
    ensures { built.Put room.old room.new at (built.elements opening.now closing.now n) result }
{
    let mut next = at;
    for i in 0..n {
        next = put_element(room, next, opening, i, closing);
    }
    next
}

// Puts the head, so many places with mark 1 and so many transitions with action 7 at the start of the room, and answers the offset after them.
pub fn put_draft(room: &mut [u8], places: u8, transitions: u8) -> usize
    requires { (places ≤ 100) × (transitions ≤ 100) }
    ensures { built.Put room.old room.new 0 (built.draft places transitions) result }
{
    let at = put_part(
        room,
        0,
        b"<pnml xmlns=\"http://www.pnml.org/version-2009/grammar/pnml\">",
    );
    let at = put_part(
        room,
        at,
        b"<net id=\"n\" type=\"http://www.pnml.org/version-2009/grammar/ptnet\"><page id=\"g\">",
    );
    let at = put_elements(
        room,
        at,
        b"<place id=\"p",
        b"\"><initialMarking><text>1</text></initialMarking></place>",
        places,
    );
    put_elements(
        room,
        at,
        b"<transition id=\"t",
        b"\"><name><text>7</text></name></transition>",
        transitions,
    )
}

// Whether the tag that ends at byte i is any but `<text>`: no other has a `t` four and a `<` five bytes before its end.
fn tag_ends(text: &[u8], i: usize) -> bool
    requires { i < length text.now }
    ensures { result ≡ built.tag_ends text.now i }
{
    text[i] == b'>' && (i < 5 || text[i - 5] != b'<' || text[i - 4] != b't')
}

// Puts a text with white space after each tag but `<text>`, and answers its length.
pub fn put_spaced(room: &mut [u8], text: &[u8]) -> usize
    requires { length text.now ≤ 100000 }
    ensures { built.Put room.old room.new 0 (built.spaced text.now (length text.now)) result }
{
    let mut at = 0;
    for (i, byte) in text.iter().enumerate() {
        at = put_byte(room, at, *byte, tag_ends(text, i));
    }
    at
}

// Puts a byte, and white space after it where asked.
fn put_byte(room: &mut [u8], at: usize, b: u8, ends: bool) -> usize
    requires { at ≤ 900000 }
    ensures { built.Put room.old room.new at (built.padded b ends) result }
{
    if ends {
        return put_part(room, at, &[b, b' ', b'\t', b'\r', b'\n']);
    }
    put_part(room, at, &[b])
}

// Puts some bytes n times from the start of a table on.
pub fn put_often(table: &mut [u8], part: &[u8], n: u8)
    requires { length part.now ≤ 1000 }
    ensures { table.new ≡ sets table.old 0 (built.often part.now n) }
{
    let mut at = 0;
    for _ in 0..n {
        at = put_part(table, at, part);
    }
}

// ---- answers

// Writes a net with a marking into the room: the answer in numbers.
pub fn write(places: u32, marking: u64, net: &[u8], room: &mut [u8]) -> pnml_write::Numbers
    ensures { told.writer result room.new ≡ writing.write_answer places marking net.now room.old }
{
    pnml_write::written_numbers(pnml_write::write(places, marking, net, room))
}

// Reads a text, the records into the room: the answer in numbers.
pub fn read(text: &[u8], room: &mut [u8]) -> pnml_read::Numbers
    ensures { told.reader result room.new ≡ reading.read_answer (theorem.reading text.now) room.old }
{
    pnml_read::read_numbers(pnml_read::read(text, room))
}

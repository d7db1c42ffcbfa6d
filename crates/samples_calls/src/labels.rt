// The samples of labels and of category files. A line of a label has a name, the check's number and record, the label's file, offset and
// length, and its bytes; a line of a text, the lookup in one file by itself, a name, the text's length and its bytes.
use sample_labels::put_record;
use std::io;

// ---- one line

// Prints each byte as a number, and ends the line.
fn bytes(rt: HostRuntime, text: &[u8]) -> io::Result<()> {
    for byte in text {
        print!(rt; " {byte}")?;
    }
    println!(rt;)
}

// Checks a translation and a house file, looks an action's label up, and prints what comes.
fn lookup<'a>(
    rt: HostRuntime,
    name: &str,
    translation: &'a [u8],
    house: &'a [u8],
    action: u16,
) -> io::Result<()> {
    let said = category::check_numbers(category::check(translation, house));
    let place = category::place(translation, house, action);
    print!(rt; "label, {name} {} {}", said.number, said.place)?;
    print!(rt; " {} {} {}", place.file, place.offset, place.length)?;
    bytes(rt, category::label(translation, house, action))
}

// ---- files by their records

// A record whose text has at most two bytes: a zero byte ends it.
#[derive(Clone, Copy)]
struct Fields {
    action: u16,
    kind: u8,
    lender: u16,
    first: u8,
    second: u8,
}

// A file of so many bytes, at most 64, which starts with these records.
#[derive(Clone, Copy)]
struct Contents {
    size: usize,
    first: Fields,
    second: Fields,
}

// A record by its fields.
fn record(action: u16, kind: u8, lender: u16, first: u8, second: u8) -> Fields {
    Fields {
        action,
        kind,
        lender,
        first,
        second,
    }
}

// A file by its size and records.
fn file(size: usize, first: Fields, second: Fields) -> Contents {
    Contents {
        size,
        first,
        second,
    }
}

// Writes record i of a file.
fn put(table: &mut [u8], i: u32, fields: Fields) {
    let text = [fields.first, fields.second];
    put_record(table, i, fields.action, fields.kind, fields.lender, &text);
}

// The bytes of a file, with zero bytes after them.
fn table(file: Contents) -> [u8; 64] {
    let mut table = [0u8; 64];
    put(&mut table, 0, file.first);
    put(&mut table, 1, file.second);
    table
}

// Looks a label up in two files.
fn sample(
    rt: HostRuntime,
    name: &str,
    translation: Contents,
    house: Contents,
    action: u16,
) -> io::Result<()> {
    let first = table(translation);
    let second = table(house);
    let Some(first) = first.get(..translation.size) else {
        return Ok(());
    };
    let Some(second) = second.get(..house.size) else {
        return Ok(());
    };
    lookup(rt, name, first, second, action)
}

// ---- labels

// A label of one file or of both; files of no records.
fn own(rt: HostRuntime) -> io::Result<()> {
    let zeros = record(0, 0, 0, 0, 0);
    let go = record(5, 0, 0, b'G', b'o');
    let none = file(0, zeros, zeros);
    let one = file(32, go, zeros);
    let two = file(
        64,
        record(5, 0, 0, b'N', b'o'),
        record(600, 0, 0, b'U', b'p'),
    );
    sample(rt, "in both:", one, two, 5)?;
    sample(rt, "missing in the translation:", one, two, 600)?;
    sample(rt, "missing in the house file:", two, one, 600)?;
    sample(rt, "missing in both:", one, two, 6)?;
    sample(rt, "no translation:", none, one, 5)?;
    sample(rt, "no house file:", one, none, 5)?;
    sample(rt, "no records:", none, none, 5)
}

// The label of an action that the house file alone has, beside a translation of the actions 5 and 600.
fn beside(rt: HostRuntime, name: &str, action: u16) -> io::Result<()> {
    let no = record(5, 0, 0, b'N', b'o');
    let up = record(600, 0, 0, b'U', b'p');
    let go = record(action, 0, 0, b'G', b'o');
    sample(rt, name, file(64, no, up), file(32, go, no), action)
}

// An action below, between and above those of the translation.
fn gaps(rt: HostRuntime) -> io::Result<()> {
    beside(rt, "below the first:", 4)?;
    beside(rt, "between two:", 6)?;
    beside(rt, "above the last:", 601)
}

// ---- translations of one record

// A translation of one record, of action 5.
fn single(rt: HostRuntime, name: &str, kind: u8, lender: u16, text: &[u8]) -> io::Result<()> {
    let file = sample_labels::record(5, kind, lender, text);
    lookup(rt, name, &file, b"", 5)
}

// Texts, good and faulty; kinds above 0 and lenders.
fn texts(rt: HostRuntime) -> io::Result<()> {
    single(rt, "text of 24 bytes:", 0, 0, b"ABCDEFGHIJKLMNOPQRSTUVWX")?;
    single(rt, "byte 0x1F:", 0, 0, b"\x1F")?;
    single(rt, "bytes 0x20 and 0x7E:", 0, 0, b"\x20\x7E")?;
    single(rt, "byte 0x7F:", 0, 0, b"A\x7F")?;
    single(rt, "byte 0x80:", 0, 0, b"A\x80")?;
    single(rt, "byte 0x9F:", 0, 0, b"A\x9F")?;
    single(rt, "bytes 0xA0 and 0xFF:", 0, 0, b"\xA0\xFF")?;
    single(rt, "no text:", 0, 0, b"")?;
    single(rt, "a byte after a zero byte:", 0, 0, b"A\0B")?;
    single(rt, "own text and a lender:", 0, 5, b"Go")?;
    single(rt, "kind 1:", 1, 0, b"Go")?;
    single(rt, "kind 1 and a lender:", 1, 5, b"Go")?;
    single(rt, "kind 1 without a text:", 1, 5, b"")?;
    single(rt, "kind 2:", 2, 0, b"Go")
}

// ---- faulty records

// Records of kind 1, which borrowed a text once, whose lender stands before or after; the lowest of two faults; such a house file.
fn retired(rt: HostRuntime) -> io::Result<()> {
    let zeros = record(0, 0, 0, 0, 0);
    let none = file(0, zeros, zeros);
    let go = record(5, 0, 0, b'G', b'o');
    let back = file(64, go, record(7, 1, 5, 0, 0));
    let ahead = file(64, record(5, 1, 7, 0, 0), record(7, 0, 0, b'N', b'o'));
    let empty = record(5, 0, 0, 0, 0);
    sample(rt, "kind 1, lender before:", back, none, 7)?;
    sample(
        rt,
        "kind 1, lender before, the lender's label:",
        back,
        none,
        5,
    )?;
    sample(rt, "kind 1, lender after:", ahead, none, 5)?;
    sample(
        rt,
        "no text, then kind 1:",
        file(64, empty, record(7, 1, 5, 0, 0)),
        none,
        7,
    )?;
    sample(
        rt,
        "kind 1, then no text:",
        file(64, record(5, 1, 7, 0, 0), record(7, 0, 0, 0, 0)),
        none,
        5,
    )?;
    sample(rt, "kind 1 in the house file:", none, back, 7)?;
    sample(
        rt,
        "kind 1 in the house file, in the translation:",
        file(32, go, zeros),
        back,
        5,
    )
}

// Actions that do not ascend.
fn faulty(rt: HostRuntime) -> io::Result<()> {
    let zeros = record(0, 0, 0, 0, 0);
    let none = file(0, zeros, zeros);
    let go = record(5, 0, 0, b'G', b'o');
    let no = record(5, 0, 0, b'N', b'o');
    let high = record(600, 0, 0, b'G', b'o');
    sample(rt, "equal actions:", file(64, go, no), none, 5)?;
    sample(rt, "falling actions:", file(64, high, no), none, 600)
}

// A record with these spare bytes, after a good record.
fn spare(rt: HostRuntime, name: &str, third: u8, sixth: u8, seventh: u8) -> io::Result<()> {
    let mut bytes = table(file(64, record(5, 0, 0, b'G', b'o'), record(7, 0, 0, b'N', b'o')));
    bytes[35] = third;
    bytes[38] = sixth;
    bytes[39] = seventh;
    lookup(rt, name, &bytes, b"", 7)
}

// Each spare byte.
fn spares(rt: HostRuntime) -> io::Result<()> {
    spare(rt, "spare bytes 0:", 0, 0, 0)?;
    spare(rt, "spare byte 3:", 1, 0, 0)?;
    spare(rt, "spare byte 6:", 0, 1, 0)?;
    spare(rt, "spare byte 7:", 0, 0, 1)
}

// ---- two files

// Either faulty file hides the labels of both; lengths that are no whole number of records; the translation's refusal comes before the
// house file's.
fn hidden(rt: HostRuntime) -> io::Result<()> {
    let zeros = record(0, 0, 0, 0, 0);
    let go = record(5, 0, 0, b'G', b'o');
    let none = file(0, zeros, zeros);
    let good = file(32, go, zeros);
    let bad = file(32, record(6, 2, 0, b'N', b'o'), zeros);
    let long = file(33, go, zeros);
    let empty = file(32, zeros, zeros);
    let equal = file(64, go, record(5, 0, 0, b'N', b'o'));
    sample(rt, "faulty translation, in the house file:", bad, good, 5)?;
    sample(rt, "faulty house file, in the translation:", good, bad, 5)?;
    sample(rt, "translation of 33 bytes:", long, none, 5)?;
    sample(rt, "house file of 33 bytes:", none, long, 5)?;
    sample(rt, "31 bytes:", file(31, zeros, zeros), none, 5)?;
    sample(rt, "equal actions, house file of 33 bytes:", equal, long, 5)?;
    sample(
        rt,
        "33 bytes, equal actions in the house file:",
        long,
        equal,
        5,
    )?;
    sample(
        rt,
        "equal actions, no text in the house file:",
        equal,
        empty,
        5,
    )?;
    sample(
        rt,
        "no text, equal actions in the house file:",
        empty,
        equal,
        5,
    )
}

// ---- the number of records

// The first bytes of a file of 2,001 records, as the translation and as the house file.
fn many(rt: HostRuntime, name: &str, other: &str, size: usize) -> io::Result<()> {
    let mut file = [0u8; 64032];
    sample_labels::fill(&mut file, 2001);
    let Some(part) = file.get(..size) else {
        return Ok(());
    };
    lookup(rt, name, part, b"", 1999)?;
    lookup(rt, other, b"", part, 27)
}

// The most records, and one record more.
fn most(rt: HostRuntime) -> io::Result<()> {
    many(
        rt,
        "2000 records:",
        "2000 records in the house file:",
        64000,
    )?;
    many(
        rt,
        "2001 records:",
        "2001 records in the house file:",
        64032,
    )
}

// ---- texts of one file, which is not checked

// Looks the text of an action up, and prints what comes.
fn text(rt: HostRuntime, name: &str, file: &[u8], action: u16) -> io::Result<()> {
    let found = category::text(file, action);
    print!(rt; "text, {name} {}", found.len())?;
    bytes(rt, found)
}

// Looks a text up in a file of at most two records.
fn alone(rt: HostRuntime, name: &str, file: Contents, action: u16) -> io::Result<()> {
    match table(file).get(..file.size) {
        Some(part) => text(rt, name, part, action),
        None => Ok(()),
    }
}

// Looks a text up in a file of three records.
fn three(
    rt: HostRuntime,
    name: &str,
    first: Fields,
    second: Fields,
    third: Fields,
    action: u16,
) -> io::Result<()> {
    let mut t = [0u8; 96];
    put(&mut t, 0, first);
    put(&mut t, 1, second);
    put(&mut t, 2, third);
    text(rt, name, &t, action)
}

// Actions that the file has and lacks; records out of order; a record that is not whole; kinds and a lender, which are not looked at.
fn order(rt: HostRuntime) -> io::Result<()> {
    let no = record(5, 0, 0, b'N', b'o');
    let go = record(7, 0, 0, b'G', b'o');
    let up = record(600, 0, 0, b'U', b'p');
    let two = file(64, no, up);
    alone(rt, "below the first:", two, 4)?;
    alone(rt, "the first:", two, 5)?;
    alone(rt, "between two:", two, 6)?;
    alone(rt, "the last:", two, 600)?;
    alone(rt, "above the last:", two, 601)?;
    three(rt, "behind a greater action:", up, no, go, 5)?;
    three(rt, "before a greater action:", no, up, go, 5)?;
    three(rt, "behind a lower and a greater action:", no, up, go, 7)?;
    alone(
        rt,
        "equal actions:",
        file(64, no, record(5, 0, 0, b'G', b'o')),
        5,
    )?;
    alone(rt, "63 bytes:", file(63, no, up), 600)?;
    alone(rt, "kind 2:", file(32, record(5, 2, 0, b'N', b'o'), up), 5)?;
    alone(
        rt,
        "kind 1 and a lender:",
        file(64, record(5, 1, 600, b'N', b'o'), up),
        5,
    )?;
    alone(
        rt,
        "kind 1 without a text:",
        file(64, record(5, 1, 600, 0, 0), up),
        5,
    )
}

// All samples of labels and of category files.
pub(crate) fn print_all(rt: HostRuntime) -> io::Result<()> {
    own(rt)?;
    gaps(rt)?;
    texts(rt)?;
    retired(rt)?;
    faulty(rt)?;
    spares(rt)?;
    hidden(rt)?;
    most(rt)?;
    order(rt)
}

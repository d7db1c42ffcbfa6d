// The converter: a category file with borrowed texts, valid under document 01, written to lent room so that each record has its own text.
#![tactic(auto)]

ghost use Rattle.std.specs.Prelude.{◌≡◌, true, not, ◌++◌, ◌*◌, ◌≤◌, ◌<◌, length, drop};
ghost use Rattle.std.proofs.lemmas.List.Edits.{sets};
ghost use Rattle.category.specs.Records as records;
ghost use Rattle.category.specs.Faults as faults;
ghost use Rattle.category.specs.Serving as lookup;
ghost use Rattle.category_borrowed.specs.Files as files;
ghost use Rattle.category_borrowed.specs.Converted as conversion;
ghost use Rattle.category_borrowed.specs.Answer as answers;
ghost use Rattle.category_convert.specs.Serving as serving;
ghost use Rattle.category_convert.specs.Result as results;
ghost use Rattle.category_convert.specs.declared.ConvertRefusal.TheVariants.{Table};

use category::{CategoryRecord, RECORD, TEXT_ROOM, TEXT_START};
use tables::TableFault;

// Why a file is not converted. `found_of` of specs/ has the documents' numbers: a length that is not 0 to 2,000 records (9), a record that is
// faulty by document 01 (10), a room that is shorter than the file (12).
#[derive(Clone, Copy, PartialEq, Eq)]
pub enum ConvertRefusal {
    Table(TableFault),
    Short,
}

impl From<TableFault> for ConvertRefusal {
    ghost from_gives = { λ f r. r ≡ Table f };

    fn from(f: TableFault) -> ConvertRefusal {
        ConvertRefusal::Table(f)
    }
}

// An answer in the documents' numbers, for the C interface: 0 where granted; the record as its place; the records rewritten, 0 where refused.
#[derive(Clone, Copy)]
pub struct Numbers {
    pub number: u32,
    pub place: u64,
    pub rewritten: u64,
}

// ---- one file by document 01

// A file, with how many records at its start have strictly ascending actions.
#[derive(Clone, Copy)]
struct CategoryFile<'a> {
    bytes: &'a [u8],
    ascending: usize,
    ghost measured: { ascending ≡ serving.ascending_prefix bytes.now },
}

impl<'a> CategoryFile<'a> {
    // Among the ascending records, the lowest whose action is not below the given one. By hand, since the library's `partition_point` is for a
    // slice, and no slice has records of 32 bytes as its elements.
    fn lower_bound(&self, action: u16) -> usize
        ensures { serving.LowerBound self.now.bytes.now action self.now.ascending result }
    {
        let mut low: usize = 0;
        let mut high = self.ascending;
        while low < high {
            let middle = (low + high) / 2;
            if CategoryRecord::new(self.bytes, middle).action() < action {
                low = middle + 1;
            } else {
                high = middle;
            }
        }
        low
    }

    // Whether some record lends the text of an action: a binary search among the ascending records, then a scan of those after them.
    fn lends(&self, action: u16) -> bool
        ensures { result ≡ files.lends self.now.bytes.now action }
    {
        let at = self.lower_bound(action);
        if at < self.ascending && lends_at(&CategoryRecord::new(self.bytes, at), action) {
            return true;
        }
        lends_from(self.bytes, action, self.ascending)
    }

    // Whether a record is good as its kind asks: with a text of its own, or without one and with another record's.
    fn kind_good(&self, i: usize) -> bool
        requires { i < records.count self.now.bytes.now }
        ensures { result ≡ files.kind_good self.now.bytes.now i }
    {
        let record = CategoryRecord::new(self.bytes, i);
        let kind = record.kind();
        if kind == 0 {
            return record.own_good();
        }
        if kind == 1 {
            return text_zero(&record) & self.lends(record.lender());
        }
        false
    }

    // Whether an ascending record is faulty.
    fn bad(&self, i: usize) -> bool
        requires { i < self.now.ascending }
        ensures { result ≡ files.faulty_at self.now.bytes.now i }
    {
        !(CategoryRecord::new(self.bytes, i).spare_zero() & self.kind_good(i))
    }
}

// Whether a record lends the text of an action.
fn lends_at(lender: &CategoryRecord, action: u16) -> bool
    ensures { result ≡ files.lends_at lender.now.file.now action lender.now.number }
{
    lender.has_action(action) && (lender.kind() == 0)
}

// Whether some record from a number on lends the text of an action.
fn lends_from(file: &[u8], action: u16, from: usize) -> bool
    ensures { serving.SomeFrom (files.lends_at file.now action) from (records.count file.now) result }
{
    (from..file.len() / RECORD).any(|i| lends_at(&CategoryRecord::new(file, i), action))
}

// Whether a record's text is all zero.
fn text_zero(borrower: &CategoryRecord) -> bool
    ensures { result ≡ faults.text_is borrower.now.file.now borrower.now.number 0 }
{
    let at = borrower.number * RECORD + TEXT_START;
    let low = tables::u64_at(borrower.file, at);
    let middle = tables::u64_at(borrower.file, at + 8);
    let high = tables::u64_at(borrower.file, at + 16);
    (low == 0) & (middle == 0) & (high == 0)
}

// The first record whose action is not above that of the record before it.
fn first_fall(file: &[u8]) -> Option<usize>
    ensures { lookup.IsFirst (λ i. not (faults.ascends file.now i)) (records.count file.now) result }
{
    (0..file.len() / RECORD).find(|&i| !CategoryRecord::new(file, i).ascends())
}

// The lowest faulty record. The one after the ascending records is faulty.
fn first_bad(file: &[u8]) -> Option<usize>
    ensures { lookup.IsFirst (files.faulty_at file.now) (records.count file.now) result }
{
    let fall = first_fall(file);
    let ordered = CategoryFile {
        bytes: file,
        ascending: fall.unwrap_or(file.len() / RECORD),
    };
    (0..ordered.ascending).find(|&i| ordered.bad(i)).or(fall)
}

// The check of one file: its length, then its records. Not by `tables::check_records`, since the ascending records are counted in between,
// and only once.
fn check_file(file: &[u8]) -> Result<(), TableFault>
    ensures { faults.checked result ≡ files.fault_of file.now }
{
    let Some(_) = tables::records(file.len(), RECORD, 0, 2000) else {
        return Err(TableFault::Size);
    };
    match first_bad(file) {
        Some(bad) => Err(TableFault::Record(bad)),
        None => Ok(()),
    }
}

// ---- the converted file

// Writes record i with the text of record s: its action, six zero bytes, that text.
fn put_with_text(file: &[u8], room: &mut [u8], i: usize, s: usize)
    requires { (i < records.count file.now) × (s < records.count file.now) × (length file.now ≤ length room.old) }
    ensures { room.new ≡ sets room.old (i * records.record_size) (conversion.with_text file.now i s) }
{
    let at = i * RECORD;
    stores::copy(file, at, room, at, 2);
    stores::put_bytes(room, at + 2, 6, 0);
    stores::copy(
        file,
        s * RECORD + TEXT_START,
        room,
        at + TEXT_START,
        TEXT_ROOM,
    );
}

// Writes record i of a valid file as it is in the converted one: whether it is rewritten. The lender is found by a binary search.
fn put_record(file: &[u8], room: &mut [u8], i: usize) -> bool
    requires { (files.valid file.now ≡ true) × (i < records.count file.now) × (length file.now ≤ length room.old) }
    ensures { (room.new ≡ sets room.old (i * records.record_size) (conversion.converted_record file.now i)) × (result ≡ files.borrows file.now i) }
{
    let record = CategoryRecord::new(file, i);
    if record.kind() != 1 {
        stores::copy(file, i * RECORD, room, i * RECORD, RECORD);
        return false;
    }
    let ordered = CategoryFile {
        bytes: file,
        ascending: file.len() / RECORD,
    };
    put_with_text(file, room, i, ordered.lower_bound(record.lender()));
    true
}

// Writes all records of a valid file: the number of those rewritten.
fn put_records(file: &[u8], room: &mut [u8]) -> usize
    requires { (files.valid file.now ≡ true) × (length file.now ≤ length room.old) }
    ensures { (room.new ≡ conversion.converted file.now ++ drop (length file.now) room.old) × (result ≡ conversion.rewritten file.now) }
{
    let mut rewritten: usize = 0;
    for i in 0..file.len() / RECORD {
        if put_record(file, room, i) {
            rewritten += 1;
        }
    }
    rewritten
}

// Converts a category file: the converted file stands at the start of the room, whose other bytes stay. A refused call writes nothing.
pub fn convert(file: &[u8], room: &mut [u8]) -> Result<usize, ConvertRefusal>
    ensures { results.answer_of result room.new ≡ answers.convert_answer file.now room.old }
{
    check_file(file)?;
    if room.len() < file.len() {
        return Err(ConvertRefusal::Short);
    }
    Ok(put_records(file, room))
}

// A refusal's number and record; no record is rewritten.
fn refused(number: u32, place: u64) -> Numbers
    ensures { result ≡ record { number = number; place = place; rewritten = 0 } }
{
    Numbers {
        number,
        place,
        rewritten: 0,
    }
}

// The numbers of an answer: how many records were rewritten, or why the file was not converted.
pub fn convert_numbers(answer: Result<usize, ConvertRefusal>) -> Numbers
    ensures { (result.number ≡ (results.found_of answer).number) × (result.place ≡ (results.found_of answer).place) × (result.rewritten ≡ results.rewritten_of answer) }
{
    match answer {
        Ok(rewritten) => Numbers {
            number: 0,
            place: 0,
            rewritten: rewritten as u64,
        },
        Err(ConvertRefusal::Table(fault)) => {
            let found = category::check_numbers(Err(fault));
            refused(found.number, found.place)
        }
        Err(ConvertRefusal::Short) => refused(12, 0),
    }
}

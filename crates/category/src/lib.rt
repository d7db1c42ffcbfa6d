// Category files: the check of a translation and a house file, the lookup in one file, and the label from both.
#![tactic(auto)]

ghost use Rattle.std.specs.Prelude.{◌≡◌, ◌&&◌, ◌+◌, ◌≤◌, ◌<◌, length, MatchOption};
ghost use Rattle.category.specs.Records as records;
ghost use Rattle.category.specs.Faults as faults;
ghost use Rattle.category.specs.Labels as labels;
ghost use Rattle.category.specs.Serving as serving;

use tables::TableFault;

// The bytes of a record.
pub const RECORD: usize = 32;

// Where its text starts.
pub const TEXT_START: usize = 8;

// The bytes that its text has, with the padding.
pub const TEXT_ROOM: usize = 24;

// A check's answer in document 01's numbers, for the C interface: 0 where the files are good, 9, or 10 with the record.
#[derive(Clone, Copy)]
pub struct Numbers {
    pub number: u32,
    pub place: u64,
}

// Where a label stands, as the C interface has it: file 0 is the translation and 1 the house file; all zero for no label.
#[derive(Clone, Copy)]
pub struct LabelPlace {
    pub file: u32,
    pub offset: u32,
    pub length: u32,
}

// A text's offset in its file, and its length.
#[derive(Clone, Copy)]
struct TextPart {
    offset: usize,
    size: usize,
}

// A record of a file, by its number.
#[derive(Clone, Copy)]
pub struct CategoryRecord<'a> {
    pub file: &'a [u8],
    pub number: usize,
    pub ghost inside: { number < records.count file.now },
}

impl<'a> CategoryRecord<'a> {
    // The record with a number.
    pub fn new(file: &'a [u8], number: usize) -> CategoryRecord<'a>
        requires { number < records.count file.now }
        ensures { (result.file.now ≡ file.now) × (result.number ≡ number) }
    {
        CategoryRecord { file, number }
    }

    // Its action.
    pub fn action(&self) -> u16
        ensures { result ≡ records.action_at self.now.file.now self.now.number }
    {
        tables::u16_at(self.file, self.number * RECORD)
    }

    // Its kind byte.
    pub fn kind(&self) -> u8
        ensures { result ≡ records.kind_at self.now.file.now self.now.number }
    {
        self.file[self.number * RECORD + 2]
    }

    // Its lender.
    pub fn lender(&self) -> u16
        ensures { result ≡ records.lender_at self.now.file.now self.now.number }
    {
        tables::u16_at(self.file, self.number * RECORD + 4)
    }

    // A byte of its text.
    fn text_byte(&self, j: usize) -> u8
        requires { j < records.text_room }
        ensures { result ≡ records.text_byte self.now.file.now self.now.number j }
    {
        self.file[self.number * RECORD + TEXT_START + j]
    }

    // How many bytes of its text stand before the first zero byte.
    fn text_length(&self) -> usize
        ensures { (result ≡ records.text_length self.now.file.now self.now.number) × (result ≤ records.text_room) }
    {
        (0..TEXT_ROOM)
            .find(|&j| self.text_byte(j) == 0)
            .unwrap_or(TEXT_ROOM)
    }

    // Whether its bytes that have no use are zero.
    pub fn spare_zero(&self) -> bool
        ensures { result ≡ records.spare_zero self.now.file.now self.now.number }
    {
        let spare = self.file[self.number * RECORD + 3];
        let pair = tables::u16_at(self.file, self.number * RECORD + 6);
        (spare == 0) & (pair == 0)
    }

    // Whether it has an action.
    pub fn has_action(&self, action: u16) -> bool
        ensures { result ≡ records.has_action self.now.file.now action self.now.number }
    {
        self.action() == action
    }

    // Whether it has an action or a greater one.
    fn reaches(&self, action: u16) -> bool
        ensures { result ≡ labels.reaches self.now.file.now action self.now.number }
    {
        action <= self.action()
    }

    // Whether its action is above that of the record before it.
    pub fn ascends(&self) -> bool
        ensures { result ≡ faults.ascends self.now.file.now self.now.number }
    {
        if self.number == 0 {
            return true;
        }
        CategoryRecord::new(self.file, self.number - 1).action() < self.action()
    }

    // Whether its text is 1 to 24 good bytes, then zeros. The two runs overlap.
    fn text_good(&self) -> bool
        ensures { result ≡ faults.text_good self.now.file.now self.now.number }
    {
        let start = self.number * RECORD + TEXT_START;
        let front = run_follows(&self.file[start..start + 17]);
        let back = run_follows(&self.file[start + 7..start + 24]);
        good_byte(self.text_byte(0)) & front & back
    }

    // Whether it is good as one of kind 0, but for its kind byte: the lender is 0, and the text is good.
    pub fn own_good(&self) -> bool
        ensures { result ≡ faults.own_good self.now.file.now self.now.number }
    {
        (self.lender() == 0) & self.text_good()
    }

    // Whether it is faulty: a kind byte that is not 0 is a fault. The text is looked at last, since that costs most.
    fn bad(&self) -> bool
        ensures { result ≡ faults.record_bad self.now.file.now self.now.number }
    {
        if self.ascends() & self.spare_zero() & (self.kind() == 0) {
            return !self.own_good();
        }
        true
    }
}

// A byte that a text may have.
fn good_byte(b: u8) -> bool
    ensures { result ≡ faults.good_byte b }
{
    ((0x20 <= b) & (b <= 0x7E)) | (0xA0 <= b)
}

// Whether a byte may stand after another in a text: zero, or a good byte after one that is not zero.
fn follows(before: u8, b: u8) -> bool
    ensures { result ≡ serving.follows before b }
{
    (b == 0) | ((before != 0) & good_byte(b))
}

// Whether each of the 16 bytes after the first of a run may stand after the byte before it. The loop has no early exit, so that it compiles to
// a few vector instructions.
fn run_follows(run: &[u8]) -> bool
    requires { length run.now ≡ 17 }
    ensures { result ≡ serving.run_follows run.now }
{
    let mut ok = true;
    for j in 0..16 {
        ok &= follows(run[j], run[j + 1]);
    }
    ok
}

// ---- searches

// Where the search for an action stops: the first record whose action is equal or greater.
fn stop(file: &[u8], action: u16) -> Option<usize>
    ensures { serving.IsFirst (labels.reaches file.now action) (records.count file.now) result }
{
    (0..file.len() / RECORD).find(|&number| CategoryRecord::new(file, number).reaches(action))
}

// The record where the search for an action stops, if that has the action.
fn find<'a>(file: &'a [u8], action: u16) -> Option<CategoryRecord<'a>>
    ensures { serving.IsAnswer file.now action result (λ r. (r.file.now ≡ file.now) × (labels.record_of file.now action ≡ r.number)) }
{
    let found = CategoryRecord::new(file, stop(file, action)?);
    if found.has_action(action) {
        Some(found)
    } else {
        None
    }
}

// ---- faults

// The check of one file: its length, then its records.
fn check_file(file: &[u8]) -> Result<(), TableFault>
    ensures { faults.checked result ≡ faults.file_fault file.now }
{
    tables::check_records(
        file.len(),
        RECORD,
        0,
        2000,
        |number| CategoryRecord::new(file, number).bad(),
    )?;
    Ok(())
}

// The check of both files: the translation's refusal comes before the house file's.
pub fn check(translation: &[u8], house: &[u8]) -> Result<(), TableFault>
    ensures { faults.checked result ≡ faults.check_fault translation.now house.now }
{
    check_file(translation)?;
    check_file(house)
}

// A check's answer in document 01's numbers.
pub fn check_numbers(answer: Result<(), TableFault>) -> Numbers
    ensures { (result.number ≡ (faults.checked answer).number) × (result.place ≡ (faults.checked answer).place) }
{
    match answer {
        Ok(()) => Numbers {
            number: 0,
            place: 0,
        },
        Err(TableFault::Size) => Numbers {
            number: 9,
            place: 0,
        },
        Err(TableFault::Record(record)) => Numbers {
            number: 10,
            place: record as u64,
        },
    }
}

// ---- labels

// The part of a file that is the text of an action, where it has the action.
fn part(file: &[u8], action: u16) -> Option<TextPart>
    ensures { serving.IsAnswer file.now action result (λ p. (p.offset ≡ labels.text_offset file.now action) × (p.size ≡ labels.text_size file.now action)) }
{
    let found = find(file, action)?;
    Some(TextPart {
        offset: found.number * RECORD + TEXT_START,
        size: found.text_length(),
    })
}

// The text of an action, where the file has the action.
fn text_in<'a>(file: &'a [u8], action: u16) -> Option<&'a [u8]>
    ensures bytes { serving.IsAnswer file.now action result (λ t. t.now ≡ labels.text_of file.now action) }
    ensures part { MatchOption result (Unit {0}) (λ t. (t.ref_ptr.0 ≡ file.entry.ref_ptr.0) × (t.ref_ptr.1 ≡ labels.text_offset file.now action + file.entry.ref_ptr.1)) }
{
    let p = part(file, action)?;
    Some(&file[p.offset..p.offset + p.size])
}

// The text of an action in one file, in any condition: a part of the file, empty where there is none.
pub fn text<'a>(file: &'a [u8], action: u16) -> &'a [u8]
    ensures bytes { result.now ≡ labels.text_of file.now action }
    ensures part { (result.ref_ptr.0 ≡ file.entry.ref_ptr.0) × (result.ref_ptr.1 ≡ labels.text_offset file.now action + file.entry.ref_ptr.1) }
{
    text_in(file, action).unwrap_or(&file[..0])
}

// Whether neither file is faulty.
#[tactic(auto, using(crate::proofs::Answers::both_good))]
fn both_good(translation: &[u8], house: &[u8]) -> bool
    ensures { result ≡ (faults.faultless translation.now && faults.faultless house.now) }
{
    check(translation, house).is_ok()
}

// The place of an action's text in one file, which has the given number.
fn place_in(file: &[u8], number: u32, action: u16) -> Option<LabelPlace>
    requires { records.count file.now ≤ 2000 }
    ensures { serving.IsAnswer file.now action result (λ p. p ≡ labels.place_in number file.now action) }
{
    let p = part(file, action)?;
    Some(LabelPlace {
        file: number,
        offset: p.offset as u32,
        length: p.size as u32,
    })
}

// The place of an action's label: all zero where a file is faulty or there is no record.
pub fn place(translation: &[u8], house: &[u8], action: u16) -> LabelPlace
    ensures place { result ≡ labels.place_of translation.now house.now action }
    ensures bytes { labels.bytes_at translation.now house.now result ≡ labels.label_of translation.now house.now action }
{
    if both_good(translation, house) {
        if let Some(translated) = place_in(translation, 0, action) {
            return translated;
        }
        if let Some(untranslated) = place_in(house, 1, action) {
            return untranslated;
        }
    }
    LabelPlace {
        file: 0,
        offset: 0,
        length: 0,
    }
}

// The label of an action: a part of one of the files, empty where a file is faulty or there is no record.
pub fn label<'a>(translation: &'a [u8], house: &'a [u8], action: u16) -> &'a [u8]
    ensures bytes { result.now ≡ labels.label_of translation.now house.now action }
    ensures part { let p = labels.place_of translation.now house.now action in (result.ref_ptr.0 ≡ labels.file_of p.file translation.entry.ref_ptr.0 house.entry.ref_ptr.0) × (result.ref_ptr.1 ≡ p.offset + labels.file_of p.file translation.entry.ref_ptr.1 house.entry.ref_ptr.1) }
{
    if both_good(translation, house) {
        if let Some(translated) = text_in(translation, action) {
            return translated;
        }
        if let Some(untranslated) = text_in(house, action) {
            return untranslated;
        }
    }
    &translation[..0]
}

// The reader: places, marking and transition records of a PNML text, the records put into lent room.
#![tactic(auto)]

ghost use Rattle.std.specs.Prelude.{◌≡◌, Ok, Err};
ghost use Rattle.pnml_shape.specs.Theorem as theorem;
ghost use Rattle.pnml_scan.specs.Serving as scans;
ghost use Rattle.pnml_read.specs.Answer as answers;

use pnml_scan::Left;
use pnml_state::Entries;
use pnml_turn::Stopped;

// What a text gives: how many places, their marking, and the bytes of the records.
#[derive(Clone, Copy)]
pub struct Found {
    pub places: u32,
    pub marking: u64,
    pub length: usize,
}

// Why a text is not read. `answer_of` of specs/ has document 02's numbers: the text leaves the shape at an offset (13), no or more than 64
// places (1) or transitions (2), a room that is too short (12).
#[derive(Clone, Copy, PartialEq, Eq)]
pub enum ReadRefusal {
    Shape(usize),
    Places,
    Transitions,
    Short,
}

impl From<Left> for ReadRefusal {
    ghost use Rattle.pnml_read.specs.Answer.{of_left};

    ghost from_gives = { λ left why. why ≡ of_left left };

    fn from(left: Left) -> ReadRefusal {
        ReadRefusal::Shape(left.at)
    }
}

impl From<Stopped> for ReadRefusal {
    ghost use Rattle.pnml_read.specs.Answer.{of_stopped};

    ghost from_gives = { λ stop why. why ≡ of_stopped stop };

    fn from(stop: Stopped) -> ReadRefusal {
        ReadRefusal::from(Left { at: stop.at })
    }
}

// An answer in document 02's numbers, for the C interface: 0 where granted; the offset as its place; the rest 0 where refused.
#[derive(Clone, Copy)]
pub struct Numbers {
    pub number: u32,
    pub place: u64,
    pub places: u32,
    pub marking: u64,
    pub length: u64,
}

// Whether a number is 1 to 64.
#[tactic(auto, unfolding(crate::specs::Answer::few))]
fn few(n: usize) -> bool
    ensures { result ≡ answers.few n }
{
    (1 <= n) & (n <= 64)
}

// Reads the rest of a text after its opening.
fn read_opened(text: &[u8], at: usize, room: &mut [u8]) -> Result<Found, ReadRefusal>
    requires { scans.Opened text.now (Ok at) }
    ensures { answers.answer_of result room.new ≡ answers.read_answer (theorem.reading text.now) room.old }
{
    let mut kept = Entries {
        pre: [0; 64],
        post: [0; 64],
        action: [0; 64],
    };
    let read = pnml_turn::read_elements(text, at, &mut kept)?;
    if !few(read.places) {
        return Err(ReadRefusal::Places);
    }
    if !few(read.transitions) {
        return Err(ReadRefusal::Transitions);
    }
    let length = read.transitions * net::RECORD;
    if room.len() < length {
        return Err(ReadRefusal::Short);
    }
    pnml_records::put_records(room, read.transitions, &kept);
    Ok(Found {
        places: read.places as u32,
        marking: read.marking,
        length,
    })
}

// Reads a text: places, marking and the records, which stand at the start of the room; the rest of it stays. A refused call writes nothing.
pub fn read(text: &[u8], room: &mut [u8]) -> Result<Found, ReadRefusal>
    ensures answer { answers.answer_of result room.new ≡ answers.read_answer (theorem.reading text.now) room.old }
    ensures exact { theorem.Right text.now (theorem.reading text.now) }
{
    let at = pnml_scan::opening(text)?;
    read_opened(text, at, room)
}

// A refusal's number and place.
fn refused(number: u32, place: u64) -> Numbers
    ensures { result ≡ record { number = number; place = place; places = 0; marking = 0; length = 0 } }
{
    Numbers {
        number,
        place,
        places: 0,
        marking: 0,
        length: 0,
    }
}

// The numbers of a refusal.
fn refusal_numbers(why: ReadRefusal) -> Numbers
    ensures { result ≡ record { number = answers.number_of (Err why); place = answers.place_of (Err why); places = 0; marking = 0; length = 0 } }
{
    match why {
        ReadRefusal::Shape(at) => refused(13, at as u64),
        ReadRefusal::Places => refused(1, 0),
        ReadRefusal::Transitions => refused(2, 0),
        ReadRefusal::Short => refused(12, 0),
    }
}

// The numbers of an answer.
pub fn read_numbers(r: Result<Found, ReadRefusal>) -> Numbers
    ensures { (result.number ≡ answers.number_of r) × (result.place ≡ answers.place_of r) × (result.places ≡ (answers.found_of r).places) × (result.marking ≡ (answers.found_of r).marking) × (result.length ≡ (answers.found_of r).length) }
{
    match r {
        Ok(f) => Numbers {
            number: 0,
            place: 0,
            places: f.places,
            marking: f.marking,
            length: f.length as u64,
        },
        Err(why) => refusal_numbers(why),
    }
}

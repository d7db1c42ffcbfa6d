// Two nets with their markings side by side, as one net whose records are written to lent room.
#![tactic(auto)]

ghost use Rattle.std.specs.Prelude.{◌≡◌, ◌+◌, ◌*◌, ◌≤◌, length};
ghost use Rattle.std.proofs.lemmas.List.Edits.{sets};
ghost use Rattle.tables.specs.Lists.{laid};
ghost use Rattle.net.specs.Table.{transition_size, transitions};
ghost use Rattle.net.specs.Answer.{no_fault};
ghost use Rattle.join.specs.Joint as joint;
ghost use Rattle.join.specs.Answer as answers;
ghost use Rattle.join.specs.Result as results;
ghost use Rattle.join.specs.Serving as serving;
ghost use Rattle.join.specs.declared.JoinRefusal.TheVariants.{Half as OfHalf};

use net::{RECORD, Refusal};

// The joint net: its places, its marking and the bytes of its records.
#[derive(Clone, Copy)]
pub struct Joint {
    pub places: u32,
    pub marking: u64,
    pub length: usize,
}

// Why the nets are not joined: what loading one of the halves meets, the first before the second (1, 2, 3, 7), places or transitions that add up to
// more than 64 (15), a room that is shorter than the records (12). `numbers_of` of specs/ has the documents' numbers.
#[derive(Clone, Copy)]
pub enum JoinRefusal {
    Half(Refusal),
    Large,
    Short,
}

impl From<Refusal> for JoinRefusal {
    ghost from_gives = { λ refusal why. why ≡ OfHalf refusal };

    fn from(refusal: Refusal) -> JoinRefusal {
        JoinRefusal::Half(refusal)
    }
}

// An answer in the documents' numbers, for the C interface: 0 where granted; the record as its place; the joint places, marking and bytes of the
// records, 0 where refused.
#[derive(Clone, Copy)]
pub struct Numbers {
    pub number: u32,
    pub place: u64,
    pub places: u32,
    pub marking: u64,
    pub length: u64,
}

// A net with its marking, as it is handed over.
#[derive(Clone, Copy)]
struct Half<'a> {
    places: u32,
    marking: u64,
    table: &'a [u8],
}

// ---- the joint records

// Puts record t of the second half at an offset of the room, its sets shifted by the first's places. Number and offset stay: they are how
// `shifted_record` of specs/ names a record, and a slice of each side would be no plainer.
fn put_record(places: u32, second: &[u8], t: usize, room: &mut [u8], at: usize)
    requires { serving.Fits places second.now × (t * transition_size + transition_size ≤ length second.now) × (at + transition_size ≤ length room.old) }
    ensures { room.new ≡ sets room.old at (joint.shifted_record places second.now t) }
{
    let from = t * RECORD;
    let pre = tables::u64_at(second, from);
    let post = tables::u64_at(second, from + 8);
    let shifted_pre = bitset::shift(pre, places);
    let shifted_post = bitset::shift(post, places);
    stores::put_bytes(room, at, 8, shifted_pre);
    stores::put_bytes(room, at + 8, 8, shifted_post);
    stores::copy(second, from + 16, room, at + 16, 8);
}

// Puts all records of the second half from an offset of the room on.
fn put_records(places: u32, second: &[u8], room: &mut [u8], at: usize)
    requires { serving.Fits places second.now × (at + length second.now ≤ length room.old) }
    ensures { room.new ≡ sets room.old at (laid (joint.shifted_record places second.now) (transitions second.now)) }
{
    for t in 0..second.len() / RECORD {
        put_record(places, second, t, room, at + t * RECORD);
    }
}

// ---- the answer

// Joins two halves that loading finds no fault in and that fit into one net, where the room is long enough.
fn join_fitting(first: Half, second: Half, room: &mut [u8]) -> Result<Joint, JoinRefusal>
    requires { let f = serving.marked_by first in let s = serving.marked_by second in (answers.half_fault f ≡ no_fault) × (answers.half_fault s ≡ no_fault) × (answers.size_fault f s ≡ no_fault) }
    ensures { results.answer_of result room.new ≡ answers.join_answer (serving.marked_by first.entry) (serving.marked_by second.entry) room.old }
{
    let length = first.table.len() + second.table.len();
    if room.len() < length {
        return Err(JoinRefusal::Short);
    }
    let places = first.places + second.places;
    let marking = bitset::union(first.marking, bitset::shift(second.marking, first.places));
    stores::copy(first.table, 0, room, 0, first.table.len());
    put_records(first.places, second.table, room, first.table.len());
    Ok(Joint {
        places,
        marking,
        length,
    })
}

// Joins two halves that loading finds no fault in.
fn join_loaded(first: Half, second: Half, room: &mut [u8]) -> Result<Joint, JoinRefusal>
    requires { (answers.half_fault (serving.marked_by first) ≡ no_fault) × (answers.half_fault (serving.marked_by second) ≡ no_fault) }
    ensures { results.answer_of result room.new ≡ answers.join_answer (serving.marked_by first.entry) (serving.marked_by second.entry) room.old }
{
    let transitions = first.table.len() / RECORD + second.table.len() / RECORD;
    if first.places + second.places > 64 || transitions > 64 {
        return Err(JoinRefusal::Large);
    }
    join_fitting(first, second, room)
}

// Sets two nets with their markings side by side: the joint records stand at the start of the room, whose other bytes stay. The first half's 1, 2,
// 3 and 7, then the second's, then 15, then 12; a refused call writes nothing.
pub fn join(
    first_places: u32,
    first_marking: u64,
    first: &[u8],
    second_places: u32,
    second_marking: u64,
    second: &[u8],
    room: &mut [u8],
) -> Result<Joint, JoinRefusal>
    ensures { results.answer_of result room.new ≡ answers.join_answer (joint.marked first_places first_marking first.now) (joint.marked second_places second_marking second.now) room.old }
{
    net::check_load(first_places, first_marking, first)?;
    net::check_load(second_places, second_marking, second)?;
    let first = Half {
        places: first_places,
        marking: first_marking,
        table: first,
    };
    let second = Half {
        places: second_places,
        marking: second_marking,
        table: second,
    };
    join_loaded(first, second, room)
}

// ---- the answer in numbers

// The numbers of a refusal, with no joint net.
fn refused(refusal: JoinRefusal) -> Numbers
    ensures { result ≡ results.refused_by (results.fault_of refusal) }
{
    let (number, place) = match refusal {
        JoinRefusal::Half(why) => {
            let said = net::refusal_numbers(why);
            (said.number, said.place)
        }
        JoinRefusal::Large => (15, 0),
        JoinRefusal::Short => (12, 0),
    };
    Numbers {
        number,
        place,
        places: 0,
        marking: 0,
        length: 0,
    }
}

// The numbers of an answer.
pub fn join_numbers(answer: Result<Joint, JoinRefusal>) -> Numbers
    ensures { result ≡ results.numbers_of answer }
{
    match answer {
        Ok(joint) => Numbers {
            number: 0,
            place: 0,
            places: joint.places,
            marking: joint.marking,
            length: joint.length as u64,
        },
        Err(refusal) => refused(refusal),
    }
}

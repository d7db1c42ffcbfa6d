// The writer: the PNML text of a net with a marking, put into lent room.
#![tactic(auto)]

ghost use Rattle.std.specs.Prelude.{◌≡◌};
ghost use Rattle.pnml_write.specs.Answer as answers;

use net::Refusal;

// Why there is no text. `refused` of specs/ has the documents' numbers.
#[derive(Clone, Copy)]
pub enum WriteRefusal {
    Net(Refusal),
    Short,
}

impl From<Refusal> for WriteRefusal {
    ghost use Rattle.pnml_write.specs.declared.WriteRefusal.TheVariants.{Net};

    ghost from_gives = { λ refusal why. why ≡ Net refusal };

    fn from(refusal: Refusal) -> WriteRefusal {
        WriteRefusal::Net(refusal)
    }
}

// An answer in the documents' numbers, for the C interface: 0 where granted; the record as its place; the length of the text, 0 where refused.
#[derive(Clone, Copy)]
pub struct Numbers {
    pub number: u32,
    pub place: u64,
    pub length: u64,
}

// Writes the text of a net with a marking at the start of the room, whose other bytes stay: its length, or the first of 1, 2, 3, 7 and 12, and
// then the whole room stays. Where the room would do for the longest text, the length is not asked first.
pub fn write(places: u32, marking: u64, net: &[u8], room: &mut [u8]) -> Result<usize, WriteRefusal>
    ensures { answers.answer_of result room.new ≡ answers.write_answer places marking net.now room.old }
{
    net::check_load(places, marking, net)?;
    if 159 + 71 * (places as usize) + 5608 * (net.len() / net::RECORD) <= room.len() {
        return Ok(pnml_put::text(room, places, marking, net));
    }
    if room.len() < pnml_length::text_length(places, marking, net) {
        return Err(WriteRefusal::Short);
    }
    Ok(pnml_put::text(room, places, marking, net))
}

// A refusal's number and record; the length is 0.
fn refused_numbers(why: WriteRefusal) -> Numbers
    ensures { (result.number ≡ (answers.refused why).number) × (result.place ≡ (answers.refused why).place) × (result.length ≡ 0) }
{
    match why {
        WriteRefusal::Net(why) => {
            let n = net::refusal_numbers(why);
            Numbers {
                number: n.number,
                place: n.place,
                length: 0,
            }
        }
        WriteRefusal::Short => Numbers {
            number: 12,
            place: 0,
            length: 0,
        },
    }
}

// The writer's number, record and length.
pub fn written_numbers(w: Result<usize, WriteRefusal>) -> Numbers
    ensures { (result.number ≡ (answers.found_of w).number) × (result.place ≡ (answers.found_of w).place) × (result.length ≡ answers.length_of w) }
{
    match w {
        Ok(length) => Numbers {
            number: 0,
            place: 0,
            length: length as u64,
        },
        Err(why) => refused_numbers(why),
    }
}

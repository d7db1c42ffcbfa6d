// The walk: a net of its own, a start marking, the present marking, the count of firings since load or reset, and the stored set of the
// transitions enabled at the present marking.
#![tactic(auto)]

ghost use Rattle.std.specs.Prelude.{◌≡◌, ◌≤◌};
ghost use Rattle.tables.specs.Below as below;
ghost use Rattle.walk.specs.declared.WalkRefusal.TheVariants.{Net as InNet};
ghost use Rattle.walk.specs.State as state;
ghost use Rattle.walk.specs.Calls as calls;

use net::{Net, Numbers, Refusal};

// The most firings that a walk counts.
const MOST: u32 = 65535;

// A walk by value. Being loaded is a condition of the fields (`loaded` of specs/); the net's entries and bits from transitions on are not looked at.
// No call's answer depends on its optional transitions. `next` is the stored set: load, fire and reset leave Next there, and only read looks at it.
#[derive(Clone, Copy)]
pub struct Walk {
    pub net: Net,
    pub start: u64,
    pub present: u64,
    pub count: u32,
    pub next: u64,
}

// Why a call is refused: nothing is loaded, what the net meets in loading or firing, or a full count. `refused_by` of specs/ has document 01's numbers.
#[derive(Clone, Copy)]
pub enum WalkRefusal {
    Unloaded,
    Net(Refusal),
    Full,
}

impl From<Refusal> for WalkRefusal {
    ghost from_gives = { λ refusal why. why ≡ InNet refusal };

    fn from(refusal: Refusal) -> WalkRefusal {
        WalkRefusal::Net(refusal)
    }
}

// The answer of load, fire and reset, and the walk after the call; a refused call gives the walk back as it came, so it stands beside the answer.
#[derive(Clone, Copy)]
pub struct Outcome {
    pub answer: Result<(), WalkRefusal>,
    pub walk: Walk,
}

// What is read: the present marking, the count and the stored set.
#[derive(Clone, Copy)]
pub struct Reading {
    pub marking: u64,
    pub count: u32,
    pub next: u64,
}

// An answer in document 01's numbers: 0 where granted, the record and, with 41, both sets; the marking is 0.
pub fn answer_numbers(answer: Result<(), WalkRefusal>) -> Numbers
    ensures { let a = calls.answer_of answer in (result.number ≡ a.found.number) × (result.place ≡ a.found.place) × (result.marking ≡ a.marking) × (result.missing ≡ a.missing) × (result.occupied ≡ a.occupied) }
{
    let Err(refusal) = answer else {
        return net::in_numbers(0, 0, 0, 0);
    };
    match refusal {
        WalkRefusal::Unloaded => net::in_numbers(40, 0, 0, 0),
        WalkRefusal::Net(why) => net::refusal_numbers(why),
        WalkRefusal::Full => net::in_numbers(42, 0, 0, 0),
    }
}

// Whether the sets of each transition lie within the places.
fn sets_within(net: &Net) -> bool
    requires { net.now.transitions ≤ 64 }
    ensures { result ≡ below.every_below (state.sets_within net.now) net.now.transitions }
{
    (0..net.transitions as usize).all(|t| bitset::within(net.places, net.pre[t])
        && bitset::within(net.places, net.post[t]))
}

// Whether the net of a walk is in good condition.
fn net_good(net: &Net) -> bool
    ensures { result ≡ state.net_good net.now }
{
    (1..=64).contains(&net.places) && (1..=64).contains(&net.transitions) && sets_within(net)
}

impl Walk {
    // A new walk: all zero, and so not loaded.
    pub fn new() -> Walk
        ensures { result ≡ state.empty }
    {
        let net = Net {
            places: 0,
            transitions: 0,
            pre: [0; 64],
            post: [0; 64],
            action: [0; 64],
            optional: 0,
        };
        Walk {
            net,
            start: 0,
            present: 0,
            count: 0,
            next: 0,
        }
    }

    // Whether the walk is loaded: its net, its markings and its count are in good condition.
    fn loaded(&self) -> bool
        ensures { result ≡ state.loaded self.now }
    {
        net_good(&self.net)
            && bitset::within(self.net.places, self.start)
            && bitset::within(self.net.places, self.present)
            && (self.count <= MOST)
    }

    // Goes to a present marking and a count, and stores the set for that marking.
    fn move_to(&mut self, present: u64, count: u32)
        requires { self.old.net.transitions ≤ 64 }
        ensures { self.new ≡ state.moved_to self.old present count }
    {
        self.present = present;
        self.count = count;
        self.next = self.net.next(present);
    }

    // ---- load, fire and reset in place; a refused one leaves the walk as it was

    // Loads a net with a marking, whatever was loaded before.
    fn try_load(&mut self, places: u32, marking: u64, net: &[u8]) -> Result<(), WalkRefusal>
        ensures { (calls.answer_of result ≡ calls.load_answer places marking net.now) × (self.new ≡ calls.load_walk self.old places marking net.now) }
    {
        net::check_load(places, marking, net)?;
        let net = net::decode(places, net);
        let next = net.next(marking);
        *self = Walk {
            net,
            start: marking,
            present: marking,
            count: 0,
            next,
        };
        Ok(())
    }

    // Fires a transition, by the net and the present marking whatever is stored.
    fn try_fire(&mut self, transition: u32) -> Result<(), WalkRefusal>
        ensures { (calls.answer_of result ≡ calls.fire_answer self.old transition) × (self.new ≡ calls.fire_walk self.old transition) }
    {
        if !self.loaded() {
            return Err(WalkRefusal::Unloaded);
        }
        if self.net.transitions <= transition {
            return Err(Refusal::Absent.into());
        }
        let t = transition as usize;
        let pre = self.net.pre[t];
        let post = self.net.post[t];
        if !net::enabled_by(pre, post, self.present) {
            return Err(net::disabled_by(pre, post, self.present).into());
        }
        if MOST <= self.count {
            return Err(WalkRefusal::Full);
        }
        let present = net::fired_by(pre, post, self.present);
        self.move_to(present, self.count + 1);
        Ok(())
    }

    // Goes back to the start marking.
    fn try_reset(&mut self) -> Result<(), WalkRefusal>
        ensures { (calls.answer_of result ≡ calls.loaded_answer self.old) × (self.new ≡ calls.reset_walk self.old) }
    {
        if !self.loaded() {
            return Err(WalkRefusal::Unloaded);
        }
        self.move_to(self.start, 0);
        Ok(())
    }

    // ---- the calls, by value

    // Loads a net with a marking, whatever was loaded before: granted, or the first of 1 (places), 2, 3 and 7.
    pub fn load(mut self, places: u32, marking: u64, net: &[u8]) -> Outcome
        ensures { (calls.answer_of result.answer ≡ calls.load_answer places marking net.now) × (result.walk ≡ calls.load_walk self places marking net.now) }
    {
        let answer = self.try_load(places, marking, net);
        Outcome { answer, walk: self }
    }

    // Fires a transition: granted, or the first of 40, 8, 41, with both sets, and 42.
    pub fn fire(mut self, transition: u32) -> Outcome
        ensures { (calls.answer_of result.answer ≡ calls.fire_answer self transition) × (result.walk ≡ calls.fire_walk self transition) }
    {
        let answer = self.try_fire(transition);
        Outcome { answer, walk: self }
    }

    // The start marking again, with the count at 0: granted, or 40.
    pub fn reset(mut self) -> Outcome
        ensures { (calls.answer_of result.answer ≡ calls.loaded_answer self) × (result.walk ≡ calls.reset_walk self) }
    {
        let answer = self.try_reset();
        Outcome { answer, walk: self }
    }

    // The present marking, the count and the stored set as it stands: or 40.
    pub fn read(self) -> Result<Reading, WalkRefusal>
        ensures { (calls.answer_of result ≡ calls.loaded_answer self) × (calls.told (λ r. r.marking) result ≡ calls.read_marking self) × (calls.told (λ r. r.count) result ≡ calls.read_count self) × (calls.told (λ r. r.next) result ≡ calls.read_next self) }
    {
        if self.loaded() {
            Ok(Reading {
                marking: self.present,
                count: self.count,
                next: self.next,
            })
        } else {
            Err(WalkRefusal::Unloaded)
        }
    }

    // What is read, in numbers: all 0 where it is refused.
    pub fn read_numbers(self) -> Reading
        ensures { (result.marking ≡ calls.read_marking self) × (result.count ≡ calls.read_count self) × (result.next ≡ calls.read_next self) }
    {
        match self.read() {
            Ok(reading) => reading,
            Err(_) => Reading {
                marking: 0,
                count: 0,
                next: 0,
            },
        }
    }
}

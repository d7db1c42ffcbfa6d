// The samples of a walk: from a walk to start with, the calls of a list one after the other; what each answers, and what is read after it.
#![tactic(auto)]

ghost use Rattle.std.specs.Prelude.{◌≡◌, get_or, replicate};
ghost use Rattle.walk.specs.Calls as calls;
ghost use Rattle.walk.specs.History as history;
ghost use Rattle.sample_walks.specs.declared.Call.TheVariants.{Fire};
ghost use Rattle.sample_walks.specs.Samples as samples;

use net::Numbers;
use walk::{Outcome, Walk};

// A call. R is loaded with 3 places, at marking 3 or beyond the places, 1→2 with 2 places at marking 1, R with t1 optional as R at marking 3, and
// three independent transitions with 6 places at marking 21.
#[derive(Clone, Copy)]
pub enum Call {
    Fire(u32),
    Reset,
    LoadR,
    LoadBeyond,
    LoadForward,
    LoadOptional,
    LoadThree,
}

// The fields of a walk filled in by hand. Its other fields are net R's; `pre` is the pre set of t2, `post` the post set of t1.
#[derive(Clone, Copy)]
pub struct Hand {
    pub places: u32,
    pub transitions: u32,
    pub pre: u64,
    pub post: u64,
    pub optional: u64,
    pub start: u64,
    pub present: u64,
    pub count: u32,
    pub next: u64,
}

// The walks to start with: a new one, R after 65,535 firings of t0, and one filled in by hand.
#[derive(Clone, Copy)]
pub enum Start {
    New,
    Full,
    ByHand(Hand),
}

// What is read: document 01's number and record, marking, count and stored set.
#[derive(Clone, Copy)]
pub struct Seen {
    pub number: u32,
    pub place: u64,
    pub marking: u64,
    pub count: u32,
    pub next: u64,
}

// What a walk carries of a transition.
#[derive(Clone, Copy)]
pub struct Fields {
    pub pre: u64,
    pub post: u64,
    pub action: u16,
}

// ---- the walk

// Makes one call.
fn make(walk: Walk, call: Call) -> Outcome
    ensures { (calls.answer_of result.answer ≡ history.answered walk (samples.call_of call)) × (result.walk ≡ history.called walk (samples.call_of call)) }
{
    let net = sample_nets::net_r();
    match call {
        Call::Fire(transition) => walk.fire(transition),
        Call::Reset => walk.reset(),
        Call::LoadR => walk.load(3, 3, &net),
        Call::LoadBeyond => walk.load(3, 8, &net),
        Call::LoadForward => walk.load(2, 1, &sample_nets::transition(1, 2, 7)),
        Call::LoadOptional => walk.load(3, 3, &sample_nets::net_optional(1)),
        Call::LoadThree => walk.load(6, 21, &sample_nets::net_three()),
    }
}

// Fires transition 0 some times.
fn fire_often(walk: Walk, times: u32) -> Walk
    ensures { result ≡ history.fire_all walk (replicate times 0) }
{
    let mut now = walk;
    for _ in 0..times {
        let outcome = now.fire(0);
        now = outcome.walk;
    }
    now
}

// R after 65,535 firings of t0.
fn full() -> Walk
    ensures { result ≡ samples.full }
{
    let outcome = make(Walk::new(), Call::LoadR);
    fire_often(outcome.walk, 65535)
}

// The walk with these fields.
fn by_hand(hand: Hand) -> Walk
    ensures { result ≡ samples.by_hand hand }
{
    let mut net = Walk::new().net;
    net.places = hand.places;
    net.transitions = hand.transitions;
    net.pre[0] = 1;
    net.pre[1] = 2;
    net.pre[2] = hand.pre;
    net.post[0] = 1;
    net.post[1] = hand.post;
    net.action[0] = 1;
    net.action[1] = 2;
    net.action[2] = 3;
    net.optional = hand.optional;
    Walk {
        net,
        start: hand.start,
        present: hand.present,
        count: hand.count,
        next: hand.next,
    }
}

// The walk to start with.
fn started(start: Start) -> Walk
    ensures { result ≡ samples.started start }
{
    match start {
        Start::New => Walk::new(),
        Start::Full => full(),
        Start::ByHand(hand) => by_hand(hand),
    }
}

// Call n of a list of calls; a firing of transition 0 past its end.
fn call_at(list: &[Call], n: usize) -> Call
    ensures { result ≡ get_or list.now n (Fire 0) }
{
    list.get(n).copied().unwrap_or(Call::Fire(0))
}

// The walk after the first n calls of a list.
fn after(start: Start, list: &[Call], n: usize) -> Walk
    ensures { result ≡ samples.after start list.now n }
{
    let mut walk = started(start);
    for i in 0..n {
        let outcome = make(walk, call_at(list, i));
        walk = outcome.walk;
    }
    walk
}

// ---- samples

// What call n of a list answers after the calls before it.
pub fn answer(start: Start, list: &[Call], n: usize) -> Numbers
    ensures { result ≡ samples.told (history.answered (samples.after start list.now n) (samples.call_at list.now n)) }
{
    let outcome = make(after(start, list, n), call_at(list, n));
    let answer = outcome.answer;
    walk::answer_numbers(answer)
}

// What loading a table into a new walk answers.
pub fn loading(places: u32, marking: u64, net: &[u8]) -> Numbers
    ensures { result ≡ samples.told (calls.load_answer places marking net.now) }
{
    let outcome = Walk::new().load(places, marking, net);
    let answer = outcome.answer;
    walk::answer_numbers(answer)
}

// What is read from a walk, in numbers.
fn see(walk: Walk) -> Seen
    ensures { result ≡ samples.seen walk }
{
    let said = match walk.read() {
        Ok(_) => walk::answer_numbers(Ok(())),
        Err(why) => walk::answer_numbers(Err(why)),
    };
    let read = walk.read_numbers();
    Seen {
        number: said.number,
        place: said.place,
        marking: read.marking,
        count: read.count,
        next: read.next,
    }
}

// What is read after the first n calls of a list.
pub fn reading(start: Start, list: &[Call], n: usize) -> Seen
    ensures { result ≡ samples.seen (samples.after start list.now n) }
{
    see(after(start, list, n))
}

// Loads a table into a new walk and fires a transition.
fn load_and_fire(places: u32, marking: u64, net: &[u8], t: u32) -> Outcome
    ensures { let w = samples.loaded_with places marking net.now in (calls.answer_of result.answer ≡ calls.fire_answer w t) × (result.walk ≡ calls.fire_walk w t) }
{
    let outcome = Walk::new().load(places, marking, net);
    let loaded = outcome.walk;
    loaded.fire(t)
}

// What firing a transition answers after a table is loaded into a new walk.
pub fn firing(places: u32, marking: u64, net: &[u8], t: u32) -> Numbers
    ensures { result ≡ samples.told (calls.fire_answer (samples.loaded_with places marking net.now) t) }
{
    let outcome = load_and_fire(places, marking, net, t);
    let answer = outcome.answer;
    walk::answer_numbers(answer)
}

// What is read after that firing.
pub fn fired(places: u32, marking: u64, net: &[u8], t: u32) -> Seen
    ensures { result ≡ samples.seen (calls.fire_walk (samples.loaded_with places marking net.now) t) }
{
    let outcome = load_and_fire(places, marking, net, t);
    see(outcome.walk)
}

// What the walk carries of transition t after the first n calls of a list; all zero from transition 64 on.
pub fn carried(start: Start, list: &[Call], n: usize, t: usize) -> Fields
    ensures { result ≡ samples.fields_of (samples.after start list.now n) t }
{
    if 64 <= t {
        return Fields {
            pre: 0,
            post: 0,
            action: 0,
        };
    }
    let walk = after(start, list, n);
    Fields {
        pre: walk.net.pre[t],
        post: walk.net.post[t],
        action: walk.net.action[t],
    }
}

// The optional transitions that the walk carries after the first n calls of a list.
pub fn optional(start: Start, list: &[Call], n: usize) -> u64
    ensures { result ≡ (samples.after start list.now n).net.optional }
{
    let walk = after(start, list, n);
    walk.net.optional
}

// The samples of a walk: its calls, walks filled in by hand, which are loaded or not by their fields, and the full count. A line has a name
// and the answer's number, record and two sets; where the walk is read, number, record, marking, count and stored set.
use net::Numbers;
use sample_nets::net_r;
use sample_walks::{Call, Hand, Seen, Start};
use std::io;

// ---- one line

// Prints an answer's number, record and two sets.
fn tell(rt: HostRuntime, said: Numbers) -> io::Result<()> {
    print!(rt;
        " {} {} {} {}",
        said.number, said.place, said.missing, said.occupied
    )
}

// Prints what is read.
fn tell_seen(rt: HostRuntime, seen: Seen) -> io::Result<()> {
    print!(rt; " {} {} {}", seen.number, seen.place, seen.marking)?;
    print!(rt; " {} {}", seen.count, seen.next)
}

// Prints what call n of a list answers after the calls before it.
pub(crate) fn answer(
    rt: HostRuntime,
    name: &str,
    start: Start,
    calls: &[Call],
    n: usize,
) -> io::Result<()> {
    print!(rt; "walk, {name}")?;
    tell(rt, sample_walks::answer(start, calls, n))?;
    println!(rt;)
}

// Prints what is read after the first n calls of a list.
pub(crate) fn reading(
    rt: HostRuntime,
    name: &str,
    start: Start,
    calls: &[Call],
    n: usize,
) -> io::Result<()> {
    print!(rt; "walk, {name}")?;
    tell_seen(rt, sample_walks::reading(start, calls, n))?;
    println!(rt;)
}

// Prints what the walk carries of transition t after the first n calls of a list: pre set, post set and action.
fn carried(rt: HostRuntime, name: &str, calls: &[Call], n: usize, t: usize) -> io::Result<()> {
    let fields = sample_walks::carried(Start::New, calls, n, t);
    println!(rt;
        "walk, {name} {} {} {}",
        fields.pre, fields.post, fields.action
    )
}

// Prints what firing the transition pre to post answers in a new walk at the marking, and what is read after it.
fn firing(
    rt: HostRuntime,
    name: &str,
    places: u32,
    marking: u64,
    pre: u64,
    post: u64,
) -> io::Result<()> {
    let net = sample_nets::transition(pre, post, 0);
    print!(rt; "walk, {name}")?;
    tell(rt, sample_walks::firing(places, marking, &net, 0))?;
    print!(rt; " read")?;
    tell_seen(rt, sample_walks::fired(places, marking, &net, 0))?;
    println!(rt;)
}

// Prints what loading a table into a new walk answers.
fn loading(rt: HostRuntime, name: &str, places: u32, marking: u64, net: &[u8]) -> io::Result<()> {
    print!(rt; "walk, {name}")?;
    tell(rt, sample_walks::loading(places, marking, net))?;
    println!(rt;)
}

// Prints what loading a table of so many zero bytes, at most 1,560, into a new walk answers.
fn loading_zeros(
    rt: HostRuntime,
    name: &str,
    places: u32,
    marking: u64,
    size: usize,
) -> io::Result<()> {
    match [0u8; 1560].get(..size) {
        Some(zeros) => loading(rt, name, places, marking, zeros),
        None => Ok(()),
    }
}

// ---- samples

// The calls of a walk that is not loaded, and the starred ones on net R.
fn starred(rt: HostRuntime, calls: &[Call]) -> io::Result<()> {
    answer(rt, "unloaded, fire 0:", Start::New, calls, 0)?;
    answer(rt, "unloaded, reset:", Start::New, calls, 1)?;
    reading(rt, "unloaded, read:", Start::New, calls, 2)?;
    answer(rt, "load R:", Start::New, calls, 2)?;
    reading(rt, "R, read:", Start::New, calls, 3)?;
    answer(rt, "R, fire 3:", Start::New, calls, 3)?;
    answer(rt, "R, fire 2:", Start::New, calls, 4)?;
    answer(rt, "R, fire 1:", Start::New, calls, 5)?;
    reading(rt, "R, fire 1, read:", Start::New, calls, 6)
}

// Why a transition is not enabled; the walk is as it was.
fn why(rt: HostRuntime) -> io::Result<()> {
    firing(rt, "1->2 at 3, fire 0:", 2, 3, 1, 2)?;
    firing(rt, "1->2 at 0, fire 0:", 2, 0, 1, 2)?;
    firing(rt, "1->2 at 2, fire 0:", 2, 2, 1, 2)?;
    firing(rt, "3->3 at 1, fire 0:", 2, 1, 3, 3)?;
    firing(rt, "1->3 at 3, fire 0:", 2, 3, 1, 3)?;
    firing(rt, "3->2 at 3, fire 0:", 2, 3, 3, 2)?;
    firing(
        rt,
        "place 63 lacks a token, fire 0:",
        64,
        0,
        9223372036854775808,
        0,
    )?;
    firing(
        rt,
        "place 63 is occupied, fire 0:",
        64,
        9223372036854775808,
        0,
        9223372036854775808,
    )
}

// A refused load leaves the walk; a load over a load replaces it, and the entries after the new net's are zero.
fn replaced(rt: HostRuntime, calls: &[Call]) -> io::Result<()> {
    answer(rt, "R, fire 1:", Start::New, calls, 5)?;
    answer(rt, "R, fire 1, load R, marking 8:", Start::New, calls, 6)?;
    reading(rt, "R, fire 1, refused load, read:", Start::New, calls, 7)?;
    carried(rt, "R, t2:", calls, 7, 2)?;
    answer(rt, "load 1->2 over R:", Start::New, calls, 7)?;
    reading(rt, "1->2 over R, read:", Start::New, calls, 8)?;
    carried(rt, "1->2 over R, t0:", calls, 8, 0)?;
    carried(rt, "1->2 over R, t1:", calls, 8, 1)?;
    carried(rt, "1->2 over R, t2:", calls, 8, 2)?;
    answer(rt, "1->2 over R, fire 1:", Start::New, calls, 8)
}

// Three firings, then the start marking again.
fn again(rt: HostRuntime, calls: &[Call]) -> io::Result<()> {
    answer(rt, "R, fire 1:", Start::New, calls, 10)?;
    answer(rt, "R, fire 1 0:", Start::New, calls, 11)?;
    answer(rt, "R, fire 1 0 2:", Start::New, calls, 12)?;
    reading(rt, "R, fire 1 0 2, read:", Start::New, calls, 13)?;
    answer(rt, "R, fire 1 0 2, reset:", Start::New, calls, 13)?;
    reading(rt, "R, reset, read:", Start::New, calls, 14)?;
    answer(rt, "R, reset, fire 1:", Start::New, calls, 14)?;
    reading(rt, "R, reset, fire 1, read:", Start::New, calls, 15)
}

// Loads that are refused for the number of places or of transitions, a record or the marking, and one of 64 transitions.
fn refused(rt: HostRuntime) -> io::Result<()> {
    let table = net_r();
    let net: &[u8] = &table;
    let mut spare = [0u8; 72];
    spare[71] = 1;
    loading_zeros(rt, "load, no places:", 0, 0, 24)?;
    loading_zeros(rt, "load, 65 places:", 65, 0, 24)?;
    loading_zeros(rt, "load, no bytes:", 1, 0, 0)?;
    loading_zeros(rt, "load, 71 bytes:", 1, 0, 71)?;
    loading_zeros(rt, "load, 65 transitions:", 1, 0, 1560)?;
    loading_zeros(rt, "load, 64 transitions:", 1, 0, 1536)?;
    loading_zeros(rt, "load, no places, 71 bytes:", 0, 0, 71)?;
    loading_zeros(rt, "load, 71 bytes, marking 8:", 1, 8, 71)?;
    loading(rt, "load R, 2 places:", 2, 3, net)?;
    loading(rt, "load R, marking 8:", 3, 8, net)?;
    loading(rt, "load R, 2 places, marking 8:", 2, 8, net)?;
    loading(rt, "load, spare byte of t2:", 1, 0, &spare)
}

// ---- walks filled in by hand

// Prints what firing transition 0, resetting and reading answer, each of the walk as it is.
fn each_call(rt: HostRuntime, name: &str, hand: Hand) -> io::Result<()> {
    print!(rt; "walk, {name}")?;
    print!(rt; " fire")?;
    tell(
        rt,
        sample_walks::answer(Start::ByHand(hand), &[Call::Fire(0)], 0),
    )?;
    print!(rt; " reset")?;
    tell(
        rt,
        sample_walks::answer(Start::ByHand(hand), &[Call::Reset], 0),
    )?;
    print!(rt; " read")?;
    tell_seen(rt, sample_walks::reading(Start::ByHand(hand), &[], 0))?;
    println!(rt;)
}

// Net R with 3 places, started at 3, after one firing of t1; t0 and t2 are enabled.
pub(crate) fn good() -> Hand {
    Hand {
        places: 3,
        transitions: 3,
        pre: 4,
        post: 4,
        optional: 0,
        start: 3,
        present: 5,
        count: 1,
        next: 5,
    }
}

// Sizes: 40 where they are wrong.
fn wrong_sizes(rt: HostRuntime) -> io::Result<()> {
    let mut hand = good();
    each_call(rt, "by hand:", hand)?;
    hand.places = 0;
    each_call(rt, "by hand, no places:", hand)?;
    hand.places = 65;
    each_call(rt, "by hand, 65 places:", hand)?;
    hand.places = 64;
    each_call(rt, "by hand, 64 places:", hand)?;
    hand.places = 3;
    hand.transitions = 0;
    each_call(rt, "by hand, no transitions:", hand)?;
    hand.transitions = 65;
    each_call(rt, "by hand, 65 transitions:", hand)?;
    hand.transitions = 64;
    each_call(rt, "by hand, 64 transitions:", hand)
}

// The count, and sets and markings beyond the places: 40.
fn beyond(rt: HostRuntime) -> io::Result<()> {
    let mut count = good();
    count.count = 65535;
    each_call(rt, "by hand, count 65535:", count)?;
    count.count = 65536;
    each_call(rt, "by hand, count 65536:", count)?;
    let mut pre = good();
    pre.pre = 8;
    each_call(rt, "by hand, a pre set beyond:", pre)?;
    let mut post = good();
    post.post = 8;
    each_call(rt, "by hand, a post set beyond:", post)?;
    let mut start = good();
    start.start = 8;
    each_call(rt, "by hand, start beyond:", start)?;
    let mut present = good();
    present.present = 8;
    each_call(rt, "by hand, present beyond:", present)?;
    let calls: &[Call] = &[Call::Fire(2)];
    answer(rt, "by hand, fire 2:", Start::ByHand(good()), calls, 0)?;
    reading(
        rt,
        "by hand, fire 2, read:",
        Start::ByHand(good()),
        calls,
        1,
    )
}

// ---- the stored set

// A walk that stores t1 alone, which is not enabled, in place of t0 and t2: told as it stands and kept by a refused call, and set right by a granted
// one, which goes by the net.
fn wrong_set(rt: HostRuntime) -> io::Result<()> {
    let mut hand = good();
    hand.next = 2;
    let start = Start::ByHand(hand);
    let calls: &[Call] = &[Call::Fire(1), Call::LoadBeyond, Call::Fire(2)];
    reading(rt, "by hand, stored 2, read:", start, calls, 0)?;
    answer(rt, "by hand, stored 2, fire 1:", start, calls, 0)?;
    reading(rt, "by hand, stored 2, fire 1, read:", start, calls, 1)?;
    reading(
        rt,
        "by hand, stored 2, refused load, read:",
        start,
        calls,
        2,
    )?;
    answer(rt, "by hand, stored 2, fire 2:", start, calls, 2)?;
    reading(rt, "by hand, stored 2, fire 2, read:", start, calls, 3)?;
    answer(rt, "by hand, stored 2, reset:", start, &[Call::Reset], 0)?;
    reading(
        rt,
        "by hand, stored 2, reset, read:",
        start,
        &[Call::Reset],
        1,
    )?;
    answer(
        rt,
        "by hand, stored 2, load 1->2:",
        start,
        &[Call::LoadForward],
        0,
    )?;
    reading(
        rt,
        "by hand, stored 2, load 1->2, read:",
        start,
        &[Call::LoadForward],
        1,
    )
}

// The set goes by the number of transitions: those after R's three touch no place and so are enabled, and t2 is not looked at where there are two.
fn set_by_number(rt: HostRuntime) -> io::Result<()> {
    let calls: &[Call] = &[Call::Fire(0), Call::Reset];
    let mut hand = good();
    hand.transitions = 64;
    reading(
        rt,
        "by hand, 64 transitions, fire 0, read:",
        Start::ByHand(hand),
        calls,
        1,
    )?;
    reading(
        rt,
        "by hand, 64 transitions, fire 0, reset, read:",
        Start::ByHand(hand),
        calls,
        2,
    )?;
    hand.transitions = 2;
    reading(
        rt,
        "by hand, 2 transitions, fire 0, read:",
        Start::ByHand(hand),
        calls,
        1,
    )
}

// No stored number makes a walk loaded or unloaded, and one of bits beyond the transitions is told as it stands.
fn any_set(rt: HostRuntime) -> io::Result<()> {
    let mut hand = good();
    hand.next = 0;
    each_call(rt, "by hand, stored 0:", hand)?;
    hand.next = 18446744073709551615;
    each_call(rt, "by hand, stored 2^64 - 1:", hand)?;
    hand.next = 5;
    hand.places = 0;
    each_call(rt, "by hand, no places, stored 5:", hand)?;
    let mut full = good();
    full.next = 2;
    full.count = 65535;
    each_call(rt, "by hand, count 65535, stored 2:", full)
}

// ---- the optional transitions

// Prints the optional transitions that the walk carries after the first n calls of a list.
fn optional(rt: HostRuntime, name: &str, calls: &[Call], n: usize) -> io::Result<()> {
    println!(rt;
        "walk, {name} {}",
        sample_walks::optional(Start::New, calls, n)
    )
}

// R with t1 optional: the walk carries the mark through firings, resets and refused loads, and answers as it does for R.
fn marked(rt: HostRuntime) -> io::Result<()> {
    let calls: &[Call] = &[
        Call::LoadOptional,
        Call::Fire(1),
        Call::Reset,
        Call::LoadBeyond,
        Call::LoadR,
    ];
    answer(rt, "load R, t1 optional:", Start::New, calls, 0)?;
    optional(rt, "R, t1 optional, carried:", calls, 1)?;
    reading(rt, "R, t1 optional, read:", Start::New, calls, 1)?;
    answer(rt, "R, t1 optional, fire 1:", Start::New, calls, 1)?;
    reading(rt, "R, t1 optional, fire 1, read:", Start::New, calls, 2)?;
    optional(rt, "R, t1 optional, fire 1, carried:", calls, 2)?;
    optional(rt, "R, t1 optional, reset, carried:", calls, 3)?;
    optional(rt, "R, t1 optional, refused load, carried:", calls, 4)?;
    optional(rt, "R over R, t1 optional, carried:", calls, 5)?;
    optional(rt, "unloaded, carried:", calls, 0)
}

// Any set of optional transitions, with bits beyond the transitions too, gets the same answers.
fn any_marks(rt: HostRuntime) -> io::Result<()> {
    let mut hand = good();
    hand.optional = 18446744073709551615;
    each_call(rt, "by hand, all optional:", hand)?;
    hand.optional = 2;
    each_call(rt, "by hand, t1 optional:", hand)?;
    hand.optional = 18446744073709551615;
    hand.places = 0;
    each_call(rt, "by hand, no places, all optional:", hand)
}

// What loading R with the mark of t2 or its last spare byte changed answers.
fn marks_refused(rt: HostRuntime) -> io::Result<()> {
    let mut net = net_r();
    net[66] = 2;
    loading(rt, "load, mark of t2 is 2:", 3, 3, &net)?;
    net[66] = 0;
    net[71] = 1;
    loading(rt, "load, byte 23 of t2 is 1:", 3, 3, &net)?;
    net[66] = 1;
    net[71] = 0;
    loading(rt, "load, mark of t2 is 1:", 3, 3, &net)
}

// ---- the full count

// 65,535 firings of t0 of R: then 42, but 8 and 41 come before it.
fn full(rt: HostRuntime) -> io::Result<()> {
    let calls: &[Call] = &[
        Call::Fire(0),
        Call::Fire(1),
        Call::Fire(2),
        Call::Fire(3),
        Call::Reset,
        Call::Fire(0),
    ];
    reading(rt, "R, 65535 times fire 0, read:", Start::Full, calls, 0)?;
    answer(rt, "R, full, fire 0:", Start::Full, calls, 0)?;
    reading(rt, "R, full, fire 0, read:", Start::Full, calls, 1)?;
    answer(rt, "R, full, fire 1:", Start::Full, calls, 1)?;
    answer(rt, "R, full, fire 2:", Start::Full, calls, 2)?;
    answer(rt, "R, full, fire 3:", Start::Full, calls, 3)?;
    answer(rt, "R, full, reset:", Start::Full, calls, 4)?;
    answer(rt, "R, full, reset, fire 0:", Start::Full, calls, 5)?;
    reading(rt, "R, full, reset, fire 0, read:", Start::Full, calls, 6)
}

// All samples of a walk.
pub(crate) fn print_all(rt: HostRuntime) -> io::Result<()> {
    let calls: &[Call] = &[
        Call::Fire(0),
        Call::Reset,
        Call::LoadR,
        Call::Fire(3),
        Call::Fire(2),
        Call::Fire(1),
        Call::LoadBeyond,
        Call::LoadForward,
        Call::Fire(1),
        Call::LoadR,
        Call::Fire(1),
        Call::Fire(0),
        Call::Fire(2),
        Call::Reset,
        Call::Fire(1),
    ];
    starred(rt, calls)?;
    why(rt)?;
    refused(rt)?;
    replaced(rt, calls)?;
    again(rt, calls)?;
    wrong_sizes(rt)?;
    beyond(rt)?;
    wrong_set(rt)?;
    set_by_number(rt)?;
    any_set(rt)?;
    marked(rt)?;
    any_marks(rt)?;
    marks_refused(rt)?;
    full(rt)
}

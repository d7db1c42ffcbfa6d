// The samples of the order of steps: two or three, each list in two orders, by single firings of net R and through a walk. Lines are as those of
// nets and of walks.
ghost use Rattle.std.specs.Prelude.{◌<◌};

use crate::nets::{conflicts, firing_r};
use crate::walks::{answer, good, reading};
use sample_nets::{net_r, net_three};
use sample_walks::{Call, Hand, Start};
use std::io;

// ---- two single firings

// Prints what firing u of net R answers where firing t at marking 3 has led; what firing t answers where that is refused.
fn fired_then(rt: HostRuntime, name: &str, t: u32, u: u32) -> io::Result<()> {
    let net = net_r();
    let said = net::firing_numbers(net::fire(3, 3, &net, t));
    if said.number != 0 {
        firing_r(rt, name, 3, 3, t)?;
        return Ok(());
    }
    firing_r(rt, name, 3, said.marking, u)
}

// Two independent steps, then two dependent ones.
fn single(rt: HostRuntime) -> io::Result<()> {
    fired_then(rt, "R, fire 0, then 1:", 0, 1)?;
    fired_then(rt, "R, fire 1, then 0:", 1, 0)?;
    fired_then(rt, "R, fire 1, then 2:", 1, 2)?;
    fired_then(rt, "R, fire 2, then 1:", 2, 1)
}

// ---- through a walk

// Prints what two calls of a list, the first of them call n, answer, and what is read after them: three lines of these names.
fn two(rt: HostRuntime, names: [&str; 3], start: Start, calls: &[Call], n: usize) -> io::Result<()>
    requires { n < 1000 }
{
    answer(rt, names[0], start, calls, n)?;
    answer(rt, names[1], start, calls, n + 1)?;
    reading(rt, names[2], start, calls, n + 2)
}

// Two independent steps of R.
fn independent(rt: HostRuntime) -> io::Result<()> {
    two(
        rt,
        ["R, fire 0:", "R, fire 0 1:", "R, fire 0 1, read:"],
        Start::New,
        &[Call::LoadR, Call::Fire(0), Call::Fire(1)],
        1,
    )?;
    two(
        rt,
        ["R, fire 1:", "R, fire 1 0:", "R, fire 1 0, read:"],
        Start::New,
        &[Call::LoadR, Call::Fire(1), Call::Fire(0)],
        1,
    )
}

// Three transitions, each in conflict with itself alone.
fn apart(rt: HostRuntime) -> io::Result<()> {
    let net = net_three();
    conflicts(rt, "1->2, 4->8, 16->32, decoded, t0:", 6, &net, 0)?;
    conflicts(rt, "1->2, 4->8, 16->32, decoded, t1:", 6, &net, 1)?;
    conflicts(rt, "1->2, 4->8, 16->32, decoded, t2:", 6, &net, 2)
}

// Their steps: the walks differ on the way, and are equal at the end.
fn three(rt: HostRuntime) -> io::Result<()> {
    let rising: &[Call] = &[Call::LoadThree, Call::Fire(0), Call::Fire(1), Call::Fire(2)];
    answer(rt, "load 1->2, 4->8, 16->32:", Start::New, rising, 0)?;
    reading(rt, "three, read:", Start::New, rising, 1)?;
    two(
        rt,
        [
            "three, fire 0:",
            "three, fire 0 1:",
            "three, fire 0 1, read:",
        ],
        Start::New,
        rising,
        1,
    )?;
    answer(rt, "three, fire 0 1 2:", Start::New, rising, 3)?;
    reading(rt, "three, fire 0 1 2, read:", Start::New, rising, 4)?;
    let other: &[Call] = &[Call::LoadThree, Call::Fire(2), Call::Fire(0), Call::Fire(1)];
    two(
        rt,
        [
            "three, fire 2:",
            "three, fire 2 0:",
            "three, fire 2 0, read:",
        ],
        Start::New,
        other,
        1,
    )?;
    answer(rt, "three, fire 2 0 1:", Start::New, other, 3)?;
    reading(rt, "three, fire 2 0 1, read:", Start::New, other, 4)
}

// Two dependent steps of R: t2 waits for what t1 brings.
fn dependent(rt: HostRuntime) -> io::Result<()> {
    two(
        rt,
        ["R, fire 1:", "R, fire 1 2:", "R, fire 1 2, read:"],
        Start::New,
        &[Call::LoadR, Call::Fire(1), Call::Fire(2)],
        1,
    )?;
    two(
        rt,
        ["R, fire 2:", "R, fire 2 1:", "R, fire 2 1, read:"],
        Start::New,
        &[Call::LoadR, Call::Fire(2), Call::Fire(1)],
        1,
    )
}

// ---- walks filled in by hand

// Prints t0 and then t1, and t1 and then t0: six lines.
fn either_way(rt: HostRuntime, names: [&str; 6], hand: Hand) -> io::Result<()> {
    let [first, second, read, other, both, end] = names;
    two(
        rt,
        [first, second, read],
        Start::ByHand(hand),
        &[Call::Fire(0), Call::Fire(1)],
        0,
    )?;
    two(
        rt,
        [other, both, end],
        Start::ByHand(hand),
        &[Call::Fire(1), Call::Fire(0)],
        0,
    )
}

// Two independent steps, one of them refused; then both, in a walk that is not loaded.
fn refused(rt: HostRuntime) -> io::Result<()> {
    either_way(
        rt,
        [
            "by hand, fire 0:",
            "by hand, fire 0 1:",
            "by hand, fire 0 1, read:",
            "by hand, fire 1:",
            "by hand, fire 1 0:",
            "by hand, fire 1 0, read:",
        ],
        good(),
    )?;
    let mut hand = good();
    hand.places = 0;
    either_way(
        rt,
        [
            "by hand, no places, fire 0:",
            "by hand, no places, fire 0 1:",
            "by hand, no places, fire 0 1, read:",
            "by hand, no places, fire 1:",
            "by hand, no places, fire 1 0:",
            "by hand, no places, fire 1 0, read:",
        ],
        hand,
    )
}

// The count has room for both; then for one alone, the first, so that the order matters.
fn room(rt: HostRuntime) -> io::Result<()> {
    let mut hand = good();
    hand.present = 3;
    hand.next = 3;
    hand.count = 65533;
    either_way(
        rt,
        [
            "R, count 65533, fire 0:",
            "R, count 65533, fire 0 1:",
            "R, count 65533, fire 0 1, read:",
            "R, count 65533, fire 1:",
            "R, count 65533, fire 1 0:",
            "R, count 65533, fire 1 0, read:",
        ],
        hand,
    )?;
    hand.count = 65534;
    either_way(
        rt,
        [
            "R, count 65534, fire 0:",
            "R, count 65534, fire 0 1:",
            "R, count 65534, fire 0 1, read:",
            "R, count 65534, fire 1:",
            "R, count 65534, fire 1 0:",
            "R, count 65534, fire 1 0, read:",
        ],
        hand,
    )
}

// All samples of the order of steps.
pub(crate) fn print_all(rt: HostRuntime) -> io::Result<()> {
    single(rt)?;
    independent(rt)?;
    apart(rt)?;
    three(rt)?;
    dependent(rt)?;
    refused(rt)?;
    room(rt)
}

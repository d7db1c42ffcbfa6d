// Joint nets with all their transitions.
use crate::calls::{Half, join, join_small};
use sample_bytes::FILL;
use sample_nets::{net_optional, net_r, optional, transition};
use std::io;

// R beside R at two pairs of markings.
fn r_beside_r(rt: HostRuntime) -> io::Result<()> {
    let r = net_r();
    join_small(
        rt,
        "R at 3 beside R at 3",
        Half::at_three(&r),
        Half::at_three(&r),
        6,
    )?;
    join_small(
        rt,
        "R at 1 beside R at 6",
        Half::new(3, 1, &r),
        Half::new(3, 6, &r),
        6,
    )
}

// The optional marks of both halves.
fn optional_marks(rt: HostRuntime) -> io::Result<()> {
    let first = net_optional(1);
    let second = net_optional(0);
    join_small(
        rt,
        "R with t1 optional beside R with t0 optional",
        Half::at_three(&first),
        Half::at_three(&second),
        6,
    )
}

// A transition that touches no place, in either half and in both.
fn touching_none(rt: HostRuntime) -> io::Result<()> {
    let r = net_r();
    let none = transition(0, 0, 7);
    let other = optional(0, 0, 8);
    join_small(
        rt,
        "0->0 beside R",
        Half::new(1, 1, &none),
        Half::at_three(&r),
        4,
    )?;
    join_small(
        rt,
        "R beside 0->0",
        Half::at_three(&r),
        Half::new(1, 0, &none),
        4,
    )?;
    join_small(
        rt,
        "0->0 beside 0->0 optional",
        Half::new(1, 0, &none),
        Half::new(1, 1, &other),
        2,
    )
}

// Two nets that are joined are joined with a third, and the other way round.
fn three(rt: HostRuntime) -> io::Result<()> {
    let r = net_r();
    let mut two = [FILL; 144];
    join(
        rt,
        "R beside R",
        Half::at_three(&r),
        Half::at_three(&r),
        &mut two,
    )?;
    join_small(
        rt,
        "R beside R, beside R",
        Half::new(6, 27, &two),
        Half::at_three(&r),
        9,
    )?;
    join_small(
        rt,
        "R beside, R beside R",
        Half::at_three(&r),
        Half::new(6, 27, &two),
        9,
    )
}

// All of them.
pub(crate) fn print_all(rt: HostRuntime) -> io::Result<()> {
    r_beside_r(rt)?;
    optional_marks(rt)?;
    touching_none(rt)?;
    three(rt)
}

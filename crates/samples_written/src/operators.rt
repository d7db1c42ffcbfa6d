// Each operator on each side, over net R.
use crate::calls::write_small;
use sample_nets::{net_optional, net_r};
use sample_trees::ask;
use sample_written::{operators, untils};
use std::io;

// Record f of the operators' formulas at a marking.
fn at(rt: HostRuntime, name: &str, f: u16, marking: u64) -> io::Result<()> {
    write_small(rt, name, &ask(marking, f, 3, 0), &net_r(), &operators())
}

// "True", "not" and "and".
fn connectives(rt: HostRuntime) -> io::Result<()> {
    at(rt, "true", 0, 3)?;
    at(rt, "not true", 2, 3)?;
    at(rt, "not not true", 3, 3)?;
    at(rt, "not, of a step that is not there", 4, 3)?;
    at(rt, "not, of a step that is there", 4, 5)?;
    at(rt, "and", 5, 3)?;
    at(rt, "and of two ands", 6, 3)?;
    at(rt, "and, left false", 7, 3)?;
    at(rt, "and, right false", 8, 3)?;
    at(rt, "and, both false", 9, 3)
}

// Operator 3.
fn steps(rt: HostRuntime) -> io::Result<()> {
    at(rt, "step", 1, 5)?;
    at(rt, "step, not enabled", 1, 3)?;
    at(rt, "step after a step", 10, 3)?;
    at(rt, "step, false after it", 11, 3)
}

// The same steps where t1 is optional.
fn optional_steps(rt: HostRuntime) -> io::Result<()> {
    let net = net_optional(1);
    let table = operators();
    write_small(
        rt,
        "optional step, then a step",
        &ask(3, 10, 3, 0),
        &net,
        &table,
    )?;
    write_small(
        rt,
        "optional step, false after it",
        &ask(3, 11, 3, 0),
        &net,
        &table,
    )
}

// Record f of the formulas with until at marking 3.
fn until(rt: HostRuntime, name: &str, f: u16) -> io::Result<()> {
    write_small(rt, name, &ask(3, f, 3, 0), &net_r(), &untils())
}

// An until that is reached, and one that is not.
fn with_until(rt: HostRuntime) -> io::Result<()> {
    until(rt, "until on some run", 1)?;
    until(rt, "until on all runs", 2)?;
    until(rt, "not, of until", 3)?;
    until(rt, "and, until right", 4)?;
    until(rt, "step that is not there, to until", 5)?;
    until(rt, "and, left false, until right", 8)?;
    until(rt, "and, until not reached", 6)?;
    until(rt, "not and, until not reached", 7)
}

// All of them.
pub(crate) fn print_all(rt: HostRuntime) -> io::Result<()> {
    connectives(rt)?;
    steps(rt)?;
    optional_steps(rt)?;
    with_until(rt)
}

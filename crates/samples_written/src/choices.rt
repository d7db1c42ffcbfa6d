// Choices between transitions.
use crate::calls::write_small;
use sample_trees::ask;
use sample_written::{choices, net_of_choices};
use std::io;

// Record f of the choices' formulas over a net at a marking.
fn at(rt: HostRuntime, name: &str, f: u16, marking: u64, net: &[u8]) -> io::Result<()> {
    write_small(rt, name, &ask(marking, f, 3, 0), net, &choices())
}

// Some does.
fn some(rt: HostRuntime, net: &[u8]) -> io::Result<()> {
    at(rt, "t1 does not, t2 and t3 do", 2, 1, net)?;
    at(rt, "t1, t2 and t3 do", 3, 1, net)?;
    at(rt, "t0 does", 3, 2, net)
}

// None does.
fn none(rt: HostRuntime, net: &[u8]) -> io::Result<()> {
    at(rt, "none enabled", 3, 4, net)?;
    at(rt, "one enabled, the others' post set occupied", 5, 5, net)?;
    at(rt, "three enabled", 5, 1, net)?;
    at(rt, "three enabled, leaves", 7, 1, net)
}

// The same with t1 and t2 optional.
fn optional(rt: HostRuntime) -> io::Result<()> {
    let mut net = net_of_choices();
    net[42] = 1;
    net[66] = 1;
    at(rt, "t1 optional, does not, t2 optional, does", 2, 1, &net)?;
    at(rt, "t1 optional, does", 3, 1, &net)?;
    at(rt, "three enabled, t1 and t2 optional", 5, 1, &net)
}

// All of them.
pub(crate) fn print_all(rt: HostRuntime) -> io::Result<()> {
    let net = net_of_choices();
    some(rt, &net)?;
    none(rt, &net)?;
    optional(rt)
}

// Runs the samples for nets, walks, the order of steps and labels and prints a line for each: a name, then the answer in document 01's numbers.
#![tactic(auto)]

mod labels;
mod nets;
mod orders;
mod walks;

use std::io;

fn main(rt: HostRuntime) -> io::Result<()> {
    nets::print_all(rt)?;
    walks::print_all(rt)?;
    orders::print_all(rt)?;
    labels::print_all(rt)
}

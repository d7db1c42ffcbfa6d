// Runs the samples of PNML and prints a line for each: what was done, then the answer in document 02's numbers and what the room holds.
#![tactic(auto)]

mod calls;
mod drafts;
mod nets;
mod refusals;

use std::io;

fn main(rt: HostRuntime) -> io::Result<()> {
    nets::print_all(rt)?;
    drafts::print_all(rt)?;
    refusals::print_all(rt)?;
    nets::largest(rt)
}

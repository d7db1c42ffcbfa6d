// Runs the samples of written trees and prints for each a line: its name, the answer in document 02's numbers (number, record, side, nodes), how
// much of the rest of the room stayed, and the check's line on what was written. A line for each of the first nodes follows.
#![tactic(auto)]

mod calls;
mod choices;
mod large;
mod operators;
mod refusals;
mod rooms;

use std::io;

fn main(rt: HostRuntime) -> io::Result<()> {
    operators::print_all(rt)?;
    choices::print_all(rt)?;
    rooms::print_all(rt)?;
    refusals::print_all(rt)?;
    large::print_all(rt)
}

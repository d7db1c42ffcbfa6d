// Runs the samples of document 01 and prints a line for each: a name, then the answer in document 01's numbers or its line.
#![tactic(auto)]

mod trees;

use std::io;

fn main(rt: HostRuntime) -> io::Result<()> {
    trees::print_all(rt)
}

// Runs the samples of tables without dead formula records. A line has a name, the answer in the documents' numbers (number, record or node, formula
// records left), and for ask, formulas and tree how much of the rest of the lent table is as it was before the call. Where it is granted, the
// check's line on the new tables follows, then their formula records (operator, left, right, action), then what compacting them again answers, with
// how many bytes are the same as before.
#![tactic(auto)]

mod calls;
mod dead;
mod given;
mod many;
mod refusals;

use std::io;

fn main(rt: HostRuntime) -> io::Result<()> {
    dead::print_all(rt)?;
    many::print_all(rt)?;
    refusals::print_all(rt)
}

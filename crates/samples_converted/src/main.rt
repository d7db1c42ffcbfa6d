// Runs the samples of converted category files. A line of a conversion has a name, the answer in document 02's numbers (number, record, records
// rewritten), and how much of the rest of the room is as it was before the call. A line of a file before and after has the check's number and
// record, and for some actions the offset and length of the label and the label itself.
#![tactic(auto)]

mod calls;
mod files;
mod large;
mod refusals;

use std::io;

fn main(rt: HostRuntime) -> io::Result<()> {
    files::print_all(rt)?;
    refusals::print_all(rt)?;
    large::print_all(rt)
}

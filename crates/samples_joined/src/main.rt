// Runs the samples of two nets side by side. A line of a join has a name, the answer in document 02's numbers (number, record, joint places,
// marking, bytes of the records), and how much of the rest of the room is as it was before the call. A line of a joint transition has its number,
// pre set, post set, action and mark, what firing it at the joint marking answers (number, record, marking, missing, occupied), and the set of
// the transitions in conflict with it.
#![tactic(auto)]

mod calls;
mod halves;
mod refusals;
mod sizes;

use std::io;

fn main(rt: HostRuntime) -> io::Result<()> {
    halves::print_all(rt)?;
    refusals::print_all(rt)?;
    sizes::print_all(rt)
}

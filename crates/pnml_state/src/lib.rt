// What the PNML reader keeps of the places, transitions and arcs that it has read. Entries from 64 on are dropped.
#![tactic(auto)]

ghost use Rattle.std.specs.Prelude.{◌≡◌};
ghost use Rattle.pnml_state.specs.Serving as serving;

// What is kept of the first 64 transitions: of each, by its number, the places of the arcs into it and out of it, and its entry.
#[derive(Clone, Copy)]
pub struct Entries {
    pub pre: [u64; 64],
    pub post: [u64; 64],
    pub action: [u32; 64],
}

// The marking with one place more.
pub fn mark(marking: u64, places: usize, mark: usize) -> u64
    ensures { result ≡ serving.marked marking places mark }
{
    if places < 64 {
        return bitset::add(marking, places as u32, mark == 1);
    }
    marking
}

// The entry of a transition: its action, and 65,536 more where it is optional.
pub fn note(actions: &mut [u32; 64], transition: usize, action: u32)
    ensures { actions.new ≡ serving.noted actions.old transition action }
{
    if transition < 64 {
        actions[transition] = action;
    }
}

// A set with one arc more, where `own`.
pub fn join(sets: &mut [u64; 64], own: bool, transition: usize, place: usize)
    ensures { sets.new ≡ serving.joined_to sets.old own transition place }
{
    if !own {
        return;
    }
    if 64 <= transition {
        return;
    }
    if 64 <= place {
        return;
    }
    let set = sets[transition];
    sets[transition] = bitset::add(set, place as u32, true);
}

// Transition records, put into lent room.
#![tactic(auto)]

ghost use Rattle.std.specs.Prelude.{◌≡◌, ◌+◌, ◌*◌, ◌≤◌, length};
ghost use Rattle.std.proofs.lemmas.List.Edits.{sets};
ghost use Rattle.net.specs.Table.{transition_size};
ghost use Rattle.pnml_net.specs.Nets.{record_bytes};
ghost use Rattle.pnml_records.specs.Records.{records_by};

use pnml_state::Entries;

// Puts the record of a transition with these sets and entry: its action, and 65,536 more where it is optional.
fn put_record(room: &mut [u8], t: usize, pre: u64, post: u64, action: u32)
    requires { t * transition_size + transition_size ≤ length room.old }
    ensures { room.new ≡ sets room.old (t * transition_size) (record_bytes pre post action) }
{
    let at = t * net::RECORD;
    stores::put_bytes(room, at, 8, pre);
    stores::put_bytes(room, at + 8, 8, post);
    stores::put_bytes(room, at + 16, 3, u64::from(action));
    stores::put_bytes(room, at + 19, 5, 0);
}

// Puts the records of the first transitions.
pub fn put_records(room: &mut [u8], count: usize, kept: &Entries)
    requires { (count ≤ 64) × (count * transition_size ≤ length room.old) }
    ensures { room.new ≡ sets room.old 0 (records_by kept.now.pre kept.now.post kept.now.action count) }
{
    for t in 0..count {
        put_record(room, t, kept.pre[t], kept.post[t], kept.action[t]);
    }
}

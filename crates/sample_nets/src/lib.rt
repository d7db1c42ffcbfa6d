// The tables of the samples of nets, built from their fields, and the conflicts in a decoded table.
#![tactic(auto)]

ghost use Rattle.std.specs.Prelude.{◌≡◌, ◌*◌};
ghost use Rattle.std.proofs.lemmas.List.Edits.{sets};
ghost use Rattle.sample_nets.specs.Tables as tables;

use sample_bytes::{put_bytes, put_number};

// The record of a pressed transition.
pub fn transition(pre: u64, post: u64, action: u16) -> [u8; 24]
    ensures { result ≡ tables.transition pre post action }
{
    let mut record = [0u8; 24];
    put_number(&mut record, 0, 8, pre);
    put_number(&mut record, 8, 8, post);
    put_number(&mut record, 16, 2, u64::from(action));
    record
}

// That of an optional one.
pub fn optional(pre: u64, post: u64, action: u16) -> [u8; 24]
    ensures { result ≡ tables.optional pre post action }
{
    let mut record = transition(pre, post, action);
    record[18] = 1;
    record
}

// Writes the record of transition t into a table, as far as the table goes.
pub fn put_transition(table: &mut [u8], t: u32, pre: u64, post: u64, action: u16)
    ensures { table.new ≡ sets table.old (t * 24) (tables.transition pre post action) }
{
    let record = transition(pre, post, action);
    put_bytes(table, t as usize * 24, &record);
}

// Net R.
pub fn net_r() -> [u8; 72]
    ensures { result ≡ tables.net_r }
{
    let mut table = [0u8; 72];
    put_transition(&mut table, 0, 1, 1, 1);
    put_transition(&mut table, 1, 2, 4, 2);
    put_transition(&mut table, 2, 4, 0, 3);
    table
}

// Net R with transition t optional.
pub fn net_optional(t: u8) -> [u8; 72]
    ensures { result ≡ tables.optional_r t }
{
    let mut table = net_r();
    put_bytes(&mut table, usize::from(t) * 24 + 18, &[1]);
    table
}

// A net of three independent transitions.
pub fn net_three() -> [u8; 72]
    ensures { result ≡ tables.net_three }
{
    let mut table = [0u8; 72];
    put_transition(&mut table, 0, 1, 2, 0);
    put_transition(&mut table, 1, 4, 8, 0);
    put_transition(&mut table, 2, 16, 32, 0);
    table
}

// The set of the transitions in conflict with t, found in the decoded table; empty where the table is refused or has no t.
pub fn conflicts(places: u32, net: &[u8], t: u32) -> u64
    ensures { result ≡ tables.conflicts_in places net.now t }
{
    let Ok(()) = net::check_table(places, net) else {
        return 0;
    };
    let decoded = net::decode(places, net);
    if decoded.transitions <= t {
        return 0;
    }
    decoded.conflicts(t)
}

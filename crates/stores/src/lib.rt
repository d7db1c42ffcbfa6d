// Numbers stored into lent bytes, the lowest byte first, and bytes copied there.
#![tactic(auto)]

ghost use Rattle.std.specs.Prelude.{◌≡◌, ◌+◌, ◌≤◌, length, take, drop};
ghost use Rattle.std.proofs.lemmas.List.Edits.{sets};
ghost use Rattle.stores.specs.Low.{low_bytes};

// Puts the low bytes of a number, the lowest first.
pub fn put_bytes(room: &mut [u8], at: usize, n: usize, x: u64)
    requires { at + n ≤ length room.old }
    ensures { room.new ≡ sets room.old at (low_bytes n x) }
{
    let mut v = x;
    for i in 0..n {
        room[at + i] = (v % 256) as u8;
        v /= 256;
    }
}

// Copies n bytes of a table, from one offset on, to the room, from another on. No `copy_from_slice`: with it the archive would need `memmove` too.
pub fn copy(table: &[u8], from: usize, room: &mut [u8], at: usize, n: usize)
    requires { (from + n ≤ length table.now) × (at + n ≤ length room.old) }
    ensures { room.new ≡ sets room.old at (take n (drop from table.now)) }
{
    for k in 0..n {
        room[at + k] = table[from + k];
    }
}

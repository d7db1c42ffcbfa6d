// The bytes of samples: numbers and bytes written at an offset of a table, where what lies past the table's end is left off, and what a room holds.
#![tactic(auto)]

ghost use Rattle.std.specs.Prelude.{◌≡◌, ◌-◌, drop, length};
ghost use Rattle.std.proofs.lemmas.List.Edits.{sets};
ghost use Rattle.sample_bytes.specs.Bytes.{bytes};
ghost use Rattle.sample_bytes.specs.Rooms as rooms;

use std::fmt;

// ---- tables

// Writes n as so many bytes, lowest first, from an offset on.
pub fn put_number(table: &mut [u8], at: usize, size: usize, n: u64)
    ensures { table.new ≡ sets table.old at (bytes size n) }
{
    let mut rest = n;
    for k in at..at.saturating_add(size).min(table.len()) {
        table[k] = (rest % 256) as u8;
        rest /= 256;
    }
}

// Writes some bytes from an offset on.
pub fn put_bytes(table: &mut [u8], at: usize, part: &[u8])
    ensures { table.new ≡ sets table.old at part.now }
{
    let from = at.min(table.len());
    let size = part.len().min(table.len() - from);
    table[from..from + size].copy_from_slice(&part[..size]);
}

// ---- what a room holds

// How many of its bytes are b. (By `filter` and `count` it took 1.6 of the time.)
pub fn count(room: &[u8], b: u8) -> usize
    ensures { result ≡ rooms.count b room.now (length room.now) }
{
    let mut n: usize = 0;
    for byte in room {
        if *byte == b {
            n += 1;
        }
    }
    n
}

// How many of the first bytes of two rooms are the same.
pub fn alike(a: &[u8], b: &[u8]) -> usize
    ensures { result ≡ rooms.alike a.now b.now }
{
    let most = a.len().min(b.len());
    (0..most).find(|&i| a[i] != b[i]).unwrap_or(most)
}

// A sum in which each byte counts by its place.
pub fn checksum(room: &[u8]) -> u64
    ensures { result ≡ rooms.checksum room.now (length room.now) }
{
    let mut sum: u64 = 0;
    for byte in room {
        sum = (sum * 257 + u64::from(*byte)) % 1000003;
    }
    sum
}

// ---- what a call left

// The byte that fills a room before a call.
pub const FILL: u8 = 170;

// How much of the rest of a room is as it was before a call: so many bytes, of so many.
#[derive(Clone, Copy)]
pub struct Stayed {
    pub same: usize,
    pub of: usize,
}

// That of the bytes from an offset on.
pub fn kept(room: &[u8], from: usize) -> Stayed
    ensures same { result.same ≡ rooms.count FILL (drop from room.now) (length room.now - from) }
    ensures of { result.of ≡ length room.now - from }
{
    let rest = &room[from.min(room.len())..];
    Stayed {
        same: count(rest, FILL),
        of: rest.len(),
    }
}

impl fmt::Display for Stayed {
    fn fmt<W: fmt::Write>(&self, f: &mut fmt::Formatter<W>) -> fmt::Result {
        write!(f, ", kept {} of {}", self.same, self.of)
    }
}

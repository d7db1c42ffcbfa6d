// Tables of records of one fixed size: little-endian numbers at an offset of lent bytes, and the number of records in a length.
#![tactic(auto)]

ghost use Rattle.std.specs.Prelude.{◌≡◌, true, ℕ, Bool, ◌+◌, ◌/◌, ◌≤◌, ◌<◌, length};
ghost use Rattle.tables.specs.Bytes.{field};
ghost use Rattle.tables.specs.Sizes.{sized, records_of};
ghost use Rattle.tables.specs.Checks.{checked};

// The two bytes at an offset, as one number.
pub fn u16_at(s: &[u8], at: usize) -> u16
    requires { at + 2 ≤ length s.now }
    ensures { result ≡ field 2 at s.now }
{
    u16::from_le_bytes([s[at], s[at + 1]])
}

// The four bytes at an offset, as one number.
pub fn u32_at(s: &[u8], at: usize) -> u32
    requires { at + 4 ≤ length s.now }
    ensures { result ≡ field 4 at s.now }
{
    u32::from_le_bytes([s[at], s[at + 1], s[at + 2], s[at + 3]])
}

// The eight bytes at an offset, as one number.
pub fn u64_at(s: &[u8], at: usize) -> u64
    requires { at + 8 ≤ length s.now }
    ensures { result ≡ field 8 at s.now }
{
    u64::from_le_bytes([
        s[at],
        s[at + 1],
        s[at + 2],
        s[at + 3],
        s[at + 4],
        s[at + 5],
        s[at + 6],
        s[at + 7],
    ])
}

// How many records of size bytes len bytes are, where these are at least `least` and at most `most` whole ones.
pub fn records(len: usize, size: usize, least: usize, most: usize) -> Option<usize>
    requires { 0 < size }
    ensures { result ≡ records_of size least most len }
{
    let n = len / size;
    if (len % size == 0) & (least <= n) & (n <= most) {
        Some(n)
    } else {
        None
    }
}

// Why a table is refused: its length, or the lowest record at fault.
#[derive(Clone, Copy, PartialEq, Eq)]
pub enum TableFault {
    Size,
    Record(usize),
}

// The check of a table of len bytes, record by record: how many records it has, where it is not refused.
pub fn check_records<F: Fn(usize) -> bool>(
    len: usize,
    size: usize,
    least: usize,
    most: usize,
    bad: F,
) -> Result<usize, TableFault>
    requires positive { 0 < size }
    requires callable { (t : ℕ) → sized size least most len ≡ true → t < len / size → F.pre bad t }
    ensures { (f : ℕ → Bool) → ((t : ℕ) (b : Bool) → t < len / size → F.post bad t b → b ≡ f t) → result ≡ checked size least most f len }
{
    let Some(count) = records(len, size, least, most) else {
        return Err(TableFault::Size);
    };
    for t in 0..count {
        if bad(t) {
            return Err(TableFault::Record(t));
        }
    }
    Ok(count)
}

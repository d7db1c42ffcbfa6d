// Files read into whole buffers.
#![tactic(auto)]

ghost use Rattle.std.specs.Prelude.{◌≡◌, IfSome, length, replicate};
ghost use Rattle.files.specs.Reading.{IsPrefixLen, FileRead};

use std::env::FillError;
use std::fs;
use std::io::Read;
use std::rt::{Env, Files};

// Room for a file of at most 64,000 bytes: a longer one fills it.
pub const ROOM: usize = 64001;

// A buffer of zeros.
pub fn zeros<const N: usize>() -> [u8; N]
    ensures zeros { result ≡ replicate N 0 }
    ensures size { N ≡ length result }
{
    [0; N]
}

// Reads to the file's end: so many bytes at the start of the buffer, or none where it cannot be read or fills the buffer. A folder opens, and
// its first read fails. What is counted is what each read gave, so no `for`; std's `read_to_end` needs a heap.
fn read_to_end<F: Read>(file: &mut F, buf: &mut [u8]) -> Option<usize>
    ensures { FileRead buf.new result }
{
    let mut n: usize = 0;
    while n < buf.len() {
        let more = file.read(&mut buf[n..]).ok()?;
        if more == 0 {
            return Some(n);
        }
        n += more;
    }
    None
}

// Reads the file at a path. One that is not UTF-8 is no file's, as std opens none there.
pub fn read_path(rt: &impl Files, path: &[u8], buf: &mut [u8]) -> Option<usize>
    ensures { FileRead buf.new result }
{
    let path = str::from_utf8(path).ok()?;
    let mut file = fs::open(rt, path).ok()?;
    read_to_end(&mut file, buf)
}

// Puts argument i at the start of the buffer and answers its length, which is 0 where it is longer than the buffer; none where there is no such
// argument.
pub fn argument(rt: &impl Env, i: usize, buf: &mut [u8]) -> Option<usize>
    ensures { IfSome result (λ n. IsPrefixLen n buf.new) }
{
    match rt.arg(i, buf) {
        Ok(n) => Some(n),
        Err(FillError::TooLong) => Some(0),
        Err(FillError::NotPresent) => None,
    }
}

// Reads the file that an argument names. One that is too long for a path is no file's: its length comes as 0, and the empty path is refused.
pub fn read_argument(rt: &(impl Env + Files), i: usize, buf: &mut [u8]) -> Option<usize>
    ensures { FileRead buf.new result }
{
    let mut path = [0u8; 4096];
    let size = argument(rt, i, &mut path)?;
    read_path(rt, &path[..size], buf)
}

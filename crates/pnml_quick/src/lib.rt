// What the PNML reader tries first: a word eight bytes at a time, a number with no look at its bounds before the end.
#![tactic(auto)]

ghost use Rattle.std.specs.Prelude.{◌+◌, ◌-◌, ◌≤◌, ◌<◌, ◌≡◌, true, false, length, IfSome};
ghost use Rattle.pnml_quick.specs.Serving as serving;

// ---- words

// Whether eight bytes of the text are eight of the word.
fn eight(text: &[u8], k: usize, word: &[u8], i: usize) -> bool
    requires { (k + 8 ≤ length text.now) × (i + 8 ≤ length word.now) }
    ensures { result ≡ true → serving.Alike text.now k word.now i 8 }
{
    tables::u64_at(text, k) == tables::u64_at(word, i)
}

// Whether four bytes of the text are four of the word. `tables` has a function for each width, so this is no case of one function.
fn four(text: &[u8], k: usize, word: &[u8], i: usize) -> bool
    requires { (k + 4 ≤ length text.now) × (i + 4 ≤ length word.now) }
    ensures { result ≡ true → serving.Alike text.now k word.now i 4 }
{
    tables::u32_at(text, k) == tables::u32_at(word, i)
}

// Whether the bytes of the word from `from` on are there, one by one.
fn ending(text: &[u8], at: usize, word: &[u8], from: usize) -> bool
    requires { (at + length word.now ≤ length text.now) × (from ≤ length word.now) }
    ensures { result ≡ true → serving.From text.now at word.now from (length word.now) }
{
    (from..word.len()).all(|i| text[at + i] == word[i])
}

// The same, four of them first.
fn few(text: &[u8], at: usize, word: &[u8], from: usize) -> bool
    requires { (at + length word.now ≤ length text.now) × (from ≤ length word.now) }
    ensures { result ≡ true → serving.From text.now at word.now from (length word.now) }
{
    if word.len() - from < 4 {
        return ending(text, at, word, from);
    }
    if !four(text, at + from, word, from) {
        return false;
    }
    ending(text, at, word, from + 4)
}

// Whether the bytes of a word are there. Where this is false, they may be. Eight bytes at a time, for the speed of reading: the `starts_with`
// of a slice goes byte by byte.
pub fn there(text: &[u8], at: usize, word: &[u8]) -> bool
    requires { at ≤ length text.now }
    ensures { result ≡ true → serving.There text.now at word.now }
{
    if text.len() - at < word.len() {
        return false;
    }
    let eights = word.len() / 8;
    for n in 0..eights {
        if !eight(text, at + 8 * n, word, 8 * n) {
            return false;
        }
    }
    few(text, at, word, 8 * eights)
}

// ---- numbers

// A number, and the offset after it.
#[derive(Clone, Copy)]
pub struct Number {
    pub at: usize,
    pub value: usize,
}

// Whether a byte is no digit.
#[tactic(auto, unfolding(crate::specs::Serving::other))]
fn other(b: u8) -> bool
    ensures { result ≡ serving.other b }
{
    (b < b'0') | (b'9' < b)
}

// The digit that a byte is.
fn worth(b: u8) -> usize
    requires { (48 ≤ b) × (b ≤ 57) }
    ensures { result ≡ b - 48 }
{
    usize::from(b - b'0')
}

// The rest of a number after its first digits.
fn more(text: &[u8], at: usize, from: usize, n: usize, lo: usize, hi: usize) -> Option<Number>
    requires { serving.Begun text.now at from n }
    ensures { IfSome result (λ n. serving.Read text.now at lo hi n.at n.value) }
{
    let mut v = n;
    for k in from..text.len() {
        let b = text[k];
        if other(b) {
            if (lo <= v) & (v <= hi) {
                return Some(Number { at: k, value: v });
            }
            return None;
        }
        if (v == 0) | (400000000 < v) {
            return None;
        }
        v = 10 * v + worth(b);
    }
    None
}

// A number from lo to hi with a byte after it. Where there is none here, one may be there: no number above 4000000009 is found.
pub fn whole_number(text: &[u8], at: usize, lo: usize, hi: usize) -> Option<Number>
    ensures { IfSome result (λ n. serving.Read text.now at lo hi n.at n.value) }
{
    let b = *text.get(at)?;
    if other(b) {
        return None;
    }
    more(text, at, at + 1, worth(b), lo, hi)
}

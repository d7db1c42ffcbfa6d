// Sets of the numbers 0 to 63, each as one u64: k is in s where bit k of s is 1.
#![tactic(auto)]

ghost use Rattle.std.specs.Prelude.{◌≡◌, ℕ, Bool, ◌≤◌, ◌<◌, ◌^◌};
ghost use Rattle.std.specs.Int.Count.{ones};
ghost use Rattle.bitset.specs.Sets as sets;

// Whether each member of a is in b.
pub fn subset(a: u64, b: u64) -> bool
    ensures { result ≡ sets.subset a b }
{
    a & b == a
}

// Whether a and b share no member.
pub fn disjoint(a: u64, b: u64) -> bool
    ensures { result ≡ sets.disjoint a b }
{
    a & b == 0
}

// a without the members of b.
pub fn difference(a: u64, b: u64) -> u64
    ensures { result ≡ sets.difference a b }
{
    a & !b
}

// The members of s that are in t too.
pub fn intersection(s: u64, t: u64) -> u64
    ensures { result ≡ sets.intersection s t }
{
    s & t
}

// The members of a and those of b.
pub fn union(a: u64, b: u64) -> u64
    ensures { result ≡ sets.union a b }
{
    a | b
}

// Whether k is in s.
pub fn member(s: u64, k: u32) -> bool
    ensures { result ≡ sets.member s k }
{
    if 64 <= k {
        return false;
    }
    (s >> k) % 2 == 1
}

// The set with the one member k.
pub fn bit(k: u32) -> u64
    requires { k < 64 }
    ensures { result ≡ 2 ^ k }
{
    1u64 << k
}

// s, with k as a member too where `on`.
pub fn add(s: u64, k: u32, on: bool) -> u64
    requires { k < 64 }
    ensures { result ≡ sets.add s k on }
{
    if on {
        return union(s, bit(k));
    }
    s
}

// The set of the numbers below n that pass a test.
pub fn collect<F: Fn(usize) -> bool>(n: u32, test: F) -> u64
    requires most { n ≤ 64 }
    requires callable { (k : ℕ) → k < n → F.pre test k }
    ensures { (f : ℕ → Bool) → ((k : ℕ) (b : Bool) → k < n → F.post test k b → b ≡ f k) → result ≡ sets.collect f n }
{
    let mut set = 0;
    for k in 0..n {
        set = add(set, k, test(k as usize));
    }
    set
}

// Whether each member of s is below n.
pub fn within(n: u32, s: u64) -> bool
    ensures { result ≡ sets.within n s }
{
    if 64 <= n {
        return true;
    }
    s >> n == 0
}

// The numbers from n to 63.
pub fn beyond(n: u32) -> u64
    ensures { result ≡ sets.beyond 64 n }
{
    if 64 <= n {
        return 0;
    }
    !(bit(n) - 1)
}

// The members of s, each n higher, where the highest is below 64 then.
pub fn shift(s: u64, n: u32) -> u64
    requires { (n < 64) × (sets.shifted n s < 2 ^ 64) }
    ensures { result ≡ sets.shifted n s }
{
    s << n
}

// How many members s has.
pub fn count(s: u64) -> u32
    ensures { result ≡ ones s }
{
    u64::count_ones(s)
}

// The tables of the samples.
use sample_bytes::put_bytes;
use sample_trees::{formula, node, tree_r};

// R's formulas as records 1, 3 and 5, with dead records before, between and behind: 0 true, 2 not 0, 4 and of 0, 2, 6 not 5.
pub(crate) fn formulas_spread() -> [u8; 56] {
    let mut table = [0u8; 56];
    put_bytes(&mut table, 8, &formula(0, 0, 0, 0));
    put_bytes(&mut table, 16, &formula(1, 0, 0, 0));
    put_bytes(&mut table, 24, &formula(3, 1, 0, 3));
    put_bytes(&mut table, 32, &formula(2, 0, 2, 0));
    put_bytes(&mut table, 40, &formula(5, 1, 3, 0));
    put_bytes(&mut table, 48, &formula(1, 5, 0, 0));
    table
}

// The number of R's formula record f among these.
fn spread(f: u8) -> u8 {
    f % 3 * 2 + 1
}

// R's tree for these formulas.
pub(crate) fn tree_spread() -> [u8; 920] {
    let mut tree = tree_r();
    for k in 0..23 {
        tree[k * 40 + 32] = spread(tree[k * 40 + 32]);
    }
    tree
}

// A table of 256 records: record 0 is true, 1 to 254 are not 0, and record 255 is true.
pub(crate) fn many_formulas() -> [u8; 2048] {
    let mut table = [0u8; 2048];
    for i in 1..255 {
        table[i * 8] = 1;
    }
    table
}

// 256 records that are all reached from the last: record 0 is true, and each other is "not" of the one before it.
pub(crate) fn chain() -> [u8; 2048] {
    let mut table = [0u8; 2048];
    for i in 1..256 {
        table[i * 8] = 1;
        table[i * 8 + 2] = (i - 1) as u8;
    }
    table
}

// One node: record f, which is true, holds at 1.
pub(crate) fn tree_true(f: u16) -> [u8; 40] {
    node(1, 0, 0, 0, 0, f, 0, 15, 0, 0, 0, 0)
}

// Two nodes: record f, the "not" of record g, fails at 1, since record g is true.
pub(crate) fn tree_not(f: u16, g: u16) -> [u8; 80] {
    let mut tree = [0u8; 80];
    put_bytes(&mut tree, 0, &node(1, 0, 0, 0, 1, f, 1, 21, 1, 0, 0, 0));
    put_bytes(&mut tree, 40, &node(1, 0, 0, 0, 0, g, 0, 15, 0, 0, 0, 0));
    tree
}

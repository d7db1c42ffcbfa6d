// The tables of the samples of trees, built from their fields.
#![tactic(auto)]

ghost use Rattle.std.specs.Prelude.{◌≡◌};
ghost use Rattle.sample_trees.specs.Tables as tables;

use sample_bytes::{put_bytes, put_number};

// A formula record.
pub fn formula(operator: u8, left: u16, right: u16, action: u16) -> [u8; 8]
    ensures { result ≡ tables.formula operator left right action }
{
    let mut bytes = [0u8; 8];
    put_number(&mut bytes, 0, 2, u64::from(operator));
    put_number(&mut bytes, 2, 2, u64::from(left));
    put_number(&mut bytes, 4, 2, u64::from(right));
    put_number(&mut bytes, 6, 2, u64::from(action));
    bytes
}

// R's formulas.
pub fn formulas_r() -> [u8; 24]
    ensures { result ≡ tables.formulas_r }
{
    let mut table = [0u8; 24];
    put_bytes(&mut table, 0, &formula(0, 0, 0, 0));
    put_bytes(&mut table, 8, &formula(3, 0, 0, 3));
    put_bytes(&mut table, 16, &formula(5, 0, 1, 0));
    table
}

// An ask.
pub fn ask(marking: u64, formula: u16, places: u8, side: u8) -> [u8; 12]
    ensures { result ≡ tables.ask marking formula places side }
{
    let mut bytes = [0u8; 12];
    put_number(&mut bytes, 0, 8, marking);
    put_number(&mut bytes, 8, 2, u64::from(formula));
    put_number(&mut bytes, 10, 1, u64::from(places));
    put_number(&mut bytes, 11, 1, u64::from(side));
    bytes
}

// A node's record, by its fields in their order: so a row of a table is a line.
pub fn node(
    marking: u64,
    anchor: u64,
    kept: u64,
    parent: u32,
    first: u32,
    formula: u16,
    children: u8,
    rule: u8,
    side: u8,
    phase: u8,
    round: u8,
    transition: u8,
) -> [u8; 40]
    ensures { result ≡ tables.node marking anchor kept parent first formula children rule side phase round transition }
{
    let mut bytes = [0u8; 40];
    put_number(&mut bytes, 0, 8, marking);
    put_number(&mut bytes, 8, 8, anchor);
    put_number(&mut bytes, 16, 8, kept);
    put_number(&mut bytes, 24, 4, u64::from(parent));
    put_number(&mut bytes, 28, 4, u64::from(first));
    put_number(&mut bytes, 32, 2, u64::from(formula));
    put_number(&mut bytes, 34, 1, u64::from(children));
    put_number(&mut bytes, 35, 1, u64::from(rule));
    put_number(&mut bytes, 36, 1, u64::from(side));
    put_number(&mut bytes, 37, 1, u64::from(phase));
    put_number(&mut bytes, 38, 1, u64::from(round));
    put_number(&mut bytes, 39, 1, u64::from(transition));
    bytes
}

// Node k of R's tree, zeros where there is none. The match is the table that `node_r` of specs/ has.
pub fn node_r(k: usize) -> [u8; 40]
    ensures { result ≡ tables.node_r k }
{
    match k {
        0 => node(3, 0, 0, 0, 1, 2, 3, 6, 0, 0, 0, 0),
        1 => node(3, 0, 0, 0, 0, 0, 0, 15, 0, 0, 0, 0),
        2 => node(3, 0, 0, 0, 4, 2, 1, 7, 0, 0, 0, 0),
        3 => node(5, 0, 0, 0, 5, 2, 1, 5, 0, 0, 0, 0),
        4 => node(3, 3, 3, 2, 6, 2, 1, 8, 0, 1, 2, 0),
        5 => node(5, 0, 0, 3, 7, 1, 1, 2, 0, 0, 0, 2),
        6 => node(3, 3, 3, 4, 8, 2, 3, 9, 0, 2, 1, 0),
        7 => node(1, 0, 0, 5, 0, 0, 0, 15, 0, 0, 0, 0),
        8 => node(3, 0, 0, 6, 0, 0, 0, 15, 0, 0, 0, 0),
        9 => node(3, 3, 2, 6, 11, 2, 1, 11, 0, 2, 1, 0),
        10 => node(5, 3, 1, 6, 12, 2, 1, 10, 0, 2, 1, 0),
        11 => node(3, 3, 2, 9, 13, 2, 1, 14, 0, 3, 1, 0),
        12 => node(5, 0, 0, 10, 14, 1, 1, 2, 0, 0, 0, 2),
        13 => node(3, 3, 2, 11, 15, 2, 1, 8, 0, 1, 1, 0),
        14 => node(1, 0, 0, 12, 0, 0, 0, 15, 0, 0, 0, 0),
        15 => node(3, 3, 2, 13, 16, 2, 3, 9, 0, 2, 0, 0),
        16 => node(3, 0, 0, 15, 0, 0, 0, 15, 0, 0, 0, 0),
        17 => node(3, 3, 2, 15, 19, 2, 1, 11, 0, 2, 0, 0),
        18 => node(5, 3, 0, 15, 20, 2, 1, 10, 0, 2, 0, 0),
        19 => node(3, 3, 2, 17, 21, 2, 1, 14, 0, 3, 0, 0),
        20 => node(5, 0, 0, 18, 22, 1, 1, 2, 0, 0, 0, 2),
        21 => node(3, 3, 2, 19, 0, 2, 0, 17, 0, 1, 0, 0),
        22 => node(1, 0, 0, 20, 0, 0, 0, 15, 0, 0, 0, 0),
        _ => [0; 40],
    }
}

// R's tree.
pub fn tree_r() -> [u8; 920]
    ensures { result ≡ tables.tree_r }
{
    let mut tree = [0u8; 920];
    for k in 0..23 {
        put_bytes(&mut tree, k * 40, &node_r(k));
    }
    tree
}

// The four nodes of a tree that shows "fails 2" by the rules 31, 32 (t0), 24 and 33.
pub fn tree_fails(marking: u64, kept: u64, last: u64) -> [u8; 160]
    ensures { result ≡ tables.tree_fails marking kept last }
{
    let mut tree = [0u8; 160];
    put_bytes(
        &mut tree,
        0,
        &node(marking, 0, 0, 0, 1, 2, 1, 31, 1, 0, 0, 0),
    );
    put_bytes(
        &mut tree,
        40,
        &node(marking, marking, kept, 0, 2, 2, 2, 32, 1, 4, 0, 0),
    );
    put_bytes(
        &mut tree,
        80,
        &node(marking, 0, 0, 1, 0, 1, 0, 24, 1, 0, 0, 0),
    );
    put_bytes(
        &mut tree,
        120,
        &node(marking, marking, last, 1, 0, 2, 0, 33, 1, 4, 0, 0),
    );
    tree
}

// Tables with dead records, and tables without.
use crate::calls::{Sizes, Tables, compact, compact_sized};
use crate::given::{formulas_spread, tree_not, tree_spread};
use sample_bytes::put_bytes;
use sample_nets::{net_r, optional, transition};
use sample_trees::{ask, formula, formulas_r, tree_fails, tree_r};
use std::io;

// R with dead records before, between and behind.
fn r_dead(rt: HostRuntime) -> io::Result<()> {
    let tables = Tables {
        ask: &ask(3, 5, 3, 0),
        net: &net_r(),
        formulas: &formulas_spread(),
        tree: &tree_spread(),
    };
    let just = Sizes {
        ask: 12,
        formulas: 24,
        tree: 920,
    };
    compact(rt, "R, dead records", tables)?;
    compact_sized(rt, "R, dead records, just room", tables, just)
}

// R as it is.
fn r(rt: HostRuntime) -> io::Result<()> {
    let tables = Tables {
        ask: &ask(3, 2, 3, 0),
        net: &net_r(),
        formulas: &formulas_r(),
        tree: &tree_r(),
    };
    compact(rt, "R, all reached", tables)
}

// Only place 0 and t0: fails 2.
fn fails(rt: HostRuntime) -> io::Result<()> {
    let mut formulas = [0u8; 32];
    put_bytes(&mut formulas, 0, &formulas_r());
    put_bytes(&mut formulas, 24, &formula(2, 1, 2, 0));
    let tables = Tables {
        ask: &ask(1, 2, 1, 1),
        net: &transition(1, 1, 1),
        formulas: &formulas,
        tree: &tree_fails(1, 1, 0),
    };
    compact(rt, "fails, a dead record behind", tables)
}

// An operator that lacks right, between dead records.
fn not(rt: HostRuntime) -> io::Result<()> {
    let mut formulas = [0u8; 40];
    put_bytes(&mut formulas, 16, &formula(3, 1, 0, 65535));
    put_bytes(&mut formulas, 24, &formula(1, 1, 0, 0));
    put_bytes(&mut formulas, 32, &formula(4, 3, 3, 0));
    let tables = Tables {
        ask: &ask(1, 3, 1, 1),
        net: &optional(1, 1, 1),
        formulas: &formulas,
        tree: &tree_not(3, 1),
    };
    compact(rt, "not, dead records", tables)
}

// All of them.
pub(crate) fn print_all(rt: HostRuntime) -> io::Result<()> {
    r_dead(rt)?;
    r(rt)?;
    fails(rt)?;
    not(rt)
}

// What is refused or broken, as the check says it, then 12. The base is R with dead records.
use crate::calls::{Sizes, Tables, compact, compact_sized};
use crate::given::{formulas_spread, tree_spread};
use sample_bytes::put_bytes;
use sample_nets::net_r;
use sample_trees::{ask, formulas_r, tree_fails};
use std::io;

// Under another ask.
fn asked(
    rt: HostRuntime,
    base: Tables,
    name: &str,
    formula: u16,
    places: u8,
    side: u8,
) -> io::Result<()> {
    let ask = ask(3, formula, places, side);
    compact(rt, name, Tables { ask: &ask, ..base })
}

// With another net.
fn with_net(rt: HostRuntime, base: Tables, name: &str, net: &[u8]) -> io::Result<()> {
    compact(rt, name, Tables { net, ..base })
}

// With other formulas.
fn with_formulas(rt: HostRuntime, base: Tables, name: &str, formulas: &[u8]) -> io::Result<()> {
    compact(rt, name, Tables { formulas, ..base })
}

// With another tree.
fn with_tree(rt: HostRuntime, base: Tables, name: &str, tree: &[u8]) -> io::Result<()> {
    compact(rt, name, Tables { tree, ..base })
}

// With one byte of a formula record changed.
fn with_formula_byte(
    rt: HostRuntime,
    base: Tables,
    name: &str,
    at: usize,
    value: u8,
) -> io::Result<()> {
    let mut formulas = formulas_spread();
    put_bytes(&mut formulas, at, &[value]);
    with_formulas(rt, base, name, &formulas)
}

// With one byte of the net changed.
fn with_net_byte(
    rt: HostRuntime,
    base: Tables,
    name: &str,
    at: usize,
    value: u8,
) -> io::Result<()> {
    let mut net = net_r();
    put_bytes(&mut net, at, &[value]);
    with_net(rt, base, name, &net)
}

// With one byte of the tree changed.
fn with_tree_byte(
    rt: HostRuntime,
    base: Tables,
    name: &str,
    at: usize,
    value: u8,
) -> io::Result<()> {
    let mut tree = tree_spread();
    put_bytes(&mut tree, at, &[value]);
    with_tree(rt, base, name, &tree)
}

// 1 to 7.
fn refused(rt: HostRuntime, base: Tables) -> io::Result<()> {
    asked(rt, base, "no places", 5, 0, 0)?;
    with_net(rt, base, "no net", b"")?;
    with_net_byte(rt, base, "net, mark of record 1", 42, 2)?;
    with_formulas(rt, base, "no formulas", b"")?;
    with_formula_byte(rt, base, "a dead record at fault", 48, 6)?;
    with_formula_byte(rt, base, "a reached record at fault", 26, 3)?;
    with_tree(rt, base, "no tree", b"")?;
    asked(rt, base, "formula not in the table", 7, 3, 0)
}

// R fails 2, node 3 keeping 2.
fn keeping_two(rt: HostRuntime) -> io::Result<()> {
    let tables = Tables {
        ask: &ask(3, 2, 3, 1),
        net: &net_r(),
        formulas: &formulas_r(),
        tree: &tree_fails(3, 3, 2),
    };
    compact(rt, "R fails 2, node 3 keeping 2", tables)
}

// 20 to 26.
fn broken(rt: HostRuntime, base: Tables) -> io::Result<()> {
    with_tree_byte(rt, base, "node 1, parent", 64, 1)?;
    with_tree_byte(rt, base, "node 2, transition", 119, 1)?;
    asked(rt, base, "another formula asked", 3, 3, 0)?;
    with_tree_byte(rt, base, "node 1, rule", 75, 16)?;
    keeping_two(rt)?;
    with_tree_byte(rt, base, "node 3, rule without its children", 155, 6)?;
    with_tree_byte(rt, base, "node 1, a dead record's formula", 72, 0)
}

// This formula asked, into rooms of these sizes.
fn sized(
    rt: HostRuntime,
    base: Tables,
    name: &str,
    f: u16,
    ask_size: usize,
    formulas: usize,
    tree: usize,
) -> io::Result<()> {
    let ask = ask(3, f, 3, 0);
    let sizes = Sizes {
        ask: ask_size,
        formulas,
        tree,
    };
    compact_sized(rt, name, Tables { ask: &ask, ..base }, sizes)
}

// 12, which comes last.
fn short(rt: HostRuntime, base: Tables) -> io::Result<()> {
    sized(rt, base, "ask a byte short", 5, 11, 24, 920)?;
    sized(rt, base, "formulas a byte short", 5, 12, 23, 920)?;
    sized(rt, base, "tree a byte short", 5, 12, 24, 919)?;
    sized(rt, base, "no room", 5, 0, 0, 0)?;
    sized(rt, base, "formula not in the table, no room", 7, 0, 0, 0)
}

// All of them.
pub(crate) fn print_all(rt: HostRuntime) -> io::Result<()> {
    let base = Tables {
        ask: &ask(3, 5, 3, 0),
        net: &net_r(),
        formulas: &formulas_spread(),
        tree: &tree_spread(),
    };
    refused(rt, base)?;
    broken(rt, base)?;
    short(rt, base)
}

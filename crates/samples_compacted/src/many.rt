// Tables of 256 formula records.
use crate::calls::{Tables, compact};
use crate::given::{chain, many_formulas, tree_not, tree_true};
use sample_nets::transition;
use sample_trees::ask;
use std::io;

// Record f of 256, which is true.
fn one(rt: HostRuntime, name: &str, f: u16) -> io::Result<()> {
    let tables = Tables {
        ask: &ask(1, f, 1, 0),
        net: &transition(0, 0, 0),
        formulas: &many_formulas(),
        tree: &tree_true(f),
    };
    compact(rt, name, tables)
}

// Record f of a table, which is "not" of record 0.
fn two(rt: HostRuntime, name: &str, f: u16, formulas: &[u8]) -> io::Result<()> {
    let tables = Tables {
        ask: &ask(1, f, 1, 1),
        net: &transition(0, 0, 0),
        formulas,
        tree: &tree_not(f, 0),
    };
    compact(rt, name, tables)
}

// One reached, the first or the last; two reached.
pub(crate) fn print_all(rt: HostRuntime) -> io::Result<()> {
    one(rt, "256 records, the first reached", 0)?;
    one(rt, "256 records, the last reached", 255)?;
    two(rt, "256 records, two reached", 254, &many_formulas())?;
    two(rt, "a chain of 256 records, two reached", 1, &chain())
}

// The lines of a call.
use compact::Numbers;
use nodes::read;
use sample_bytes::{FILL, alike, kept};
use std::io;

// The four tables of a check.
#[derive(Clone, Copy)]
pub(crate) struct Tables<'a> {
    pub(crate) ask: &'a [u8],
    pub(crate) net: &'a [u8],
    pub(crate) formulas: &'a [u8],
    pub(crate) tree: &'a [u8],
}

// How many bytes are lent for ask, formulas and tree.
#[derive(Clone, Copy)]
pub(crate) struct Sizes {
    pub(crate) ask: usize,
    pub(crate) formulas: usize,
    pub(crate) tree: usize,
}

// The first bytes of a room; all where it has fewer.
fn part<'a>(room: &'a [u8], size: usize) -> &'a [u8] {
    &room[..size.min(room.len())]
}

// The same of a room that is written.
fn first<'a>(room: &'a mut [u8], size: usize) -> &'a mut [u8] {
    let size = size.min(room.len());
    &mut room[..size]
}

// Prints the check's line on four tables.
fn check(rt: HostRuntime, tables: Tables) -> io::Result<()> {
    let mut text = [0u8; 40];
    let size = line::check_line(
        tables.ask,
        tables.net,
        tables.formulas,
        tables.tree,
        &mut text,
    );
    print!(rt; "  ")?;
    rt.write_all(&text[..size])
}

// Prints the formula records of a table.
fn records(rt: HostRuntime, formulas: &[u8]) -> io::Result<()> {
    for i in 0..formulas.len() / pctl::RECORD {
        let r = pctl::formula_at(formulas, i);
        println!(rt;
            "  record {i}: {} {} {} {}",
            r.operator, r.left, r.right, r.action
        )?;
    }
    Ok(())
}

// Compacts tables into three rooms.
fn compact_into(tables: Tables, ask: &mut [u8], formulas: &mut [u8], tree: &mut [u8]) -> Numbers {
    compact::compact_numbers(compact::compact(
        tables.ask,
        tables.net,
        tables.formulas,
        tables.tree,
        ask,
        formulas,
        tree,
    ))
}

// Prints how many first bytes of a new table are those of an old one, of how many.
fn same(rt: HostRuntime, before: &str, new: &[u8], old: &[u8]) -> io::Result<()> {
    print!(rt; "{before} {} of {}", alike(new, old), old.len())
}

// Compacts new tables again, and prints how many bytes of each are the same.
fn again(rt: HostRuntime, tables: Tables) -> io::Result<()> {
    let mut ask = [FILL; 12];
    let mut formulas = [FILL; 80];
    let mut tree = [FILL; 1000];
    let said = compact_into(tables, &mut ask, &mut formulas, &mut tree);
    print!(rt; "  again: {} {} {}", said.number, said.place, said.count)?;
    same(rt, ", same", &ask, tables.ask)?;
    same(rt, ",", &formulas, tables.formulas)?;
    same(rt, ",", &tree, tables.tree)?;
    println!(rt;)
}

// Prints what the rooms hold after an answer: where it is refused, how much of each is as it was; else the rest of each, and the new tables.
fn rooms(
    rt: HostRuntime,
    said: Numbers,
    old: Tables,
    ask: &[u8],
    formulas: &[u8],
    tree: &[u8],
) -> io::Result<()> {
    if said.number != 0 {
        return println!(rt; "{}{}{}", kept(ask, 0), kept(formulas, 0), kept(tree, 0));
    }
    let new = Tables {
        ask: part(ask, read::ASK),
        net: old.net,
        formulas: part(formulas, said.count as usize % 257 * pctl::RECORD),
        tree: part(tree, old.tree.len()),
    };
    print!(rt;
        "{}{}",
        kept(ask, read::ASK),
        kept(formulas, new.formulas.len())
    )?;
    println!(rt; "{}", kept(tree, old.tree.len()))?;
    check(rt, new)?;
    records(rt, new.formulas)?;
    again(rt, new)
}

// Compacts tables into so many first bytes of rooms of 17, 86 and 1,007 bytes, and prints the answer.
pub(crate) fn compact_sized(
    rt: HostRuntime,
    name: &str,
    tables: Tables,
    sizes: Sizes,
) -> io::Result<()> {
    let mut ask = [FILL; 17];
    let mut formulas = [FILL; 86];
    let mut tree = [FILL; 1007];
    let ask = first(&mut ask, sizes.ask);
    let formulas = first(&mut formulas, sizes.formulas);
    let tree = first(&mut tree, sizes.tree);
    let said = compact_into(tables, ask, formulas, tree);
    print!(rt; "{name}: {} {} {}", said.number, said.place, said.count)?;
    rooms(rt, said, tables, ask, formulas, tree)
}

// Compacts tables into all of such rooms.
pub(crate) fn compact(rt: HostRuntime, name: &str, tables: Tables) -> io::Result<()> {
    let all = Sizes {
        ask: 17,
        formulas: 86,
        tree: 1007,
    };
    compact_sized(rt, name, tables, all)
}

// The samples of written trees: their tables, the call of the writer on a room filled with a pattern, and the check of what was written.
#![tactic(auto)]

ghost use Rattle.std.specs.Prelude.{◌≡◌, ◌+◌, ◌*◌, ◌-◌, ◌/◌, ◌%◌, ◌≤◌, length, take};
ghost use Rattle.std.proofs.lemmas.List.Edits.{sets};
ghost use Rattle.sample_trees.specs.Tables.{formula};
ghost use Rattle.nodes.specs.Nodes.{ask_size_lem, node_size};
ghost use Rattle.nodes.specs.Written.{with_side};
ghost use Rattle.checker.specs.Outcomes as outcomes;
ghost use Rattle.tree_answer.specs.Answer.{write_answer};
ghost use Rattle.sample_written.specs.Tables as tables;
ghost use Rattle.sample_written.specs.Told as told;

use checker::Rejection;
use nodes::read;
use sample_bytes::put_bytes;
use sample_nets::put_transition;
use tree_write::Numbers;

// ---- tables

// Puts formula record f into a table, as far as the table goes.
pub fn put_formula(table: &mut [u8], f: u16, operator: u8, left: u16, right: u16, action: u16)
    ensures { table.new ≡ sets table.old (f * 8) (formula operator left right action) }
{
    let record = sample_trees::formula(operator, left, right, action);
    put_bytes(table, usize::from(f) * 8, &record);
}

// The number that a digit's byte writes.
fn digit(b: u8) -> u8
    ensures { result ≡ b % 16 }
{
    b % 16
}

// The formula record of row f of rows of four digits, with a byte between them: operator, left, right, action.
fn row(rows: &[u8], f: usize) -> [u8; 8]
    requires { f * 5 + 4 ≤ length rows.now }
    ensures { result ≡ tables.row rows.now f }
{
    let at = f * 5;
    let left = digit(rows[at + 1]);
    let right = digit(rows[at + 2]);
    let action = digit(rows[at + 3]);
    sample_trees::formula(
        digit(rows[at]),
        u16::from(left),
        u16::from(right),
        u16::from(action),
    )
}

// Puts the formula records of such rows from the start of a table on.
fn put_rows(table: &mut [u8], rows: &[u8])
    requires { length rows.now ≤ 1000 }
    ensures { table.new ≡ sets table.old 0 (tables.table rows.now ((length rows.now + 1) / 5)) }
{
    for f in 0..(rows.len() + 1) / 5 {
        put_bytes(table, f * 8, &row(rows, f));
    }
}

// The formulas of the operators, for net R.
pub fn operators() -> [u8; 96]
    ensures { result ≡ tables.operators }
{
    let mut table = [0u8; 96];
    put_rows(
        &mut table,
        b"0000 3003 1000 1200 1100 2000 2550 2200 2020 2210 3102 3202",
    );
    table
}

// R's formulas, and four without until.
pub fn formulas_r() -> [u8; 56]
    ensures { result ≡ tables.formulas_r }
{
    let mut table = [0u8; 56];
    put_rows(&mut table, b"0000 3003 5010 3102 1300 2310 2130");
    table
}

// The formulas of the choices between transitions.
pub fn choices() -> [u8; 64]
    ensures { result ≡ tables.choices }
{
    let mut table = [0u8; 64];
    put_rows(&mut table, b"0000 3008 3107 3007 1000 3407 3006 3607");
    table
}

// Formulas that reach an until and formulas that do not.
pub fn untils() -> [u8; 72]
    ensures { result ≡ tables.untils }
{
    let mut table = [0u8; 72];
    put_rows(&mut table, b"0000 4000 5000 1100 2020 3403 2000 1600 2710");
    table
}

// Puts n "and"s, each of the record before it with itself, from record 1 on.
fn put_ands(table: &mut [u8], n: u16)
    requires { n ≤ 255 }
    ensures { table.new ≡ sets table.old 8 (tables.ands n) }
{
    for f in 0..n {
        put_formula(table, f + 1, 2, f, f, 0);
    }
}

// A record that is true, 15 "and"s, and formulas over them.
pub fn chains() -> [u8; 160]
    ensures { result ≡ tables.chains }
{
    let mut table = [0u8; 160];
    put_formula(&mut table, 0, 0, 0, 0, 0);
    put_ands(&mut table, 15);
    put_formula(&mut table, 16, 1, 15, 0, 0);
    put_formula(&mut table, 17, 1, 16, 0, 0);
    put_formula(&mut table, 18, 1, 0, 0, 0);
    put_formula(&mut table, 19, 2, 17, 18, 0);
    table
}

// A record that is true, and 255 "and"s.
pub fn longest_chain() -> [u8; 2048]
    ensures { result ≡ tables.chain 255 }
{
    let mut table = [0u8; 2048];
    put_formula(&mut table, 0, 0, 0, 0, 0);
    put_ands(&mut table, 255);
    table
}

// The net of the choices.
pub fn net_of_choices() -> [u8; 144]
    ensures { result ≡ tables.net_of_choices }
{
    let mut table = [0u8; 144];
    put_transition(&mut table, 0, 2, 1, 7);
    put_transition(&mut table, 1, 1, 2, 7);
    put_transition(&mut table, 2, 1, 4, 7);
    put_transition(&mut table, 3, 1, 4, 7);
    put_transition(&mut table, 4, 1, 4, 6);
    put_transition(&mut table, 5, 4, 0, 8);
    table
}

// ---- rooms

// Fills a room with the pattern.
fn fill(room: &mut [u8])
    ensures { room.new ≡ told.filled (length room.old) }
{
    for (i, byte) in room.iter_mut().enumerate() {
        *byte = (i % 251) as u8;
    }
}

// How many bytes of a room from an offset on are as the pattern has them.
pub fn kept(room: &[u8], from: usize) -> usize
    ensures { result ≡ told.kept room.now from (length room.now - from) }
{
    let mut n: usize = 0;
    for i in from..room.len() {
        if usize::from(room[i]) == i % 251 {
            n += 1;
        }
    }
    n
}

// The bytes of so many nodes at the start of a room.
pub fn tree<'a>(room: &'a [u8], nodes: u64) -> &'a [u8]
    ensures { result.now ≡ take (nodes * node_size) room.now }
{
    let most = room.len() / read::NODE;
    if (most as u64) < nodes {
        return room;
    }
    &room[..nodes as usize * read::NODE]
}

// ---- calls

// Writes the tree of the asked formula into a room that is filled before: the answer in numbers.
pub fn write(ask: &[u8], net: &[u8], formulas: &[u8], room: &mut [u8]) -> Numbers
    ensures { told.writer result room.new ≡ write_answer ask.now net.now formulas.now (told.filled (length room.old)) }
{
    fill(room);
    tree_write::write_numbers(tree_write::write(ask, net, formulas, room))
}

// The check's verdict on a tree for the ask with this side put in.
pub fn check(
    ask: &[u8],
    side: u8,
    net: &[u8],
    formulas: &[u8],
    tree: &[u8],
) -> Result<usize, Rejection>
    requires { length ask.now ≡ ask_size_lem }
    ensures { outcomes.verdict result ≡ outcomes.check_outcome (with_side ask.now side) net.now formulas.now tree.now }
{
    let mut sided = [0u8; read::ASK];
    sided.copy_from_slice(ask);
    sided[11] = side;
    checker::check(&sided, net, formulas, tree)
}

// Room in the formula table: the tables of an accepted tree without the formula records that the asked one does not reach, written to lent tables.
#![tactic(auto)]

ghost use Rattle.std.specs.Prelude.{◌≡◌, ◌*◌, ◌+◌, ◌≤◌, ◌<◌, length, IfErr};
ghost use Rattle.std.proofs.lemmas.List.Edits.{sets};
ghost use Rattle.tables.specs.Lists.{tab, laid};
ghost use Rattle.tables.specs.Below.{count_below};
ghost use Rattle.pctl.specs.Table as records;
ghost use Rattle.pctl.specs.Written as written;
ghost use Rattle.nodes.specs.Nodes as nodes;
ghost use Rattle.compact_tables.specs.Reached as reaching;
ghost use Rattle.compact_tables.specs.Tables as tables;
ghost use Rattle.compact_tables.specs.Answer as answers;
ghost use Rattle.compact_tables.specs.Theorem as theorem;
ghost use Rattle.compact.specs.Result as results;
ghost use Rattle.compact.specs.Serving as serving;

use checker::Rejection;
use nodes::{Ask, Node, read, write};
use pctl::FormulaRecord;
use tableau::Sequent;

// Why nothing is written: the check does not accept the tree, or a lent table is too short. `numbers_of` of specs/ has the documents' numbers: the
// check's own with the record or the node (1 to 7, 20 to 26), and 12.
#[derive(Clone, Copy)]
pub enum CompactRefusal {
    Rejected(Rejection),
    Short,
}

impl From<Rejection> for CompactRefusal {
    ghost use Rattle.compact.specs.declared.CompactRefusal.TheVariants.{Rejected};

    ghost from_gives = { λ why refusal. refusal ≡ Rejected why };

    fn from(why: Rejection) -> CompactRefusal {
        CompactRefusal::Rejected(why)
    }
}

// An answer in the documents' numbers, for the C interface: 0 where granted; the record or node as its place; the formula records left, 0 where refused.
#[derive(Clone, Copy)]
pub struct Numbers {
    pub number: u32,
    pub place: u64,
    pub count: u64,
}

// ---- which records are reached

// Marks the operands of record i, where it is marked itself.
fn mark_operands(formulas: &[u8], i: usize, marks: &mut [bool; 256])
    requires { serving.Formulas formulas.now × (i < records.formulas formulas.now) }
    ensures { serving.Marked formulas.now i marks.old marks.new }
{
    let on = marks[i];
    let r = pctl::formula_at(formulas, i);
    let op = r.operator;
    marks[r.left as usize] |= on & pctl::has_left(op);
    marks[r.right as usize] |= on & pctl::has_right(op);
}

// The records that record f reaches: one pass from f down, since operands are lower.
fn reached(formulas: &[u8], f: usize) -> [bool; 256]
    requires { serving.Formulas formulas.now × (f < records.formulas formulas.now) }
    ensures { serving.Marks (reaching.reached formulas.now f) result }
{
    let mut marks = [false; 256];
    marks[f] = true;
    for i in (0..f + 1).rev() {
        mark_operands(formulas, i, &mut marks);
    }
    marks
}

// ---- the new numbers

// For each record, how many lower ones are marked.
fn numbers_of(marks: &[bool; 256]) -> [u16; 256]
    ensures { result ≡ tab (count_below (serving.is_marked marks.now)) 256 }
{
    let mut numbers = [0u16; 256];
    let mut n: u16 = 0;
    for (i, number) in numbers.iter_mut().enumerate() {
        *number = n;
        n += u16::from(marks[i]);
    }
    numbers
}

// The new number of an operand; a field that the operator lacks stays. A flag beside a number, no `Option`: the lacking field is a number too, and is put.
fn new_operand(numbers: &[u16; 256], has: bool, operand: u16) -> u16
    requires { operand < 256 }
    ensures { result ≡ tables.operand_by (serving.at numbers.now) has operand }
{
    if has {
        return numbers[operand as usize];
    }
    operand
}

// ---- the new tables

// Puts record i, its operands by their new numbers, as record n of the room.
fn put_record(formulas: &[u8], i: usize, numbers: &[u16; 256], room: &mut [u8], n: usize)
    requires { serving.Formulas formulas.now × (i < records.formulas formulas.now) × (n * records.formula_size + records.formula_size ≤ length room.old) }
    ensures { room.new ≡ sets room.old (n * records.formula_size) (written.formula_bytes (tables.record_by (serving.at numbers.now) (records.record_at formulas.now i))) }
{
    let r = pctl::formula_at(formulas, i);
    let op = r.operator;
    let left = new_operand(numbers, pctl::has_left(op), r.left);
    let right = new_operand(numbers, pctl::has_right(op), r.right);
    let new = FormulaRecord {
        operator: op,
        left,
        right,
        action: r.action,
    };
    pctl::put_formula(room, n, new);
}

// Puts the marked records, one after another. n is counted by hand: it is `numbers[i]` only where the numbers are those of the marks, which the
// contract does not ask.
fn put_formulas(formulas: &[u8], marks: &[bool; 256], numbers: &[u16; 256], room: &mut [u8])
    requires { serving.Formulas formulas.now × (count_below (serving.is_marked marks.now) (records.formulas formulas.now) * records.formula_size ≤ length room.old) }
    ensures { room.new ≡ sets room.old 0 (laid (serving.kept_by formulas.now marks.now numbers.now) (records.formulas formulas.now)) }
{
    let count = formulas.len() / pctl::RECORD;
    let mut n = 0;
    for i in 0..count {
        if !marks[i] {
            continue;
        }
        put_record(formulas, i, numbers, room, n);
        n += 1;
    }
}

// Puts all nodes, their formulas by their new numbers.
fn put_nodes(tree: &[u8], numbers: &[u16; 256], room: &mut [u8])
    requires { serving.Nodes tree.now × (nodes.nodes tree.now * nodes.node_size ≤ length room.old) }
    ensures { room.new ≡ sets room.old 0 (laid (serving.node_of tree.now numbers.now) (nodes.nodes tree.now)) }
{
    let count = tree.len() / read::NODE;
    for k in 0..count {
        let n = read::node_at(tree, k);
        let s = n.sequent;
        let formula = numbers[s.formula as usize];
        let sequent = Sequent { formula, ..s };
        write::put_node(room, k, Node { sequent, ..n });
    }
}

// ---- the answer

// Writes the new tables of an accepted tree, or answers that a lent table is too short.
fn compact_accepted(
    ask: &[u8],
    formulas: &[u8],
    tree: &[u8],
    new_ask: &mut [u8],
    new_formulas: &mut [u8],
    new_tree: &mut [u8],
) -> Result<usize, CompactRefusal>
    requires { serving.Ready ask.now formulas.now tree.now }
    ensures { (results.answer_of result (tables.tables new_ask.new new_formulas.new new_tree.new) ≡ answers.write_answer ask.now formulas.now tree.now (tables.tables new_ask.old new_formulas.old new_tree.old))
        × IfErr result results.OwnNumbers }
{
    let a = read::ask_of(ask);
    let f = a.formula as usize;
    let marks = reached(formulas, f);
    let numbers = numbers_of(&marks);
    let formula = numbers[f];
    let count = formula as usize + 1;
    if !((read::ASK <= new_ask.len())
        & (count * pctl::RECORD <= new_formulas.len())
        & (tree.len() <= new_tree.len()))
    {
        return Err(CompactRefusal::Short);
    }
    write::put_ask(new_ask, Ask { formula, ..a });
    put_formulas(formulas, &marks, &numbers, new_formulas);
    put_nodes(tree, &numbers, new_tree);
    Ok(count)
}

// Writes ask, formulas and tree of an accepted tree without the formula records that the asked one does not reach, each at the start of a lent table,
// whose other bytes stay. A refused call writes nothing. Where it is granted, the new tables are accepted with as many nodes and claim the same. Number and
// place fix what the input checks find.
pub fn compact(
    ask: &[u8],
    net: &[u8],
    formulas: &[u8],
    tree: &[u8],
    new_ask: &mut [u8],
    new_formulas: &mut [u8],
    new_tree: &mut [u8],
) -> Result<usize, CompactRefusal>
    ensures answer { results.answer_of result (tables.tables new_ask.new new_formulas.new new_tree.new) ≡ answers.compact_answer ask.now net.now formulas.now tree.now (tables.tables new_ask.old new_formulas.old new_tree.old) }
    ensures worth { (results.numbers_of result).number ≡ 0 → theorem.Stands ask.now net.now formulas.now tree.now (tables.compacted (tables.tables ask.now formulas.now tree.now)) }
    ensures own { IfErr result results.OwnNumbers }
{
    checker::check(ask, net, formulas, tree)?;
    compact_accepted(ask, formulas, tree, new_ask, new_formulas, new_tree)
}

// A refusal's number and place.
fn refused(number: u32, place: u64) -> Numbers
    ensures { result ≡ record { number = number; place = place; count = 0 } }
{
    Numbers {
        number,
        place,
        count: 0,
    }
}

// The numbers of an answer.
#[tactic(auto, unfolding(crate::specs::Result::numbers_of))]
pub fn compact_numbers(r: Result<usize, CompactRefusal>) -> Numbers
    ensures { result ≡ results.numbers_of r }
{
    match r {
        Ok(count) => Numbers {
            number: 0,
            place: 0,
            count: count as u64,
        },
        Err(CompactRefusal::Rejected(why)) => {
            let found = checker::verdict_numbers(Err(why));
            refused(found.number, found.place)
        }
        Err(CompactRefusal::Short) => refused(12, 0),
    }
}

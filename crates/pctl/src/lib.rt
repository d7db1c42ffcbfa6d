// Formulas of the branching logic P-CTL: the table of formula records and its check. The meaning is in specs/.
#![tactic(auto)]

ghost use Rattle.std.specs.Prelude.{◌≡◌, ◌+◌, ◌*◌, ◌≤◌, ◌<◌, length};
ghost use Rattle.std.proofs.lemmas.List.Edits.{sets};
ghost use Rattle.pctl.specs.Table as table;
ghost use Rattle.pctl.specs.Written as written;

use tables::TableFault;

// The bytes of a formula record.
pub const RECORD: usize = 8;

// A formula record: the operator, the records of its operands, and the action. A field that the operator lacks is zero.
#[derive(Clone, Copy)]
pub struct FormulaRecord {
    pub operator: u8,
    pub left: u16,
    pub right: u16,
    pub action: u16,
}

// Record i of the table.
pub fn formula_at(formulas: &[u8], i: usize) -> FormulaRecord
    requires { i * table.formula_size + table.formula_size ≤ length formulas.now }
    ensures { result ≡ table.record_at formulas.now i }
{
    let at = i * RECORD;
    let left = tables::u16_at(formulas, at + 2);
    let right = tables::u16_at(formulas, at + 4);
    let action = tables::u16_at(formulas, at + 6);
    FormulaRecord {
        operator: formulas[at],
        left,
        right,
        action,
    }
}

// Puts record k into lent room.
pub fn put_formula(room: &mut [u8], k: usize, r: FormulaRecord)
    requires { k * table.formula_size + table.formula_size ≤ length room.old }
    ensures { room.new ≡ sets room.old (k * table.formula_size) (written.formula_bytes r) }
{
    let at = k * RECORD;
    stores::put_bytes(room, at, 1, u64::from(r.operator));
    stores::put_bytes(room, at + 1, 1, 0);
    stores::put_bytes(room, at + 2, 2, u64::from(r.left));
    stores::put_bytes(room, at + 4, 2, u64::from(r.right));
    stores::put_bytes(room, at + 6, 2, u64::from(r.action));
}

// Whether an operator has a left operand.
#[tactic(auto, unfolding(crate::specs::Table::has_left))]
pub fn has_left(operator: u8) -> bool
    ensures { result ≡ table.has_left operator }
{
    1 <= operator
}

// Whether an operator has a right operand.
#[tactic(auto, unfolding(crate::specs::Table::has_right))]
pub fn has_right(operator: u8) -> bool
    ensures { result ≡ table.has_right operator }
{
    (operator == 2) | (4 <= operator)
}

// Whether an operand names a lower record, or is zero where the operator has no such operand.
#[tactic(auto, unfolding(crate::specs::Table::operand_good))]
fn operand_good(has: bool, i: usize, operand: u16) -> bool
    ensures { result ≡ table.operand_good has i operand }
{
    if has {
        usize::from(operand) < i
    } else {
        operand == 0
    }
}

// Whether record i has an operator above 5, a spare field that is not zero or an operand that is not lower.
fn record_bad(formulas: &[u8], i: usize) -> bool
    requires { i * table.formula_size + table.formula_size ≤ length formulas.now }
    ensures { result ≡ table.formula_bad formulas.now i }
{
    let spare = formulas[i * RECORD + 1];
    let f = formula_at(formulas, i);
    let op = f.operator;
    let left = operand_good(has_left(op), i, f.left);
    let right = operand_good(has_right(op), i, f.right);
    !((op <= 5) & (spare == 0) & left & right & ((op == 3) | (f.action == 0)))
}

// The input checks 4 and 5 of the table of formulas.
pub fn check_formulas(formulas: &[u8]) -> Result<(), TableFault>
    ensures { table.checked result ≡ table.formulas_fault formulas.now }
{
    tables::check_records(formulas.len(), RECORD, 1, 256, |i| record_bad(formulas, i))?;
    Ok(())
}

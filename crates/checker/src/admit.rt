// The input checks 1 to 7.
ghost use Rattle.std.specs.Prelude.{◌≡◌, IfErr};
ghost use Rattle.checker.specs.Outcomes as outcomes;

use crate::InputFault;
use nodes::{Ask, read};

// 6 and 7: the number of nodes, the ask's marking and formula.
fn check_last(a: Ask, formulas: &[u8], tree: &[u8]) -> Result<(), InputFault>
    ensures { (outcomes.input result ≡ outcomes.last_fault a formulas.now tree.now) × IfErr result outcomes.OwnNumber }
{
    let Some(_) = tables::records(tree.len(), read::NODE, 1, 65536) else {
        return Err(InputFault::Tree);
    };
    if bitset::within(u32::from(a.places), a.marking)
        & (usize::from(a.formula) < formulas.len() / pctl::RECORD)
    {
        Ok(())
    } else {
        Err(InputFault::Last)
    }
}

// 1 to 7, in their order. Number and record fix the case.
pub fn check_input(ask: &[u8], net: &[u8], formulas: &[u8], tree: &[u8]) -> Result<(), InputFault>
    ensures { (outcomes.input result ≡ outcomes.input_fault ask.now net.now formulas.now tree.now) × IfErr result outcomes.OwnNumber }
{
    if ask.len() != read::ASK {
        return Err(InputFault::Ask);
    }
    let a = read::ask_of(ask);
    if !((1 <= a.places) & (a.places <= 64) & (a.side <= 1)) {
        return Err(InputFault::Ask);
    }
    net::check_table(u32::from(a.places), net)?;
    pctl::check_formulas(formulas)?;
    check_last(a, formulas, tree)
}

//! Conditions that tests use.

ghost use Rattle.std.specs.Prelude.{◌≡◌, IfOk};
ghost use Rattle.tql_tree.specs.declared.table.Table.TheVariants.{Notes};
ghost use Rattle.tql_core.specs.declared.term.Base.TheVariants.{Arrival};
ghost use Rattle.tql_core.specs.Condition.{condition, All, Not, Exists};

use std::alloc::Global;
use tap_base::Memory;
use tql_core::{Base, Cond, Term, Var};
use tql_tree::Table;

/// Returns the arrival of a variable's row, some seconds later.
pub fn arrival(var: u8, plus: i64) -> Term
    ensures { result ≡ record { base = Arrival (record { 0 = var }); plus = plus } }
{
    Term {
        base: Base::Arrival(Var(var)),
        plus,
    }
}

/// Returns the condition that both hold.
pub fn both(alloc: Global, one: Cond, two: Cond) -> Result<Cond, Memory>
    ensures { IfOk result (λ cond. condition cond ≡ All (condition one) (condition two)) }
{
    match Box::new(alloc, one) {
        Ok(one) => match Box::new(alloc, two) {
            Ok(two) => Ok(Cond::All(one, two)),
            Err(_) => {
                drop(one);
                Err(Memory)
            }
        },
        Err(_) => {
            drop(two);
            Err(Memory)
        }
    }
}

/// Returns the condition that this one doesn't hold.
pub fn not(alloc: Global, cond: Cond) -> Result<Cond, Memory>
    ensures { IfOk result (λ not. condition not ≡ Not (condition cond)) }
{
    Ok(Cond::Not(Box::new(alloc, cond)?))
}

/// Returns the condition that it holds for no note.
pub fn for_no_note(alloc: Global, cond: Cond) -> Result<Cond, Memory>
    ensures { IfOk result (λ none.
        condition none ≡ Not (Exists (record { 0 = 1 }) Notes (condition cond))) }
{
    let noted = Cond::Exists(Var(1), Table::Notes, Box::new(alloc, cond)?);
    not(alloc, noted)
}

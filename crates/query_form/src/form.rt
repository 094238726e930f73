//! The form of a condition.

ghost use Rattle.std.specs.Prelude.{◌≡◌, IfOk};
ghost use Rattle.tql_core.specs.Condition.{condition};
ghost use Rattle.query_form.specs.Form.{formed_exists, formed, form_of};

use crate::build::{all, copied, either, negated};
use crate::limits::is_small;
use crate::place::Place;
use crate::scoping::{beside, conjuncts};
use crate::splitting::split;
use std::alloc::Global;
use tap_base::Memory;
use tql_core::{Cond, Var};
use tql_tree::Table;

// Makes the form of an EXISTS whose condition is in the form.
fn formed_exists(alloc: Global, var: Var, table: Table, cond: &Cond) -> Result<Cond, Memory>
    ensures { IfOk result (λ made. condition made ≡ formed_exists var table (condition cond.now)) }
{
    let inside = conjuncts(alloc, var, Place::Inside, cond)?;
    let made = split(alloc, var, table, &inside)?;
    beside(alloc, var, cond, made)
}

// Makes the form, however many nodes it has.
fn formed(alloc: Global, cond: &Cond) -> Result<Cond, Memory>
    ensures { IfOk result (λ made. condition made ≡ formed (condition cond.now)) }
{
    match cond {
        Cond::All(l, r) => all(alloc, formed(alloc, l)?, formed(alloc, r)?),
        Cond::Either(l, r) => either(alloc, formed(alloc, l)?, formed(alloc, r)?),
        Cond::Not(x) => negated(alloc, formed(alloc, x)?),
        Cond::Exists(var, table, x) => formed_exists(alloc, *var, *table, &formed(alloc, x)?),
        _ => copied(alloc, cond),
    }
}

/// Makes the form in which a condition is evaluated. It holds whenever the condition does. Each
/// EXISTS stands only around what names its variable. If each side of an OR in it has a key of
/// the index, each side gets an EXISTS of its own, as long as there are at most 16 of them. The
/// form has at most 128 nodes; otherwise it is a copy of the condition. `Memory` if out of memory.
pub fn form_of(alloc: Global, cond: &Cond) -> Result<Cond, Memory>
    ensures { IfOk result (λ form. condition form ≡ form_of (condition cond.now)) }
{
    let form = formed(alloc, cond)?;
    if is_small(&form) {
        Ok(form)
    } else {
        copied(alloc, cond)
    }
}

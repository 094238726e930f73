//! Makes conditions of others.

ghost use Rattle.std.specs.Prelude.{◌≡◌, IfOk};
ghost use Rattle.tql_core.specs.Condition.{condition, All, Either, Not, Exists};
ghost use Rattle.query_form.specs.Form.{conjoined};

use std::alloc::Global;
use tap_base::{Copied, Memory};
use tql_core::{Cond, Var};
use tql_tree::Table;

// Makes a conjunction.
pub(crate) fn all(alloc: Global, l: Cond, r: Cond) -> Result<Cond, Memory>
    ensures { IfOk result (λ made. condition made ≡ All (condition l) (condition r)) }
{
    Ok(Cond::All(Box::new(alloc, l)?, Box::new(alloc, r)?))
}

// Makes a disjunction.
pub(crate) fn either(alloc: Global, l: Cond, r: Cond) -> Result<Cond, Memory>
    ensures { IfOk result (λ made. condition made ≡ Either (condition l) (condition r)) }
{
    Ok(Cond::Either(Box::new(alloc, l)?, Box::new(alloc, r)?))
}

// Makes a negation.
pub(crate) fn negated(alloc: Global, x: Cond) -> Result<Cond, Memory>
    ensures { IfOk result (λ made. condition made ≡ Not (condition x)) }
{
    Ok(Cond::Not(Box::new(alloc, x)?))
}

// Makes an EXISTS.
pub(crate) fn exists(alloc: Global, var: Var, table: Table, x: Cond) -> Result<Cond, Memory>
    ensures { IfOk result (λ made. condition made ≡ Exists var table (condition x)) }
{
    Ok(Cond::Exists(var, table, Box::new(alloc, x)?))
}

// Makes a conjunction, without a side that is TRUE.
pub(crate) fn conjoined(alloc: Global, l: Cond, r: Cond) -> Result<Cond, Memory>
    ensures { IfOk result (λ made. condition made ≡ conjoined (condition l) (condition r)) }
{
    match (&l, &r) {
        (Cond::True, _) => Ok(r),
        (_, Cond::True) => Ok(l),
        _ => all(alloc, l, r),
    }
}

// Copies a condition.
pub(crate) fn copied(alloc: Global, cond: &Cond) -> Result<Cond, Memory>
    ensures { IfOk result (λ copy. condition copy ≡ condition cond.now) }
{
    match cond {
        Cond::True => Ok(Cond::True),
        Cond::False => Ok(Cond::False),
        Cond::Plain(atom) => Ok(Cond::Plain(atom.copied()?)),
        Cond::NowAtLeast(term) => Ok(Cond::NowAtLeast(*term)),
        Cond::NowBefore(term) => Ok(Cond::NowBefore(*term)),
        Cond::All(l, r) => all(alloc, copied(alloc, l)?, copied(alloc, r)?),
        Cond::Either(l, r) => either(alloc, copied(alloc, l)?, copied(alloc, r)?),
        Cond::Not(x) => negated(alloc, copied(alloc, x)?),
        Cond::Exists(var, table, x) => exists(alloc, *var, *table, copied(alloc, x)?),
    }
}

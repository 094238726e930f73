//! An EXISTS of alternatives as an EXISTS for each.

ghost use Rattle.std.specs.Prelude.{◌≡◌, IfOk};
ghost use Rattle.tql_core.specs.Condition.{condition};
ghost use Rattle.query_form.specs.Form.{cross_right, cross, distributed};
ghost use Rattle.query_form.specs.Form.{exists_each, small_or_whole, split};

use crate::build::{all, copied, either, exists};
use crate::keys::has_key;
use crate::limits::{are_few, is_small};
use crate::scoping::narrowed;
use std::alloc::Global;
use tap_base::Memory;
use tql_core::{Cond, Var};
use tql_tree::Table;

// Distributes a conjunction over the alternatives of its second side.
fn cross_right(alloc: Global, var: Var, l: &Cond, r: &Cond) -> Result<Cond, Memory>
    ensures { IfOk result (λ x. condition x ≡ cross_right var (condition l.now) (condition r.now)) }
{
    match r {
        Cond::Either(a, b) if has_key(var, a) && has_key(var, b) => {
            let a = cross_right(alloc, var, l, a)?;
            let b = cross_right(alloc, var, l, b)?;
            either(alloc, a, b)
        }
        _ => all(alloc, copied(alloc, l)?, copied(alloc, r)?),
    }
}

// Distributes a conjunction over the alternatives of both sides.
fn cross(alloc: Global, var: Var, l: &Cond, r: &Cond) -> Result<Cond, Memory>
    ensures { IfOk result (λ made. condition made ≡ cross var (condition l.now) (condition r.now)) }
{
    match l {
        Cond::Either(a, b) if has_key(var, a) && has_key(var, b) => {
            let a = cross(alloc, var, a, r)?;
            let b = cross(alloc, var, b, r)?;
            either(alloc, a, b)
        }
        _ => cross_right(alloc, var, l, r),
    }
}

// Distributes each AND over the alternatives.
fn distributed(alloc: Global, var: Var, cond: &Cond) -> Result<Cond, Memory>
    ensures { IfOk result (λ made. condition made ≡ distributed var (condition cond.now)) }
{
    match cond {
        Cond::All(l, r) => {
            let l = distributed(alloc, var, l)?;
            let r = distributed(alloc, var, r)?;
            cross(alloc, var, &l, &r)
        }
        Cond::Either(l, r) => {
            let l = distributed(alloc, var, l)?;
            let r = distributed(alloc, var, r)?;
            either(alloc, l, r)
        }
        _ => copied(alloc, cond),
    }
}

// Makes an EXISTS for each alternative.
fn exists_each(alloc: Global, var: Var, table: Table, cond: &Cond) -> Result<Cond, Memory>
    ensures { IfOk result (λ made. condition made ≡ exists_each var table (condition cond.now)) }
{
    match cond {
        Cond::Either(l, r) if has_key(var, l) && has_key(var, r) => {
            let l = exists_each(alloc, var, table, l)?;
            let r = exists_each(alloc, var, table, r)?;
            either(alloc, l, r)
        }
        _ => narrowed(alloc, var, table, cond),
    }
}

// Returns what an EXISTS was split into, or makes one EXISTS if that has more than 128 nodes.
fn small_or_whole(
    alloc: Global,
    var: Var,
    table: Table,
    cond: &Cond,
    made: Cond,
) -> Result<Cond, Memory>
    ensures { IfOk result (λ x.
        condition x ≡ small_or_whole var table (condition cond.now) (condition made)) }
{
    if is_small(&made) {
        Ok(made)
    } else {
        exists(alloc, var, table, copied(alloc, cond)?)
    }
}

// Makes an EXISTS for each alternative, or one for all if these are more than 16, or have more than
// 128 nodes. So what is made before it is judged has at most 16 times the nodes of the condition.
pub(crate) fn split(alloc: Global, var: Var, table: Table, cond: &Cond) -> Result<Cond, Memory>
    ensures { IfOk result (λ made. condition made ≡ split var table (condition cond.now)) }
{
    if are_few(var, cond) {
        let alternatives = distributed(alloc, var, cond)?;
        let made = exists_each(alloc, var, table, &alternatives)?;
        small_or_whole(alloc, var, table, cond, made)
    } else {
        exists(alloc, var, table, copied(alloc, cond)?)
    }
}

//! In which order the variables of a path are bound.

ghost use Rattle.std.specs.Prelude.{◌≡◌, IfOk, Option};
ghost use Rattle.access_plan.specs.Accesses.{first_some};
ghost use Rattle.access_plan.specs.Orders.{driven, by_index, by_table, next_reach, order_of};
ghost use Rattle.access_plan.specs.Orders.{orders_of};
ghost use Rattle.access_plan.specs.Inners.{inners_of};
ghost use Rattle.access_plan.specs.Views.{option_reach};

use crate::guards::index_access;
use crate::inners::inners_of;
use crate::known::is_bound;
use crate::{AccessRef, Known, Plan, Reach, ReachRef};
use std::alloc::Global;
use tap_base::{Memory, Rows};
use time_marks::{Ranged, RangedQuery, Step};
use tql_core::{Base, Var};

// Returns the variable of the driving row, or none for a fixed time.
fn driven(alloc: Global, base: Base) -> Result<Rows<Var>, Memory>
    ensures { IfOk result (λ vars. vars ≡ driven base) }
{
    let mut vars = Rows::new(alloc);
    match base {
        Base::Arrival(var) => vars.push(var)?,
        Base::Date(var) => vars.push(var)?,
        Base::Fixed => (),
        Base::ArrivalDay(var, _) => vars.push(var)?,
        Base::DateDay(var, _) => vars.push(var)?,
    }
    Ok(vars)
}

// Returns the step, if it is still to be bound and has an access of the index.
fn by_index<'a>(bound: &[Var], step: &'a Step) -> Option<ReachRef<'a>>
    ensures { option_reach result ≡ by_index bound.now step.now }
{
    if is_bound(bound, step.var) {
        return None;
    }
    let access = index_access(
        Known::Bound(bound),
        step.var,
        step.table,
        step.guards.as_slice(),
    )?;
    Some(ReachRef {
        var: step.var,
        table: step.table,
        access,
    })
}

// Returns the step by all rows of its table, if it is still to be bound.
fn by_table<'a>(bound: &[Var], step: &'a Step) -> Option<ReachRef<'a>>
    ensures { option_reach result ≡ by_table bound.now step.now }
{
    if is_bound(bound, step.var) {
        return None;
    }
    Some(ReachRef {
        var: step.var,
        table: step.table,
        access: AccessRef::Whole(step.table),
    })
}

// Returns the first step that is still to be bound and has an access of the index.
fn first_by_index<'a>(path: &'a [Step], bound: &[Var]) -> Option<ReachRef<'a>>
    ensures { option_reach result ≡ first_some (by_index bound.now) path.now }
{
    for step in path {
        if let Some(reach) = by_index(bound, step) {
            return Some(reach);
        }
    }
    None
}

// Returns the first step that is still to be bound.
fn first_by_table<'a>(path: &'a [Step], bound: &[Var]) -> Option<ReachRef<'a>>
    ensures { option_reach result ≡ first_some (by_table bound.now) path.now }
{
    for step in path {
        if let Some(reach) = by_table(bound, step) {
            return Some(reach);
        }
    }
    None
}

fn next_reach<'a>(path: &'a [Step], bound: &[Var]) -> Option<ReachRef<'a>>
    ensures { option_reach result ≡ next_reach path.now bound.now }
{
    match first_by_index(path, bound) {
        None => first_by_table(path, bound),
        found => found,
    }
}

// Returns the order in which the steps of a path are bound after the driving row.
pub(crate) fn order_of(alloc: Global, path: &[Step], base: Base) -> Result<Rows<Reach>, Memory>
    ensures { IfOk result (λ order. order ≡ order_of path.now base) }
{
    let mut bound = driven(alloc, base)?;
    let mut order = Rows::new(alloc);
    for _turn in path {
        match next_reach(path, bound.as_slice()) {
            None => return Ok(order),
            Some(reach) => {
                bound.push(reach.var)?;
                order.push(reach.to_reach()?)?;
            }
        }
    }
    Ok(order)
}

// Returns the order of each probe.
fn orders_of(alloc: Global, parts: &[Ranged]) -> Result<Rows<Rows<Reach>>, Memory>
    ensures { IfOk result (λ orders. orders ≡ orders_of parts.now) }
{
    let mut orders = Rows::new(alloc);
    for part in parts {
        orders.push(order_of(alloc, part.probe.path.as_slice(), part.probe.at.base)?)?;
    }
    Ok(orders)
}

/// Returns the query unchanged, for each probe the order of its variables with the access to each
/// one's rows, and for each EXISTS of the bodies the accesses to its rows that its guards give.
/// After the driving row, again and again, comes the first step of the path that has an access of
/// the index, else the first one.
/// `Memory` comes if memory runs out.
pub fn plan(alloc: Global, query: RangedQuery) -> Result<Plan, Memory>
    ensures query { IfOk result (λ plan. plan.query ≡ query) }
    ensures orders { IfOk result (λ plan. plan.orders ≡ orders_of query.parts) }
    ensures inners { IfOk result (λ plan. plan.inners ≡ inners_of query.pool) }
{
    let orders = orders_of(alloc, query.parts.as_slice())?;
    let inners = inners_of(alloc, &query.pool)?;
    Ok(Plan {
        query,
        orders,
        inners,
    })
}

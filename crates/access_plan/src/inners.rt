//! The accesses to the rows of each EXISTS of a pool, found once.

ghost use Rattle.std.specs.Prelude.{◌≡◌, [], ◌∷◌, ◌++◌, IfOk, OnOk};
ghost use Rattle.tap_base.specs.Bytes.{IsPlaceOf};
ghost use Rattle.tql_core.specs.Trees.{tree_at};
ghost use Rattle.time_marks.specs.Marks.{guards_of};
ghost use Rattle.access_plan.specs.Accesses.{is_other, accesses_by};
ghost use Rattle.access_plan.specs.Inners.{exists_accesses, inners_of};

use crate::guards::access_by;
use crate::{Access, Known};
use node_pool::{NodeId, Pool};
use std::alloc::Global;
use tap_base::{Memory, Rows};
use tql_core::{Atom, TNode, Var, node_at};
use tql_tree::Table;

// Appends the access that the guard gives, beside rows of all other variables, if it gives one.
fn add_access(var: Var, table: Table, guard: &Atom, into: &mut Rows<Access>) -> Result<(), Memory>
    ensures { OnOk result
        (into.new ≡ into.old ++ accesses_by (is_other var) var table (guard.now ∷ [])) }
{
    match access_by(Known::AllBut(var), var, table, guard) {
        None => Ok(()),
        Some(access) => {
            into.push(access.to_access()?)?;
            Ok(())
        }
    }
}

// Appends the accesses to the variable's rows that the guards of the condition at the number give.
fn add_accesses(
    pool: &Pool<TNode>,
    id: NodeId,
    var: Var,
    table: Table,
    into: &mut Rows<Access>,
) -> Result<(), Memory>
    requires { IsPlaceOf pool.now id.0 }
    ensures { OnOk result (into.new
        ≡ into.old ++ accesses_by (is_other var) var table (guards_of (tree_at pool.now id.0))) }
{
    match node_at(pool, id) {
        TNode::Plain(guard) => add_access(var, table, guard, into),
        TNode::All(l, r) => {
            add_accesses(pool, *l, var, table, into)?;
            add_accesses(pool, *r, var, table, into)
        }
        _ => Ok(()),
    }
}

// Appends the accesses to the rows of the condition at the number, if it is an EXISTS.
fn add_exists(pool: &Pool<TNode>, id: NodeId, into: &mut Rows<Access>) -> Result<(), Memory>
    requires { IsPlaceOf pool.now id.0 }
    ensures { OnOk result (into.new ≡ into.old ++ exists_accesses (tree_at pool.now id.0)) }
{
    match node_at(pool, id) {
        TNode::Exists(var, table, x) => add_accesses(pool, *x, *var, *table, into),
        _ => Ok(()),
    }
}

// Returns the accesses to the rows of the condition at the number, if it is an EXISTS.
fn exists_accesses(alloc: Global, pool: &Pool<TNode>, id: NodeId) -> Result<Rows<Access>, Memory>
    requires { IsPlaceOf pool.now id.0 }
    ensures { IfOk result (λ found. found ≡ exists_accesses (tree_at pool.now id.0)) }
{
    let mut found = Rows::new(alloc);
    add_exists(pool, id, &mut found)?;
    Ok(found)
}

/// Returns for each number of the pool the accesses to the rows of its condition, if this is an
/// EXISTS.
pub(crate) fn inners_of(alloc: Global, pool: &Pool<TNode>) -> Result<Rows<Rows<Access>>, Memory>
    ensures { IfOk result (λ inners. inners ≡ inners_of pool.now) }
{
    let mut inners = Rows::new(alloc);
    for id in 0..pool.len() {
        inners.push(exists_accesses(alloc, pool, NodeId(id))?)?;
    }
    Ok(inners)
}

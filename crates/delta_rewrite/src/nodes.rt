//! Nodes of bodies, interned in the pool as they are.

ghost use Rattle.std.specs.Prelude.{◌≡◌, IfOk, OnOk};
ghost use Rattle.tap_base.specs.Bytes.{IsPlaceOf};
ghost use Rattle.tql_core.specs.Condition.{All, Either, Not, Exists};
ghost use Rattle.tql_core.specs.Trees.{tree_at, IsTreeAt, KeepsTrees};

use node_pool::{NodeId, Pool};
use tap_base::Memory;
use tql_core::{TNode, Var, intern_node};
use tql_tree::Table;

// Interns the conjunction.
pub(crate) fn all_node(pool: &mut Pool<TNode>, l: NodeId, r: NodeId) -> Result<NodeId, Memory>
    requires left { IsPlaceOf pool.old l.0 }
    requires right { IsPlaceOf pool.old r.0 }
    ensures kept { OnOk result (KeepsTrees pool.old pool.new) }
    ensures tree { IfOk result (λ id.
        IsTreeAt pool.new id.0 (All (tree_at pool.old l.0) (tree_at pool.old r.0))) }
{
    intern_node(pool, TNode::All(l, r))
}

// Interns the disjunction.
pub(crate) fn either_node(pool: &mut Pool<TNode>, l: NodeId, r: NodeId) -> Result<NodeId, Memory>
    requires left { IsPlaceOf pool.old l.0 }
    requires right { IsPlaceOf pool.old r.0 }
    ensures kept { OnOk result (KeepsTrees pool.old pool.new) }
    ensures tree { IfOk result (λ id.
        IsTreeAt pool.new id.0 (Either (tree_at pool.old l.0) (tree_at pool.old r.0))) }
{
    intern_node(pool, TNode::Either(l, r))
}

// Interns the negation.
pub(crate) fn not_node(pool: &mut Pool<TNode>, x: NodeId) -> Result<NodeId, Memory>
    requires { IsPlaceOf pool.old x.0 }
    ensures kept { OnOk result (KeepsTrees pool.old pool.new) }
    ensures tree { IfOk result (λ id. IsTreeAt pool.new id.0 (Not (tree_at pool.old x.0))) }
{
    intern_node(pool, TNode::Not(x))
}

// Interns an EXISTS.
pub(crate) fn exists_node(
    pool: &mut Pool<TNode>,
    var: Var,
    table: Table,
    x: NodeId,
) -> Result<NodeId, Memory>
    requires { IsPlaceOf pool.old x.0 }
    ensures kept { OnOk result (KeepsTrees pool.old pool.new) }
    ensures tree { IfOk result (λ id.
        IsTreeAt pool.new id.0 (Exists var table (tree_at pool.old x.0))) }
{
    intern_node(pool, TNode::Exists(var, table, x))
}

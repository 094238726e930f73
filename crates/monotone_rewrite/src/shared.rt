//! Nodes of folded bodies, interned in the pool: equal nodes share one number.

ghost use Rattle.std.specs.Prelude.{◌≡◌, IfOk, OnOk};
ghost use Rattle.tap_base.specs.Bytes.{IsPlaceOf};
ghost use Rattle.tql_core.specs.Trees.{tree_at, IsTreeAt, KeepsTrees};
ghost use Rattle.monotone_rewrite.specs.Folding.{known, constant, fold_all, fold_either, fold_not};
ghost use Rattle.monotone_rewrite.specs.Folding.{fold_exists};
ghost use Rattle.monotone_rewrite.specs.Kinds.{kind_is};

use node_pool::{NodeId, Pool};
use tap_base::Memory;
use tql_core::{TNode, Var, intern_node};
use tql_tree::Table;

// What is known of a node: it is True, it is False, or neither.
#[derive(Clone, Copy)]
pub(crate) enum FoldedNode {
    Yes,
    No,
    Open,
}

// Returns what is known of the node of this number.
pub(crate) fn kind_of(pool: &Pool<TNode>, id: NodeId) -> FoldedNode
    requires { IsPlaceOf pool.now id.0 }
    ensures { kind_is result ≡ known (tree_at pool.now id.0) }
{
    match pool.get(id) {
        TNode::True => FoldedNode::Yes,
        TNode::False => FoldedNode::No,
        _ => FoldedNode::Open,
    }
}

// Interns True or False.
pub(crate) fn shared_constant(pool: &mut Pool<TNode>, truth: bool) -> Result<NodeId, Memory>
    ensures kept { OnOk result (KeepsTrees pool.old pool.new) }
    ensures tree { IfOk result (λ id. IsTreeAt pool.new id.0 (constant truth)) }
{
    if truth {
        intern_node(pool, TNode::True)
    } else {
        intern_node(pool, TNode::False)
    }
}

/// Interns the conjunction, unless one side is known. `Memory` comes if memory runs
/// out or the pool is full.
pub fn shared_all(pool: &mut Pool<TNode>, l: NodeId, r: NodeId) -> Result<NodeId, Memory>
    requires left { IsPlaceOf pool.old l.0 }
    requires right { IsPlaceOf pool.old r.0 }
    ensures kept { OnOk result (KeepsTrees pool.old pool.new) }
    ensures tree { IfOk result (λ id. IsTreeAt pool.new id.0 (fold_all
        (known (tree_at pool.old l.0)) (known (tree_at pool.old r.0)) (tree_at pool.old l.0)
        (tree_at pool.old r.0))) }
{
    match (kind_of(pool, l), kind_of(pool, r)) {
        (FoldedNode::No, _) => intern_node(pool, TNode::False),
        (FoldedNode::Yes, _) => Ok(r),
        (_, FoldedNode::No) => intern_node(pool, TNode::False),
        (_, FoldedNode::Yes) => Ok(l),
        _ => intern_node(pool, TNode::All(l, r)),
    }
}

/// Interns the disjunction, unless one side is known. `Memory` comes if memory runs
/// out or the pool is full.
pub fn shared_either(pool: &mut Pool<TNode>, l: NodeId, r: NodeId) -> Result<NodeId, Memory>
    requires left { IsPlaceOf pool.old l.0 }
    requires right { IsPlaceOf pool.old r.0 }
    ensures kept { OnOk result (KeepsTrees pool.old pool.new) }
    ensures tree { IfOk result (λ id. IsTreeAt pool.new id.0 (fold_either
        (known (tree_at pool.old l.0)) (known (tree_at pool.old r.0)) (tree_at pool.old l.0)
        (tree_at pool.old r.0))) }
{
    match (kind_of(pool, l), kind_of(pool, r)) {
        (FoldedNode::Yes, _) => intern_node(pool, TNode::True),
        (FoldedNode::No, _) => Ok(r),
        (_, FoldedNode::Yes) => intern_node(pool, TNode::True),
        (_, FoldedNode::No) => Ok(l),
        _ => intern_node(pool, TNode::Either(l, r)),
    }
}

/// Interns the negation. It is known if its operand is. `Memory` comes if memory runs out or the
/// pool is full.
pub fn shared_not(pool: &mut Pool<TNode>, x: NodeId) -> Result<NodeId, Memory>
    requires { IsPlaceOf pool.old x.0 }
    ensures kept { OnOk result (KeepsTrees pool.old pool.new) }
    ensures tree { IfOk result (λ id.
        IsTreeAt pool.new id.0 (fold_not (known (tree_at pool.old x.0)) (tree_at pool.old x.0))) }
{
    match kind_of(pool, x) {
        FoldedNode::Yes => intern_node(pool, TNode::False),
        FoldedNode::No => intern_node(pool, TNode::True),
        FoldedNode::Open => intern_node(pool, TNode::Not(x)),
    }
}

/// Interns an EXISTS. It is False if its inner condition is. `Memory` comes if memory runs out or
/// the pool is full.
pub fn shared_exists(
    pool: &mut Pool<TNode>,
    var: Var,
    table: Table,
    x: NodeId,
) -> Result<NodeId, Memory>
    requires { IsPlaceOf pool.old x.0 }
    ensures kept { OnOk result (KeepsTrees pool.old pool.new) }
    ensures tree { IfOk result (λ id. IsTreeAt pool.new id.0
        (fold_exists (known (tree_at pool.old x.0)) var table (tree_at pool.old x.0))) }
{
    match kind_of(pool, x) {
        FoldedNode::No => intern_node(pool, TNode::False),
        _ => intern_node(pool, TNode::Exists(var, table, x)),
    }
}

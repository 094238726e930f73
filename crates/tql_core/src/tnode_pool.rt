//! Nodes in a pool.
ghost use Rattle.std.specs.Prelude.{◌≡◌, length, true, Some, IfOk, OnOk, OnErr};
ghost use Rattle.tap_base.specs.Bytes.{IsPlaceOf};
ghost use Rattle.node_pool.specs.Pools.{are_below};
ghost use Rattle.tql_core.specs.Trees.{kids_of, node_tree, tree_at, IsTreeAt, KeepsTrees};

use crate::TNode;
use node_pool::{NodeId, Pool, PoolNode};
use tap_base::Memory;

impl PoolNode for TNode {
    ghost use Rattle.tql_core.specs.Trees.{kids_of};
    ghost use Rattle.tql_core.specs.Exact.{node_is};

    ghost kids = { kids_of };

    fn kids_below(&self, limit: u32) -> bool {
        match self {
            TNode::True | TNode::False | TNode::Plain(_) => true,
            TNode::All(l, r) | TNode::Either(l, r) => l.0 < limit && r.0 < limit,
            TNode::Not(x) | TNode::Exists(_, _, x) => x.0 < limit,
        }
    }

    ghost exact = { node_is };
}

/// Returns the node of this number. Its condition is that of the number, and its parts have lower
/// numbers. It takes no memory.
pub fn node_at(pool: &Pool<TNode>, id: NodeId) -> &TNode
    requires { IsPlaceOf pool.now id.0 }
    ensures says { tree_at pool.now id.0 ≡ node_tree (Some result.now) (tree_at pool.now) }
    ensures parts { are_below id.0 (kids_of result.now) ≡ true }
{
    pool.get(id)
}

/// Returns the number of the equal node if the pool has one; else appends the node and returns its
/// new number. Its parts are nodes of the pool. Each number keeps its condition. `Memory` comes if
/// memory runs out or the pool has no further number, and the pool is unchanged then.
pub fn intern_node(pool: &mut Pool<TNode>, node: TNode) -> Result<NodeId, Memory>
    requires { are_below (length pool.old) (kids_of node) ≡ true }
    ensures kept { OnOk result (KeepsTrees pool.old pool.new) }
    ensures tree { IfOk result (λ id.
        IsTreeAt pool.new id.0 (node_tree (Some node) (tree_at pool.old))) }
    ensures err { OnErr result (pool.new ≡ pool.old) }
{
    if pool.len() == u32::MAX {
        return Err(Memory);
    }
    let id = pool.intern(node)?;
    Ok(id)
}

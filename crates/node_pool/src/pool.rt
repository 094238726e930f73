//! A pool of nodes.
ghost use Rattle.std.specs.Prelude.{◌≡◌, ◌<◌, ◌^◌, List, [], length, slice_get, Some, true, IfOk};
ghost use Rattle.std.specs.Prelude.{OnOk, OnErr};
ghost use Rattle.tap_base.specs.Bytes.{IsPlaceOf};
ghost use Rattle.node_pool.specs.Pools.{are_below, IsPool, with_node, number_of_node, Extends};

use crate::{NodeId, PoolNode};
use indexmap::IndexSet;
use std::alloc::Global;
use std::marker::Model;
use tap_base::Memory;

/// How many nodes a pool may have at most: a count of nodes fits in 32 bits.
pub const NODE_LIMIT: u32 = 4294967295;

/// A list of nodes that only grows: no two nodes are equal, and each stands behind its children. A
/// node's number is its place.
#[derive(Drop)]
pub struct Pool<N: PoolNode + Drop> {
    nodes: IndexSet<N>,
}

impl<N: PoolNode + Drop> Model for Pool<N> {
    ghost use Rattle.std.specs.Prelude.{List};
    ghost use Rattle.node_pool.specs.Pools.{IsPool};

    ghost Value = { List N };

    ghost view = { λ pool. pool.nodes.keys };

    ghost invariant = { λ pool. IsPool N.kids pool.nodes.keys };
}

impl<N: PoolNode + Drop> Pool<N> {
    /// Returns a pool without nodes.
    pub fn new(alloc: Global) -> Pool<N>
        ensures { result ≡ [] }
    {
        Pool {
            nodes: IndexSet::new(alloc),
        }
    }

    /// Returns the number of the equal node if the pool has one; else appends the node and returns
    /// its new number. The other nodes are unchanged. Fails with `Memory` when out of memory, and
    /// the pool is unchanged then.
    pub fn intern(&mut self, node: N) -> Result<NodeId, Memory>
        requires kids { are_below (length self.old) (N.kids node) ≡ true }
        requires room { length self.old < NODE_LIMIT }
        ensures nodes { OnOk result (self.new ≡ with_node N.eq self.old node) }
        ensures number { IfOk result (λ id. id.0 ≡ number_of_node N.eq self.old node) }
        ensures found { IfOk result (λ id. slice_get self.new id.0 ≡ Some node) }
        ensures err { OnErr result (self.new ≡ self.old) }
        ensures extends { Extends self.old self.new }
        ensures is_pool { IsPool N.kids self.new }
    {
        let (index, _) = self.nodes.insert_full(node)?;
        Ok(NodeId(index as u32))
    }

    /// Returns the node of this number.
    pub fn get(&self, id: NodeId) -> &N
        requires { IsPlaceOf self.now id.0 }
        ensures node { slice_get self.now id.0 ≡ Some result.now }
        ensures is_pool { IsPool N.kids self.now }
    {
        &self.nodes.as_slice()[id.0 as usize]
    }

    /// Returns how many nodes there are.
    pub fn len(&self) -> u32
        ensures value { result ≡ length self.now }
        ensures is_pool { IsPool N.kids self.now }
    {
        self.nodes.len() as u32
    }
}

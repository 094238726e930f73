//! Nodes and their numbers.
ghost use Rattle.std.specs.Prelude.{◌≡◌, ℕ, List, true};
ghost use Rattle.node_pool.specs.Pools.{are_below};

use std::hash::Hash;

/// A node's number in its pool: its place, from 0.
#[derive(Clone, Copy, Debug, PartialEq, Eq, Hash)]
pub struct NodeId(pub u32);

/// A node whose children are named by their numbers. Two nodes that are equal are the same value.
pub trait PoolNode: Eq + Hash {
    // The numbers of the node's children.
    ghost kids: { Self → List ℕ };

    /// Returns whether the number of each child is below the limit.
    fn kids_below(&self, limit: u32) -> bool
        ensures { result ≡ are_below limit (kids self.now) };

    // Equal nodes are the same value.
    ghost exact: { (x y : Self) → Self.eq x y ≡ true → x ≡ y };
}

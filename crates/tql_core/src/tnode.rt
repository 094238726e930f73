//! Nodes of conditions that don't speak of now.
use crate::{Atom, Var};
use node_pool::NodeId;
use tql_tree::Table;

/// Holds a node of a condition that doesn't speak of now. Its parts are nodes of the same pool, by
/// number.
#[derive(PartialEq, Eq, Hash, Drop)]
pub enum TNode {
    True,
    False,
    Plain(Atom),
    All(NodeId, NodeId),
    Either(NodeId, NodeId),
    Not(NodeId),
    Exists(Var, Table, NodeId),
}

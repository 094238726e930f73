//! A pool of shared nodes, each named by its number.
#![tactic(auto)]

mod node;
mod pool;

pub use node::{NodeId, PoolNode};
pub use pool::{NODE_LIMIT, Pool};

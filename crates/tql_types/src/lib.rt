//! Which trees are conditions: the core condition of a query's tree, or the first fault of its
//! types.
#![tactic(auto)]

mod checker;
mod clock;
mod conditions;
mod fault;
mod field;
pub mod laws;
mod scope;
mod sort;
mod spans;

pub use checker::{NODE_LIMIT, check};
pub use fault::TypeFault;

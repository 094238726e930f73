//! The window query of a condition, and its laws.
#![tactic(auto)]

mod folded;
pub mod laws;
mod shared;
mod window_query;

pub use folded::folded_atom;
pub use shared::{shared_all, shared_either, shared_exists, shared_not};
pub use window_query::{can_find, monotone, monotone_from};

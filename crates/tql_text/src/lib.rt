//! The condition of a query's text: its tokens, its tree and the types of that.
#![tactic(auto)]

mod condition;
mod fault;

pub use condition::{read_condition, read_tokens};
pub use fault::TextFault;

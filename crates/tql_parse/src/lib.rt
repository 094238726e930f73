//! The tree of a query's tokens.
#![tactic(auto)]

mod comparisons;
mod fault;
mod key;
pub mod laws;
mod parser;

pub use fault::ParseFault;
pub use key::Key;
pub use parser::parse;

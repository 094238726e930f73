//! The tokens of a query's text.
#![tactic(auto)]

mod fault;
mod kind;
pub mod laws;
mod lexer;
mod sign;
mod token;

pub use fault::LexFault;
pub use kind::Kind;
pub use lexer::lex;
pub use sign::Sign;
pub use token::Token;

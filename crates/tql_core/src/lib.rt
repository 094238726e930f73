//! Conditions on messages and notes, and what they mean.
#![tactic(auto)]

mod atom;
mod atoms;
mod cond;
mod env;
pub mod laws;
mod row_ref;
mod term;
mod tnode;
mod tnode_pool;
mod values;

pub use atom::{Atom, ListField, NumExpr, NumField, TextExpr, TextField};
pub use atoms::{compares, number, text, true_atom};
pub use cond::Cond;
pub use env::Env;
pub use row_ref::RowRef;
pub use term::{Base, Term, Var};
pub use tnode::TNode;
pub use tnode_pool::{intern_node, node_at};
pub use values::value;

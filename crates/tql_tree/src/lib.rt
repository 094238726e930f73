//! The tree of a query, and its canonical text.
#![tactic(auto)]

mod expr;
mod pieces;
mod printer;
mod shift;
mod table;
mod tree;

pub use expr::Expr;
pub use pieces::{name_of_op, name_of_table, put_if, put_quoted};
pub use printer::print;
pub use shift::{Shift, Unit};
pub use table::Table;
pub use tree::Tree;

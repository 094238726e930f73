//! A variable with the access to its rows.

use crate::Access;
use tql_core::Var;
use tql_tree::Table;

/// A variable of a path, its table, and the access to its rows.
#[derive(PartialEq, Eq, Drop)]
pub struct Reach {
    pub var: Var,
    pub table: Table,
    pub access: Access,
}

//! Marks and their paths.

use tap_base::{Copied, Memory, Rows};
use tql_core::{Atom, Term, Var};
use tql_tree::Table;

/// Asks for a row: its variable, its table, and the atoms that it makes true.
#[derive(PartialEq, Eq, Drop)]
pub struct Step {
    pub var: Var,
    pub table: Table,
    pub guards: Rows<Atom>,
}

/// Gives a second at which a condition may change, for each choice of rows for the path.
#[derive(Drop)]
pub struct Mark {
    pub path: Rows<Step>,
    pub at: Term,
}

impl Copied for Step {
    fn copied(&self) -> Result<Step, Memory> {
        let guards = self.guards.copy()?;
        Ok(Step {
            var: self.var,
            table: self.table,
            guards,
        })
    }
}

impl Copied for Mark {
    fn copied(&self) -> Result<Mark, Memory> {
        let path = self.path.copy()?;
        Ok(Mark { path, at: self.at })
    }
}

//! Reaches that are borrowed.

ghost use Rattle.std.specs.Prelude.{◌≡◌, IfOk};
ghost use Rattle.access_plan.specs.Views.{reach_at};

use crate::{AccessRef, Reach};
use tap_base::Memory;
use tql_core::Var;
use tql_tree::Table;

/// A reach whose access is borrowed. It takes no memory.
#[derive(Clone, Copy)]
pub struct ReachRef<'a> {
    pub var: Var,
    pub table: Table,
    pub access: AccessRef<'a>,
}

impl<'a> ReachRef<'a> {
    /// Copies the reach and its access. `Memory` comes if memory runs out.
    pub fn to_reach(self) -> Result<Reach, Memory>
        ensures { IfOk result (λ reach. reach ≡ reach_at self.entry) }
    {
        let access = self.access.to_access()?;
        Ok(Reach {
            var: self.var,
            table: self.table,
            access,
        })
    }
}

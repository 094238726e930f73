//! Accesses that are borrowed.

ghost use Rattle.std.specs.Prelude.{◌≡◌, IfOk};
ghost use Rattle.access_plan.specs.Views.{access_at};

use crate::Access;
use tap_base::{Copied, Memory};
use tql_core::{ListField, NumExpr, NumField, TextExpr, TextField, Var};
use tql_tree::Table;

/// An access whose other side is borrowed. It takes no memory.
#[derive(Clone, Copy)]
pub enum AccessRef<'a> {
    ByNumber(NumField, NumExpr),
    ByText(TextField, &'a TextExpr),
    ByEntry(ListField, &'a TextExpr),
    ByEach(Var, ListField, TextField),
    Whole(Table),
}

impl<'a> AccessRef<'a> {
    /// Copies the access and its other side. `Memory` comes if memory runs out.
    pub fn to_access(self) -> Result<Access, Memory>
        ensures { IfOk result (λ access. access ≡ access_at self.entry) }
    {
        match self {
            AccessRef::ByNumber(field, e) => Ok(Access::ByNumber(field, e)),
            AccessRef::ByText(field, e) => Ok(Access::ByText(field, e.copied()?)),
            AccessRef::ByEntry(list, e) => Ok(Access::ByEntry(list, e.copied()?)),
            AccessRef::ByEach(var, list, field) => Ok(Access::ByEach(var, list, field)),
            AccessRef::Whole(table) => Ok(Access::Whole(table)),
        }
    }
}

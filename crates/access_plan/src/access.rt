//! How the rows of a variable are reached.

ghost use Rattle.std.specs.Prelude.{◌≡◌};
ghost use Rattle.access_plan.specs.Views.{access_at};

use crate::AccessRef;
use tql_core::{ListField, NumExpr, NumField, TextExpr, TextField, Var};
use tql_tree::Table;

/// The access to the rows of a variable: those of which a field is a number or a text, those with a
/// text in a list, those of which a field is one of the texts in a list of another variable's row,
/// or all rows of a table.
#[derive(PartialEq, Eq, Drop)]
pub enum Access {
    ByNumber(NumField, NumExpr),
    ByText(TextField, TextExpr),
    ByEntry(ListField, TextExpr),
    ByEach(Var, ListField, TextField),
    Whole(Table),
}

impl Access {
    /// Borrows the access.
    pub fn as_ref(&self) -> AccessRef<'_>
        ensures { access_at result ≡ self.now }
    {
        match self {
            Access::ByNumber(field, e) => AccessRef::ByNumber(*field, *e),
            Access::ByText(field, e) => AccessRef::ByText(*field, e),
            Access::ByEntry(list, e) => AccessRef::ByEntry(*list, e),
            Access::ByEach(var, list, field) => AccessRef::ByEach(*var, *list, *field),
            Access::Whole(table) => AccessRef::Whole(*table),
        }
    }
}

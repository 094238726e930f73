//! The sides of comparisons.
ghost use Rattle.std.specs.Prelude.{◌≡◌, IfOk};

use crate::Shift;
use tap_base::{Memory, Text};

/// Holds a side of a comparison. The place of a moment is that of its text, and the place of a
/// number below 0 is that of its `-`. Places count the bytes of the query's text from 0.
#[derive(Drop)]
pub enum Expr {
    Number {
        place: u32,
        value: i64,
    },
    Str {
        place: u32,
        bytes: Text,
    },
    Now {
        place: u32,
        shift: Option<Shift>,
    },
    Today {
        place: u32,
        shift: Option<Shift>,
    },
    Moment {
        place: u32,
        text: Text,
        shift: Option<Shift>,
    },
    Field {
        var: Text,
        var_place: u32,
        field: Text,
        field_place: u32,
        shift: Option<Shift>,
    },
}

impl Expr {
    /// Returns an equal expression. `Memory` if out of memory.
    pub fn copy(&self) -> Result<Expr, Memory>
        ensures { IfOk result (λ expr. expr ≡ self.now) }
    {
        match self {
            Expr::Number { place, value } => Ok(Expr::Number {
                place: *place,
                value: *value,
            }),
            Expr::Str { place, bytes } => Ok(Expr::Str {
                place: *place,
                bytes: bytes.copy()?,
            }),
            Expr::Now { place, shift } => Ok(Expr::Now {
                place: *place,
                shift: *shift,
            }),
            Expr::Today { place, shift } => Ok(Expr::Today {
                place: *place,
                shift: *shift,
            }),
            Expr::Moment { place, text, shift } => Ok(Expr::Moment {
                place: *place,
                text: text.copy()?,
                shift: *shift,
            }),
            Expr::Field {
                var,
                var_place,
                field,
                field_place,
                shift,
            } => Ok(Expr::Field {
                var: var.copy()?,
                var_place: *var_place,
                field: field.copy()?,
                field_place: *field_place,
                shift: *shift,
            }),
        }
    }
}

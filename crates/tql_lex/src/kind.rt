//! What a token is.
ghost use Rattle.std.specs.Prelude.{◌≡◌, IfOk};

use crate::Sign;
use tap_base::{Memory, Text};

/// Says what a token is: a word with A to Z lowered, a number, a text with each doubled quote as
/// one, or a sign.
#[derive(Drop)]
pub enum Kind {
    Word(Text),
    Number(i64),
    Str(Text),
    Mark(Sign),
}

impl Kind {
    /// Returns an equal kind. `Memory` if out of memory.
    pub fn copy(&self) -> Result<Kind, Memory>
        ensures { IfOk result (λ kind. kind ≡ self.now) }
    {
        match self {
            Kind::Word(text) => Ok(Kind::Word(text.copy()?)),
            Kind::Number(n) => Ok(Kind::Number(*n)),
            Kind::Str(text) => Ok(Kind::Str(text.copy()?)),
            Kind::Mark(sign) => Ok(Kind::Mark(*sign)),
        }
    }
}

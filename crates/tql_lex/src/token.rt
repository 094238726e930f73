//! Tokens and their places.
ghost use Rattle.std.specs.Prelude.{◌≡◌, IfOk};

use crate::Kind;
use tap_base::Memory;

/// Holds a token, the place of its first byte, and the place after its last one. Places count bytes
/// from 0.
#[derive(Drop)]
pub struct Token {
    pub kind: Kind,
    pub place: u32,
    pub end: u32,
}

impl Token {
    /// Returns an equal token. `Memory` if out of memory.
    pub fn copy(&self) -> Result<Token, Memory>
        ensures { IfOk result (λ token. token ≡ self.now) }
    {
        Ok(Token {
            kind: self.kind.copy()?,
            place: self.place,
            end: self.end,
        })
    }
}

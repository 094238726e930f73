//! Values that can be copied.
ghost use Rattle.std.specs.Prelude.{◌≡◌, IfOk};

use crate::{Memory, Text, Texts};

/// A value that can be copied, unless memory runs out.
pub trait Copied: Drop {
    /// Returns an equal value. Fails with `Memory` when out of memory.
    fn copied(&self) -> Result<Self, Memory>
    where
        Self: Sized,
        ensures { IfOk result (λ copy. copy ≡ self.now) };
}

impl Copied for Text {
    fn copied(&self) -> Result<Text, Memory> {
        self.copy()
    }
}

impl Copied for Texts {
    fn copied(&self) -> Result<Texts, Memory> {
        self.copy()
    }
}

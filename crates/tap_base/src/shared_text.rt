//! A text with several owners.
ghost use Rattle.std.specs.Prelude.{◌≡◌, ℕ, List, IfOk, length};

use crate::{Memory, Text};
use std::alloc::Global;
use std::marker::Model;
use std::rc::Rc;

/// A text with several owners, which can't be changed. A copy is one more owner of the same bytes,
/// and takes no memory.
#[derive(Drop)]
pub struct SharedText {
    text: Rc<Text, Global>,
}

impl Model for SharedText {
    ghost use Rattle.std.specs.Prelude.{ℕ, List};

    ghost Value = { List ℕ };

    ghost view = { λ shared. shared.text.value };
}

impl SharedText {
    /// Returns the text with one owner. No byte is copied. Fails with `Memory` when out of memory.
    pub fn of(alloc: Global, text: Text) -> Result<SharedText, Memory>
        ensures { IfOk result (λ shared. shared ≡ text) }
    {
        match Rc::new(alloc, text) {
            Ok(text) => Ok(SharedText { text }),
            Err(failed) => {
                drop(failed);
                Err(Memory)
            }
        }
    }

    /// Returns the bytes.
    pub fn as_slice(&self) -> &[u8]
        ensures { result.now ≡ self.now }
    {
        self.text.as_ref().as_slice()
    }

    /// Returns how many bytes there are.
    pub fn len(&self) -> usize
        ensures { result ≡ length self.now }
    {
        self.text.as_ref().len()
    }

    /// Returns the same text for one more owner. Fails with `Memory` when owners can't be counted.
    pub fn copy(&self) -> Result<SharedText, Memory>
        ensures { IfOk result (λ shared. shared ≡ self.now) }
    {
        let text = self.text.clone()?;
        Ok(SharedText { text })
    }
}

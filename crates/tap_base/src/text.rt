//! A text of bytes.
ghost use Rattle.std.specs.Prelude.{◌≡◌, ◌++◌, ◌<◌, ◌^◌, List, [], ℕ, OnOk, OnErr, IfOk, length};
ghost use Rattle.std.specs.Prelude.{take};
ghost use Rattle.std.specs.Str.{str_to_ascii_lowercase};

use crate::Memory;
use crate::short_bytes::{SHORT_LEN, ShortBytes};
use crate::text_store::{TextStore, lowered_store, store_of};
use std::alloc::Global;
use std::hash::{Hash, Hasher};
use std::marker::Model;

/// A text: a list of bytes, which need not be UTF-8. A text of at most 30 bytes is no allocation.
pub struct Text {
    store: TextStore,
    alloc: Global,
}

impl Model for Text {
    ghost use Rattle.std.specs.Prelude.{ℕ, List};
    ghost use Rattle.tap_base.specs.Stores.{stored};

    ghost Value = { List ℕ };

    ghost view = { λ t. stored t.store };
}

impl Drop for Text {
    // One call wherever a text is dropped: derived, it would show each caller both places of the
    // bytes.
    fn drop(self) {
        let Text { store: _, alloc: _ } = self;
    }
}

impl PartialEq for Text {
    ghost use Rattle.std.specs.Str.{bytes_eq};
    ghost use Rattle.std.specs.Cmp.{partial_equiv_from_equiv, nat_eq_equiv};
    ghost use Rattle.std.specs.Cmp.Lexicographic.{lists_equiv};

    ghost eq = { bytes_eq };

    ghost laws = { partial_equiv_from_equiv (lists_equiv nat_eq_equiv) };

    fn eq(&self, other: &Text) -> bool {
        self.as_slice() == other.as_slice()
    }
}

impl Eq for Text {
    ghost use Rattle.std.specs.Cmp.{nat_eq_equiv};
    ghost use Rattle.std.specs.Cmp.Lexicographic.{lists_equiv};

    ghost laws = { lists_equiv nat_eq_equiv };
}

impl Hash for Text {
    ghost use Rattle.std.specs.Hash.{same_Alike};
    ghost use Rattle.std.specs.Cmp.Lexicographic.{bytes_decides};
    ghost use Rattle.tap_base.specs.Bytes.{text_writes};

    ghost hash_input = { text_writes };

    ghost respects_eq = { (same_Alike text_writes bytes_decides).fed };

    // The bytes are given as one run: the hash of a slice takes each byte by itself.
    fn hash<H: Hasher>(&self, state: &mut H) {
        state.write(self.as_slice());
    }
}

impl Text {
    /// Returns the empty text, without an allocation.
    pub fn new(alloc: Global) -> Text
        ensures { result ≡ [] }
    {
        Text {
            store: TextStore::Short(ShortBytes::of(&[])),
            alloc,
        }
    }

    /// Returns a text of these bytes. Fails with `Memory` when out of memory.
    pub fn from_slice(alloc: Global, bytes: &[u8]) -> Result<Text, Memory>
        ensures { IfOk result (λ text. text ≡ bytes.now) }
    {
        let store = store_of(alloc, bytes)?;
        Ok(Text { store, alloc })
    }

    /// Returns a text of the bytes of a vector.
    pub fn from_vec(alloc: Global, bytes: Vec<u8>) -> Text
        ensures { result ≡ bytes.items }
    {
        let store = if bytes.len() <= SHORT_LEN {
            TextStore::Short(ShortBytes::of(&bytes))
        } else {
            TextStore::Long(bytes)
        };
        Text { store, alloc }
    }

    /// Appends these bytes. The text is unchanged if this fails, which it does when out of memory.
    pub fn push_slice(&mut self, bytes: &[u8]) -> Result<(), Memory>
        ensures ok { OnOk result (self.new ≡ self.old ++ bytes.now) }
        ensures err { OnErr result (self.new ≡ self.old) }
    {
        self.store.push(self.alloc, bytes)
    }

    // Returns a text of these bytes with A to Z lowered.
    pub(crate) fn lowered(alloc: Global, bytes: &[u8]) -> Result<Text, Memory>
        ensures { IfOk result (λ text. text ≡ str_to_ascii_lowercase bytes.now) }
    {
        let store = lowered_store(alloc, bytes)?;
        Ok(Text { store, alloc })
    }

    /// Returns all bytes.
    pub fn as_slice(&self) -> &[u8]
        ensures { result.now ≡ self.now }
    {
        self.store.as_slice()
    }

    /// Returns how many bytes there are.
    pub fn len(&self) -> usize
        ensures { result ≡ length self.now }
    {
        self.store.as_slice().len()
    }

    /// Removes all bytes but the first `len`.
    pub fn cut(&mut self, len: usize)
        ensures { self.new ≡ take len self.old }
    {
        self.store.cut(len);
    }

    /// Returns a copy of the text. Fails with `Memory` when out of memory.
    pub fn copy(&self) -> Result<Text, Memory>
        ensures { IfOk result (λ text. text ≡ self.now) }
    {
        Text::from_slice(self.alloc, self.as_slice())
    }
}

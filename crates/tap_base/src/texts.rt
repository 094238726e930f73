//! A list of texts.
ghost use Rattle.std.specs.Prelude.{◌≡◌, ◌++◌, ◌∷◌, ◌<◌, ◌^◌, List, [], ℕ, OnOk, OnErr, IfOk};
ghost use Rattle.std.specs.Prelude.{length, slice_get, take};
ghost use Rattle.tap_base.specs.Words.{has_text};
ghost use Rattle.std.specs.Option.{option_copied};

use crate::{Memory, Rows, SharedText, Text};
use std::alloc::Global;
use std::marker::Model;

/// A list of texts in order. It grows by itself.
#[derive(Drop)]
pub struct Texts {
    items: Vec<Text>,
}

impl Model for Texts {
    ghost Value = { List (List ℕ) };

    ghost view = { λ t. t.items.items };
}

impl Texts {
    /// Returns the empty list.
    pub fn new(alloc: Global) -> Texts
        ensures { result ≡ [] }
    {
        Texts {
            items: Vec::new(alloc),
        }
    }

    // Returns the empty list, with room for that many texts.
    pub(crate) fn with_room(alloc: Global, len: usize) -> Result<Texts, Memory>
        ensures { IfOk result (λ texts. texts ≡ []) }
    {
        let items = Vec::with_capacity(alloc, len)?;
        Ok(Texts { items })
    }

    /// Appends a text. The list is unchanged if this fails, which it does when out of memory.
    pub fn push(&mut self, text: Text) -> Result<(), Memory>
        ensures ok { OnOk result (self.new ≡ self.old ++ text ∷ []) }
        ensures err { OnErr result (self.new ≡ self.old) }
    {
        self.items.push(text)?;
        Ok(())
    }

    /// Appends these texts. The list is unchanged if this fails, which it does when out of memory.
    pub fn append(&mut self, texts: Texts) -> Result<(), Memory>
        ensures ok { OnOk result (self.new ≡ self.old ++ texts) }
        ensures err { OnErr result (self.new ≡ self.old) }
    {
        let Texts { mut items } = texts;
        self.items.append(&mut items)?;
        Ok(())
    }

    /// Returns how many texts there are.
    pub fn len(&self) -> usize
        ensures { result ≡ length self.now }
    {
        self.items.len()
    }

    /// Returns the text at this place, from 0.
    pub fn get(&self, i: usize) -> Option<&Text>
        ensures { option_copied result ≡ slice_get self.now i }
    {
        self.items.get(i)
    }

    /// Returns all texts.
    pub fn as_slice(&self) -> &[Text]
        ensures { result.now ≡ self.now }
    {
        &self.items
    }

    /// Returns whether this text is one of them. It compares with each.
    pub fn holds(&self, text: &[u8]) -> bool
        ensures { result ≡ has_text self.now text.now }
    {
        self.items.iter().any(|other| text == other.as_slice())
    }

    /// Removes all texts but the first `len`.
    pub fn cut(&mut self, len: usize)
        ensures { self.new ≡ take len self.old }
    {
        self.items.truncate(len);
    }

    /// Returns the texts, each with one owner so far. No byte is copied. Fails with `Memory` when
    /// out of memory.
    pub fn into_shared(self, alloc: Global) -> Result<Rows<SharedText>, Memory>
        ensures { IfOk result (λ shared. shared ≡ self) }
    {
        let Texts { items } = self;
        let mut shared = Vec::with_capacity(alloc, items.len())?;
        for text in items {
            shared.push(SharedText::of(alloc, text)?)?;
        }
        Ok(Rows::from_vec(shared))
    }

    /// Returns a copy of all texts. Fails with `Memory` when out of memory.
    pub fn copy(&self) -> Result<Texts, Memory>
        ensures { IfOk result (λ texts. texts ≡ self.now) }
    {
        let mut texts = Texts::with_room(*self.items.allocator(), self.items.len())?;
        for text in &self.items {
            texts.push(text.copy()?)?;
        }
        Ok(texts)
    }
}

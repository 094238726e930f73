//! The deliveries of one query, in order of delivery.
#![tactic(auto)]

ghost use Rattle.std.specs.Prelude.{◌≡◌, ℕ, ◌-◌, ◌<◌, ◌≤◌, ◌++◌, ◌∷◌, [], false, length, take};
ghost use Rattle.std.specs.Prelude.{OnOk, OnErr};
ghost use Rattle.std.specs.Prelude.{option_copied, slice_get};
ghost use Rattle.little_box.specs.Boxes.{is_in, is_set, AreDistinct};

use std::alloc::Global;
use std::marker::Model;
use tap_base::{DocNum, Memory};
use tap_rows::Entry;

/// The deliveries of one query, in order of delivery. No document is delivered twice.
#[derive(Drop)]
pub struct LittleBox {
    entries: Vec<Entry>,
    // Whether the document of each number, from 0, is delivered. Numbers are places of documents,
    // so this is short, and a look-up hashes nothing.
    delivered: Vec<bool>,
}

impl Model for LittleBox {
    ghost use Rattle.std.specs.Prelude.{List};
    ghost use Rattle.tap_rows.specs.declared.results.Entry.{Entry};
    ghost use Rattle.little_box.specs.Boxes.{IsBox};

    ghost Value = { List Entry };

    ghost view = { λ b. b.entries.items };

    ghost invariant = { λ b. IsBox b.entries.items b.delivered.items };
}

impl LittleBox {
    /// Returns a box without deliveries.
    pub fn new(alloc: Global) -> LittleBox
        ensures { result ≡ [] }
    {
        LittleBox {
            entries: Vec::new(alloc),
            delivered: Vec::new(alloc),
        }
    }

    /// Returns how many entries there are. Their documents are distinct.
    pub fn len(&self) -> u32
        ensures count { result ≡ length self.now }
        ensures distinct { AreDistinct self.now }
    {
        self.entries.len() as u32
    }

    /// Returns whether the document is in the box, by one look-up. It takes no memory.
    pub fn has(&self, doc: DocNum) -> bool
        ensures { result ≡ is_in doc.0 self.now }
    {
        match self.delivered.get(doc.0 as usize) {
            None => false,
            Some(delivered) => *delivered,
        }
    }

    /// Returns the entry at this place, from 0. `None` comes if and only if there is no such place.
    pub fn entry(&self, i: u32) -> Option<&Entry>
        ensures { option_copied result ≡ slice_get self.now i }
    {
        self.entries.get(i as usize)
    }

    /// Makes room for `more` more entries. `Memory` comes if memory runs out.
    pub fn reserve(&mut self, more: usize) -> Result<(), Memory>
        ensures { self.new ≡ self.old }
    {
        self.entries.reserve(more)?;
        Ok(())
    }

    /// Appends an entry. `Memory` comes if memory runs out, and then nothing has changed.
    pub fn add(&mut self, entry: Entry) -> Result<(), Memory>
        requires unseen { is_in entry.doc.0 self.old ≡ false }
        requires room { length self.old < 4294967295 }
        ensures ok { OnOk result (self.new ≡ self.old ++ entry ∷ []) }
        ensures err { OnErr result (self.new ≡ self.old) }
    {
        let place = entry.doc.0 as usize;
        make_mark(&mut self.delivered, entry.doc)?;
        self.entries.push(entry)?;
        self.delivered[place] = true;
        Ok(())
    }

    /// Removes all entries but the first `n`. It takes no memory.
    pub fn cut(&mut self, n: u32)
        requires { n ≤ length self.old }
        ensures { self.new ≡ take n self.old }
    {
        while self.entries.len() > n as usize {
            self.pop();
        }
    }

    // Removes the last entry, if there is one.
    fn pop(&mut self)
        ensures { self.new ≡ take (length self.old - 1) self.old }
    {
        if let Some(entry) = self.entries.pop() {
            self.delivered[entry.doc.0 as usize] = false;
        }
    }
}

// Makes a mark for the document, unset if it is new. `Memory` comes if memory runs out.
fn make_mark(delivered: &mut Vec<bool>, doc: DocNum) -> Result<(), Memory>
    ensures ok { OnOk result (doc.0 < length delivered.new.items) }
    ensures same { (n : ℕ)
        → is_set (slice_get delivered.new.items n) ≡ is_set (slice_get delivered.old.items n) }
{
    let place = doc.0 as usize;
    if place >= delivered.len() {
        delivered.resize(place + 1, false)?;
    }
    Ok(())
}

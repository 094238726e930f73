//! Environments: variables bound to rows.
ghost use Rattle.std.specs.Prelude.{◌≡◌, ◌<◌, List, [], ◌∷◌, length, Option, int_le};
ghost use Rattle.std.specs.List.{list_all};
ghost use Rattle.tql_core.specs.Row.{arrival};
ghost use Rattle.tql_core.specs.Values.{Bound, lookup, bind};
ghost use Rattle.tql_core.specs.Bindings.{row_of, option_row, slot_of, bounds_of};

use crate::row_ref::has_come;
use crate::{RowRef, Var};
use std::marker::Model;
use tap_rows::{KeptDoc, Note};

// Holds a variable and its row, or nothing.
#[derive(Clone, Copy)]
enum Slot<'a> {
    Free,
    OfDoc(u8, &'a KeptDoc),
    OfNote(u8, &'a Note),
}

// Returns the slot of a variable and its row.
fn slot_of<'a>(var: u8, row: RowRef<'a>) -> Slot<'a>
    ensures { result ≡ slot_of var row.entry }
{
    match row {
        RowRef::OfDoc(doc) => Slot::OfDoc(var, doc),
        RowRef::OfNote(note) => Slot::OfNote(var, note),
    }
}

// Returns the row of the first slot that has the variable.
fn row_in<'a>(slots: &[Slot<'a>], var: u8) -> Option<RowRef<'a>>
    ensures { option_row result ≡ lookup var (bounds_of slots.now) }
{
    for slot in slots {
        match *slot {
            Slot::OfDoc(held, doc) if held == var => return Some(RowRef::OfDoc(doc)),
            Slot::OfNote(held, note) if held == var => return Some(RowRef::OfNote(note)),
            _ => {}
        }
    }
    None
}

// Returns whether the slot's row, if it has one, arrived by this second.
fn has_come_in(slot: Slot, second: i64) -> bool
    ensures { result
        ≡ list_all (λ bound. int_le (arrival bound.row) second) (bounds_of (slot.entry ∷ [])) }
{
    match slot {
        Slot::Free => true,
        Slot::OfDoc(_, doc) => has_come(RowRef::OfDoc(doc), second),
        Slot::OfNote(_, note) => has_come(RowRef::OfNote(note), second),
    }
}

// Returns whether the rows of all slots arrived by this second.
fn have_come(slots: &[Slot], second: i64) -> bool
    ensures { result ≡ list_all (λ bound. int_le (arrival bound.row) second) (bounds_of slots.now) }
{
    for slot in slots {
        if !has_come_in(*slot, second) {
            return false;
        }
    }
    true
}

/// Holds the bound variables, at most 16, each with its row. It is seen as the list of them, the
/// last one first.
#[derive(Drop)]
pub struct Env<'a> {
    // The slots from `start` on are in use, the last bound one first.
    slots: [Slot<'a>; 16],
    start: usize,
}

impl<'a> Model for Env<'a> {
    ghost use Rattle.std.specs.Prelude.{◌≡◌, ◌+◌, List, length, drop};
    ghost use Rattle.tql_core.specs.Values.{Bound};
    ghost use Rattle.tql_core.specs.Bindings.{bounds_of};

    ghost Value = { List Bound };

    ghost view = { λ e. bounds_of (drop e.start e.slots) };

    ghost invariant = { λ e. (length e.slots ≡ 16)
        × (e.start + length (bounds_of (drop e.start e.slots)) ≡ 16) };
}

impl<'a> Env<'a> {
    /// Returns an environment without a variable. It takes no memory.
    pub fn new() -> Env<'a>
        ensures { result ≡ [] }
    {
        Env {
            slots: [Slot::Free; 16],
            start: 16,
        }
    }

    /// Returns the environment with one more variable. It takes no memory.
    pub fn bind(&self, var: Var, row: RowRef<'a>) -> Env<'a>
        requires { length self.now < 16 }
        ensures { result ≡ bind var (row_of row.entry) self.now }
    {
        let mut slots = self.slots;
        let start = self.start - 1;
        slots[start] = slot_of(var.0, row);
        Env { slots, start }
    }

    // Returns the slots that are in use.
    fn used(&self) -> &[Slot<'a>]
        ensures { bounds_of result.now ≡ self.now }
    {
        &self.slots[self.start..]
    }

    /// Returns the variable's row, or `None` if and only if it is unbound.
    pub fn get(&self, var: Var) -> Option<RowRef<'a>>
        ensures { option_row result ≡ lookup var.0 self.now }
    {
        row_in(self.used(), var.0)
    }

    /// Returns whether all bound rows arrived by this second.
    pub fn come_by(&self, second: i64) -> bool
        ensures { result ≡ list_all (λ bound. int_le (arrival bound.row) second) self.now }
    {
        have_come(self.used(), second)
    }
}

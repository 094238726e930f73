//! Fronts of posting lists that the boxes of queries hold, in room that was taken before.
//!
//! A box only grows, and so does a posting list, at its end. So what one run finds of a box at a
//! list's front holds for later runs of the query, which begin behind it. A run finds what was in
//! the box before it, so this holds even if the run is undone.

ghost use Rattle.std.specs.Prelude.{◌≡◌, ◌<◌, ◌++◌, ◌∷◌, List, [], true, length, slice_get};
ghost use Rattle.std.specs.Prelude.{IfSome, vec_capacity};
ghost use Rattle.tap_rows.specs.Kept.{In};
ghost use Rattle.tap_rows.specs.declared.rows.Doc.{Doc};
ghost use Rattle.tap_rows.specs.declared.results.Entry.{Entry};
ghost use Rattle.query_eval.specs.BoxFronts.{AreInBox, AddsFront, IsBoxed, IsBoxFrontOf};

use crate::box_front::BoxFront;
use crate::fronts::LONG;
use probe_eval::ListKind;
use row_index::TextKind;
use std::alloc::Global;
use tap_base::{DocNum, Memory, QueryNum};

// A factor that spreads numbers: 2^64 divided by the golden ratio.
const SPREAD: u64 = 0x9E37_79B9_7F4A_7C15;

// What stands under a slot that has no front.
const NO_PLACE: u32 = u32::MAX;

// How many slots are looked at for a front, from that of its mixed number on.
const NEAR: usize = 4;

/// Fronts that the boxes of queries hold, and the query whose run it is. Under each slot stands the
/// place of at most one front among them. A front has one of a few slots side by side; if other
/// fronts have all of these, it replaces one.
#[derive(Drop)]
pub(crate) struct BoxFronts {
    pub(crate) query: QueryNum,
    pub(crate) fronts: Vec<BoxFront>,
    pub(crate) places: Vec<u32>,
}

// Returns a number of the kind: those by which documents are listed once have numbers of their own.
fn kind_number(kind: ListKind) -> u64 {
    match kind {
        ListKind::Size => 0,
        ListKind::Text(TextKind::MsgId) => 1,
        ListKind::Text(TextKind::Parent) => 2,
        ListKind::Text(TextKind::Sender) => 3,
        ListKind::Text(TextKind::Subject) => 4,
        ListKind::Text(_) => 5,
    }
}

// Mixes what a front is found by into a number of 32 bits.
fn mix(query: QueryNum, kind: ListKind, first: DocNum) -> usize {
    let mixed = (query.0 as u64 * 8).wrapping_add(kind_number(kind));
    let mixed = mixed.wrapping_mul(SPREAD).wrapping_add(first.0 as u64);
    (mixed.wrapping_mul(SPREAD) / 0x1_0000_0000) as usize
}

// Returns whether the front is that of this query and of the list of this kind that begins with
// this document.
fn is_box_front_of(front: &BoxFront, query: QueryNum, kind: ListKind, first: DocNum) -> bool
    ensures { result ≡ true → IsBoxFrontOf query kind first.0 front.now }
{
    if front.first.0 != first.0 {
        return false;
    }
    if front.query.0 != query.0 {
        return false;
    }
    front.kind == kind
}

impl BoxFronts {
    /// Returns no fronts, with room for none.
    pub(crate) fn new(alloc: Global) -> BoxFronts
        ensures { result.fronts.items ≡ [] }
    {
        BoxFronts {
            query: QueryNum(0),
            fronts: Vec::new(alloc),
            places: Vec::new(alloc),
        }
    }

    /// Says whose run it is from now on.
    pub(crate) fn begin(&mut self, query: QueryNum)
        ensures query { self.new.query ≡ query }
        ensures fronts { self.new.fronts.items ≡ self.old.fronts.items }
    {
        self.query = query;
    }

    // Returns the front at this place, if there is one.
    fn front_at(&self, place: usize) -> Option<BoxFront>
        ensures { result ≡ slice_get self.now.fronts.items place }
    {
        match self.fronts.get(place) {
            None => None,
            Some(front) => Some(*front),
        }
    }

    // Returns the front of the slot, if there is one.
    fn front_under(&self, slot: usize) -> Option<BoxFront>
        ensures { IfSome result (λ front. In front self.now.fronts.items) }
    {
        match self.places.get(slot) {
            None => None,
            Some(place) => self.front_at(*place as usize),
        }
    }

    // Returns the slot of a front: that under which it stands, or a free one, or else the first of
    // those that are looked at.
    fn slot(&self, query: QueryNum, kind: ListKind, first: DocNum) -> usize {
        let start = mix(query, kind, first)
            .checked_rem(self.places.len().saturating_sub(NEAR))
            .unwrap_or(0);
        let mut step = 0;
        'near: while step < NEAR {
            let slot = start.wrapping_add(step);
            match self.front_under(slot) {
                None => return slot,
                Some(front) => {
                    if is_box_front_of(&front, query, kind, first) {
                        return slot;
                    }
                }
            }
            step += 1;
        }
        start
    }

    /// Returns how many documents at the front of the list of this kind that begins with this
    /// document are known to be in the box of the query whose run it is.
    pub(crate) fn boxed(&self, kind: ListKind, first: DocNum) -> usize
        ensures { (entries : List Entry) (docs : List Doc)
            → AreInBox self.now.query entries docs self.now.fronts.items
            → IsBoxed entries docs kind first.0 result }
    {
        match self.front_under(self.slot(self.query, kind, first)) {
            None => 0,
            Some(front) => {
                if is_box_front_of(&front, self.query, kind, first) {
                    front.len
                } else {
                    0
                }
            }
        }
    }

    fn append(&mut self, front: BoxFront)
        requires { length self.old.fronts.items < vec_capacity self.old.fronts }
        ensures query { self.new.query ≡ self.old.query }
        ensures fronts { self.new.fronts.items ≡ self.old.fronts.items ++ front ∷ [] }
    {
        let _ = self.fronts.push(front);
    }

    /// Stores a front in place of what its slot has. It is left out if there is no room; no memory
    /// is taken.
    pub(crate) fn put(&mut self, front: BoxFront)
        ensures query { self.new.query ≡ self.old.query }
        ensures fronts { AddsFront front self.old.fronts.items self.new.fronts.items }
    {
        let slot = self.slot(front.query, front.kind, front.first);
        if slot >= self.places.len() {
            return;
        }
        let place = self.places[slot] as usize;
        if place < self.fronts.len() {
            self.fronts[place] = front;
        } else if self.fronts.len() < self.fronts.capacity() {
            if let Ok(place) = u32::try_from(self.fronts.len()) {
                self.places[slot] = place;
                self.append(front);
            }
        }
    }

    // Stores under the slot of the front at this place that it stands here.
    fn set_place(&mut self, place: usize)
        ensures { self.new.fronts.items ≡ self.old.fronts.items }
    {
        if let (Some(front), Ok(number)) = (self.front_at(place), u32::try_from(place)) {
            let slot = self.slot(front.query, front.kind, front.first);
            if slot < self.places.len() {
                self.places[slot] = number;
            }
        }
    }

    // Stores the places of all fronts under their slots.
    fn set_places(&mut self)
        ensures { self.new.fronts.items ≡ self.old.fronts.items }
    {
        let count = self.fronts.len();
        let mut place = 0;
        'fronts: while place < count {
            self.set_place(place);
            place += 1;
        }
    }

    /// Makes room for the fronts of the lists of that many documents. If there is less, the room is
    /// made twice as large, and each front goes under its new slot.
    pub(crate) fn grow_to(&mut self, n: u32) -> Result<(), Memory>
        ensures { self.new.fronts.items ≡ self.old.fronts.items }
    {
        let room = n as usize / LONG + 1;
        if room <= self.places.len() {
            return Ok(());
        }
        let slots = 2 * room + NEAR;
        self.fronts.reserve(slots)?;
        self.places.reserve(slots)?;
        self.places.clear();
        self.places.resize(slots, NO_PLACE)?;
        self.set_places();
        Ok(())
    }
}

//! Fronts of posting lists, behind which a walk begins.
//!
//! Many driving rows may lead to one posting list, as each document of a subject leads to all of
//! that subject, and each document of a size to all of that size. Of a document that is in the box,
//! or of which a hit is stored that is no later, nothing is asked. Without fronts each of them
//! would be passed over once for each driving row; with them a run looks once at each that it
//! finds. How many documents at a front are in the box stays for the next run.

ghost use Rattle.std.specs.Prelude.{◌≡◌, ◌<◌, ◌++◌, ◌∷◌, ℕ, List, [], true, length, slice_get};
ghost use Rattle.std.specs.Prelude.{IfSome, vec_capacity};
ghost use Rattle.tap_rows.specs.Kept.{In};
ghost use Rattle.tap_rows.specs.declared.rows.Doc.{Doc};
ghost use Rattle.tap_rows.specs.declared.results.Hit.{Hit};
ghost use Rattle.tap_rows.specs.declared.results.Entry.{Entry};
ghost use Rattle.query_eval.specs.Fronts.{IsPassed};
ghost use Rattle.query_eval.specs.BoxFronts.{AddsFront, AddsFronts};
ghost use Rattle.query_eval.specs.RunFronts.{IsFrontOf, IsKnownFront, IsFrontPassed, ArePassed};

use crate::box_front::BoxFront;
use crate::box_fronts::BoxFronts;
use probe_eval::ListKind;
use std::alloc::Global;
use tap_base::{DocNum, Memory, QueryNum};

/// How many documents a posting list has at least whose front is stored: to pass over those of a
/// shorter one costs no more.
pub(crate) const LONG: usize = 8;

/// The front of the posting list of this kind that begins with this document: of its first `len`
/// documents no hit with this mark or a later one changes what is stored, and its first `boxed` are
/// in the box.
#[derive(Clone, Copy, Drop)]
pub(crate) struct Front {
    pub(crate) kind: ListKind,
    pub(crate) first: DocNum,
    pub(crate) mark: i64,
    pub(crate) len: usize,
    pub(crate) boxed: usize,
}

impl Front {
    /// Returns how many documents at the front of the list are done at this mark.
    pub(crate) fn done_at(&self, mark: i64) -> usize
        ensures { (entries : List Entry) (docs : List Doc) (n : ℕ) (kept : List Hit)
            → IsFrontPassed entries docs n kept self.now
            → IsPassed entries docs n kept self.now.kind self.now.first.0 mark result }
    {
        if mark < self.mark {
            self.boxed
        } else {
            self.len
        }
    }
}

/// Fronts, and under the number of the document with which its list begins each front's place among
/// them; and what earlier runs found of boxes.
#[derive(Drop)]
pub(crate) struct Fronts {
    pub(crate) fronts: Vec<Front>,
    pub(crate) places: Vec<u32>,
    pub(crate) boxes: BoxFronts,
}

// Returns whether the front is that of the list of this kind that begins with this document.
fn is_front_of(front: &Front, kind: ListKind, first: DocNum) -> bool
    ensures { result ≡ true → IsFrontOf kind first.0 front.now }
{
    if front.first.0 != first.0 {
        return false;
    }
    front.kind == kind
}

// Stores how many documents at the front of a list are in the box of this query, if there are any.
fn store_box(front: &Front, query: QueryNum, boxes: &mut BoxFronts)
    ensures query { boxes.new.query ≡ boxes.old.query }
    ensures fronts { AddsFront (record {
      query = query;
      kind = front.now.kind;
      first = front.now.first;
      len = front.now.boxed;
    }) boxes.old.fronts.items boxes.new.fronts.items }
{
    if front.boxed > 0 {
        boxes.put(BoxFront {
            query,
            kind: front.kind,
            first: front.first,
            len: front.boxed,
        });
    }
}

// Stores what the fronts say of the box of the query whose run it is.
fn store_boxes(fronts: &[Front], boxes: &mut BoxFronts)
    ensures query { boxes.new.query ≡ boxes.old.query }
    ensures fronts { (entries : List Entry) (docs : List Doc) (n : ℕ) (kept : List Hit)
        → ArePassed entries docs n kept fronts.now
        → AddsFronts boxes.old.query entries docs boxes.old.fronts.items boxes.new.fronts.items }
{
    let query = boxes.query;
    for front in fronts {
        store_box(front, query, boxes);
    }
}

impl Fronts {
    /// Returns no fronts, with room for none.
    pub(crate) fn new(alloc: Global) -> Fronts
        ensures fronts { result.fronts.items ≡ [] }
        ensures boxes { result.boxes.fronts.items ≡ [] }
    {
        Fronts {
            fronts: Vec::new(alloc),
            places: Vec::new(alloc),
            boxes: BoxFronts::new(alloc),
        }
    }

    // Returns the front at this place, if there is one.
    fn front_at(&self, place: usize) -> Option<Front>
        ensures { result ≡ slice_get self.now.fronts.items place }
    {
        match self.fronts.get(place) {
            None => None,
            Some(front) => Some(*front),
        }
    }

    // Returns the front at the place under the document's number, if there is one.
    fn front_under(&self, first: DocNum) -> Option<Front>
        ensures { IfSome result (λ front. In front self.now.fronts.items) }
    {
        match self.places.get(first.0 as usize) {
            None => None,
            Some(place) => self.front_at(*place as usize),
        }
    }

    /// Returns the front of the list of this kind that begins with this document, if this run knows
    /// it.
    pub(crate) fn known(&self, kind: ListKind, first: DocNum) -> Option<Front>
        ensures { IfSome result (λ front.
            IsKnownFront kind first.0 self.now.fronts.items front) }
    {
        match self.front_under(first) {
            None => None,
            Some(front) => {
                if is_front_of(&front, kind, first) {
                    Some(front)
                } else {
                    None
                }
            }
        }
    }

    // Returns whether the front at this place is of a list that begins with this document.
    fn is_under(&self, place: usize, first: DocNum) -> bool
        ensures { result ≡ true → place < length self.now.fronts.items }
    {
        match self.fronts.get(place) {
            None => false,
            Some(front) => front.first.0 == first.0,
        }
    }

    fn append(&mut self, front: Front)
        requires { length self.old.fronts.items < vec_capacity self.old.fronts }
        ensures fronts { self.new.fronts.items ≡ self.old.fronts.items ++ front ∷ [] }
        ensures boxes { self.new.boxes ≡ self.old.boxes }
    {
        let _ = self.fronts.push(front);
    }

    /// Stores a front in place of that of its list. It is left out if there is no room; no memory
    /// is taken.
    pub(crate) fn put(&mut self, front: Front)
        ensures fronts { (entries : List Entry) (docs : List Doc) (n : ℕ) (kept : List Hit)
            → ArePassed entries docs n kept self.old.fronts.items
            → IsFrontPassed entries docs n kept front
            → ArePassed entries docs n kept self.new.fronts.items }
        ensures boxes { self.new.boxes ≡ self.old.boxes }
    {
        let under = front.first.0 as usize;
        if under >= self.places.len() {
            return;
        }
        let place = self.places[under] as usize;
        if self.is_under(place, front.first) {
            self.fronts[place] = front;
        } else if self.fronts.len() < self.fronts.capacity() {
            // There are fewer lists than numbers of 32 bits.
            if let Ok(place) = u32::try_from(self.fronts.len()) {
                self.places[under] = place;
                self.append(front);
            }
        }
    }

    /// Says whose run it is from now on.
    pub(crate) fn begin(&mut self, query: QueryNum)
        ensures query { self.new.boxes.query ≡ query }
        ensures boxes { self.new.boxes.fronts.items ≡ self.old.boxes.fronts.items }
    {
        self.boxes.begin(query);
    }

    /// Deletes the fronts of a search. Those that boxes hold stay, and so does the room.
    pub(crate) fn clear(&mut self)
        ensures fronts { self.new.fronts.items ≡ [] }
        ensures boxes { self.new.boxes ≡ self.old.boxes }
    {
        self.fronts.clear();
    }

    /// Stores what the fronts of a search say of the box, for later runs.
    pub(crate) fn store(&mut self)
        ensures query { self.new.boxes.query ≡ self.old.boxes.query }
        ensures fronts { (entries : List Entry) (docs : List Doc) (n : ℕ) (kept : List Hit)
            → ArePassed entries docs n kept self.old.fronts.items
            → AddsFronts self.old.boxes.query entries docs
            self.old.boxes.fronts.items self.new.boxes.fronts.items }
    {
        store_boxes(&self.fronts, &mut self.boxes);
    }

    /// Makes room for the fronts of the lists of that many documents in one run.
    pub(crate) fn grow_to(&mut self, n: u32) -> Result<(), Memory>
        ensures fronts { self.new.fronts.items ≡ self.old.fronts.items }
        ensures boxes { self.new.boxes ≡ self.old.boxes }
    {
        self.fronts.reserve(n as usize / LONG + 1)?;
        self.places.resize(n as usize + 1, 0)?;
        Ok(())
    }
}

//! The hits of a run, in room that was taken before it.

ghost use Rattle.std.specs.Prelude.{◌≡◌, ◌≤◌, ◌<◌, [], length, slice_get, option_copied, IfOk};
ghost use Rattle.std.specs.Prelude.{OnOk, OnErr};
ghost use Rattle.tap_rows.specs.declared.results.Hit.{Hit};
ghost use Rattle.query_eval.specs.Hits.{HitsWithRoom};

use crate::fronts::Fronts;
use crate::least_hits::LeastHits;
use std::alloc::Global;
use std::marker::Model;
use tap_base::{Memory, Rows};
use tap_rows::Hit;

/// A list of hits, with room for a hit of each document up to a number; and what is known of the
/// boxes of queries, which stays from run to run.
pub struct Hits {
    pub(crate) kept: LeastHits,
    pub(crate) fronts: Fronts,
}

impl Model for Hits {
    ghost use Rattle.std.specs.Prelude.{length, ◌≤◌};
    ghost use Rattle.query_eval.specs.Hits.{HitsWithRoom};
    ghost use Rattle.query_eval.specs.Placed.{HasRoom};

    ghost Value = { HitsWithRoom };

    ghost view = { λ h. record {
      hits = h.kept.hits.items;
      room = length h.kept.places.items;
      fronts = h.fronts.boxes.fronts.items;
    } };

    ghost invariant = { λ h. HasRoom h.kept
        × (length h.kept.hits.items ≤ length h.kept.places.items) };
}

impl Drop for Hits {
    // One call where hits are dropped, as in an engine, in place of each field.
    fn drop(self) {
        let Hits { kept: _, fronts: _ } = self;
    }
}

impl Hits {
    /// Returns no hits, with room for none.
    pub fn new(alloc: Global) -> Hits
        ensures { result ≡ record { hits = []; room = 0; fronts = [] } }
    {
        Hits {
            kept: LeastHits {
                hits: Vec::new(alloc),
                places: Vec::new(alloc),
            },
            fronts: Fronts::new(alloc),
        }
    }

    // Returns no hits, with room for one of each of the documents 1 to `n`, but for no front that
    // stays for another run.
    pub(crate) fn for_one_run(alloc: Global, n: u32) -> Result<Hits, Memory>
        ensures { IfOk result (λ h. h ≡ record { hits = []; room = n; fronts = [] }) }
    {
        let hits = Vec::with_capacity(alloc, n as usize)?;
        let mut places = Vec::new(alloc);
        places.resize(n as usize, 0)?;
        let mut fronts = Fronts::new(alloc);
        fronts.grow_to(n)?;
        Ok(Hits {
            kept: LeastHits { hits, places },
            fronts,
        })
    }

    /// Returns no hits, with room for one of each of the documents 1 to `n`. `Memory` comes if
    /// memory runs out.
    pub fn with_room(alloc: Global, n: u32) -> Result<Hits, Memory>
        ensures { IfOk result (λ h. h ≡ record { hits = []; room = n; fronts = [] }) }
    {
        let mut hits = Hits::for_one_run(alloc, n)?;
        match hits.fronts.boxes.grow_to(n) {
            Ok(()) => Ok(hits),
            Err(Memory) => {
                drop(hits);
                Err(Memory)
            }
        }
    }

    /// Returns how many hits there is room for.
    pub fn room(&self) -> u32
        ensures { result ≡ self.now.room }
    {
        self.kept.places.len() as u32
    }

    /// Returns how many hits there are.
    pub fn len(&self) -> u32
        ensures { result ≡ length self.now.hits }
    {
        self.kept.hits.len() as u32
    }

    /// Returns the hit at this place, from 0. `None` comes if and only if there is no such place.
    pub fn get(&self, i: u32) -> Option<&Hit>
        ensures { option_copied result ≡ slice_get self.now.hits i }
    {
        self.kept.hits.get(i as usize)
    }

    /// Borrows the hits.
    pub fn as_slice(&self) -> &[Hit]
        ensures { result.now ≡ self.now.hits }
    {
        self.kept.hits.as_slice()
    }

    /// Returns the hits as a list.
    pub(crate) fn into_rows(self) -> Rows<Hit>
        ensures { result ≡ self.hits }
    {
        let Hits { kept, fronts: _ } = self;
        let LeastHits { hits, .. } = kept;
        Rows::from_vec(hits)
    }

    /// Makes the room at least `n`, and changes nothing else. `Memory` comes if memory runs out,
    /// and then nothing has changed.
    pub fn grow(&mut self, n: u32) -> Result<(), Memory>
        ensures hits { self.new.hits ≡ self.old.hits }
        ensures fronts { self.new.fronts ≡ self.old.fronts }
        ensures room { self.old.room ≤ self.new.room }
        ensures ok { OnOk result (n ≤ self.new.room) }
        ensures err { OnErr result (self.new ≡ self.old) }
    {
        if n <= self.room() {
            return Ok(());
        }
        self.fronts.grow_to(n)?;
        self.fronts.boxes.grow_to(n)?;
        self.kept.grow_to(n)
    }
}

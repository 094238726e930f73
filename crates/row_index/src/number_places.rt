//! The places of rows by a number of theirs.

ghost use Rattle.std.specs.Prelude.{◌≡◌, [], false, OnOk, OnErr};
ghost use Rattle.std.specs.Ordering.{int_eq};
ghost use Rattle.row_index.specs.Places.{under, posted, unposted, is_used_key};

use crate::places::{drop_place, put_place};
use indexmap::IndexMap;
use std::alloc::Global;
use std::marker::Model;
use tap_base::{HashKey, Memory};

/// The places under each number, in order.
#[derive(Drop)]
pub(crate) struct NumberPlaces {
    places: IndexMap<i64, Vec<u32>, HashKey>,
    alloc: Global,
}

impl Model for NumberPlaces {
    ghost use Rattle.std.specs.Prelude.{ℕ, ℤ, List, map};

    ghost Value = { List (ℤ × List ℕ) };

    ghost view = { λ p. map (λ e. (e.0, e.1.items)) p.places.entries };
}

impl NumberPlaces {
    /// Returns an index of no rows, which hashes numbers under this key.
    pub(crate) fn new(alloc: Global, key: HashKey) -> NumberPlaces
        ensures { result ≡ [] }
    {
        NumberPlaces {
            places: IndexMap::with_hasher(alloc, key),
            alloc,
        }
    }

    /// Returns the places under the number, by one look-up.
    pub(crate) fn under(&self, key: i64) -> &[u32]
        ensures { result.now ≡ under int_eq key self.now }
    {
        match self.places.get(&key) {
            Some(places) => places.as_slice(),
            None => &[],
        }
    }

    // Puts the first place under a number.
    fn begin(&mut self, key: i64, place: u32) -> Result<(), Memory>
        requires { is_used_key int_eq key self.old ≡ false }
        ensures ok { OnOk result (self.new ≡ posted int_eq key place self.old) }
        ensures err { OnErr result (self.new ≡ self.old) }
    {
        let mut places = Vec::new(self.alloc);
        places.push(place)?;
        self.places.insert(key, places)?;
        Ok(())
    }

    /// Puts the place under the number. After an error nothing has changed.
    pub(crate) fn add(&mut self, key: i64, place: u32) -> Result<(), Memory>
        ensures ok { OnOk result (self.new ≡ posted int_eq key place self.old) }
        ensures err { OnErr result (self.new ≡ self.old) }
    {
        match self.places.get_mut(&key) {
            Some(places) => {
                put_place(places, place)?;
                Ok(())
            }
            None => self.begin(key, place),
        }
    }

    /// Removes the place from under the number, if it is the last one there.
    pub(crate) fn forget(&mut self, key: i64, place: u32)
        ensures { self.new ≡ unposted int_eq key place self.old }
    {
        if let Some(places) = self.places.get_mut(&key) {
            drop_place(places, place);
        }
    }
}

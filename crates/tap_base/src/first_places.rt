//! Where words come first in a text.
ghost use Rattle.std.specs.Prelude.{◌≡◌, ◌≤◌, ◌<◌, ◌+◌, ◌^◌, ◌++◌, ◌∷◌, [], OnOk, OnErr, IfOk};
ghost use Rattle.std.specs.Prelude.{None, option_to_list, IfSome, IfNone, drop, length};
ghost use Rattle.tap_base.specs.FirstPlaces.{places_with, tag_of, firsts_after, gap_total};

use crate::Memory;
use std::alloc::Global;
use std::marker::Model;

// A distance of that many is followed by its rest, and is of no word.
const FAR: u8 = 255;

// How far a word is from the one before, and its tag.
#[derive(Clone, Copy)]
struct Gap {
    len: u8,
    tag: u8,
}

/// Places of words in a text, in order, and the tag of each: in two bytes, the distance from the
/// place before and the tag.
#[derive(Drop)]
pub struct FirstPlaces {
    gaps: Vec<Gap>,
    // The sum of the gaps.
    last: usize,
}

impl Model for FirstPlaces {
    ghost use Rattle.std.specs.Prelude.{◌≡◌, ◌<◌, ◌^◌};
    ghost use Rattle.tap_base.specs.FirstPlaces.{Placed, firsts_after, gap_total};

    ghost Value = { Placed };

    ghost view = { λ p. record { firsts = firsts_after 0 p.gaps.items; last = p.last } };

    ghost invariant = { λ p. (p.last ≡ gap_total p.gaps.items) × (p.last < 2 ^ 64) };
}

/// The places of a list that are left.
#[derive(Drop)]
pub struct PlaceWalk<'a> {
    gaps: &'a [Gap],
    at: usize,
}

impl<'a> Model for PlaceWalk<'a> {
    ghost use Rattle.std.specs.Prelude.{List, ◌+◌, ◌<◌, ◌^◌};
    ghost use Rattle.tap_base.specs.FirstPlaces.{First, firsts_after, gap_total};

    ghost Value = { List First };

    ghost view = { λ w. firsts_after w.at w.gaps.now };

    ghost invariant = { λ w. w.at + gap_total w.gaps.now < 2 ^ 64 };
}

/// Returns a tag of a word: other words mostly have another one.
pub(crate) fn tag(word: &[u8]) -> u8
    ensures { result ≡ tag_of word.now }
{
    match word.first() {
        None => 0,
        Some(first) => ((*first as usize + 32 * (word.len() % 8)) % 256) as u8,
    }
}

impl FirstPlaces {
    /// Returns no places, with room for that many. Fails with `Memory` when out of memory.
    pub(crate) fn with_room(alloc: Global, places: usize) -> Result<FirstPlaces, Memory>
        ensures { IfOk result (λ placed. placed ≡ record { firsts = []; last = 0 }) }
    {
        Ok(FirstPlaces {
            gaps: Vec::with_capacity(alloc, places)?,
            last: 0,
        })
    }

    /// Appends the place of a word with this tag. Fails with `Memory` when out of memory, and no
    /// place is added then.
    pub(crate) fn push(&mut self, at: usize, tag: u8) -> Result<(), Memory>
        requires { self.old.last ≤ at }
        ensures ok { OnOk result (self.new ≡ record {
          firsts =
              self.old.firsts ++ record { place = at; tag = tag } ∷ [];
          last = at;
        }) }
        ensures err { OnErr result ((self.new.firsts ≡ self.old.firsts) × (self.new.last ≤ at)) }
    {
        'far: while at - self.last >= FAR as usize {
            self.gaps.push(Gap { len: FAR, tag })?;
            self.last += FAR as usize;
        }
        self.gaps.push(Gap {
            len: (at - self.last) as u8,
            tag,
        })?;
        self.last = at;
        Ok(())
    }

    /// Returns a walk over the places.
    pub(crate) fn walk(&self) -> PlaceWalk<'_>
        ensures { result ≡ self.now.firsts }
    {
        PlaceWalk {
            gaps: &self.gaps,
            at: 0,
        }
    }

    /// Returns a copy. Fails with `Memory` when out of memory.
    pub(crate) fn copy(&self) -> Result<FirstPlaces, Memory>
        ensures { IfOk result (λ copy. copy ≡ self.now) }
    {
        Ok(FirstPlaces {
            gaps: Vec::from_slice(*self.gaps.allocator(), &self.gaps)?,
            last: self.last,
        })
    }
}

// The place of a word, and where in a list of gaps those after it begin.
#[derive(Drop)]
struct Stop {
    at: usize,
    next: usize,
}

// Returns the next place of a word with this tag, if there is one.
fn next_stop(gaps: &[Gap], at: usize, tag: u8) -> Option<Stop>
    requires { at + gap_total gaps.now < 2 ^ 64 }
    ensures places { IfSome result (λ s. places_with tag (firsts_after at gaps.now)
        ≡ s.at ∷ places_with tag (firsts_after s.at (drop s.next gaps.now))) }
    ensures fits { IfSome result (λ s. s.at + gap_total (drop s.next gaps.now) < 2 ^ 64) }
    ensures within { IfSome result (λ s. s.next ≤ length gaps.now) }
    ensures none { IfNone result (places_with tag (firsts_after at gaps.now) ≡ []) }
{
    let mut at = at;
    for (i, gap) in gaps.iter().enumerate() {
        at += gap.len as usize;
        if gap.tag == tag && gap.len != FAR {
            return Some(Stop { at, next: i + 1 });
        }
    }
    None
}

impl<'a> PlaceWalk<'a> {
    /// Removes the places up to the next one of a word with this tag, and returns that. `None`
    /// comes if and only if none is left.
    pub(crate) fn next_with(&mut self, tag: u8) -> Option<usize>
        ensures places { places_with tag self.old
            ≡ option_to_list result ++ places_with tag self.new }
        ensures end { result ≡ None → places_with tag self.old ≡ [] }
    {
        match next_stop(self.gaps, self.at, tag) {
            None => {
                self.gaps = &[];
                None
            }
            Some(stop) => {
                self.gaps = &self.gaps[stop.next..];
                self.at = stop.at;
                Some(stop.at)
            }
        }
    }
}

//! Documents of a posting list.

ghost use Rattle.std.specs.Prelude.{◌≡◌, length, drop, filter, slice_get};
ghost use Rattle.row_index.specs.Cuts.{rank, keeps};
ghost use Rattle.row_index.specs.Walks.{ArePlaces, at_places};
ghost use Rattle.row_index.specs.Orders.{IsRisingBy, doc_num};

use crate::cut::{ListCut, places_cut};
use crate::walk::{DocWalk, Walk};
use std::marker::Model;
use tap_base::DocNum;
use tap_rows::KeptDoc;

/// The documents of a posting list, or of a part of it, in order of number. The index lends them,
/// and no row is copied.
#[derive(Drop)]
pub struct PostingList<'a> {
    docs: &'a [KeptDoc],
    places: &'a [u32],
}

impl<'a> Model for PostingList<'a> {
    ghost use Rattle.std.specs.Prelude.{List};
    ghost use Rattle.tap_rows.specs.declared.rows.Doc.{Doc};
    ghost use Rattle.row_index.specs.Walks.{ArePlaces, at_places};

    ghost Value = { List Doc };

    ghost view = { λ list. at_places list.docs.now list.places.now };

    ghost invariant = { λ list. ArePlaces list.docs.now list.places.now };
}

fn behind(places: &[u32], place: usize) -> &[u32]
    ensures { result.now ≡ drop place places.now }
{
    if place < places.len() {
        &places[place..]
    } else {
        &[]
    }
}

impl<'a> PostingList<'a> {
    // Returns the documents at these places.
    pub(crate) fn at(docs: &'a [KeptDoc], places: &'a [u32]) -> PostingList<'a>
        requires { ArePlaces docs.now places.now }
        ensures { result ≡ at_places docs.now places.now }
    {
        PostingList { docs, places }
    }

    /// Returns how many documents there are, without a step.
    pub fn len(&self) -> usize
        ensures { result ≡ length self.now }
    {
        self.places.len()
    }

    /// Returns the number of the document at this place, from 0, without a step. `None` comes if
    /// and only if there is no such place.
    pub fn number(&self, place: usize) -> Option<DocNum>
        ensures { result ≡ doc_num (slice_get self.now place) }
    {
        match self.places.get(place) {
            None => None,
            // A document's number is the one after its place, so that no row is read.
            Some(at) => Some(DocNum(*at + 1)),
        }
    }

    /// Returns the documents from this place on.
    pub fn skip(self, place: usize) -> PostingList<'a>
        ensures { result ≡ drop place self.entry }
    {
        PostingList {
            docs: self.docs,
            places: behind(self.places, place),
        }
    }

    /// Returns the documents that pass the comparison, by halving.
    pub fn cut(self, cut: ListCut) -> PostingList<'a>
        requires { IsRisingBy (rank cut.order) self }
        ensures { result ≡ filter (keeps cut) self.entry }
    {
        PostingList {
            docs: self.docs,
            places: places_cut(self.docs, self.places, cut),
        }
    }

    /// Returns a walk over the documents.
    pub fn walk(self) -> DocWalk<'a>
        ensures { result ≡ self.entry }
    {
        Walk::placed(self.docs, self.places)
    }
}

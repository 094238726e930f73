//! The places of documents by their dates.

ghost use Rattle.std.specs.Prelude.{◌≡◌, ℤ, ◌≤ℤ◌, ◌&&◌, int_le, int_lt, List, [], ◌∷◌, ◌++◌, map};
ghost use Rattle.std.specs.Prelude.{OnOk, OnErr};
ghost use Rattle.tap_rows.specs.declared.rows.Doc.{Doc};
ghost use Rattle.row_index.specs.Texts.{IsNext};
ghost use Rattle.row_index.specs.Dates.{DatePosts, dated, dated_in};
ghost use Rattle.tap_rows.specs.Fields.{fields};

use crate::doc_texts::fields_in;
use std::alloc::Global;
use std::collections::BTreeSet;
use std::collections::btree_set::Range;
use tap_base::Memory;
use tap_rows::KeptDoc;

/// A date, and the place of the document that has it.
#[derive(Clone, Copy, Debug, PartialEq, Eq, PartialOrd, Ord)]
pub(crate) struct Dated {
    pub(crate) date: i64,
    pub(crate) place: u32,
}

/// The dates of documents, in order of date, then of place.
#[derive(Drop)]
pub(crate) struct Dates {
    set: BTreeSet<Dated>,
}

// Returns the date of a document.
fn date_of(doc: &KeptDoc) -> Option<i64>
    ensures { result ≡ (fields doc.now).date }
{
    fields_in(doc).date
}

// Returns an end that isn't below `low`, with the same seconds from `low` up to it as up to `high`:
// a range of a set must not end before it begins.
fn end_from(low: i64, high: i64) -> i64
    ensures same { (x : ℤ) → (int_le low x && int_lt x result) ≡ (int_le low x && int_lt x high) }
    ensures above { low ≤ℤ result }
{
    if low < high { high } else { low }
}

impl Dates {
    /// Returns an index of no dates.
    pub(crate) fn new(alloc: Global) -> Dates
        ensures { DatePosts [] result }
    {
        Dates {
            set: BTreeSet::new(alloc),
        }
    }

    /// Adds the document's date, if it has one. `Memory` comes if memory runs out.
    pub(crate) fn add(&mut self, doc: &KeptDoc, place: u32) -> Result<(), Memory>
        ensures ok { OnOk result ((docs : List Doc) → IsNext docs doc.now place
            → DatePosts docs self.old → DatePosts (docs ++ doc.now ∷ []) self.new) }
        ensures err { OnErr result
            ((docs : List Doc) → DatePosts docs self.old → DatePosts docs self.new) }
    {
        if let Some(date) = date_of(doc) {
            self.set.insert(Dated { date, place })?;
        }
        Ok(())
    }

    /// Removes the document's date, if it has one.
    pub(crate) fn forget(&mut self, doc: &KeptDoc, place: u32)
        ensures { (docs : List Doc) → IsNext docs doc.now place
            → DatePosts (docs ++ doc.now ∷ []) self.old → DatePosts docs self.new }
    {
        if let Some(date) = date_of(doc) {
            self.set.remove(&Dated { date, place });
        }
    }

    /// Returns the dates from `low` up to but not at `high`.
    pub(crate) fn within(&self, low: i64, high: i64) -> Range<'_, Dated>
        ensures { (docs : List Doc) → DatePosts docs self.now
            → result ≡ map dated (dated_in low high docs) }
    {
        let end = end_from(low, high);
        self.set.range(
            Dated {
                date: low,
                place: 0,
            }..Dated {
                date: end,
                place: 0,
            },
        )
    }
}

//! The queries in memory.

ghost use Rattle.std.specs.Prelude.{◌≡◌, ◌<◌, ◌+◌, ◌^◌, ◌++◌, [], ◌∷◌, List, false, length, map};
ghost use Rattle.std.specs.Prelude.{take, slice_index_or, OnOk, OnErr, IfOk};
ghost use Rattle.std.specs.Option.{option_copied};
ghost use Rattle.tap_base.specs.Bytes.{IsPlaceOf};
ghost use Rattle.little_box.specs.Boxes.{is_in};
ghost use Rattle.tap_rows.specs.Results.{entry_at};
ghost use Rattle.tap_rows.specs.WellFormed.{is_query_of};
ghost use Rattle.tap_kept.specs.declared.cached_query.CachedQuery.{CachedQuery};
ghost use Rattle.tap_kept.specs.Keeping.{after_run, without_run, named_in, owned_in, AreNew};
ghost use Rattle.tap_kept.specs.Keeping.{HoldsAt, ChangesAt};
ghost use Rattle.tap_kept.specs.Starting.{with_entry};
ghost use Rattle.tap_kept.specs.Lines.{owned_lines};

use crate::cached_query::CachedQuery;
use std::alloc::Global;
use std::marker::Model;
use tap_base::{Memory, Texts};
use tap_rows::{Entry, Hit, QueryRow};

/// The queries in memory, in order of their numbers. Contracts see it as a list.
#[derive(Drop)]
pub struct CachedQueries {
    items: Vec<CachedQuery>,
}

impl Model for CachedQueries {
    ghost Value = { List CachedQuery };

    ghost view = { λ queries. queries.items.items };
}

// Checks whether it is this user's query of this name.
fn is_query_of(query: &QueryRow, owner: &[u8], name: &[u8]) -> bool
    ensures { result ≡ is_query_of owner.now name.now query.now }
{
    query.owner.as_slice() == owner && query.name.as_slice() == name
}

impl CachedQueries {
    /// Makes a list of no queries.
    pub fn new(alloc: Global) -> CachedQueries
        ensures { result ≡ [] }
    {
        CachedQueries {
            items: Vec::new(alloc),
        }
    }

    /// Counts the queries.
    pub fn len(&self) -> usize
        ensures { result ≡ length self.now }
    {
        self.items.len()
    }

    pub fn at(&self, place: usize) -> &CachedQuery
        requires { place < length self.now }
        ensures { (d : CachedQuery) → result.now ≡ slice_index_or self.now place d }
    {
        &self.items[place]
    }

    /// Finds the user's query of this name.
    #[tactic(auto, unfolding(crate::specs::Keeping::named_in))]
    pub fn named(&self, owner: &[u8], name: &[u8]) -> Option<&CachedQuery>
        ensures { option_copied result ≡ named_in owner.now name.now self.now }
    {
        for kept in &self.items {
            if is_query_of(kept.row.row(), owner, name) {
                return Some(kept);
            }
        }
        None
    }

    /// Counts the user's queries.
    #[tactic(auto, unfolding(crate::specs::Keeping::owned_in))]
    pub fn count(&self, owner: &[u8]) -> usize
        ensures { result ≡ owned_in owner.now self.now }
    {
        self.items
            .iter()
            .filter(|kept| kept.row.row().owner.as_slice() == owner)
            .count()
    }

    /// Gives a line for each query of the user, in order.
    pub fn lines(&self, alloc: Global, owner: &[u8]) -> Result<Texts, Memory>
        ensures { IfOk result (λ lines. lines ≡ owned_lines owner.now self.now) }
    {
        let mut lines = Texts::new(alloc);
        for kept in &self.items {
            kept.push_line(alloc, owner, &mut lines)?;
        }
        Ok(lines)
    }

    /// Appends a query. At Err nothing has changed.
    pub fn push(&mut self, kept: CachedQuery) -> Result<(), Memory>
        ensures ok { OnOk result (self.new ≡ self.old ++ kept ∷ []) }
        ensures err { OnErr result (self.new ≡ self.old) }
    {
        self.items.push(kept)?;
        Ok(())
    }

    /// Removes the queries after the first `len`.
    pub fn cut(&mut self, len: usize)
        ensures { self.new ≡ take len self.old }
    {
        self.items.truncate(len);
    }

    /// Adds a run of the query at this place, which delivered these hits. At Err nothing has
    /// changed.
    pub fn add_run(
        &mut self,
        place: usize,
        moment: i64,
        ordinal: u32,
        hits: &[Hit],
    ) -> Result<(), Memory>
        requires place { IsPlaceOf self.old place }
        requires runs { HoldsAt place (λ query. query.runs + 1 < 2 ^ 64) self.old }
        requires new { HoldsAt place (λ query. AreNew query.entries hits.now) self.old }
        ensures kept { OnOk result (ChangesAt place
            (after_run moment (map (entry_at ordinal) hits.now)) self.old self.new) }
        ensures err { OnErr result (self.new ≡ self.old) }
    {
        self.items[place].add_run(moment, ordinal, hits)
    }

    /// Undoes the last run of the query at this place. It takes no memory.
    pub fn undo_run(&mut self, place: usize, covered: i64, runs: usize, entries: u32)
        requires { IsPlaceOf self.old place }
        ensures { self.new ≡ without_run place covered runs entries self.old }
    {
        self.items[place].undo_run(covered, runs, entries);
    }

    // Adds an entry, of a document that isn't in its box, to the box of the query at this place.
    pub(crate) fn add_entry(&mut self, place: usize, entry: Entry) -> Result<(), Memory>
        requires place { IsPlaceOf self.old place }
        requires unseen { HoldsAt place (λ query. is_in entry.doc.0 query.entries ≡ false)
            self.old }
        ensures kept { OnOk result (ChangesAt place (with_entry entry) self.old self.new) }
        ensures err { OnErr result (self.new ≡ self.old) }
    {
        self.items[place].add_entry(entry)
    }
}

//! The engine: what is in memory of the tables, and the session.

ghost use Rattle.std.specs.Prelude.{◌≡◌, length};
ghost use Rattle.tap_rows.specs.Tables.{no_rows};

use query_eval::Hits;
use row_index::RowIndex;
use std::alloc::Global;
use tap_base::{Rows, Texts};
use tap_kept::{CachedFilter, CachedQueries};
use tap_model::Session;
use vote_scores::Scores;

/// An engine: the session, and what is in memory of the tables, so that a command costs what it
/// looks at. The index owns the documents and the notes; the other rows are in memory so far as
/// commands ask for them. `votes` is the tally of the notes, the last value of each author for a
/// kind and a document. `hits` has room for a run's hits, which mean nothing between commands, and
/// has the fronts of posting lists that are known to be in the boxes of queries. `greatest` is the
/// greatest moment of the stored rows, which bounds the session's first moment. The engine is
/// stopped once its keeper has failed.
#[derive(Drop)]
pub struct Engine {
    pub session: Session,
    pub(crate) index: RowIndex,
    pub(crate) votes: Scores,
    pub(crate) hits: Hits,
    pub(crate) queries: CachedQueries,
    pub(crate) filters: Rows<CachedFilter>,
    pub(crate) run_count: usize,
    pub(crate) pick_count: usize,
    pub(crate) bytes: usize,
    pub(crate) owners: Texts,
    pub(crate) greatest: Option<i64>,
    pub(crate) stopped: bool,
}

impl Engine {
    ghost use Rattle.tap_engine.specs.Started.{IsNewOver};

    /// Makes an engine with a new session that represents the empty tables.
    pub fn new(alloc: Global) -> Engine
        ensures { IsNewOver no_rows result }
    {
        Engine {
            session: Session::new(),
            index: RowIndex::new(alloc),
            votes: Scores::new(alloc),
            hits: Hits::new(alloc),
            queries: CachedQueries::new(alloc),
            filters: Rows::new(alloc),
            run_count: 0,
            pick_count: 0,
            bytes: 0,
            owners: Texts::new(alloc),
            greatest: None,
            stopped: false,
        }
    }

    /// Counts the documents.
    pub fn docs(&self) -> u32
        ensures { result ≡ length self.now.index.docs }
    {
        self.index.docs()
    }

    /// Counts the notes.
    pub fn notes(&self) -> u32
        ensures { result ≡ length self.now.index.notes }
    {
        self.index.notes()
    }

    /// Checks whether the keeper has failed, which stops the engine.
    pub fn stopped(&self) -> bool
        ensures { result ≡ self.now.stopped }
    {
        self.stopped
    }
}

//! The bytes that rows store, and the greatest of their moments.

ghost use Rattle.std.specs.Prelude.{◌≡◌, length, None, IfOk};
ghost use Rattle.tap_model.specs.Limits.{stored_bytes};
ghost use Rattle.tap_model.specs.Sessions.{later_of, greatest_moment};
ghost use Rattle.tap_kept.specs.Starting.{added, summed, sums_of};

use tap_base::Memory;
use tap_rows::{Doc, FilterRow, Note, QueryRow, RunRow, Tables};

/// How many bytes some rows store, and the greatest of their moments, in seconds since
/// 1970-01-01T00:00:00Z.
#[derive(Clone, Copy, Debug)]
pub struct Sums {
    pub bytes: usize,
    pub greatest: Option<i64>,
}

// Gives the later of a moment and one that may be absent.
fn later_of(moment: i64, known: Option<i64>) -> i64
    ensures { result ≡ later_of moment known }
{
    match known {
        None => moment,
        Some(known) => { if known <= moment { moment } else { known } }
    }
}

impl Sums {
    // Makes the sums of no rows.
    pub(crate) fn none() -> Sums
        ensures { result ≡ record { bytes = 0; greatest = None } }
    {
        Sums {
            bytes: 0,
            greatest: None,
        }
    }

    // Adds a row of this moment and that many bytes. More bytes than a `usize` counts fit no
    // memory, so that is out of memory.
    fn add(self, moment: i64, bytes: usize) -> Result<Sums, Memory>
        ensures { IfOk result (λ sums. sums ≡ added moment bytes self) }
    {
        match self.bytes.checked_add(bytes) {
            Some(bytes) => Ok(Sums {
                bytes,
                greatest: Some(later_of(moment, self.greatest)),
            }),
            None => Err(Memory),
        }
    }

    // Adds documents.
    pub(crate) fn add_docs(self, docs: &[Doc]) -> Result<Sums, Memory>
        ensures { IfOk result (λ sums.
            sums ≡ summed (λ doc. doc.arrival) (λ doc. length doc.text) self docs.now) }
    {
        let mut sums = self;
        for doc in docs {
            sums = sums.add(doc.arrival, doc.text.len())?;
        }
        Ok(sums)
    }

    pub(crate) fn add_notes(self, notes: &[Note]) -> Result<Sums, Memory>
        ensures { IfOk result (λ sums.
            sums ≡ summed (λ note. note.arrival) (λ note. length note.text) self notes.now) }
    {
        let mut sums = self;
        for note in notes {
            sums = sums.add(note.arrival, note.text.len())?;
        }
        Ok(sums)
    }

    pub(crate) fn add_queries(self, queries: &[QueryRow]) -> Result<Sums, Memory>
        ensures { IfOk result (λ sums. sums
            ≡ summed (λ query. query.arrival) (λ query. length query.source) self queries.now) }
    {
        let mut sums = self;
        for query in queries {
            sums = sums.add(query.arrival, query.source.len())?;
        }
        Ok(sums)
    }

    // Adds runs, which store no bytes.
    pub(crate) fn add_runs(self, runs: &[RunRow]) -> Result<Sums, Memory>
        ensures { IfOk result (λ sums. sums ≡ summed (λ run. run.moment) (λ run. 0) self runs.now) }
    {
        let mut sums = self;
        for run in runs {
            sums = sums.add(run.moment, 0)?;
        }
        Ok(sums)
    }

    pub(crate) fn add_filters(self, filters: &[FilterRow]) -> Result<Sums, Memory>
        ensures { IfOk result (λ sums. sums
            ≡ summed (λ filter. filter.arrival) (λ filter. length filter.source) self filters.now) }
    {
        let mut sums = self;
        for filter in filters {
            sums = sums.add(filter.arrival, filter.source.len())?;
        }
        Ok(sums)
    }

    // Adds the rows of each table in turn.
    fn total(tables: &Tables) -> Result<Sums, Memory>
        ensures { IfOk result (λ sums. sums ≡ sums_of tables.now) }
    {
        Sums::none()
            .add_docs(tables.docs.as_slice())?
            .add_notes(tables.notes.as_slice())?
            .add_queries(tables.queries.as_slice())?
            .add_runs(tables.runs.as_slice())?
            .add_filters(tables.filters.as_slice())
    }

    /// Sums all rows.
    pub fn of(tables: &Tables) -> Result<Sums, Memory>
        ensures bytes { IfOk result (λ sums. sums.bytes ≡ stored_bytes tables.now) }
        ensures greatest { IfOk result (λ sums. sums.greatest ≡ greatest_moment tables.now) }
    {
        let sums = Sums::total(tables)?;
        Ok(sums)
    }
}

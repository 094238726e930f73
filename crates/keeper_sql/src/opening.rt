//! Reads all tables of a store, in a transaction.

ghost use Rattle.std.specs.Prelude.{◌≡◌, map};
ghost use Rattle.keeper_sql.specs.RowsAsValues.{tables_in, doc_in, note_in, query_in, run_in};
ghost use Rattle.keeper_sql.specs.RowsAsValues.{pick_in, filter_in};
ghost use Rattle.keeper_sql.specs.Store.{AreAllKeyed};
ghost use Rattle.keeper_sql.specs.Calls.{CommitsNothing, ReadsStore, ReadsOnly, ReadsOrUndoes};
ghost use Rattle.keeper_sql.specs.Failing.{FailsToReadTables, FailsWithin};

use crate::docs::read_docs;
use crate::filters::read_filters;
use crate::notes::read_notes;
use crate::picks::read_picks;
use crate::queries::read_queries;
use crate::runs::read_runs;
use sqlite::{Alter, Error, Transaction};
use std::alloc::Global;
use tap_base::Rows;
use tap_rows::{Doc, FilterRow, Note, Pick, QueryRow, RunRow, Tables};

// What users wrote. The tables are read in two steps, so that a function makes at most three reads.
#[derive(Drop)]
struct EarlierTables {
    docs: Rows<Doc>,
    notes: Rows<Note>,
    queries: Rows<QueryRow>,
}

// What runs delivered, and the filters.
#[derive(Drop)]
struct LaterTables {
    runs: Rows<RunRow>,
    picks: Rows<Pick>,
    filters: Rows<FilterRow>,
}

// Returns the documents, notes and queries.
fn read_written<S: Alter>(
    alloc: Global,
    tx: &mut Transaction<'_, S>,
) -> Result<EarlierTables, Error>
    ensures same_reference { tx.new.conn.ghost_name ≡ tx.old.conn.ghost_name }
    ensures same { ReadsOnly S.Store tx.old.conn.now tx.new.conn.now result }
    ensures read { ReadsStore S.Store tx.old.conn.now tx.new.conn.now result (λ db all.
        AreAllKeyed db
        → (all.docs ≡ map doc_in (db.trees 1)) × (all.notes ≡ map note_in (db.trees 2))
        × (all.queries ≡ map query_in (db.trees 3))) }
    ensures err { ReadsOrUndoes S.Store tx.old.conn.now tx.new.conn.now result }
    ensures survives { CommitsNothing S.Store tx.old.conn.now tx.new.conn.now }
    ensures fails { FailsWithin S.Store tx.old.conn.now tx.new.conn.now result FailsToReadTables }
{
    let docs = match read_docs(alloc, tx) {
        Ok(docs) => docs,
        Err(error) => return Err(error),
    };
    let notes = match read_notes(alloc, tx) {
        Ok(notes) => notes,
        Err(error) => return Err(error),
    };
    match read_queries(alloc, tx) {
        Ok(queries) => Ok(EarlierTables {
            docs,
            notes,
            queries,
        }),
        Err(error) => Err(error),
    }
}

// Returns the runs, picks and filters.
fn read_derived<S: Alter>(alloc: Global, tx: &mut Transaction<'_, S>) -> Result<LaterTables, Error>
    ensures same_reference { tx.new.conn.ghost_name ≡ tx.old.conn.ghost_name }
    ensures same { ReadsOnly S.Store tx.old.conn.now tx.new.conn.now result }
    ensures read { ReadsStore S.Store tx.old.conn.now tx.new.conn.now result (λ db all.
        AreAllKeyed db
        → (all.runs ≡ map run_in (db.trees 4)) × (all.picks ≡ map pick_in (db.trees 5))
        × (all.filters ≡ map filter_in (db.trees 6))) }
    ensures err { ReadsOrUndoes S.Store tx.old.conn.now tx.new.conn.now result }
    ensures survives { CommitsNothing S.Store tx.old.conn.now tx.new.conn.now }
    ensures fails { FailsWithin S.Store tx.old.conn.now tx.new.conn.now result FailsToReadTables }
{
    let runs = match read_runs(alloc, tx) {
        Ok(runs) => runs,
        Err(error) => return Err(error),
    };
    let picks = match read_picks(alloc, tx) {
        Ok(picks) => picks,
        Err(error) => return Err(error),
    };
    match read_filters(alloc, tx) {
        Ok(filters) => Ok(LaterTables {
            runs,
            picks,
            filters,
        }),
        Err(error) => Err(error),
    }
}

/// Returns all tables of a store.
pub fn read_tables<S: Alter>(alloc: Global, tx: &mut Transaction<'_, S>) -> Result<Tables, Error>
    ensures same_reference { tx.new.conn.ghost_name ≡ tx.old.conn.ghost_name }
    ensures same { ReadsOnly S.Store tx.old.conn.now tx.new.conn.now result }
    ensures read { ReadsStore S.Store tx.old.conn.now tx.new.conn.now result (λ db tables.
        AreAllKeyed db
        → tables ≡ tables_in db.trees) }
    ensures err { ReadsOrUndoes S.Store tx.old.conn.now tx.new.conn.now result }
    ensures survives { CommitsNothing S.Store tx.old.conn.now tx.new.conn.now }
    ensures fails { FailsWithin S.Store tx.old.conn.now tx.new.conn.now result FailsToReadTables }
{
    let written = match read_written(alloc, tx) {
        Ok(written) => written,
        Err(error) => return Err(error),
    };
    match read_derived(alloc, tx) {
        Ok(derived) => Ok(Tables {
            docs: written.docs,
            notes: written.notes,
            queries: written.queries,
            runs: derived.runs,
            picks: derived.picks,
            filters: derived.filters,
        }),
        Err(error) => Err(error),
    }
}

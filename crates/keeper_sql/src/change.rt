//! Commits the rows of a change, in one transaction.

ghost use Rattle.std.specs.Prelude.{◌≡◌, [], ◌∷◌, map, IfErr, OnOk, OnErr};
ghost use Rattle.sqlite.specs.Held.{state};
ghost use Rattle.sqlite.specs.State.{HasCleanDisk, Survives};
ghost use Rattle.keeper_sql.specs.RowsAsValues.{added_rows, IsReadBack, only, appended_rows};
ghost use Rattle.keeper_sql.specs.RowsAsValues.{as_kept, given_run, given_pick, run_in, pick_in};
ghost use Rattle.keeper_sql.specs.Store.{RowsWritten, Commits, IsAfter, IsIdle};
ghost use Rattle.keeper_sql.specs.Calls.{CommitsNothing, Does, DoesOrUndoes, IsRolledBack};
ghost use Rattle.keeper_sql.specs.Calls.{LeavesItsTrees, WasOpen};
ghost use Rattle.keeper_sql.specs.Failing.{FailsToInsertRows, FailsWhole, FailsWithin};

use crate::docs::insert_docs;
use crate::filters::insert_filter;
use crate::notes::insert_note;
use crate::picks::insert_picks;
use crate::queries::insert_query;
use crate::runs::insert_run;
use sqlite::{Alter, Connection, Error, Transaction};
use tap_rows::{Change, Pick, RunRow};

// Inserts the rows of a run and of what it delivered.
fn insert_run_done<S: Alter>(
    tx: &mut Transaction<'_, S>,
    run: &RunRow,
    picks: &[Pick],
) -> Result<(), Error>
    ensures same_reference { tx.new.conn.ghost_name ≡ tx.old.conn.ghost_name }
    ensures ok { Does S.Store tx.old.conn.now tx.new.conn.now result
        (RowsWritten (appended_rows (only 4 (as_kept (given_run run.now) ∷ []))
        (only 5 (map (λ p. as_kept (given_pick p)) picks.now)))) }
    ensures err { DoesOrUndoes S.Store tx.old.conn.now tx.new.conn.now result }
    ensures survives { CommitsNothing S.Store tx.old.conn.now tx.new.conn.now }
    ensures fails { FailsWithin S.Store tx.old.conn.now tx.new.conn.now result
        (FailsToInsertRows (Change.RunDone run.now picks.now)) }
    ensures read { OnOk result ((run_in (as_kept (given_run run.now)) ≡ run.now)
        × (map pick_in (map (λ p. as_kept (given_pick p)) picks.now) ≡ picks.now)) }
{
    if let Err(error) = insert_run(tx, run) {
        return Err(error);
    }
    insert_picks(tx, picks)
}

// Inserts the rows of a change.
fn insert_change<S: Alter>(tx: &mut Transaction<'_, S>, change: &Change) -> Result<(), Error>
    ensures same_reference { tx.new.conn.ghost_name ≡ tx.old.conn.ghost_name }
    ensures ok { Does S.Store tx.old.conn.now tx.new.conn.now result
        (RowsWritten (added_rows change.now)) }
    ensures err { DoesOrUndoes S.Store tx.old.conn.now tx.new.conn.now result }
    ensures survives { CommitsNothing S.Store tx.old.conn.now tx.new.conn.now }
    ensures fails { FailsWithin S.Store tx.old.conn.now tx.new.conn.now result
        (FailsToInsertRows change.now) }
    ensures read { OnOk result (IsReadBack change.now) }
{
    match change {
        Change::Docs(docs) => insert_docs(tx, docs.as_slice()),
        Change::OneNote(note) => insert_note(tx, note),
        Change::OneQuery(query) => insert_query(tx, query),
        Change::RunDone(run, picks) => insert_run_done(tx, run, picks.as_slice()),
        Change::OneFilter(filter) => insert_filter(tx, filter),
    }
}

/// Inserts and commits the rows of a change in one transaction, which is rolled back if an insert
/// fails.
pub fn commit_change<S: Alter>(conn: &mut Connection<S>, change: &Change) -> Result<(), Error>
    requires { IsIdle (state S.Store conn.old) }
    ensures ended { IsIdle (state S.Store conn.new) }
    ensures ok { HasCleanDisk (state S.Store conn.new) → OnOk result
        (Commits (added_rows change.now) (state S.Store conn.old) (state S.Store conn.new)) }
    ensures settled { HasCleanDisk (state S.Store conn.new)
        → OnOk result (LeavesItsTrees (state S.Store conn.new)) }
    ensures was_open { HasCleanDisk (state S.Store conn.new)
        → OnErr result (WasOpen (state S.Store conn.old) (state S.Store conn.new)) }
    ensures undone { HasCleanDisk (state S.Store conn.new)
        → OnErr result (IsRolledBack (state S.Store conn.old) (state S.Store conn.new)) }
    ensures survives { Survives (state S.Store conn.old) (state S.Store conn.new)
        (IsAfter change.now (state S.Store conn.old)) }
    ensures fails { HasCleanDisk (state S.Store conn.new)
        → IfErr result (FailsWhole S.Store conn.old conn.new (FailsToInsertRows change.now)) }
    ensures read { OnOk result (IsReadBack change.now) }
{
    let mut tx = conn.transaction();
    if let Err(error) = insert_change(&mut tx, change) {
        return Err(error);
    }
    match tx.commit() {
        Ok(()) => Ok(()),
        Err(error) => Err(error),
    }
}

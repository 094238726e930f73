//! Reads and raises the version of a store.

ghost use Rattle.std.specs.Prelude.{◌≡◌, [], ◌≢◌, pos, IfOk, IfErr, OnOk, OnErr};
ghost use Rattle.sqlite.specs.Held.{state};
ghost use Rattle.sqlite.specs.State.{HasCleanDisk};
ghost use Rattle.keeper_sql.specs.RowsAsValues.{version_in, version_kinds, version_shown};
ghost use Rattle.keeper_sql.specs.Store.{Undone, Raises, Settles, AreKeyed, IsMeta, IsAtVersion};
ghost use Rattle.keeper_sql.specs.Calls.{CommitsNothing, Does, DoesOrUndoes, Gives, InStore};
ghost use Rattle.keeper_sql.specs.Calls.{ReadsStore};
ghost use Rattle.keeper_sql.specs.Calls.{ReadsOnly, ReadsOrUndoes};
ghost use Rattle.keeper_sql.specs.Schema.{replace_meta, select_meta};
ghost use Rattle.keeper_sql.specs.Failing.{FailsBy, FailsToRead, FailsToSettle, FailsToTakeRows};
ghost use Rattle.keeper_sql.specs.Failing.{FailsToWrite, FailsWithin, ReachesOnSuccess};

use crate::reading::integer;
use sqlite::{Alter, Error, Row, Transaction};

// Returns the version that the rows of `meta` show, if there is one.
fn version_of(shown: &[Row]) -> Result<Option<i64>, Error>
    ensures ok { IfOk result (λ version. version ≡ version_shown shown.now) }
    ensures fails { IfErr result (FailsToTakeRows version_kinds shown.now) }
{
    match shown.first() {
        None => Ok(None),
        Some(row) => Ok(Some(integer(row, 1)?)),
    }
}

/// Returns the version, if the store has one.
pub fn read_version<S: Alter>(tx: &mut Transaction<'_, S>) -> Result<Option<i64>, Error>
    ensures same_reference { tx.new.conn.ghost_name ≡ tx.old.conn.ghost_name }
    ensures same { ReadsOnly S.Store tx.old.conn.now tx.new.conn.now result }
    ensures read { ReadsStore S.Store tx.old.conn.now tx.new.conn.now result (λ db version.
        AreKeyed (db.trees 0) → version ≡ version_in (db.trees 0)) }
    ensures err { ReadsOrUndoes S.Store tx.old.conn.now tx.new.conn.now result }
    ensures survives { CommitsNothing S.Store tx.old.conn.now tx.new.conn.now }
    ensures fails { FailsBy S.Store tx.old.conn.now tx.new.conn.now result
        (FailsToRead select_meta version_kinds) }
{
    match tx.query_all("SELECT id, version FROM meta ORDER BY id", &[]) {
        Ok(shown) => version_of(shown.as_slice()),
        Err(error) => Err(error),
    }
}

/// Writes version 2.
pub fn write_version<S: Alter>(tx: &mut Transaction<'_, S>) -> Result<(), Error>
    ensures same_reference { tx.new.conn.ghost_name ≡ tx.old.conn.ghost_name }
    ensures ok { Does S.Store tx.old.conn.now tx.new.conn.now result Raises }
    ensures at { HasCleanDisk (state S.Store tx.new.conn.now)
        → OnOk result (IsAtVersion (state S.Store tx.new.conn.now).now (pos 2)) }
    ensures err { DoesOrUndoes S.Store tx.old.conn.now tx.new.conn.now result }
    ensures survives { CommitsNothing S.Store tx.old.conn.now tx.new.conn.now }
    ensures fails { FailsBy S.Store tx.old.conn.now tx.new.conn.now result
        (FailsToWrite replace_meta []) }
{
    match tx.execute(
        "INSERT OR REPLACE INTO meta (id, version) VALUES (1, 2)",
        &[],
    ) {
        Ok(_) => Ok(()),
        Err(error) => Err(error),
    }
}

// Writes version 2, and returns it.
fn raise_version<S: Alter>(tx: &mut Transaction<'_, S>) -> Result<i64, Error>
    ensures same_reference { tx.new.conn.ghost_name ≡ tx.old.conn.ghost_name }
    ensures ok { Gives S.Store tx.old.conn.now tx.new.conn.now result (λ version old new.
        (version ≡ pos 2) × Raises old new) }
    ensures two { IfOk result (λ version. version ≡ pos 2) }
    ensures at { HasCleanDisk (state S.Store tx.new.conn.now)
        → IfOk result (IsAtVersion (state S.Store tx.new.conn.now).now) }
    ensures err { DoesOrUndoes S.Store tx.old.conn.now tx.new.conn.now result }
    ensures survives { CommitsNothing S.Store tx.old.conn.now tx.new.conn.now }
    ensures fails { FailsBy S.Store tx.old.conn.now tx.new.conn.now result
        (FailsToWrite replace_meta []) }
{
    match write_version(tx) {
        Ok(()) => Ok(2),
        Err(error) => Err(error),
    }
}

/// Returns the version of a store. A store of version 1, or of none, gets version 2 first.
pub fn settle_version<S: Alter>(tx: &mut Transaction<'_, S>) -> Result<i64, Error>
    ensures same_reference { tx.new.conn.ghost_name ≡ tx.old.conn.ghost_name }
    ensures never { IfOk result (λ version. version ≢ pos 1) }
    ensures ok { InStore S.Store tx.old.conn.now tx.new.conn.now
        (IsMeta ((state S.Store tx.old.conn.now).now.trees 0)
        → IfOk result (λ version.
        Settles version (state S.Store tx.old.conn.now) (state S.Store tx.new.conn.now))) }
    ensures at { HasCleanDisk (state S.Store tx.new.conn.now)
        → IfOk result (IsAtVersion (state S.Store tx.new.conn.now).now) }
    ensures err { InStore S.Store tx.old.conn.now tx.new.conn.now
        (OnErr result (Undone (state S.Store tx.old.conn.now) (state S.Store tx.new.conn.now))) }
    ensures survives { CommitsNothing S.Store tx.old.conn.now tx.new.conn.now }
    ensures goes_on { ReachesOnSuccess S.Store tx.old.conn.now tx.new.conn.now result }
    ensures fails { FailsWithin S.Store tx.old.conn.now tx.new.conn.now result FailsToSettle }
{
    match read_version(tx) {
        Err(error) => Err(error),
        Ok(None) => raise_version(tx),
        Ok(Some(1)) => raise_version(tx),
        Ok(Some(version)) => Ok(version),
    }
}

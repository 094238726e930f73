//! Opens a store, in a transaction.

ghost use Rattle.std.specs.Prelude.{◌≡◌, ◌≢◌, pos, IsTrue, IfOk, IfErr, OnOk, OnErr};
ghost use Rattle.keeper_core.specs.Keeping.{IfAlien};
ghost use Rattle.sqlite.specs.Effect.{Database};
ghost use Rattle.sqlite.specs.Held.{state};
ghost use Rattle.sqlite.specs.State.{HasCleanDisk, Survives, IsLive};
ghost use Rattle.keeper_sql.specs.Store.{Undone, OpensTo, OpensAt, IsAfterOpen, IsAtVersion};
ghost use Rattle.keeper_sql.specs.Store.{IsIdle};
ghost use Rattle.keeper_sql.specs.Opening.{IsOpened, IsRead, AreRead, IsRefusedAt, IsStored};
ghost use Rattle.keeper_sql.specs.Opening.{IsOpenedWithTables, UnlessHeld, UnlessFailed};
ghost use Rattle.keeper_sql.specs.Calls.{CommitsNothing, InOurs, IsRolledBack, LeavesItsTrees};
ghost use Rattle.keeper_sql.specs.Calls.{LeavesOldOr, OverOurs, ShowsTheSame, WasOpen};
ghost use Rattle.keeper_sql.specs.Failing.{FailsToAttach, FailsToOpenStore, FailsToPrepare};
ghost use Rattle.keeper_sql.specs.Failing.{FailsWhole, FailsWithin, ReachesOnSuccess};

use crate::create::create_all;
use crate::keep::{is_only_memory, is_settled, is_still_open};
use crate::opening::read_tables;
use crate::version::settle_version;
use keeper_core::AttachFault;
use sqlite::{Alter, Connection, Error, Transaction};
use std::alloc::Global;
use tap_rows::Tables;

/// What the open of a store gives: its tables, or a version other than 1 and 2.
#[derive(Drop)]
pub enum Opened {
    Held(Tables),
    Alien(i64),
}

// Makes the tables that aren't there, raises the version, and returns it.
fn prepare<S: Alter>(tx: &mut Transaction<'_, S>) -> Result<i64, Error>
    ensures same_reference { tx.new.conn.ghost_name ≡ tx.old.conn.ghost_name }
    ensures never { IfOk result (λ version. version ≢ pos 1) }
    ensures ok { InOurs S.Store tx.old.conn.now tx.new.conn.now (IfOk result (λ version.
        OpensAt version (state S.Store tx.old.conn.now) (state S.Store tx.new.conn.now))) }
    ensures at { HasCleanDisk (state S.Store tx.new.conn.now)
        → IfOk result (IsAtVersion (state S.Store tx.new.conn.now).now) }
    ensures err { InOurs S.Store tx.old.conn.now tx.new.conn.now
        (OnErr result (Undone (state S.Store tx.old.conn.now) (state S.Store tx.new.conn.now))) }
    ensures survives { CommitsNothing S.Store tx.old.conn.now tx.new.conn.now }
    ensures goes_on { ReachesOnSuccess S.Store tx.old.conn.now tx.new.conn.now result }
    ensures fails { FailsWithin S.Store tx.old.conn.now tx.new.conn.now result FailsToPrepare }
{
    match create_all(tx) {
        Ok(()) => settle_version(tx),
        Err(error) => Err(error),
    }
}

/// Opens a store in a transaction, and returns its tables or its version.
pub fn open_within<S: Alter>(alloc: Global, tx: &mut Transaction<'_, S>) -> Result<Opened, Error>
    ensures same_reference { tx.new.conn.ghost_name ≡ tx.old.conn.ghost_name }
    ensures never { IfOk result IsRefusedAt }
    ensures ok { InOurs S.Store tx.old.conn.now tx.new.conn.now
        (IfOk result (IsOpened (state S.Store tx.old.conn.now) (state S.Store tx.new.conn.now))) }
    ensures read { HasCleanDisk (state S.Store tx.new.conn.now)
        → IfOk result (IsRead (state S.Store tx.new.conn.now).now) }
    ensures err { InOurs S.Store tx.old.conn.now tx.new.conn.now
        (OnErr result (Undone (state S.Store tx.old.conn.now) (state S.Store tx.new.conn.now))) }
    ensures survives { CommitsNothing S.Store tx.old.conn.now tx.new.conn.now }
    ensures goes_on { ReachesOnSuccess S.Store tx.old.conn.now tx.new.conn.now result }
    ensures fails { FailsWithin S.Store tx.old.conn.now tx.new.conn.now result FailsToOpenStore }
{
    match prepare(tx) {
        Err(error) => Err(error),
        Ok(2) => match read_tables(alloc, tx) {
            Ok(tables) => Ok(Opened::Held(tables)),
            Err(error) => Err(error),
        },
        Ok(version) => Ok(Opened::Alien(version)),
    }
}

/// Opens a store in one transaction. It is committed if the tables are returned, else rolled back.
pub fn open_store<S: Alter>(alloc: Global, conn: &mut Connection<S>) -> Result<Opened, Error>
    requires { IsIdle (state S.Store conn.old) }
    ensures ended { IsIdle (state S.Store conn.new) }
    ensures never { IfOk result IsRefusedAt }
    ensures ok { OverOurs S.Store conn.old conn.new
        (IfOk result (IsStored (state S.Store conn.old) (state S.Store conn.new))) }
    ensures read { HasCleanDisk (state S.Store conn.new)
        → IfOk result (IsRead (state S.Store conn.new).now) }
    ensures was_open { OverOurs S.Store conn.old conn.new
        (UnlessHeld result (WasOpen (state S.Store conn.old) (state S.Store conn.new))) }
    ensures undone { OverOurs S.Store conn.old conn.new
        (UnlessHeld result (IsRolledBack (state S.Store conn.old) (state S.Store conn.new))) }
    ensures survives { Survives (state S.Store conn.old) (state S.Store conn.new)
        (IsAfterOpen (state S.Store conn.old)) }
    ensures fails { HasCleanDisk (state S.Store conn.new)
        → IfErr result (FailsWhole S.Store conn.old conn.new FailsToOpenStore) }
{
    let mut tx = conn.transaction();
    match open_within(alloc, &mut tx) {
        Err(error) => Err(error),
        Ok(Opened::Alien(version)) => Ok(Opened::Alien(version)),
        Ok(Opened::Held(tables)) => match tx.commit() {
            Ok(()) => Ok(Opened::Held(tables)),
            Err(error) => {
                drop(tables);
                Err(error)
            }
        },
    }
}

/// Opens a store in one transaction, and returns its tables. After `Alien` and `Memory` the store
/// is open and unchanged.
/// `Failed` if a call failed.
pub fn open_kept<S: Alter>(alloc: Global, conn: &mut Connection<S>) -> Result<Tables, AttachFault>
    requires { IsIdle (state S.Store conn.old) }
    ensures ended { IsIdle (state S.Store conn.new) }
    ensures honest { HasCleanDisk (state S.Store conn.new) → HasCleanDisk (state S.Store conn.old) }
    ensures never { IfAlien result (λ v. (v ≢ pos 1) × (v ≢ pos 2)) }
    ensures ok { OverOurs S.Store conn.old conn.new
        (IfOk result (IsOpenedWithTables (state S.Store conn.old) (state S.Store conn.new))) }
    ensures read { HasCleanDisk (state S.Store conn.new)
        → IfOk result (AreRead (state S.Store conn.new).now) }
    ensures live { OnOk result (IsLive (state S.Store conn.new)) }
    ensures given_alone { OverOurs S.Store conn.old conn.new
        (OnOk result (LeavesItsTrees (state S.Store conn.new))) }
    ensures exact { HasCleanDisk (state S.Store conn.new)
        → UnlessFailed result (LeavesItsTrees (state S.Store conn.new)) }
    ensures still { OverOurs S.Store conn.old conn.new
        (UnlessFailed result (ShowsTheSame (state S.Store conn.old) (state S.Store conn.new))) }
    ensures alien { OverOurs S.Store conn.old conn.new (IfAlien result (λ v. (db : Database)
        × OpensTo v (state S.Store conn.old).now db)) }
    ensures crash { HasCleanDisk (state S.Store conn.new) → IsTrue (state S.Store conn.old).is_open
        → LeavesOldOr (IsAfterOpen (state S.Store conn.old)) (state S.Store conn.old)
        (state S.Store conn.new) }
    ensures fails { HasCleanDisk (state S.Store conn.new)
        → IfErr result (FailsToAttach S.Store conn.old conn.new) }
{
    // For its clauses, which the errors need.
    let _settled = is_settled(conn);
    match open_store(alloc, conn) {
        Ok(Opened::Held(tables)) => {
            // For the clause `given_alone`.
            let _alone = is_settled(conn);
            Ok(tables)
        }
        Ok(Opened::Alien(version)) => {
            if is_still_open(conn) {
                Err(AttachFault::Alien { version })
            } else {
                Err(AttachFault::Failed)
            }
        }
        Err(error) => {
            if is_only_memory(conn, &error) {
                Err(AttachFault::Memory)
            } else {
                Err(AttachFault::Failed)
            }
        }
    }
}

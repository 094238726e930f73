//! Commits a change, and finds out what an error left.

ghost use Rattle.std.specs.Prelude.{◌≡◌, ◌↔◌, false, IsTrue, IfErr, OnOk, Err};
ghost use Rattle.sqlite.specs.Held.{state};
ghost use Rattle.sqlite.specs.State.{HasCleanDisk, Survives, IsUnchanged, IsLive};
ghost use Rattle.keeper_sql.specs.RowsAsValues.{added_rows, IsReadBack};
ghost use Rattle.keeper_sql.specs.Store.{Commits, IsAfter, IsIdle};
ghost use Rattle.keeper_sql.specs.Calls.{IsRefused, IsSettled, LeavesItsTrees, LeavesOldOr};
ghost use Rattle.keeper_sql.specs.Failing.{FailsAtTest, FailsToKeep, IsNotOnlyMemory};

use crate::change::commit_change;
use keeper_core::CommitFault;
use sqlite::{Alter, Connection, Error, ErrorCode, Statement};
use tap_rows::Change;

/// Returns whether the error says that the call was out of memory.
pub fn is_memory(error: &Error) -> bool
    ensures { IsTrue result ↔ (error.now ≡ Error.SqliteFailure ErrorCode.OutOfMemory) }
{
    matches!(error, Error::SqliteFailure(ErrorCode::OutOfMemory))
}

// Only for its clauses: between two calls a crash leaves what the connection shows.
pub fn is_settled<S: Alter>(conn: &Connection<S>) -> bool
    requires { IsIdle (state S.Store conn.now) }
    ensures live { IsLive (state S.Store conn.now) }
    ensures committed { IsTrue (state S.Store conn.now).is_open
        → (state S.Store conn.now).now ≡ (state S.Store conn.now).committed }
    ensures settled { IsSettled (state S.Store conn.now) }
    ensures holds { IsTrue result }
    ensures exact { IsTrue (state S.Store conn.now).is_open
        → LeavesItsTrees (state S.Store conn.now) }
{
    // For the clause `live`.
    let _schema = conn.schema();
    conn.is_autocommit()
}

// Was a text refused, and not by a failure?
fn is_refused(answer: Result<Statement, Error>) -> bool
    ensures { IsTrue result ↔ IsRefused answer }
{
    matches!(answer, Err(Error::SqlInputError(_)))
}

// Is the store still open? A connection doesn't say so itself. One that is open refuses this text,
// which takes no memory.
pub fn is_still_open<S: Alter>(conn: &mut Connection<S>) -> bool
    requires { IsIdle (state S.Store conn.old) }
    ensures ended { IsIdle (state S.Store conn.new) }
    ensures same { HasCleanDisk (state S.Store conn.new) → IsTrue result
        → IsUnchanged (state S.Store conn.old) (state S.Store conn.new) }
    ensures exact { HasCleanDisk (state S.Store conn.new) → IsTrue result
        → LeavesItsTrees (state S.Store conn.new) }
    ensures survives { Survives (state S.Store conn.old) (state S.Store conn.new) (λ _. ⊥) }
    ensures fails { HasCleanDisk (state S.Store conn.new) → result ≡ false
        → FailsAtTest (state S.Store conn.old) (state S.Store conn.new) }
{
    is_refused(conn.prepare("DROP")) && is_settled(conn)
}

// Was the call out of memory, and is the store unchanged?
pub fn is_only_memory<S: Alter>(conn: &mut Connection<S>, error: &Error) -> bool
    requires { IsIdle (state S.Store conn.old) }
    ensures ended { IsIdle (state S.Store conn.new) }
    ensures memory { IsTrue result → error.now ≡ Error.SqliteFailure ErrorCode.OutOfMemory }
    ensures same { HasCleanDisk (state S.Store conn.new) → IsTrue result
        → IsUnchanged (state S.Store conn.old) (state S.Store conn.new) }
    ensures exact { HasCleanDisk (state S.Store conn.new) → IsTrue result
        → LeavesItsTrees (state S.Store conn.new) }
    ensures survives { Survives (state S.Store conn.old) (state S.Store conn.new) (λ _. ⊥) }
    ensures fails { HasCleanDisk (state S.Store conn.new) → result ≡ false
        → IsNotOnlyMemory (state S.Store conn.old) (state S.Store conn.new) error.now }
{
    is_memory(error) && is_still_open(conn)
}

/// Commits all rows of a change, or none. `Memory` if the commit was out of memory and the store is
/// open, else `Failed`.
pub fn keep<S: Alter>(conn: &mut Connection<S>, change: &Change) -> Result<(), CommitFault>
    requires { IsIdle (state S.Store conn.old) }
    ensures ended { IsIdle (state S.Store conn.new) }
    ensures honest { HasCleanDisk (state S.Store conn.new) → HasCleanDisk (state S.Store conn.old) }
    ensures ok { HasCleanDisk (state S.Store conn.new) → OnOk result
        (Commits (added_rows change.now) (state S.Store conn.old) (state S.Store conn.new)) }
    ensures read { OnOk result (IsReadBack change.now) }
    ensures exact { HasCleanDisk (state S.Store conn.new)
        → OnOk result (LeavesItsTrees (state S.Store conn.new)) }
    ensures memory { HasCleanDisk (state S.Store conn.new) → result ≡ Err CommitFault.Memory
        → IsTrue (state S.Store conn.new).is_open
        × ((state S.Store conn.new).now ≡ (state S.Store conn.old).now)
        × LeavesItsTrees (state S.Store conn.new) }
    ensures crash { HasCleanDisk (state S.Store conn.new) → IsTrue (state S.Store conn.old).is_open
        → LeavesOldOr (IsAfter change.now (state S.Store conn.old)) (state S.Store conn.old)
        (state S.Store conn.new) }
    ensures fails { HasCleanDisk (state S.Store conn.new)
        → IfErr result (FailsToKeep S.Store conn.old conn.new change.now) }
{
    // For its clauses, which the error needs.
    let _settled = is_settled(conn);
    match commit_change(conn, change) {
        Ok(()) => Ok(()),
        Err(error) => {
            if is_only_memory(conn, &error) {
                Err(CommitFault::Memory)
            } else {
                Err(CommitFault::Failed)
            }
        }
    }
}

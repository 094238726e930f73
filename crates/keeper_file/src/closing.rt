//! The close of a store.

ghost use Rattle.std.specs.Prelude.{◌≡◌, false, IsTrue, None, Ok, IfOk, IfErr, IfSome};
ghost use Rattle.sqlite.specs.Closing.{IsCopied};
ghost use Rattle.sqlite.specs.Files.{file_state, over_files, FailsToClose};
ghost use Rattle.sqlite.specs.State.{HasCleanDisk};
ghost use Rattle.sqlite_store.specs.FileStore.{view};
ghost use Rattle.sqlite_wal.specs.Reads.{AreClean};
ghost use Rattle.tap_rows.specs.declared.tables.Tables.{Tables as TableRows};
ghost use Rattle.keeper_sql.specs.Store.{TellsAs};
ghost use Rattle.keeper_file.specs.Cases.{Tells, IsHonest, IsInMemory, has_files, is_stopped};
ghost use Rattle.keeper_file.specs.Cases.{path_of};
ghost use Rattle.keeper_file.specs.Closing.{AreUsable, AreWhole, StoreLeavesOnly};
ghost use Rattle.keeper_file.specs.Failing.{FailsToCloseOpen};

use crate::inner::Inner;
use crate::opener::Opener;
use keeper_sql::SqlKeeper;
use sqlite::{Error, FileStore, Files};
use sqlite_disk::Disk;

/// Closes the files of a keeper: copies the log into the database file, and returns both files. If
/// that failed, returns the error and what is left of the store.
pub fn closed<D: Disk + Drop>(
    keeper: SqlKeeper<FileStore<D>>,
) -> Result<Files<D>, (Error, FileStore<D>)>
    ensures usable { IfOk result (λ files. AreUsable D.Disk files) }
    ensures settled { IsTrue (file_state keeper.connection).is_open
        → (file_state keeper.connection).now ≡ (file_state keeper.connection).committed }
    ensures honest { IfOk result (λ files. AreClean D.Disk files.log files.db
        → HasCleanDisk (file_state keeper.connection)) }
    ensures honest_left { IfErr result (λ left. IsTrue (view left.1).is_clean
        → HasCleanDisk (file_state keeper.connection)) }
    ensures copied { IfOk result (λ files. AreClean D.Disk files.log files.db
        → IsCopied keeper.connection files) }
    ensures whole { IfOk result (λ files. AreClean D.Disk files.log files.db
        → (t : TableRows) → TellsAs keeper.attached (file_state keeper.connection) t
        → AreWhole D.Disk files t) }
    ensures exact { IfErr result (λ left. IsTrue (view left.1).is_clean
        → (t : TableRows) → TellsAs keeper.attached (file_state keeper.connection) t
        → StoreLeavesOnly D.Disk left.1 t) }

    // The disk failed, it was out of memory, or the store was shut before.
    ensures fails { IfErr result (λ left. IsTrue (view left.1).is_clean
        → FailsToClose keeper.connection left.1 left.0) }
{
    let connection = keeper.into_connection();
    // For its clauses.
    let _settled = connection.is_autocommit();
    connection.close_files()
}

/// Closes what is open.
#[tactic(auto, using(crate::proofs::MemoryLemmas::without_files))]
pub fn close_inner<D: Disk + Drop, O: Opener<FileStore<D>>>(
    inner: Inner<FileStore<D>, O>,
) -> Result<Option<Files<D>>, (Error, FileStore<D>)>
    ensures none { result ≡ Ok None → has_files inner ≡ false }
    ensures memory { result ≡ Ok None → is_stopped inner ≡ false → IsInMemory (path_of inner) }
    ensures honest { IfOk result (λ files. IfSome files (λ both. AreClean D.Disk both.log both.db
        → IsHonest O.Opener.files over_files inner)) }
    ensures honest_left { IfErr result (λ left. IsTrue (view left.1).is_clean
        → IsHonest O.Opener.files over_files inner) }
    ensures whole { IfOk result (λ files. IfSome files (λ both. AreClean D.Disk both.log both.db
        → (t : TableRows) → Tells O.Opener.files over_files inner t → AreWhole D.Disk both t)) }
    ensures exact { IfErr result (λ left. IsTrue (view left.1).is_clean
        → (t : TableRows) → Tells O.Opener.files over_files inner t
        → StoreLeavesOnly D.Disk left.1 t) }
    ensures fails { IfErr result (λ left. IsTrue (view left.1).is_clean
        → FailsToCloseOpen inner left.1 left.0) }
{
    match inner {
        Inner::Unopened(unopened) => {
            drop(unopened);
            Ok(None)
        }
        Inner::Memory(memory) => {
            drop(memory);
            Ok(None)
        }
        Inner::File(keeper) => match closed(keeper) {
            Ok(files) => Ok(Some(files)),
            Err(left) => Err(left),
        },
    }
}

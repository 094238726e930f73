//! Opens the files of a path.

ghost use Rattle.std.specs.Prelude.{◌≡◌, ◌⊎◌, ℤ, true, false, Err, is_some, IsSome, IfOk, IfErr};
ghost use Rattle.std.specs.Prelude.{IfSome, OnErr};
ghost use Rattle.sqlite.specs.State.{HasCleanDisk};
ghost use Rattle.sqlite.specs.Files.{file_state, IsCleanLeft};
ghost use Rattle.sqlite_std_file.specs.File.{IsFresh};
ghost use Rattle.sqlite_wal.specs.Files.{image_at};
ghost use Rattle.tap_rows.specs.declared.tables.Tables.{Tables as TableRows};
ghost use Rattle.keeper_sql.specs.Store.{TellsAs, HasVersion};
ghost use Rattle.keeper_file.specs.Images.{ImageTells, ImageHasVersion};
ghost use Rattle.keeper_file.specs.Leftovers.{AreCleanSoFar, Spares};
ghost use Rattle.keeper_file.specs.Failing.{FailsToOpen, IsAnsweredBy};

use crate::opener::Opener;
use keeper_core::AttachFault;
use keeper_sql::is_memory;
use sqlite::{Connection, Error, FileFrom, FileStore, Leftover, Start};
use sqlite_disk::Disk;

/// Opens the file of a path, where the files held what `S` says, and keeps what is left of them if
/// that failed.
#[derive(Drop)]
pub struct PathOpener<'a, S: Start, D: Disk + Drop> {
    rt: &'a HostRuntime,
    start: Option<S>,
    left: Option<Leftover<D>>,
    ghost spares: { ∥ IfSome left (Spares (image_at S.Start)) ∥₁ },
}

impl<'a, S: Start> PathOpener<'a, S, FileFrom<S>> {
    ghost use Rattle.keeper_file.specs.PathFiles.{path_files};

    pub fn new(rt: &'a HostRuntime, start: S) -> PathOpener<'a, S, FileFrom<S>>
        ensures unused { (path_files S.Start).is_unused result ≡ true }
        ensures clean { (path_files S.Start).clean result }
    {
        PathOpener {
            rt,
            start: Some(start),
            left: None,
        }
    }
}

// Gives what an attach returns that met this error.
fn fault_of(error: &Error) -> AttachFault
    ensures kind { (result ≡ AttachFault.Memory) ⊎ (result ≡ AttachFault.Failed) }
    ensures by_error { IsAnsweredBy error.now result }
{
    if is_memory(error) {
        AttachFault::Memory
    } else {
        AttachFault::Failed
    }
}

// Opens the file of a path; if that failed, returns what is left of the files, once they were
// opened.
fn opened_from<S: Start>(
    rt: &HostRuntime,
    path: &str,
    start: S,
) -> Result<Connection<FileStore<FileFrom<S>>>, (AttachFault, Option<Leftover<FileFrom<S>>>)>
    ensures idle { IfOk result (λ c. c.in_transaction ≡ false) }
    ensures told { IfOk result (λ c. HasCleanDisk (file_state c) → (t : TableRows)
        → ImageTells (image_at S.Start) t
        → TellsAs false (file_state c) t) }
    ensures version { IfOk result (λ c. HasCleanDisk (file_state c) → (v : ℤ)
        → ImageHasVersion (image_at S.Start) v
        → HasVersion (file_state c) v) }
    ensures kind { IfErr result (λ e. (e.0 ≡ AttachFault.Memory) ⊎ (e.0 ≡ AttachFault.Failed)) }
    ensures left { IfErr result (λ e. IfSome e.1 (Spares (image_at S.Start))) }

    // If something is left of the files, and the disk was honest: why the open failed.
    ensures fails { IfErr result (λ e. IfSome e.1 (λ left. IsCleanLeft left
        → (files : _) × IsFresh true files.log × IsFresh false files.db
        × FailsToOpen files left e.0)) }
{
    match Connection::open_from(rt, path, false, start) {
        Ok(connection) => Ok(connection),
        Err((error, left)) => Err((fault_of(&error), left)),
    }
}

impl<S: Start> Opener<FileStore<FileFrom<S>>> for PathOpener<'_, S, FileFrom<S>> {
    ghost use Rattle.keeper_file.specs.PathFiles.{path_files};
    ghost use Rattle.keeper_file.specs.LeftoverLaws.{left_so_far, alone_so_far};

    ghost files = { path_files S.Start };

    fn open(&mut self, at: &str) -> Result<Connection<FileStore<FileFrom<S>>>, AttachFault>
        ensures idle { IfOk result (λ c. c.in_transaction ≡ false) }
        ensures told { IfOk result (λ c. HasCleanDisk (file_state c) → (t : TableRows)
            → ImageTells (image_at S.Start) t
            → TellsAs false (file_state c) t) }
        ensures version { IfOk result (λ c. HasCleanDisk (file_state c) → (v : ℤ)
            → ImageHasVersion (image_at S.Start) v
            → HasVersion (file_state c) v) }
        ensures clean { IfOk result (λ c. HasCleanDisk (file_state c)
            → AreCleanSoFar (image_at S.Start) self.old.start self.old.left) }
        ensures clean_left { OnErr result
            (AreCleanSoFar (image_at S.Start) self.new.start self.new.left
            → AreCleanSoFar (image_at S.Start) self.old.start self.old.left) }
        ensures kind { IfErr result (λ fault. (fault ≡ AttachFault.Memory)
            ⊎ (fault ≡ AttachFault.Failed)) }
        ensures once { is_some self.old.start ≡ false → result ≡ Err AttachFault.Failed }
        ensures used { is_some self.new.start ≡ false }

        // Beside the trait's clauses: if this was the first open, it left something of the files,
        // and the disk was honest, why it failed. Why the system refused to open the files is in no
        // clause of `sqlite`.
        ensures fails { IsSome self.old.start
            → IfErr result (λ fault. IfSome self.new.left (λ left. IsCleanLeft left
            → (files : _) × IsFresh true files.log × IsFresh false files.db
            × FailsToOpen files left fault)) }
    {
        let Some(start) = self.start.take() else {
            return Err(AttachFault::Failed);
        };
        match opened_from(self.rt, at, start) {
            Ok(connection) => Ok(connection),
            Err((fault, left)) => {
                self.left = left;
                Err(fault)
            }
        }
    }

    fn is_unused(&self) -> bool {
        self.start.is_some()
    }

    ghost left = { λ o t clean told. left_so_far (image_at S.Start) o.start o.left t told };

    ghost exact = { λ o t x clean told may.
        alone_so_far (image_at S.Start) o.start o.left t x o.spares clean told may };
}

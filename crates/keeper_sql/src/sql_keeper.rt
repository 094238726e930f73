//! The keeper over a connection to a database.

ghost use Rattle.std.specs.Prelude.{◌≡◌, ◌≢◌, ◌⊎◌, ◌↔◌, ◌≤◌, ℤ, pos, true, false, [], None, Err};
ghost use Rattle.std.specs.Prelude.{IsOk, IfOk, IfErr, OnOk, unwrap_or};
ghost use Rattle.sqlite.specs.Held.{state};
ghost use Rattle.sqlite.specs.State.{HasCleanDisk};
ghost use Rattle.tap_base.specs.Counts.{Rose};
ghost use Rattle.tap_rows.specs.Tables.{after};
ghost use Rattle.tap_rows.specs.declared.tables.Tables.{Tables as TableRows};
ghost use Rattle.keeper_core.specs.Keeping.{IsDurable, IfAlien, AddsRowsTo};
ghost use Rattle.keeper_sql.specs.Calls.{IsSettled, IsSettled-prop};
ghost use Rattle.keeper_sql.specs.Failing.{FailsToAttach, FailsToKeep};
ghost use Rattle.keeper_sql.specs.Store.{TellsAs, HasVersion, MayLeave};

use crate::keep::{is_settled, keep};
use crate::opened::open_kept;
use keeper_core::{AttachFault, CommitFault, Keeper};
use sqlite::{Alter, Connection};
use std::alloc::Global;
use tap_base::Text;
use tap_rows::{Change, Tables};

/// Keeps the tables of a store in the database of a connection.
#[derive(Drop)]
pub struct SqlKeeper<S: Alter> {
    connection: Connection<S>,
    path: Option<Text>,
    attached: bool,
    stopped: bool,
    faults: u64,
    ghost idle: { connection.in_transaction ≡ false },
    ghost settled: { IsSettled (state S.Store connection) } by { IsSettled-prop (state S.Store connection) },
}

impl<S: Alter> SqlKeeper<S> {
    /// Returns a keeper over this connection, which is neither attached nor stopped.
    pub fn adopt(connection: Connection<S>) -> SqlKeeper<S>
        requires { connection.in_transaction ≡ false }
        ensures free { (result.attached ≡ false) × (result.stopped ≡ false) }
        ensures same { result.connection ≡ connection }
        ensures pathless { result.path ≡ None }
        ensures unfailed { result.faults ≡ 0 }
    {
        // For its clause `settled`, as in the calls below.
        let _settled = is_settled(&connection);
        SqlKeeper {
            connection,
            path: None,
            attached: false,
            stopped: false,
            faults: 0,
        }
    }

    /// Hands the connection back.
    pub fn into_connection(self) -> Connection<S>
        ensures { result ≡ self.connection }
    {
        let SqlKeeper {
            connection,
            path: _,
            attached: _,
            stopped: _,
            faults: _,
        } = self;
        connection
    }
}

impl<S: Alter> Keeper for SqlKeeper<S> {
    ghost use Rattle.std.specs.Prelude.{List, ℕ, [], unwrap_or};
    ghost use Rattle.keeper_sql.specs.Store.{TellsAs, MayLeave, HasVersion};
    ghost use Rattle.keeper_sql.specs.Telling.{tells_one, told_left, told_alone};

    ghost tells = { λ k t. TellsAs k.attached (state S.Store k.connection) t };

    ghost has_version = { λ k v. HasVersion (state S.Store k.connection) v };

    ghost honest = { λ k. HasCleanDisk (state S.Store k.connection) };

    ghost may_leave = { λ k t. MayLeave (state S.Store k.connection) t };

    ghost attached = { λ k. k.attached };

    ghost stopped = { λ k. k.stopped };

    ghost path = { λ k. unwrap_or k.path [] };

    ghost faults = { λ k. k.faults };

    fn attach(&mut self, alloc: Global, at: &str) -> Result<Tables, AttachFault>
        requires free { self.old.attached ≡ false }
        requires running { self.old.stopped ≡ false }
        ensures attached { (self.new.attached ≡ true) ↔ IsOk result }
        ensures stopped { (self.new.stopped ≡ true) ↔ (result ≡ Err AttachFault.Failed) }
        ensures placed { (unwrap_or self.new.path [] ≡ at.now)
            ⊎ ((result ≡ Err AttachFault.Memory)
            × (unwrap_or self.new.path [] ≡ unwrap_or self.old.path [])) }
        ensures stays { result ≡ Err AttachFault.Memory
            → unwrap_or self.new.path [] ≡ unwrap_or self.old.path [] }
        ensures later { self.old.faults ≤ self.new.faults }
        ensures cause { result ≡ Err AttachFault.Failed → Rose self.old.faults self.new.faults }
        ensures calm { self.new.stopped ≡ false → self.new.faults ≡ self.old.faults }
        ensures honest { HasCleanDisk (state S.Store self.new.connection)
            → HasCleanDisk (state S.Store self.old.connection) }
        ensures given { IfOk result (λ given. HasCleanDisk (state S.Store self.new.connection)
            → (s : TableRows)
            → TellsAs self.old.attached (state S.Store self.old.connection) s → s ≡ given) }
        ensures kept { HasCleanDisk (state S.Store self.new.connection) → (s : TableRows)
            → TellsAs self.old.attached (state S.Store self.old.connection) s
            → self.new.stopped ≡ false
            → IsDurable (TellsAs self.new.attached (state S.Store self.new.connection))
            (MayLeave (state S.Store self.new.connection)) s }
        ensures crash { HasCleanDisk (state S.Store self.new.connection) → (s : TableRows)
            → TellsAs self.old.attached (state S.Store self.old.connection) s → (x : TableRows)
            → MayLeave (state S.Store self.new.connection) x → x ≡ s }
        ensures answered { IfOk result (λ given. HasCleanDisk (state S.Store self.new.connection)
            → (t : TableRows)
            → TellsAs self.new.attached (state S.Store self.new.connection) t → t ≡ given) }
        ensures version { OnOk result
            (HasCleanDisk (state S.Store self.new.connection) → (t : TableRows)
            → TellsAs self.new.attached (state S.Store self.new.connection) t
            → HasVersion (state S.Store self.new.connection) (pos 2)) }
        ensures known { HasCleanDisk (state S.Store self.new.connection) → (v : ℤ)
            → HasVersion (state S.Store self.old.connection) v
            → OnOk result ((v ≡ pos 1) ⊎ (v ≡ pos 2)) }
        ensures alien { IfAlien result (λ v. (v ≢ pos 1) × (v ≢ pos 2)) }
        ensures same { IfAlien result (λ v. HasCleanDisk (state S.Store self.new.connection)
            → (w : ℤ)
            → HasVersion (state S.Store self.old.connection) w
            → (w ≡ v) × HasVersion (state S.Store self.new.connection) w) }
        ensures migrated { result ≡ Err AttachFault.Memory
            → HasCleanDisk (state S.Store self.new.connection) → (w : ℤ)
            → HasVersion (state S.Store self.old.connection) w
            → HasVersion (state S.Store self.new.connection) w
            ⊎ ((w ≡ pos 1) × HasVersion (state S.Store self.new.connection) (pos 2)) }

        // Beside the trait's clauses: it was out of memory before it used the store, or its open
        // failed by one of the calls below.
        ensures fails { HasCleanDisk (state S.Store self.new.connection) → IfErr result (λ fault.
            ((fault ≡ AttachFault.Memory) × (self.new.connection ≡ self.old.connection))
            ⊎ FailsToAttach S.Store self.old.connection self.new.connection fault) }
    {
        // For its clauses, which a failure needs.
        let _before = is_settled(&self.connection);
        // Taken first: what comes later than the open of the store takes no memory.
        let path = Text::from_slice(alloc, at.as_bytes())?;
        let opened = open_kept(alloc, &mut self.connection);
        let _after = is_settled(&self.connection);
        match opened {
            Ok(tables) => {
                self.path = Some(path);
                self.attached = true;
                Ok(tables)
            }
            Err(AttachFault::Memory) => Err(AttachFault::Memory),
            Err(AttachFault::Alien { version }) => {
                self.path = Some(path);
                Err(AttachFault::Alien { version })
            }
            Err(AttachFault::Failed) => {
                self.path = Some(path);
                self.faults = self.faults.saturating_add(1);
                self.stopped = true;
                Err(AttachFault::Failed)
            }
        }
    }

    fn commit(&mut self, change: &Change) -> Result<(), CommitFault>
        requires ready { self.old.attached ≡ true }
        requires running { self.old.stopped ≡ false }
        ensures same { (unwrap_or self.new.path [] ≡ unwrap_or self.old.path [])
            × (self.new.attached ≡ self.old.attached) }
        ensures stopped { (self.new.stopped ≡ true) ↔ (result ≡ Err CommitFault.Failed) }
        ensures later { self.old.faults ≤ self.new.faults }
        ensures cause { result ≡ Err CommitFault.Failed → Rose self.old.faults self.new.faults }
        ensures calm { self.new.stopped ≡ false → self.new.faults ≡ self.old.faults }
        ensures honest { HasCleanDisk (state S.Store self.new.connection)
            → HasCleanDisk (state S.Store self.old.connection) }
        ensures ok { HasCleanDisk (state S.Store self.new.connection) → (s : TableRows)
            → TellsAs self.old.attached (state S.Store self.old.connection) s
            → AddsRowsTo change.now s
            → OnOk result (IsDurable (TellsAs self.new.attached (state S.Store self.new.connection))
            (MayLeave (state S.Store self.new.connection)) (after s change.now)) }
        ensures memory { HasCleanDisk (state S.Store self.new.connection) → (s : TableRows)
            → TellsAs self.old.attached (state S.Store self.old.connection) s
            → result ≡ Err CommitFault.Memory
            → IsDurable (TellsAs self.new.attached (state S.Store self.new.connection))
            (MayLeave (state S.Store self.new.connection)) s }
        ensures crash { HasCleanDisk (state S.Store self.new.connection) → (s : TableRows)
            → TellsAs self.old.attached (state S.Store self.old.connection) s
            → AddsRowsTo change.now s
            → (x : TableRows) → MayLeave (state S.Store self.new.connection) x
            → (x ≡ s) ⊎ (x ≡ after s change.now) }
        ensures version { HasCleanDisk (state S.Store self.new.connection) → (s : TableRows)
            → TellsAs self.old.attached (state S.Store self.old.connection) s
            → AddsRowsTo change.now s
            → (v : ℤ) → HasVersion (state S.Store self.old.connection) v → self.new.stopped ≡ false
            → HasVersion (state S.Store self.new.connection) v }

        // Beside the trait's clauses: a statement or the commit failed.
        ensures fails { HasCleanDisk (state S.Store self.new.connection)
            → IfErr result
            (FailsToKeep S.Store self.old.connection self.new.connection change.now) }
    {
        let kept = keep(&mut self.connection, change);
        let _after = is_settled(&self.connection);
        match kept {
            Ok(()) => Ok(()),
            Err(CommitFault::Memory) => Err(CommitFault::Memory),
            Err(CommitFault::Failed) => {
                self.faults = self.faults.saturating_add(1);
                self.stopped = true;
                Err(CommitFault::Failed)
            }
        }
    }

    ghost one = { λ k s t a b. tells_one k.attached _ s t a b };

    ghost left = { λ k t clean running told.
        told_left _ k.attached t told k.settled (S.Store.stays k.connection.store) };

    ghost exact = { λ k t x clean running told left.
        told_alone _ k.attached t told k.settled (S.Store.settled k.connection.store) x left };
}

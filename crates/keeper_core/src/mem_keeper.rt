//! A keeper in memory whose calls fail by a plan.

ghost use Rattle.std.specs.Prelude.{◌≡◌, ◌≢◌, ◌⊎◌, ◌↔◌, ◌≤◌, ◌<◌, ℕ, ℤ, pos};
ghost use Rattle.std.specs.Prelude.{List, [], Bool, true, false, Option, Some, None, Err, IsOk};
ghost use Rattle.std.specs.Prelude.{IfOk, OnOk, OnErr, unwrap_or, is_some};
ghost use Rattle.keeper_core.specs.States.{IsRunning};
ghost use Rattle.tap_rows.specs.Tables.{after};
ghost use Rattle.keeper_core.specs.Stored.{Stored, planned_fault, left_now, stopped_with};
ghost use Rattle.keeper_core.specs.Stored.{attached_at, attach_answer, committed, commit_answer};
ghost use Rattle.tap_base.specs.Counts.{next_count};

use crate::{AttachFault, CommitFault, Keeper};
use std::alloc::Global;
use std::marker::Model;
use tap_base::{Memory, Text};
use tap_rows::{Change, Tables};

/// Makes the call of this number fail. If that is a commit, `kept` says whether a crash leaves the
/// new tables.
#[derive(Clone, Copy, Debug, PartialEq, Eq)]
pub struct KeepPlan {
    pub call: u64,
    pub kept: bool,
}

/// Stores tables in memory. Its calls fail as planned.
#[derive(Drop)]
pub struct MemKeeper {
    tables: Tables,
    version: i64,
    // what a crash leaves after a failed commit, if that isn't `tables`
    left: Option<Tables>,
    fails: Vec<KeepPlan>,
    calls: u64,
    attached: bool,
    stopped: bool,
    path: Text,
    faults: u64,
}

impl Model for MemKeeper {
    ghost Value = { Stored };

    ghost view = { λ k. record {
      tables = k.tables;
      version = k.version;
      left = unwrap_or k.left k.tables;
      fails = k.fails.items;
      calls = k.calls;
      attached = k.attached;
      stopped = k.stopped;
      path = k.path;
      faults = k.faults;
    } };

    ghost invariant = { λ k. k.stopped ≡ false → k.left ≡ None };
}

// Returns `kept` of the plan for this call, if the call is to fail.
fn plan_of(fails: &[KeepPlan], call: u64) -> Option<bool>
    ensures { result ≡ planned_fault fails.now call }
{
    for plan in fails {
        if plan.call == call {
            return Some(plan.kept);
        }
    }
    None
}

// Returns a copy of the tables with the rows of a change.
fn tables_with(tables: &Tables, change: Change) -> Result<Tables, Memory>
    ensures { IfOk result (λ all. all ≡ after tables.now change) }
{
    let mut all = tables.copy()?;
    all.apply(change)?;
    Ok(all)
}

impl MemKeeper {
    /// Returns a keeper of these tables in a store of this version. Its calls of `attach` and
    /// `commit` are numbered from 0, without those that are out of memory; the calls of `fails`
    /// fail, and no other does.
    pub fn new(alloc: Global, tables: Tables, version: i64, fails: Vec<KeepPlan>) -> MemKeeper
        ensures { result ≡ record {
          tables = tables;
          version = version;
          left = tables;
          fails = fails.items;
          calls = 0;
          attached = false;
          stopped = false;
          path = [];
          faults = 0;
        } }
    {
        MemKeeper {
            tables,
            version,
            left: None,
            fails,
            calls: 0,
            attached: false,
            stopped: false,
            path: Text::new(alloc),
            faults: 0,
        }
    }

    /// Returns the tables of the store.
    pub fn tables(&self) -> &Tables
        ensures { result.now ≡ self.now.tables }
    {
        &self.tables
    }

    /// Returns the version of the store.
    pub fn version(&self) -> i64
        ensures { result ≡ self.now.version }
    {
        self.version
    }

    /// Returns the tables that a crash leaves now.
    pub fn after_crash(self) -> Tables
        ensures left { result ≡ self.left }
        ensures now { result ≡ left_now self }
    {
        let MemKeeper { tables, left, .. } = self;
        match left {
            Some(left) => left,
            None => tables,
        }
    }

    // Stops at a failure. A crash then leaves these tables, or its own if there are none.
    fn stop(&mut self, left: Option<Tables>)
        requires { IsRunning self.old }
        ensures { self.new ≡ stopped_with (unwrap_or left self.old.tables) self.old }
    {
        self.left = left;
        self.calls = self.calls.saturating_add(1);
        self.stopped = true;
        self.faults = self.faults.saturating_add(1);
    }
}

impl Keeper for MemKeeper {
    ghost use Rattle.std.specs.Prelude.{◌≡◌};
    ghost use Rattle.std.proofs.Common.{sym, ◌∙◌};
    ghost use Rattle.keeper_core.specs.Stored.{left_now};
    ghost use Rattle.keeper_core.specs.Leaving.{left_running};

    ghost tells = { λ k s. s ≡ k.tables };

    ghost has_version = { λ k v. v ≡ k.version };

    ghost honest = { λ _. Unit {0} };

    ghost may_leave = { λ k x. x ≡ left_now k };

    ghost attached = { λ k. k.attached };

    ghost stopped = { λ k. k.stopped };

    ghost path = { λ k. k.path };

    ghost faults = { λ k. k.faults };

    fn attach(&mut self, alloc: Global, at: &str) -> Result<Tables, AttachFault>
        requires free { self.old.attached ≡ false }
        requires running { IsRunning self.old }
        ensures later { self.old.faults ≤ self.new.faults }
        ensures exact { self.old.left ≡ self.old.tables }

        // The plan.
        ensures plan { ((result ≡ Err AttachFault.Memory) × (self.new ≡ self.old))
            ⊎ ((result ≡ attach_answer (planned_fault self.old.fails self.old.calls) self.old)
            × (self.new
            ≡ attached_at at.now (planned_fault self.old.fails self.old.calls) self.old)) }
    {
        // All memory is taken first, so that a call that is out of memory changes nothing.
        let tables = self.tables.copy()?;
        let path = Text::from_slice(alloc, at.as_bytes())?;
        self.path = path;
        if plan_of(&self.fails, self.calls).is_some() {
            self.stop(None);
            return Err(AttachFault::Failed);
        }
        self.calls = self.calls.saturating_add(1);
        if self.version != 1 && self.version != 2 {
            return Err(AttachFault::Alien {
                version: self.version,
            });
        }
        self.version = 2;
        self.attached = true;
        Ok(tables)
    }

    fn commit(&mut self, change: &Change) -> Result<(), CommitFault>
        requires ready { self.old.attached ≡ true }
        requires running { IsRunning self.old }
        ensures later { self.old.faults ≤ self.new.faults }
        ensures exact { self.old.left ≡ self.old.tables }

        // The plan.
        ensures plan { ((result ≡ Err CommitFault.Memory) × (self.new ≡ self.old))
            ⊎ ((result ≡ commit_answer (planned_fault self.old.fails self.old.calls))
            × (self.new
            ≡ committed change.now (planned_fault self.old.fails self.old.calls) self.old)) }
    {
        let call = self.calls;
        let more = change.copy()?;
        match plan_of(&self.fails, call) {
            None => {
                self.tables.apply(more)?;
                self.calls = self.calls.saturating_add(1);
                Ok(())
            }
            Some(false) => {
                self.stop(None);
                Err(CommitFault::Failed)
            }
            Some(true) => {
                let left = tables_with(&self.tables, more)?;
                self.stop(Some(left));
                Err(CommitFault::Failed)
            }
        }
    }

    ghost one = { λ k s t a b. a ∙ sym b };

    ghost left = { λ k t honest running told. told ∙ sym (left_running k running) };

    ghost exact = { λ k t x honest running told may. may ∙ left_running k running ∙ sym told };
}

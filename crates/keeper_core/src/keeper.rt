//! What a keeper of tables promises.

ghost use Rattle.std.specs.Prelude.{◌≡◌, ◌≢◌, ◌⊎◌, ◌↔◌, ◌≤◌, ℕ, ℤ, pos, List, Bool, true, false};
ghost use Rattle.std.specs.Prelude.{Err, IsOk, IfOk, OnOk};
ghost use Rattle.tap_rows.specs.Tables.{after};
ghost use Rattle.tap_rows.specs.declared.tables.Tables.{Tables as TableRows};
ghost use Rattle.keeper_core.specs.Keeping.{IsDurable, IfAlien, AddsRowsTo};
ghost use Rattle.tap_base.specs.Counts.{Rose};

use crate::{AttachFault, CommitFault};
use std::alloc::Global;
use tap_rows::{Change, Tables};

/// Keeps the tables of a store. It is attached once, and then each change is one commit.
///
/// | State | `attached` | `stopped` | What may be called |
/// |---|---|---|---|
/// | free | false | false | `attach` |
/// | attached | true | false | `commit` |
/// | stopped | either | true | nothing |
///
/// ```text
///            attach: Ok                commit: Ok, Memory
/// free ----------------------> attached ----+
///  | ^                            |  ^      |
///  | | attach: Alien, Memory      |  +------+
///  +-+                            |
///  |  attach: Failed              |  commit: Failed
///  +-----------> stopped <--------+
/// ```
///
/// A keeper is honest while its store has returned what was written to it, and nobody else has
/// written to it. Honesty that is lost doesn't come back. While a keeper is honest, this holds of
/// the tables that it tells, if it tells any:
///
/// - free: they are the tables that an attach returns, and a crash in or after an attach leaves
///   them.
/// - attached: they are the tables that the attach returned, with the rows of each committed
///   change, and a crash leaves exactly these.
/// - stopped: a crash leaves the tables of before the call that failed, or those with all rows of
///   its change.
///
/// A keeper may tell tables once it is attached that told none before. By `answered` they are those
/// that the attach returned, by `version` their version is 2, and by the law `exact` a crash leaves
/// no others.
///
/// Of a keeper that isn't honest only the states, the path and the count of failures are promised.
pub trait Keeper {
    // It tells that its store has these tables. A keeper may tell none, as one whose open failed.
    ghost tells: { Self → TableRows → Type 0 };

    // It tells this version of its store.
    ghost has_version: { Self → ℤ → Type 0 };

    // The store has returned what was written to it so far.
    ghost honest: { Self → Type 0 };

    // A crash now may leave these tables.
    ghost may_leave: { Self → TableRows → Type 0 };

    ghost attached: { Self → Bool };

    // A call has failed.
    ghost stopped: { Self → Bool };

    // The path that it is attached to, initially empty.
    ghost path: { Self → List ℕ };

    // How often the store has failed.
    ghost faults: { Self → ℕ };

    /// Attaches the store at a path, and returns its tables. A store without any table has no rows
    /// and version 2; one of version 1 gets version 2. `Alien` if the store has another version,
    /// `Failed` if the store failed, `Memory` if the attach was out of memory: the path is then
    /// unchanged, and a later attach may succeed.
    fn attach(&mut self, alloc: Global, at: &str) -> Result<Tables, AttachFault>
        requires free { attached self.old ≡ false }
        requires running { stopped self.old ≡ false }
        ensures attached { (attached self.new ≡ true) ↔ IsOk result }
        ensures stopped { (stopped self.new ≡ true) ↔ (result ≡ Err AttachFault.Failed) }
        ensures placed { (path self.new ≡ at.now)
            ⊎ ((result ≡ Err AttachFault.Memory) × (path self.new ≡ path self.old)) }
        ensures stays { result ≡ Err AttachFault.Memory → path self.new ≡ path self.old }
        ensures later { faults self.old ≤ faults self.new }
        ensures cause { result ≡ Err AttachFault.Failed → Rose (faults self.old) (faults self.new) }
        ensures calm { stopped self.new ≡ false → faults self.new ≡ faults self.old }
        ensures honest { honest self.new → honest self.old }

        // The tables that it told: it returns them, and tells them unless it failed.
        ensures given { IfOk result (λ given. honest self.new → (s : TableRows) → tells self.old s
            → s ≡ given) }
        ensures kept { honest self.new → (s : TableRows) → tells self.old s
            → stopped self.new ≡ false
            → IsDurable (tells self.new) (may_leave self.new) s }
        ensures crash { honest self.new → (s : TableRows) → tells self.old s → (x : TableRows)
            → may_leave self.new x → x ≡ s }

        // Whatever it told before, it tells no other tables than it returns, and has version 2 if
        // it tells tables.
        ensures answered { IfOk result (λ given. honest self.new → (t : TableRows)
            → tells self.new t → t ≡ given) }
        ensures version { OnOk result
            (honest self.new → (t : TableRows) → tells self.new t → has_version self.new (pos 2)) }

        // The version that it told.
        ensures known { honest self.new → (v : ℤ) → has_version self.old v
            → OnOk result ((v ≡ pos 1) ⊎ (v ≡ pos 2)) }
        ensures alien { IfAlien result (λ v. (v ≢ pos 1) × (v ≢ pos 2)) }
        ensures same { IfAlien result (λ v. honest self.new → (w : ℤ) → has_version self.old w
            → (w ≡ v) × has_version self.new w) }
        ensures migrated { result ≡ Err AttachFault.Memory → honest self.new → (w : ℤ)
            → has_version self.old w
            → has_version self.new w ⊎ ((w ≡ pos 1) × has_version self.new (pos 2)) };

    /// Appends the rows of a change, all of them or none. `Failed` if the store failed: a crash
    /// then leaves none or all of them. `Memory` if the commit was out of memory: the tables are
    /// unchanged.
    fn commit(&mut self, change: &Change) -> Result<(), CommitFault>
        requires ready { attached self.old ≡ true }
        requires running { stopped self.old ≡ false }
        ensures same { (path self.new ≡ path self.old) × (attached self.new ≡ attached self.old) }
        ensures stopped { (stopped self.new ≡ true) ↔ (result ≡ Err CommitFault.Failed) }
        ensures later { faults self.old ≤ faults self.new }
        ensures cause { result ≡ Err CommitFault.Failed → Rose (faults self.old) (faults self.new) }
        ensures calm { stopped self.new ≡ false → faults self.new ≡ faults self.old }
        ensures honest { honest self.new → honest self.old }

        // The tables, if the change adds rows that fit them.
        ensures ok { honest self.new → (s : TableRows) → tells self.old s → AddsRowsTo change.now s
            → OnOk result (IsDurable (tells self.new) (may_leave self.new) (after s change.now)) }
        ensures memory { honest self.new → (s : TableRows) → tells self.old s
            → result ≡ Err CommitFault.Memory
            → IsDurable (tells self.new) (may_leave self.new) s }
        ensures crash { honest self.new → (s : TableRows) → tells self.old s
            → AddsRowsTo change.now s
            → (x : TableRows) → may_leave self.new x → (x ≡ s) ⊎ (x ≡ after s change.now) }
        ensures version { honest self.new → (s : TableRows) → tells self.old s
            → AddsRowsTo change.now s
            → (v : ℤ) → has_version self.old v → stopped self.new ≡ false
            → has_version self.new v };

    // It tells the tables of one store at most.
    ghost one: { (k : Self) (s t : TableRows) → tells k s → tells k t → s ≡ t };

    // While no call has failed, a crash may leave the tables that it tells,
    ghost left: { (k : Self) (t : TableRows) → honest k → stopped k ≡ false → tells k t
        → may_leave k t };

    // and no others.
    ghost exact: { (k : Self) (t x : TableRows) → honest k → stopped k ≡ false → tells k t
        → may_leave k x → x ≡ t };
}

//! Keepers in memory, and what a caller of any keeper knows.

ghost use Rattle.std.specs.Prelude.{◌≡◌, ◌≢◌, ◌⊎◌, ◌↔◌, ℤ, pos, true, codes};
ghost use Rattle.tap_rows.specs.Tables.{after};
ghost use Rattle.tap_rows.specs.declared.tables.Tables.{Tables as TableRows};
ghost use Rattle.keeper_core.specs.Keeping.{IsDurable, AddsRowsTo};
ghost use Rattle.tap_base.specs.Counts.{Rose};
ghost use Rattle.keeper_core.specs.States.{IsFree};

use crate::documents::{TwoDocs, keep, one_doc, two_docs};
use keeper_core::{AttachFault, CommitFault, KeepPlan, Keeper, MemKeeper, SureKeeper};
use std::alloc::Global;
use std::fmt::Display;
use std::test::Fail;
use tap_base::Memory;
use tap_rows::{Change, Tables};

// Attaches any keeper and commits two changes. Returns 0 if both were committed, 5 if the keeper
// failed, 6 if its store has another version, 7 if a call was out of memory.
fn keep_two<P: Keeper>(alloc: Global, keeper: &mut P, one: &Change, two: &Change) -> u8
    requires free { IsFree P.Keeper keeper.old }
    ensures stopped { (P.stopped keeper.new ≡ true) ↔ (result ≡ 5) }
    ensures cause { result ≡ 5 → Rose (P.faults keeper.old) (P.faults keeper.new) }
    ensures placed { (P.path keeper.new ≡ codes "store") ⊎ (result ≡ 7) }
    ensures known { P.honest keeper.new → (v : ℤ) → P.has_version keeper.old v
        → (v ≡ pos 1) ⊎ (v ≡ pos 2) → result ≢ 6 }
    ensures done { result ≡ 0 → P.honest keeper.new → (s : TableRows) → P.tells keeper.old s
        → AddsRowsTo one.now s → AddsRowsTo two.now (after s one.now)
        → IsDurable (P.tells keeper.new) (P.may_leave keeper.new)
        (after (after s one.now) two.now) }
    ensures refused { result ≡ 6 → P.honest keeper.new → (s : TableRows) → P.tells keeper.old s
        → IsDurable (P.tells keeper.new) (P.may_leave keeper.new) s }
    ensures crash { P.honest keeper.new → (s : TableRows) → P.tells keeper.old s
        → AddsRowsTo one.now s → AddsRowsTo two.now (after s one.now)
        → (x : TableRows) → P.may_leave keeper.new x
        → (x ≡ s) ⊎ ((x ≡ after s one.now) ⊎ (x ≡ after (after s one.now) two.now)) }
{
    match keeper.attach(alloc, "store") {
        Ok(tables) => drop(tables),
        Err(AttachFault::Alien { .. }) => return 6,
        Err(AttachFault::Failed) => return 5,
        Err(AttachFault::Memory) => return 7,
    }
    match keeper.commit(one) {
        Ok(()) => {}
        Err(CommitFault::Failed) => return 5,
        Err(CommitFault::Memory) => return 7,
    }
    match keeper.commit(two) {
        Ok(()) => 0,
        Err(CommitFault::Failed) => 5,
        Err(CommitFault::Memory) => 7,
    }
}

// What a keeper that committed two documents says: the status, the number of documents and the
// version then, and the number of documents that a crash leaves.
type Kept = (u8, usize, i64, usize);

// Commits two documents over a keeper of a version whose calls fail so.
fn kept_docs(alloc: Global, version: i64, fails: Vec<KeepPlan>, docs: &TwoDocs) -> Kept {
    let mut keeper = MemKeeper::new(alloc, Tables::empty(alloc), version, fails);
    let status = keep_two(alloc, &mut keeper, &docs.one, &docs.two);
    let now = keeper.tables().docs.len();
    let version = keeper.version();
    let left = keeper.after_crash();
    let after = left.docs.len();
    drop(left);
    (status, now, version, after)
}

// Commits two documents over a keeper of a version, of which this call fails.
fn kept(alloc: Global, version: i64, fail: Option<KeepPlan>) -> Result<Kept, Memory> {
    let fails = match fail {
        Some(plan) => vec![in alloc; plan]?,
        None => Vec::new(alloc),
    };
    let docs = two_docs(alloc)?;
    let kept = kept_docs(alloc, version, fails, &docs);
    drop(docs);
    Ok(kept)
}

// Returns a plan by which the call of this number fails, with its rows committed or not.
fn plan_of(fail: Option<(u64, bool)>) -> Option<KeepPlan> {
    fail.map(|(call, kept)| KeepPlan { call, kept })
}

#[test]
fn keepers_fail_by_their_plan(rt: HostRuntime) -> Result<(), Memory> {
    let rows: [(i64, Option<(u64, bool)>, Kept); 7] = [
        (2, None, (0, 2, 2, 2)),
        (1, None, (0, 2, 2, 2)),
        (7, None, (6, 0, 7, 0)),
        (2, Some((0, true)), (5, 0, 2, 0)),
        (2, Some((1, true)), (5, 0, 2, 1)),
        (2, Some((2, false)), (5, 1, 2, 1)),
        (2, Some((2, true)), (5, 1, 2, 2)),
    ];
    for (version, fail, expected) in rows {
        assert_eq!(rt; kept(rt.alloc(), version, plan_of(fail))?, expected);
    }
    Ok(())
}

// Returns tables with the first document.
fn one_row(alloc: Global) -> Result<Tables, Memory> {
    let doc = one_doc(alloc, 1)?;
    let mut tables = Tables::empty(alloc);
    match tables.apply(doc) {
        Ok(()) => Ok(tables),
        Err(Memory) => {
            drop(tables);
            Err(Memory)
        }
    }
}

// Commits a change over a keeper of one document that never fails; how many documents it gave
// before.
fn surely_kept(alloc: Global, change: &Change) -> Result<Option<usize>, Memory> {
    let mut keeper = SureKeeper::new(alloc, one_row(alloc)?);
    let found = keep(alloc, &mut keeper, "store", change);
    drop(keeper);
    Ok(found)
}

#[test]
fn a_sure_keeper_gives_its_tables(rt: HostRuntime) -> Result<(), Memory> {
    let two = one_doc(rt.alloc(), 2)?;
    let found = surely_kept(rt.alloc(), &two);
    drop(two);
    assert_eq!(rt; found?, Some(1));
    Ok(())
}

// Does a value show as this text?
fn shows<T: Display>(alloc: Global, value: &T, text: &str) -> Result<bool, Fail> {
    let shown = format!(in alloc; "{}", value)?;
    let is_it = shown.as_str() == text;
    drop(shown);
    Ok(is_it)
}

#[test]
fn faults_have_texts(rt: HostRuntime) -> Result<(), Fail> {
    let alloc = rt.alloc();
    let alien = AttachFault::Alien { version: -7 };
    assert!(rt; shows(alloc, &alien, "store version -7")?);
    assert!(rt; shows(alloc, &AttachFault::Failed, "store failed")?);
    assert!(rt; shows(alloc, &CommitFault::Memory, "no memory")?);
    Ok(())
}

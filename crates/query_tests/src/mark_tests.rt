//! A note that grows old is a mark.

ghost use Rattle.std.specs.Prelude.{◌≡◌, IfOk, pos};
ghost use Rattle.tql_tree.specs.declared.table.Table.TheVariants.{Notes};
ghost use Rattle.tql_core.specs.declared.term.Base.TheVariants.{Arrival};
ghost use Rattle.tql_core.specs.Condition.{condition, Not, Exists, NowBefore};

use crate::conditions::{arrival, for_no_note};
use std::alloc::Global;
use tap_base::{Copied, Memory, Rows};
use time_marks::{Mark, rising};
use tql_core::{Cond, Term};

// Returns the condition that no note arrived less than 5 seconds ago.
fn unnoted(alloc: Global) -> Result<Cond, Memory>
    ensures { IfOk result (λ cond. condition cond ≡ Not
        (Exists (record { 0 = 1 }) Notes
        (NowBefore (record { base = Arrival (record { 0 = 1 }); plus = pos 5 })))) }
{
    for_no_note(alloc, Cond::NowBefore(arrival(1, 5)))
}

// Returns the marks of that condition.
fn marks(alloc: Global) -> Result<Rows<Mark>, Memory> {
    let cond = unnoted(alloc)?;
    let marks = rising(alloc, &cond);
    drop(cond);
    marks
}

// Returns a copy of those marks.
fn copied_marks(alloc: Global) -> Result<Rows<Mark>, Memory> {
    let marks = marks(alloc)?;
    let copy = marks.copy();
    drop(marks);
    copy
}

// Returns a copy of a mark's term, and how long its path is.
fn copied_mark(mark: &Mark) -> Result<(Term, usize), Memory> {
    let copy = mark.copied()?;
    let found = (copy.at, copy.path.len());
    drop(copy);
    Ok(found)
}

#[test]
fn a_note_that_grows_old_is_a_mark(rt: HostRuntime) -> Result<(), Memory> {
    let marks = copied_marks(rt.alloc())?;
    assert_eq!(rt; marks.len(), 2);
    let last = copied_mark(&marks.as_slice()[1]);
    drop(marks);
    assert_eq!(rt; last?, (arrival(9, 5), 2));
    Ok(())
}

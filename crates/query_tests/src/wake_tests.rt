//! Tests of moments over two documents.

ghost use Rattle.std.specs.Prelude.{◌≡◌, ◌<◌, map, IfOk};
ghost use Rattle.tap_base.specs.Ledgers.{IsBlankOf};
ghost use Rattle.probe_eval.specs.Runs.{HasValidProbes};
ghost use Rattle.query_tests.specs.Samples.{sample_probe, sample_marks};
ghost use Rattle.tap_base.specs.Numbers.{IsMoment};

use crate::documents::{second_seen, two_docs};
use crate::probes::part_at;
use access_plan::{Plan, plan};
use node_pool::{NodeId, Pool};
use row_index::RowIndex;
use std::alloc::Global;
use std::marker::Brand;
use std::sync::ledger::{Blank, Ledger};
use tap_base::{Memory, Rows, Steps};
use time_marks::{Ranged, RangedQuery};
use tql_core::{Base, TNode, Term, Var};
use wake_plan::wake;

// Returns a probe with a mark five seconds after the arrival, one with a mark a second after the
// date, and one with the fixed mark 130.
fn three_parts(alloc: Global, body: NodeId) -> Result<Rows<Ranged>, Memory>
    ensures { IfOk result (λ parts.
        map (λ part. part.probe) parts ≡ map (sample_probe body.0) sample_marks) }
{
    let mut parts = Rows::new(alloc);
    let at = Term {
        base: Base::Arrival(Var(0)),
        plus: 5,
    };
    parts.push(part_at(alloc, at, body)?)?;
    let at = Term {
        base: Base::Date(Var(0)),
        plus: 1,
    };
    parts.push(part_at(alloc, at, body)?)?;
    let at = Term {
        base: Base::Fixed,
        plus: 130,
    };
    parts.push(part_at(alloc, at, body)?)?;
    Ok(parts)
}

// Returns the query of those probes.
fn three_query(alloc: Global) -> Result<RangedQuery, Memory>
    ensures { IfOk result HasValidProbes }
{
    let mut pool = Pool::new(alloc);
    let body = pool.intern(TNode::True)?;
    let parts = three_parts(alloc, body)?;
    Ok(RangedQuery { pool, parts })
}

// Returns the plan of that query.
fn three_plan(alloc: Global) -> Result<Plan, Memory>
    ensures { IfOk result (λ plan. HasValidProbes plan.query) }
{
    plan(alloc, three_query(alloc)?)
}

// Returns the moment for a plan, if the box has the second document.
fn planned_in<L: Ledger>(
    alloc: Global,
    blank: Blank,
    plan: &Plan,
    index: &RowIndex,
    last: i64,
    now: i64,
) -> Result<Option<i64>, Memory>
    requires blank { IsBlankOf L.name L.parts blank }
    requires last { IsMoment last }
    requires now { IsMoment now }
    requires probes { HasValidProbes plan.now.query }
{
    let seen = second_seen(alloc)?;
    let mut steps = Steps::<L>::start(blank);
    let moment = wake(alloc, plan, index, &seen, last, now, &mut steps);
    drop(seen);
    moment
}

// Returns the moment for a plan and two documents, one of which is in the box.
fn planned_by<L: Ledger>(
    alloc: Global,
    blank: Blank,
    plan: &Plan,
    last: i64,
    now: i64,
) -> Result<Option<i64>, Memory>
    requires blank { IsBlankOf L.name L.parts blank }
    requires last { IsMoment last }
    requires now { IsMoment now }
    requires probes { HasValidProbes plan.now.query }
{
    let index = two_docs(alloc)?;
    let moment = planned_in::<L>(alloc, blank, plan, &index, last, now);
    drop(index);
    moment
}

// Returns the moment for the plan of the probes and two documents, one of which is in the box.
fn planned<L: Ledger>(
    alloc: Global,
    blank: Blank,
    last: i64,
    now: i64,
) -> Result<Option<i64>, Memory>
    requires blank { IsBlankOf L.name L.parts blank }
    requires last { IsMoment last }
    requires now { IsMoment now }
{
    let plan = three_plan(alloc)?;
    let moment = planned_by::<L>(alloc, blank, &plan, last, now);
    drop(plan);
    moment
}

#[test]
fn the_second_after_the_least_mark_is_next(rt: HostRuntime) -> Result<(), Memory> {
    let moment = planned::<Brand>(rt.alloc(), Blank::new(1), 0, 100)?;
    assert_eq!(rt; moment, Some(106));
    let moment = planned::<Brand>(rt.alloc(), Blank::new(1), 105, 106)?;
    assert_eq!(rt; moment, Some(106));
    Ok(())
}

#[test]
fn no_moment_is_before_now(rt: HostRuntime) -> Result<(), Memory> {
    let moment = planned::<Brand>(rt.alloc(), Blank::new(1), 0, 120)?;
    assert_eq!(rt; moment, Some(120));
    Ok(())
}

#[test]
fn a_fixed_mark_comes_after_those_of_rows(rt: HostRuntime) -> Result<(), Memory> {
    let moment = planned::<Brand>(rt.alloc(), Blank::new(1), 106, 106)?;
    assert_eq!(rt; moment, Some(131));
    Ok(())
}

#[test]
fn a_mark_before_the_last_run_is_never_met(rt: HostRuntime) -> Result<(), Memory> {
    let moment = planned::<Brand>(rt.alloc(), Blank::new(1), 131, 131)?;
    assert_eq!(rt; moment, None);
    Ok(())
}

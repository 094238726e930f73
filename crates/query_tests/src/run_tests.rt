//! Tests of runs over two documents, and of the room for hits.

ghost use Rattle.std.specs.Prelude.{◌≡◌, ◌<◌, pos, [], ◌∷◌, map, IfOk};
ghost use Rattle.tap_base.specs.Ledgers.{IsBlankOf};
ghost use Rattle.jiff_core.specs.Calendar.{IsWithin};
ghost use Rattle.tql_tree.specs.declared.table.Table.TheVariants.{Docs};
ghost use Rattle.tql_core.specs.declared.term.Base.TheVariants.{Arrival};
ghost use Rattle.probe_eval.specs.Runs.{HasValidProbes};

use crate::documents::{second_seen, two_docs};
use crate::probes::part_at;
use access_plan::{Plan, plan};
use node_pool::{NodeId, Pool};
use query_eval::{Hits, run};
use row_index::RowIndex;
use std::alloc::Global;
use std::marker::Brand;
use std::sync::ledger::{Blank, Ledger};
use tap_base::{Memory, Rows, Steps};
use tap_rows::Hit;
use time_marks::{Ranged, RangedQuery, Window};
use tql_core::{Base, TNode, Term, Var};

// Returns the probe that finds a document five seconds after its arrival.
fn old_parts(alloc: Global, body: NodeId) -> Result<Rows<Ranged>, Memory>
    ensures { IfOk result (λ parts. map (λ part. part.probe) parts
        ≡ record {
          path = record { var = record { 0 = 0 }; table = Docs; guards = [] }
              ∷ [];
          at = record { base = Arrival (record { 0 = 0 }); plus = pos 5 };
          body = body;
        } ∷ []) }
{
    let at = Term {
        base: Base::Arrival(Var(0)),
        plus: 5,
    };
    let part = part_at(alloc, at, body)?;
    let mut parts = Rows::new(alloc);
    match parts.push(part) {
        Ok(()) => Ok(parts),
        Err(Memory) => {
            drop(parts);
            Err(Memory)
        }
    }
}

// Returns the query of that probe.
fn old_query(alloc: Global) -> Result<RangedQuery, Memory>
    ensures { IfOk result HasValidProbes }
{
    let mut pool = Pool::new(alloc);
    let body = pool.intern(TNode::True)?;
    let parts = old_parts(alloc, body)?;
    Ok(RangedQuery { pool, parts })
}

// Returns the plan of that query.
fn old_plan(alloc: Global) -> Result<Plan, Memory>
    ensures { IfOk result (λ plan. HasValidProbes plan.query) }
{
    plan(alloc, old_query(alloc)?)
}

// Returns what a plan gives below this second, if the box has the second document.
fn found_in<L: Ledger>(
    alloc: Global,
    blank: Blank,
    plan: &Plan,
    index: &RowIndex,
    high: i64,
) -> Result<Rows<Hit>, Memory>
    requires blank { IsBlankOf L.name L.parts blank }
    requires high { IsWithin 500000000000 high }
    requires probes { HasValidProbes plan.now.query }
{
    let seen = second_seen(alloc)?;
    let mut steps = Steps::<L>::start(blank);
    let window = Window { low: 0, high };
    let hits = run(alloc, plan, index, &seen, window, &mut steps);
    drop(seen);
    hits
}

// Returns what a plan gives below this second of two documents, one of which is in the box.
fn found_by<L: Ledger>(
    alloc: Global,
    blank: Blank,
    plan: &Plan,
    high: i64,
) -> Result<Rows<Hit>, Memory>
    requires blank { IsBlankOf L.name L.parts blank }
    requires high { IsWithin 500000000000 high }
    requires probes { HasValidProbes plan.now.query }
{
    let index = two_docs(alloc)?;
    let hits = found_in::<L>(alloc, blank, plan, &index, high);
    drop(index);
    hits
}

// Returns what the plan of the probe gives below this second of two documents, one of which is in
// the box.
fn found<L: Ledger>(alloc: Global, blank: Blank, high: i64) -> Result<Rows<Hit>, Memory>
    requires blank { IsBlankOf L.name L.parts blank }
    requires high { IsWithin 500000000000 high }
{
    let plan = old_plan(alloc)?;
    let hits = found_by::<L>(alloc, blank, &plan, high);
    drop(plan);
    hits
}

#[test]
fn an_unseen_document_is_found_at_its_mark(rt: HostRuntime) -> Result<(), Memory> {
    let hits = found::<Brand>(rt.alloc(), Blank::new(1), 106)?;
    assert_eq!(rt; hits.len(), 1);
    assert_eq!(rt; hits.as_slice()[0].doc.0, 1);
    assert_eq!(rt; hits.as_slice()[0].first, 105);
    Ok(())
}

#[test]
fn the_end_of_the_window_is_not_in_it(rt: HostRuntime) -> Result<(), Memory> {
    let hits = found::<Brand>(rt.alloc(), Blank::new(1), 105)?;
    assert_eq!(rt; hits.len(), 0);
    Ok(())
}

#[test]
fn room_grows(rt: HostRuntime) -> Result<(), Memory> {
    let mut hits = Hits::with_room(rt.alloc(), 3)?;
    hits.grow(5)?;
    assert_eq!(rt; hits.room(), 5);
    assert_eq!(rt; hits.len(), 0);
    assert!(rt; hits.get(0).is_none());
    Ok(())
}

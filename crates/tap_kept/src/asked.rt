//! The documents that a condition gives at a second, found through the index.

ghost use Rattle.std.specs.Prelude.{◌≡◌, ◌≤◌, ◌+◌, true, map, IfOk};
ghost use Rattle.tql_core.specs.Bounds.{are_bounded};
ghost use Rattle.tql_core.specs.Condition.{condition};
ghost use Rattle.tql_core.specs.Scope.{IsQuery};
ghost use Rattle.tap_model.specs.Asks.{given_docs};
ghost use Rattle.tap_kept.specs.Costs.{ask_work};
ghost use Rattle.tap_base.specs.Numbers.{IsMoment};

use crate::planned_query::make_plan;
use little_box::LittleBox;
use query_eval::run;
use row_index::RowIndex;
use std::alloc::Global;
use std::sync::ledger::Ledger;
use tap_base::{DocNum, Memory, Rows, Steps};
use tap_rows::Hit;
use time_marks::Window;
use tql_core::Cond;

// Gives the numbers of the documents of hits.
fn docs_of(alloc: Global, hits: &[Hit]) -> Result<Rows<DocNum>, Memory>
    ensures { IfOk result (λ docs. docs ≡ map (λ hit. hit.doc) hits.now) }
{
    let mut docs = Rows::new(alloc);
    for hit in hits {
        docs.push(hit.doc)?;
    }
    Ok(docs)
}

/// Gives the numbers of the documents that a condition gives at a second, in their order. They are
/// those that its window query, begun at this second, finds in it, so the index finds their rows. A
/// step is a row that the index hands out. `Memory` if out of memory.
pub fn given_at<L: Ledger>(
    alloc: Global,
    cond: &Cond,
    index: &RowIndex,
    second: i64,
    steps: &mut Steps<L>,
) -> Result<Rows<DocNum>, Memory>
    requires scoped { IsQuery (condition cond.now) }
    requires bounded { are_bounded (condition cond.now) ≡ true }
    requires second { IsMoment second }
    ensures docs { IfOk result (λ docs. docs ≡ given_docs (condition cond.now) index.now second) }
    ensures steps { steps.new ≤ steps.old + ask_work index.now (condition cond.now) second }
{
    let plan = make_plan(alloc, cond, second)?;
    // Brings into scope that the documents stand in order.
    let _docs = index.docs();
    let none = LittleBox::new(alloc);
    let window = Window {
        low: second,
        high: second + 1,
    };
    let found = run(alloc, &plan, index, &none, window, steps);
    drop(none);
    drop(plan);
    let hits = found?;
    let docs = docs_of(alloc, hits.as_slice());
    drop(hits);
    docs
}

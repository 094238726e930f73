//! A search for what a probe finds.

ghost use Rattle.std.specs.Prelude.{◌≡◌, ◌+◌, ◌≤◌, slice_get, Some, if◌then◌else◌};
ghost use Rattle.time_marks.specs.declared.ranged.Ranged.{Ranged};
ghost use Rattle.probe_eval.specs.declared.answer.TruthOfRows.TheVariants.{Never};
ghost use Rattle.probe_eval.specs.Answers.{is_true, IsNever, query_var};
ghost use Rattle.probe_eval.specs.Runs.{part_order};
ghost use Rattle.probe_eval.specs.Searches.{searched};
ghost use Rattle.probe_eval.specs.Nexts.{IsNearestIfKnown};
ghost use Rattle.probe_eval.specs.Rests.{rest_of, rest_cost};
ghost use Rattle.probe_eval.specs.Levels.{IsSure};
ghost use Rattle.probe_eval.specs.Nested.{new_doc, holds_here, cost_here};
ghost use Rattle.probe_eval.specs.Walks.{CanWalk, CanAnswer};

use crate::bodies::{body_answer, body_holds};
use crate::open::may_go;
use crate::rests::rest_found;
use crate::{Next, TruthOfRows};
use access_plan::{Plan, Reach};
use little_box::LittleBox;
use row_index::RowIndex;
use std::sync::ledger::Ledger;
use tap_base::{DocNum, Steps};
use tap_rows::KeptDoc;
use time_marks::Probe;
use tql_core::{Env, Var};

/// A probe of a plan, and the rows and deliveries that it is evaluated over.
#[derive(Drop)]
pub struct Search<'a> {
    pub plan: &'a Plan,
    pub probe: &'a Probe,
    pub index: &'a RowIndex,
    pub seen: &'a LittleBox,
}

/// Returns the document's number, if it isn't in the box.
pub fn new_doc(seen: &LittleBox, doc: &KeptDoc) -> Option<DocNum>
    ensures { result ≡ new_doc seen.now doc.now }
{
    let num = doc.doc().num;
    if seen.has(num) { None } else { Some(num) }
}

// Returns whether the rest of the path exists beside these rows. If that is sure, it exists if they
// may go on.
fn has_rest<'a, L: Ledger>(
    search: &Search<'a>,
    order: &'a [Reach],
    next: &mut Next<'a>,
    sure: bool,
    env: &Env<'a>,
    mark: i64,
    steps: &mut Steps<L>,
) -> bool
    requires walk { CanWalk search.now order.now next.old env.now }
    requires sure { IsSure search.now.index.now search.now.probe.now.path mark
        order.now env.now sure }
    ensures rest { result
        ≡ rest_of search.now.index.now search.now.probe.now.path mark order.now env.now }
    ensures next { IsNearestIfKnown search.now.probe.now.path env.now next.new }
    ensures steps { steps.new ≤ steps.old + (if sure then 0
        else rest_cost search.now.index.now search.now.probe.now.path mark order.now env.now) }
    ensures more { steps.old ≤ steps.new }
{
    let path = search.probe.path.as_slice();
    if sure {
        may_go(path, mark, env)
    } else {
        rest_found(path, order, next, env, mark, search.index, steps)
    }
}

/// Returns whether the rest of the path exists beside these rows and the body is true of them.
/// `Never` comes only if the body is false whatever document the query is about. If the rest is
/// sure to exist beside rows that may go on, it isn't looked for. The nearest step is found once
/// for all rows of a level.
pub fn answer_here<'a, L: Ledger>(
    search: &Search<'a>,
    order: &'a [Reach],
    next: &mut Next<'a>,
    sure: bool,
    env: &Env<'a>,
    mark: i64,
    steps: &mut Steps<L>,
) -> TruthOfRows
    requires { CanAnswer search.now order.now next.old sure env.now mark }
    ensures holds { is_true result
        ≡ holds_here search.now.index.now (searched search.now) mark order.now env.now }
    ensures never { result ≡ Never
        → IsNever search.now.index.now query_var (searched search.now).body env.now }
    ensures next { IsNearestIfKnown search.now.probe.now.path env.now next.new }
    ensures steps { steps.new ≤ steps.old
        + cost_here search.now.index.now (searched search.now) mark sure order.now env.now }
    ensures more { steps.old ≤ steps.new }
{
    if has_rest(search, order, next, sure, env, mark, steps) {
        let body = search.probe.body;
        body_answer(search, body, Var(0), env, steps)
    } else {
        TruthOfRows::False
    }
}

/// Returns whether the rest of the path exists beside these rows and the body is true of them. If
/// the rest is sure to exist beside rows that may go on, it isn't looked for. The nearest step is
/// found once for all rows of a level.
pub fn holds_here<'a, L: Ledger>(
    search: &Search<'a>,
    order: &'a [Reach],
    next: &mut Next<'a>,
    sure: bool,
    env: &Env<'a>,
    mark: i64,
    steps: &mut Steps<L>,
) -> bool
    requires { CanAnswer search.now order.now next.old sure env.now mark }
    ensures holds { result
        ≡ holds_here search.now.index.now (searched search.now) mark order.now env.now }
    ensures next { IsNearestIfKnown search.now.probe.now.path env.now next.new }
    ensures steps { steps.new ≤ steps.old
        + cost_here search.now.index.now (searched search.now) mark sure order.now env.now }
    ensures more { steps.old ≤ steps.new }
{
    has_rest(search, order, next, sure, env, mark, steps)
        && body_holds(search, search.probe.body, env, steps)
}

/// Returns the order in which the part at this place of the query binds its variables.
pub fn order_at(plan: &Plan, place: usize) -> &[Reach]
    ensures { (part : Ranged) → slice_get plan.now.query.parts place ≡ Some part
        → result.now ≡ part_order part }
{
    match plan.orders.as_slice().get(place) {
        None => &[],
        Some(order) => order.as_slice(),
    }
}

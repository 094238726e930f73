//! Whether a probe finds a document beside a driving row.

ghost use Rattle.std.specs.Prelude.{◌≡◌, ◌+◌, ◌≤◌, length, option_to_list, if◌then◌else◌};
ghost use Rattle.probe_eval.specs.Searches.{searched, CanSearch};
ghost use Rattle.probe_eval.specs.Levels.{IsSure};
ghost use Rattle.probe_eval.specs.Nested.{was_seen, new_doc, hit_if, holds_here, cost_here};
ghost use Rattle.probe_eval.specs.Nested.{hits_over, work_over};
ghost use Rattle.wake_plan.specs.Turns.{has_hit};

use access_plan::Reach;
use probe_eval::{Next, Search, holds_here, new_doc, next_level, rows_beside};
use std::sync::ledger::Ledger;
use tap_base::Steps;
use tap_rows::KeptDoc;
use tql_core::{Env, RowRef, Var};

// Returns whether the document isn't in the box and the probe finds it with the mark.
fn delivers_pair<'a, L: Ledger>(
    search: &Search<'a>,
    doc: &KeptDoc,
    order: &'a [Reach],
    sure: bool,
    env: &Env<'a>,
    mark: i64,
    steps: &mut Steps<L>,
) -> bool
    requires search { CanSearch search.now (length env.now + length order.now) }
    requires sure { IsSure search.now.index.now search.now.probe.now.path mark
        order.now env.now sure }
    ensures hits { result ≡ has_hit (option_to_list (hit_if
        (holds_here search.now.index.now (searched search.now) mark order.now env.now) mark
        (new_doc search.now.seen.now doc.now))) }
    ensures steps { steps.new ≤ steps.old + (if was_seen search.now.seen.now doc.now then 0
        else cost_here search.now.index.now (searched search.now) mark sure order.now env.now) }
    ensures more { steps.old ≤ steps.new }
{
    match new_doc(search.seen, doc) {
        None => false,
        Some(_) => holds_here(search, order, &mut Next::Unknown, sure, env, mark, steps),
    }
}

/// Returns whether a document that isn't in the box is found with the mark beside the rows of
/// `env`. It binds the nearest step's rows next, until the document that the query is about has a
/// row, and stops at the first that is found. At most as many steps are left as `order` has. If the
/// rest is sure to exist beside rows that may go on, it isn't looked for.
pub(crate) fn delivers<'a, L: Ledger>(
    search: &Search<'a>,
    order: &'a [Reach],
    sure: bool,
    env: &Env<'a>,
    mark: i64,
    steps: &mut Steps<L>,
) -> bool
    requires search { CanSearch search.now (length env.now + length order.now) }
    requires sure { IsSure search.now.index.now search.now.probe.now.path mark
        order.now env.now sure }
    ensures hits { result ≡ has_hit (hits_over search.now.seen.now search.now.index.now
        (searched search.now) mark order.now env.now) }
    ensures steps { steps.new ≤ steps.old + work_over (was_seen search.now.seen.now)
        search.now.index.now (searched search.now) mark sure order.now env.now }
    ensures more { steps.old ≤ steps.new }
{
    match env.get(Var(0)) {
        Some(RowRef::OfDoc(doc)) => delivers_pair(search, doc, order, sure, env, mark, steps),
        Some(RowRef::OfNote(_)) => false,
        None => {
            if let Some(level) = next_level(search, order, &mut Next::Unknown, env, mark, steps) {
                let path = search.probe.path.as_slice();
                let mut rows = rows_beside(path, level.reach, level.sole, mark, env, search.index);
                while let Some(row) = rows.next(steps) {
                    let more = env.bind(level.reach.var, row);
                    if delivers(search, level.rest, level.sure, &more, mark, steps) {
                        return true;
                    }
                }
            }
            false
        }
    }
}

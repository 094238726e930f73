//! Whether the rest of a path exists beside some rows.

ghost use Rattle.std.specs.Prelude.{◌≡◌, ◌+◌, ◌≤◌, [], length, true, Option, Some};
ghost use Rattle.access_plan.specs.declared.reach.Reach.{Reach};
ghost use Rattle.tap_rows.specs.declared.tables.Tables.{Tables};
ghost use Rattle.access_plan.specs.Views.{option_reach};
ghost use Rattle.probe_eval.specs.Nexts.{IsFoundNearest, IsNearestIfKnown};
ghost use Rattle.probe_eval.specs.Open.{may_go};
ghost use Rattle.probe_eval.specs.Rests.{further, rest_of, rest_cost};

use crate::Next;
use crate::narrow::rows_beside;
use crate::open::{may_go, path_apart};
use access_plan::{Reach, ReachRef};
use row_index::RowIndex;
use std::sync::ledger::Ledger;
use tap_base::Steps;
use time_marks::Step;
use tql_core::Env;

/// Returns the step of a path that is looked for next. `None` comes if each has a row or the rows
/// so far are refused. The nearest step is found once for all rows of a level.
pub(crate) fn further_once<'a>(
    path: &'a [Step],
    next: &mut Next<'a>,
    mark: i64,
    env: &Env<'a>,
) -> Option<ReachRef<'a>>
    requires { IsNearestIfKnown path.now env.now next.old }
    ensures reach { option_reach result ≡ further path.now mark env.now }
    ensures next { IsNearestIfKnown path.now env.now next.new }
    ensures found { (r : Reach) → option_reach result ≡ Some r
        → IsFoundNearest path.now env.now next.new }
{
    if may_go(path, mark, env) {
        next.get(path, env)
    } else {
        None
    }
}

// Returns whether each step of the path has a row, arrived by the mark, and all guards are true.
fn is_ended<'a>(path: &'a [Step], next: &mut Next<'a>, env: &Env<'a>, mark: i64) -> bool
    requires { IsNearestIfKnown path.now env.now next.old }
    ensures ended { (T : Tables) → result ≡ rest_of T path.now mark [] env.now }
    ensures next { IsNearestIfKnown path.now env.now next.new }
{
    if may_go(path, mark, env) {
        next.get(path, env).is_none()
    } else {
        false
    }
}

/// Returns whether there are rows for the rest of the path, as `rest_exists` does. If no step is
/// left, no level is made.
pub(crate) fn rest_found<'a, L: Ledger>(
    path: &'a [Step],
    order: &'a [Reach],
    next: &mut Next<'a>,
    env: &Env<'a>,
    mark: i64,
    index: &'a RowIndex,
    steps: &mut Steps<L>,
) -> bool
    requires room { length env.now + length order.now ≤ 16 }
    requires next { IsNearestIfKnown path.now env.now next.old }
    ensures exists { result ≡ rest_of index.now path.now mark order.now env.now }
    ensures next { IsNearestIfKnown path.now env.now next.new }
    ensures steps { steps.new ≤ steps.old + rest_cost index.now path.now mark order.now env.now }
    ensures more { steps.old ≤ steps.new }
{
    match order.split_first() {
        None => is_ended(path, next, env, mark),
        Some(_) => rest_exists(path, order, next, env, mark, index, steps),
    }
}

// Returns whether there are rows for the rest of the path beside rows that may go on.
fn rest_open<'a, L: Ledger>(
    path: &'a [Step],
    order: &'a [Reach],
    next: &mut Next<'a>,
    env: &Env<'a>,
    mark: i64,
    index: &'a RowIndex,
    steps: &mut Steps<L>,
) -> bool
    requires room { length env.now + length order.now ≤ 16 }
    requires open { may_go path.now mark env.now ≡ true }
    requires next { IsNearestIfKnown path.now env.now next.old }
    ensures exists { result ≡ rest_of index.now path.now mark order.now env.now }
    ensures next { IsNearestIfKnown path.now env.now next.new }
    ensures steps { steps.new ≤ steps.old + rest_cost index.now path.now mark order.now env.now }
    ensures more { steps.old ≤ steps.new }
{
    match next.get(path, env) {
        None => true,
        Some(reach) => match order.split_first() {
            None => false,
            Some((_, rest)) => {
                let mut rows = rows_beside(path, reach, next.sole(), mark, env, index);
                let mut below = Next::Unknown;
                while let Some(row) = rows.next(steps) {
                    let more = env.bind(reach.var, row);
                    if may_go(path, mark, &more) {
                        if rest_open(path, rest, &mut below, &more, mark, index, steps) {
                            return true;
                        }
                        if path_apart(path, env, reach.var) {
                            return false;
                        }
                    }
                }
                false
            }
        },
    }
}

/// Returns whether there are rows for the rest of the path, arrived by the mark, with which all
/// guards are true. It stops at the first row that decides: beside it the rest exists, or no guard
/// names it and a row that is still looked for, so that there is no rest beside any other row of
/// its level. At most as many steps are left as `order` has. The nearest step is found once for all
/// rows of a level.
pub(crate) fn rest_exists<'a, L: Ledger>(
    path: &'a [Step],
    order: &'a [Reach],
    next: &mut Next<'a>,
    env: &Env<'a>,
    mark: i64,
    index: &'a RowIndex,
    steps: &mut Steps<L>,
) -> bool
    requires room { length env.now + length order.now ≤ 16 }
    requires next { IsNearestIfKnown path.now env.now next.old }
    ensures exists { result ≡ rest_of index.now path.now mark order.now env.now }
    ensures next { IsNearestIfKnown path.now env.now next.new }
    ensures steps { steps.new ≤ steps.old + rest_cost index.now path.now mark order.now env.now }
    ensures more { steps.old ≤ steps.new }
{
    if !may_go(path, mark, env) {
        return false;
    }
    rest_open(path, order, next, env, mark, index, steps)
}

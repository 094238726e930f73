//! The rows that are walked next on the way from a driving row to the document that the query is
//! about.

ghost use Rattle.std.specs.Prelude.{◌≡◌, ◌+◌, ◌≤◌, [], Bool, None, IfSome};
ghost use Rattle.tap_rows.specs.declared.rows.Doc.{Doc};
ghost use Rattle.tql_core.specs.Values.{lookup};
ghost use Rattle.probe_eval.specs.Nexts.{IsNearestIfKnown};
ghost use Rattle.probe_eval.specs.Searches.{searched};
ghost use Rattle.probe_eval.specs.Nested.{has_more, is_once, is_walked, once_cost, hits_over};
ghost use Rattle.probe_eval.specs.Nested.{work_over};
ghost use Rattle.probe_eval.specs.Levels.{IsLevel, level_cost};
ghost use Rattle.probe_eval.specs.Walks.{CanWalk};

use crate::open::path_apart;
use crate::rests::{further_once, rest_exists};
use crate::{Next, Search};
use access_plan::{AccessRef, Reach, ReachRef};
use std::sync::ledger::Ledger;
use tap_base::Steps;
use time_marks::Step;
use tql_core::{Env, Var};

/// The rows of the step that is looked for next, the access by which they are walked, if guards
/// give no other one beside rows of the same variables, the order that is left below them, and
/// whether the rest of the path is sure to exist beside each that may go on.
#[derive(Clone, Copy)]
pub struct Level<'a> {
    pub reach: ReachRef<'a>,
    pub sole: Option<AccessRef<'a>>,
    pub rest: &'a [Reach],
    pub sure: bool,
}

// Returns whether there is a reach.
fn has_more(rest: &[Reach]) -> bool
    ensures { result ≡ has_more rest.now }
{
    match rest.split_first() {
        None => false,
        Some(_) => true,
    }
}

// Returns whether the query's documents are walked next, and the rest is the same beside each of
// them.
fn is_once(path: &[Step], env: &Env, rest: &[Reach], var: Var) -> bool
    ensures { result ≡ is_once path.now env.now rest.now var }
{
    has_more(rest) && var.0 == 0 && path_apart(path, env, var)
}

// Returns whether the rows are walked: not if the rest is looked for once, and there is none.
fn is_walked<'a, L: Ledger>(
    search: &Search<'a>,
    order: &'a [Reach],
    next: &mut Next<'a>,
    once: bool,
    env: &Env<'a>,
    mark: i64,
    steps: &mut Steps<L>,
) -> bool
    requires { CanWalk search.now order.now next.old env.now }
    ensures walked { result
        ≡ is_walked search.now.index.now (searched search.now) mark once order.now env.now }
    ensures next { IsNearestIfKnown search.now.probe.now.path env.now next.new }
    ensures steps { steps.new ≤ steps.old
        + once_cost search.now.index.now (searched search.now) mark once order.now env.now 0 }
    ensures more { steps.old ≤ steps.new }
{
    if once {
        rest_exists(
            search.probe.path.as_slice(),
            order,
            next,
            env,
            mark,
            search.index,
            steps,
        )
    } else {
        true
    }
}

/// Returns the rows that are walked next beside those of `env`, as long as the document that the
/// query is about has no row. If no guard names that document beside a row that is still looked
/// for, the rest is looked for once, before its rows are walked. `None` comes if no step is left,
/// or if nothing is found beside the rows of `env`.
pub fn next_level<'a, L: Ledger>(
    search: &Search<'a>,
    order: &'a [Reach],
    next: &mut Next<'a>,
    env: &Env<'a>,
    mark: i64,
    steps: &mut Steps<L>,
) -> Option<Level<'a>>
    requires walk { CanWalk search.now order.now next.old env.now }
    requires fresh { lookup 0 env.now ≡ None }
    ensures some { IfSome result (λ level. IsLevel search.now.seen.now search.now.index.now
        (searched search.now) mark order.now env.now level) }
    ensures none { result ≡ None
        → hits_over search.now.seen.now search.now.index.now (searched search.now) mark
        order.now env.now ≡ [] }
    ensures next { IsNearestIfKnown search.now.probe.now.path env.now next.new }
    ensures steps { (passed : Doc → Bool) (sure : Bool) → steps.new
        + level_cost passed search.now.index.now (searched search.now) mark env.now result
        ≤ steps.old + work_over passed search.now.index.now (searched search.now) mark sure
        order.now env.now }
    ensures more { steps.old ≤ steps.new }
{
    let path = search.probe.path.as_slice();
    let (_, rest) = order.split_first()?;
    let reach = further_once(path, next, mark, env)?;
    let sole = next.sole();
    let sure = is_once(path, env, rest, reach.var);
    if is_walked(search, order, next, sure, env, mark, steps) {
        Some(Level {
            reach,
            sole,
            rest,
            sure,
        })
    } else {
        None
    }
}

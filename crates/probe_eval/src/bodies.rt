//! The truth of a body, and whether it is false beside all rows of a variable.

ghost use Rattle.std.specs.Prelude.{◌≡◌, ◌+◌, ◌≤◌, pos, false, is_none, IfSome};
ghost use Rattle.std.specs.List.{list_any};
ghost use Rattle.tql_tree.specs.declared.table.Table.{Table};
ghost use Rattle.tql_core.specs.Condition.{Exists};
ghost use Rattle.tql_core.specs.Holds.{truth};
ghost use Rattle.tql_core.specs.Values.{bind};
ghost use Rattle.probe_eval.specs.declared.answer.TruthOfRows.TheVariants.{Never};
ghost use Rattle.probe_eval.specs.Answers.{is_true, IsNever, IsWhyFalse};
ghost use Rattle.probe_eval.specs.Work.{work, exists_work};
ghost use Rattle.probe_eval.specs.Conjuncts.{fixed_part, own_part};
ghost use Rattle.probe_eval.specs.Searches.{condition_at, CanEvaluate, CanEvaluateInner, IsExists};

use crate::inner_rows::rows_left;
use crate::names::names;
use crate::{RowWalk, Search, TruthOfRows};
use node_pool::NodeId;
use std::sync::ledger::Ledger;
use tap_base::Steps;
use tql_core::{Env, TNode, Var, node_at, true_atom};
use tql_tree::Table;

/// Returns whether the body at the number is true. `Never` comes only if it is false whatever row
/// the variable has: if what makes it false doesn't name the variable. No row is walked but those
/// that the truth needs.
pub(crate) fn body_answer<'a, L: Ledger>(
    search: &Search<'a>,
    body: NodeId,
    var: Var,
    env: &Env<'a>,
    steps: &mut Steps<L>,
) -> TruthOfRows
    requires { CanEvaluate search.now body.0 env.now }
    ensures truth { is_true result
        ≡ truth search.now.index.now (pos 0) (condition_at search.now body.0) env.now }
    ensures never { result ≡ Never
        → IsNever search.now.index.now var (condition_at search.now body.0) env.now }
    ensures steps { steps.new
        ≤ steps.old + work search.now.index.now (condition_at search.now body.0) env.now }
    ensures more { steps.old ≤ steps.new }
{
    match why_false(search, body, env, steps) {
        None => TruthOfRows::True,
        Some(why) => {
            if names(&search.plan.query.pool, why, var) {
                TruthOfRows::False
            } else {
                TruthOfRows::Never
            }
        }
    }
}

/// Returns whether the body at the number is true over all rows.
#[cycle(bodies)]
pub(crate) fn body_holds<'a, L: Ledger>(
    search: &Search<'a>,
    body: NodeId,
    env: &Env<'a>,
    steps: &mut Steps<L>,
) -> bool
    requires { CanEvaluate search.now body.0 env.now }
    ensures truth { result
        ≡ truth search.now.index.now (pos 0) (condition_at search.now body.0) env.now }
    ensures steps { steps.new
        ≤ steps.old + work search.now.index.now (condition_at search.now body.0) env.now }
    ensures more { steps.old ≤ steps.new }
{
    why_false(search, body, env, steps).is_none()
}

// Returns `None` if the condition at the number is true over all rows, and else what makes it
// false: itself, or a conjunct of it, or of the inner condition of an EXISTS that is a conjunct and
// whose variable it doesn't name. It stops at the first row that decides an EXISTS. From the third
// row on, the conjuncts that don't name the variable of the EXISTS are evaluated once. It takes no
// memory.
#[cycle(bodies)]
fn why_false<'a, L: Ledger>(
    search: &Search<'a>,
    body: NodeId,
    env: &Env<'a>,
    steps: &mut Steps<L>,
) -> Option<NodeId>
    requires { CanEvaluate search.now body.0 env.now }
    ensures truth { is_none result
        ≡ truth search.now.index.now (pos 0) (condition_at search.now body.0) env.now }
    ensures why { IfSome result (λ why.
        IsWhyFalse search.now (condition_at search.now body.0) env.now why.0) }
    ensures steps { steps.new
        ≤ steps.old + work search.now.index.now (condition_at search.now body.0) env.now }
    ensures more { steps.old ≤ steps.new }
{
    match node_at(&search.plan.query.pool, body) {
        TNode::True => None,
        TNode::False => Some(body),
        TNode::Plain(atom) => {
            if true_atom(atom, env) {
                None
            } else {
                Some(body)
            }
        }
        TNode::All(l, r) => match why_false(search, *l, env, steps) {
            None => why_false(search, *r, env, steps),
            Some(why) => Some(why),
        },
        TNode::Either(l, r) => {
            if body_holds(search, *l, env, steps) || body_holds(search, *r, env, steps) {
                None
            } else {
                Some(body)
            }
        }
        TNode::Not(x) => {
            if body_holds(search, *x, env, steps) {
                Some(body)
            } else {
                None
            }
        }
        TNode::Exists(var, table, x) => why_no_row(search, body, *x, *var, *table, env, steps),
    }
}

// Returns `None` if the EXISTS at the number `body` is true, whose inner condition is at `inner`,
// and else what makes it false.
#[cycle(bodies)]
fn why_no_row<'a, L: Ledger>(
    search: &Search<'a>,
    body: NodeId,
    inner: NodeId,
    var: Var,
    table: Table,
    env: &Env<'a>,
    steps: &mut Steps<L>,
) -> Option<NodeId>
    requires inner { CanEvaluateInner search.now inner.0 env.now }
    requires exists { IsExists search.now body.0 var table inner.0 }
    ensures truth { is_none result ≡ truth search.now.index.now (pos 0)
        (Exists var table (condition_at search.now inner.0)) env.now }
    ensures why { IfSome result (λ why.
        IsWhyFalse search.now (Exists var table (condition_at search.now inner.0)) env.now why.0) }
    ensures steps { steps.new ≤ steps.old
        + work search.now.index.now (Exists var table (condition_at search.now inner.0)) env.now }
    ensures more { steps.old ≤ steps.new }
{
    let mut rows = rows_left(search, body, inner, var, table, env);
    match rows.next(steps) {
        None => Some(inner),
        Some(row) => {
            if body_holds(search, inner, &env.bind(var, row), steps) {
                None
            } else {
                why_no_second(search, inner, var, rows, env, steps)
            }
        }
    }
}

// Returns `None` if the condition at the number is true with one of the rows, and else what makes
// an EXISTS false that has no other rows. With the first of these rows it is evaluated whole: if
// there are no more, that costs less than to look for the conjuncts that name the variable.
#[cycle(bodies)]
fn why_no_second<'a, L: Ledger>(
    search: &Search<'a>,
    inner: NodeId,
    var: Var,
    mut rows: RowWalk<'a>,
    env: &Env<'a>,
    steps: &mut Steps<L>,
) -> Option<NodeId>
    requires { CanEvaluateInner search.now inner.0 env.now }
    ensures truth { is_none result ≡ list_any
        (λ row. truth search.now.index.now (pos 0) (condition_at search.now inner.0)
        (bind var row env.now)) rows.entry }
    ensures why { (table : Table)
        → truth search.now.index.now (pos 0)
        (Exists var table (condition_at search.now inner.0)) env.now ≡ false
        → IfSome result (λ why.
        IsWhyFalse search.now (Exists var table (condition_at search.now inner.0)) env.now why.0) }
    ensures steps { steps.new ≤ steps.old + exists_work search.now.index.now var
        (condition_at search.now inner.0) env.now rows.entry }
    ensures more { steps.old ≤ steps.new }
{
    match rows.next(steps) {
        None => Some(inner),
        Some(row) => {
            if body_holds(search, inner, &env.bind(var, row), steps) {
                None
            } else {
                why_no_later(search, inner, var, rows, env, steps)
            }
        }
    }
}

// Returns `None` if the condition at the number is true with one of the rows, and else what makes
// an EXISTS false that has no other rows. Its conjuncts that don't name the variable are evaluated
// once, with the first of these rows.
#[cycle(bodies)]
fn why_no_later<'a, L: Ledger>(
    search: &Search<'a>,
    inner: NodeId,
    var: Var,
    mut rows: RowWalk<'a>,
    env: &Env<'a>,
    steps: &mut Steps<L>,
) -> Option<NodeId>
    requires { CanEvaluateInner search.now inner.0 env.now }
    ensures truth { is_none result ≡ list_any
        (λ row. truth search.now.index.now (pos 0) (condition_at search.now inner.0)
        (bind var row env.now)) rows.entry }
    ensures why { (table : Table)
        → truth search.now.index.now (pos 0)
        (Exists var table (condition_at search.now inner.0)) env.now ≡ false
        → IfSome result (λ why.
        IsWhyFalse search.now (Exists var table (condition_at search.now inner.0)) env.now why.0) }
    ensures steps { steps.new ≤ steps.old + exists_work search.now.index.now var
        (condition_at search.now inner.0) env.now rows.entry }
    ensures more { steps.old ≤ steps.new }
{
    match rows.next(steps) {
        None => Some(inner),
        Some(row) => {
            let more = env.bind(var, row);
            match why_fixed_false(search, inner, var, &more, steps) {
                None => {
                    if own_holds(search, inner, var, &more, steps) {
                        return None;
                    }
                    if any_own(search, inner, var, rows, env, steps) {
                        None
                    } else {
                        Some(inner)
                    }
                }
                Some(why) => Some(why),
            }
        }
    }
}

// Returns whether the conjuncts that name the variable are true with one of the rows.
#[cycle(bodies)]
fn any_own<'a, L: Ledger>(
    search: &Search<'a>,
    inner: NodeId,
    var: Var,
    mut rows: RowWalk<'a>,
    env: &Env<'a>,
    steps: &mut Steps<L>,
) -> bool
    requires { CanEvaluateInner search.now inner.0 env.now }
    ensures truth { result ≡ list_any
        (λ row. truth search.now.index.now (pos 0) (own_part var (condition_at search.now inner.0))
        (bind var row env.now)) rows.entry }
    ensures steps { steps.new ≤ steps.old + exists_work search.now.index.now var
        (own_part var (condition_at search.now inner.0)) env.now rows.entry }
    ensures more { steps.old ≤ steps.new }
{
    while let Some(row) = rows.next(steps) {
        if own_holds(search, inner, var, &env.bind(var, row), steps) {
            return true;
        }
    }
    false
}

// Returns `None` if the conjuncts of the condition at the number that don't name the variable are
// true, and else what makes one of them false.
#[cycle(bodies)]
fn why_fixed_false<'a, L: Ledger>(
    search: &Search<'a>,
    body: NodeId,
    var: Var,
    env: &Env<'a>,
    steps: &mut Steps<L>,
) -> Option<NodeId>
    requires { CanEvaluate search.now body.0 env.now }
    ensures truth { is_none result ≡ truth search.now.index.now (pos 0)
        (fixed_part var (condition_at search.now body.0)) env.now }
    ensures why { IfSome result (λ why.
        IsWhyFalse search.now (fixed_part var (condition_at search.now body.0)) env.now why.0) }
    ensures steps { steps.new ≤ steps.old
        + work search.now.index.now (fixed_part var (condition_at search.now body.0)) env.now }
    ensures more { steps.old ≤ steps.new }
{
    match node_at(&search.plan.query.pool, body) {
        TNode::All(l, r) => match why_fixed_false(search, *l, var, env, steps) {
            None => why_fixed_false(search, *r, var, env, steps),
            Some(why) => Some(why),
        },
        _ => {
            if names(&search.plan.query.pool, body, var) {
                None
            } else {
                why_false(search, body, env, steps)
            }
        }
    }
}

// Returns whether the conjuncts of the condition at the number that name the variable are true.
#[cycle(bodies)]
fn own_holds<'a, L: Ledger>(
    search: &Search<'a>,
    body: NodeId,
    var: Var,
    env: &Env<'a>,
    steps: &mut Steps<L>,
) -> bool
    requires { CanEvaluate search.now body.0 env.now }
    ensures truth { result ≡ truth search.now.index.now (pos 0)
        (own_part var (condition_at search.now body.0)) env.now }
    ensures steps { steps.new ≤ steps.old
        + work search.now.index.now (own_part var (condition_at search.now body.0)) env.now }
    ensures more { steps.old ≤ steps.new }
{
    match node_at(&search.plan.query.pool, body) {
        TNode::All(l, r) => {
            own_holds(search, *l, var, env, steps) && own_holds(search, *r, var, env, steps)
        }
        _ => !names(&search.plan.query.pool, body, var) || body_holds(search, body, env, steps),
    }
}

//! The rows of the next step of a path: those of the shortest list that a guard gives, without
//! those that the mark or a comparison of numbers or times rules out.
//!
//! A posting list is in order of number and of arrival. A guard such as `r.id > m.id` rules out all
//! of its front, or all of its end, and the mark all of its end, so that these are found by halving
//! and not walked.

ghost use Rattle.std.specs.Prelude.{◌≡◌, ◌⊎◌, [], ◌∷◌, None, false, filter};
ghost use Rattle.tql_core.specs.Row.{OfDoc};
ghost use Rattle.access_plan.specs.Accesses.{is_held, accesses_by};
ghost use Rattle.access_plan.specs.Views.{access_at, option_access, reach_at};
ghost use Rattle.probe_eval.specs.Nexts.{IsSole};
ghost use Rattle.probe_eval.specs.Shortest.{shortest_after};
ghost use Rattle.probe_eval.specs.SingleLists.{IsSorted, single_key};
ghost use Rattle.probe_eval.specs.StepRows.{step_accesses, step_access, passes_open, passes_guards};
ghost use Rattle.probe_eval.specs.StepRows.{passes_path, passes_step, step_rows, next_rows};
ghost use Rattle.probe_eval.specs.Work.{is_list, all_rows_by, rows_by};

use crate::access_rows::rows_by;
use crate::cuts::{cut_by, is_half_guard};
use crate::lists::{is_list, many_list, shorter_access, text_list};
use crate::open::atom_known;
use crate::row_walk::RowWalk;
use access_plan::{AccessRef, Known, ReachRef, access_by};
use row_index::{Limit, ListCut, Order, PostingList, RowIndex};
use time_marks::Step;
use tql_core::{Atom, Env, Var};
use tql_tree::Table;

// Returns the documents of the list with which the guard is true, if it cuts the list and can be
// evaluated.
fn cut_known<'a>(guard: &Atom, var: Var, env: &Env, docs: PostingList<'a>) -> PostingList<'a>
    requires { IsSorted docs }
    ensures { result ≡ filter (λ d. passes_open var env.now guard.now (OfDoc d)) docs.entry }
{
    if atom_known(Known::HeldOr(env, var), guard) {
        cut_by(guard, var, env, docs)
    } else {
        docs
    }
}

// Returns the same documents. Whether a guard can be evaluated is asked of comparisons alone.
fn cut_guard<'a>(guard: &Atom, var: Var, env: &Env, docs: PostingList<'a>) -> PostingList<'a>
    requires { IsSorted docs }
    ensures { result ≡ filter (λ d. passes_open var env.now guard.now (OfDoc d)) docs.entry }
{
    if is_half_guard(guard) {
        cut_known(guard, var, env, docs)
    } else {
        docs
    }
}

// Returns the documents of the list with which each such guard is true.
fn cut_guards<'a>(guards: &[Atom], var: Var, env: &Env, docs: PostingList<'a>) -> PostingList<'a>
    requires { IsSorted docs }
    ensures { result ≡ filter (λ d. passes_guards var env.now guards.now (OfDoc d)) docs.entry }
{
    match guards.split_first() {
        None => docs,
        Some((guard, rest)) => {
            let some = cut_guard(guard, var, env, docs);
            cut_guards(rest, var, env, some)
        }
    }
}

// Returns the documents of the list with which each such guard of the path is true.
fn cut_path<'a>(path: &[Step], var: Var, env: &Env, docs: PostingList<'a>) -> PostingList<'a>
    requires { IsSorted docs }
    ensures { result ≡ filter (λ d. passes_path var env.now path.now (OfDoc d)) docs.entry }
{
    match path.split_first() {
        None => docs,
        Some((step, rest)) => {
            let some = cut_guards(step.guards.as_slice(), var, env, docs);
            cut_path(rest, var, env, some)
        }
    }
}

/// Returns the documents of a posting list, or of a part of one, that have come by the mark, and
/// with which each guard of the path is true that cuts the list and can be evaluated.
pub fn docs_beside<'a>(
    path: &[Step],
    var: Var,
    docs: PostingList<'a>,
    mark: i64,
    env: &Env,
) -> PostingList<'a>
    requires { IsSorted docs }
    ensures { result ≡ filter (λ d. passes_step var mark env.now path.now (OfDoc d)) docs.entry }
{
    // Beside a list of none no guard is looked at.
    let none = docs.len() == 0;
    if none {
        return docs;
    }
    let come = docs.cut(ListCut {
        order: Order::Arrival,
        limit: Limit::UpTo,
        bound: i128::from(mark),
    });
    cut_path(path, var, env, come)
}

// Returns the shorter of the access to the variable's rows that the guard gives, if it gives one,
// and one before it.
fn shorter_by<'a>(
    best: Option<AccessRef<'a>>,
    guard: &'a Atom,
    var: Var,
    table: Table,
    env: &Env<'a>,
    index: &'a RowIndex,
) -> Option<AccessRef<'a>>
    ensures { option_access result ≡ shortest_after index.now env.now (option_access best.entry)
        (accesses_by (is_held env.now) var table (guard.now ∷ [])) }
{
    match access_by(Known::Held(env), var, table, guard) {
        None => best,
        Some(access) => shorter_access(best, access, env, index),
    }
}

// Returns the shortest of the accesses to the variable's rows that the guards give, and one before
// them.
fn shortest_by<'a>(
    best: Option<AccessRef<'a>>,
    guards: &'a [Atom],
    var: Var,
    table: Table,
    env: &Env<'a>,
    index: &'a RowIndex,
) -> Option<AccessRef<'a>>
    ensures { option_access result ≡ shortest_after index.now env.now (option_access best.entry)
        (accesses_by (is_held env.now) var table guards.now) }
{
    match guards.split_first() {
        None => best,
        Some((guard, rest)) => {
            let found = shorter_by(best, guard, var, table, env, index);
            shortest_by(found, rest, var, table, env, index)
        }
    }
}

// Returns the shortest of the accesses to the variable's rows that guards of the path give, and one
// before them.
fn shortest_on<'a>(
    best: Option<AccessRef<'a>>,
    path: &'a [Step],
    var: Var,
    table: Table,
    env: &Env<'a>,
    index: &'a RowIndex,
) -> Option<AccessRef<'a>>
    ensures { option_access result ≡ shortest_after index.now env.now (option_access best.entry)
        (step_accesses path.now env.now var table) }
{
    match path.split_first() {
        None => best,
        Some((step, rest)) => {
            let found = shortest_by(best, step.guards.as_slice(), var, table, env, index);
            shortest_on(found, rest, var, table, env, index)
        }
    }
}

// Returns the shortest of the accesses to the reach's rows that guards of the path give.
fn shortest_step<'a>(
    path: &'a [Step],
    reach: ReachRef<'a>,
    env: &Env<'a>,
    index: &'a RowIndex,
) -> AccessRef<'a>
    ensures { access_at result ≡ step_access index.now path.now env.now (reach_at reach.entry) }
{
    match shortest_on(None, path, reach.var, reach.table, env, index) {
        None => reach.access,
        Some(access) => access,
    }
}

/// Returns the access by which the rows of the reach are walked beside those of `env`: the shortest
/// that a guard of the path gives, which is `sole` if they give one alone. Lists are looked up for
/// their lengths without a step.
pub fn step_access<'a>(
    path: &'a [Step],
    reach: ReachRef<'a>,
    sole: Option<AccessRef<'a>>,
    env: &Env<'a>,
    index: &'a RowIndex,
) -> AccessRef<'a>
    requires { IsSole path.now env.now (reach_at reach) (option_access sole) }
    ensures { access_at result ≡ step_access index.now path.now env.now (reach_at reach.entry) }
{
    match sole {
        None => shortest_step(path, reach, env, index),
        Some(access) => access,
    }
}

// Returns the rows of an access that gives no posting list. A text that is absent isn't looked for
// again.
fn other_rows<'a>(
    access: AccessRef<'a>,
    mark: i64,
    env: &Env<'a>,
    index: &'a RowIndex,
) -> RowWalk<'a>
    requires { (is_list (access_at access) ≡ false)
        ⊎ (all_rows_by (access_at access) env.now index.now ≡ []) }
    ensures { result ≡ rows_by mark (access_at access.entry) env.now index.now }
{
    if is_list(access) {
        RowWalk::none()
    } else {
        rows_by(access, mark, env, index)
    }
}

/// Returns the rows of the access that are walked for the variable beside those of `env`.
pub fn step_rows<'a>(
    path: &[Step],
    var: Var,
    access: AccessRef<'a>,
    mark: i64,
    env: &Env<'a>,
    index: &'a RowIndex,
) -> RowWalk<'a>
    ensures { result ≡ step_rows (access_at access.entry) var mark env.now path.now index.now }
{
    if !is_list(access) {
        return rows_by(access, mark, env, index);
    }
    match text_list(access, env, index) {
        None => RowWalk::none(),
        Some(docs) => RowWalk::of_docs(docs_beside(path, var, docs, mark, env).walk()),
    }
}

/// Returns the same rows, if the access goes by no key of which each document has at most one, or
/// that key is absent, so that no list is looked for under it again.
pub fn many_rows<'a>(
    path: &[Step],
    var: Var,
    access: AccessRef<'a>,
    mark: i64,
    env: &Env<'a>,
    index: &'a RowIndex,
) -> RowWalk<'a>
    requires { single_key (access_at access) env.now ≡ None }
    ensures { result ≡ step_rows (access_at access.entry) var mark env.now path.now index.now }
{
    match many_list(access, env, index) {
        None => other_rows(access, mark, env, index),
        Some(docs) => RowWalk::of_docs(docs_beside(path, var, docs, mark, env).walk()),
    }
}

/// Returns the rows of the reach that are walked beside those of `env`.
pub fn rows_beside<'a>(
    path: &'a [Step],
    reach: ReachRef<'a>,
    sole: Option<AccessRef<'a>>,
    mark: i64,
    env: &Env<'a>,
    index: &'a RowIndex,
) -> RowWalk<'a>
    requires { IsSole path.now env.now (reach_at reach) (option_access sole) }
    ensures { result ≡ next_rows index.now path.now mark env.now (reach_at reach.entry) }
{
    let access = step_access(path, reach, sole, env, index);
    step_rows(path, reach.var, access, mark, env, index)
}

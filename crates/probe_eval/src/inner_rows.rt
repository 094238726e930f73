//! The rows of an EXISTS: those of the shortest list that a guard gives, without those that a
//! comparison of numbers or times rules out.

ghost use Rattle.std.specs.Prelude.{◌≡◌};
ghost use Rattle.tap_base.specs.Bytes.{IsPlaceOf};
ghost use Rattle.time_marks.specs.Marks.{guards_of};
ghost use Rattle.access_plan.specs.Views.{access_at};
ghost use Rattle.probe_eval.specs.Searches.{pool_of, condition_at, IsExists};
ghost use Rattle.probe_eval.specs.Work.{all_rows_by, cut_rows, reached};

use crate::Search;
use crate::access_rows::all_rows_by;
use crate::cuts::left_docs;
use crate::lists::{is_list, shortest, text_list};
use crate::row_walk::RowWalk;
use access_plan::AccessRef;
use node_pool::NodeId;
use tql_core::{Env, Var};
use tql_tree::Table;

// Returns the rows of an access, of a posting list those with which each guard of the inner
// condition is true that cuts the list.
fn cut_list<'a>(
    search: &Search<'a>,
    inner: NodeId,
    var: Var,
    access: AccessRef<'a>,
    env: &Env<'a>,
) -> RowWalk<'a>
    requires { IsPlaceOf (pool_of search.now) inner.0 }
    ensures { result ≡ cut_rows (access_at access.entry) var
        env.now (guards_of (condition_at search.now inner.0))
        (all_rows_by (access_at access.entry) env.now search.now.index.now) }
{
    if !is_list(access) {
        return all_rows_by(access, env, search.index);
    }
    match text_list(access, env, search.index) {
        None => RowWalk::none(),
        Some(docs) => {
            RowWalk::of_docs(left_docs(&search.plan.query.pool, inner, var, env, docs).walk())
        }
    }
}

/// Returns the rows of the EXISTS at the number `body` that are walked, whose inner condition is at
/// `inner`.
pub(crate) fn rows_left<'a>(
    search: &Search<'a>,
    body: NodeId,
    inner: NodeId,
    var: Var,
    table: Table,
    env: &Env<'a>,
) -> RowWalk<'a>
    requires node { IsPlaceOf (pool_of search.now) inner.0 }
    requires exists { IsExists search.now body.0 var table inner.0 }
    ensures { result
        ≡ reached search.now.index.now var table (condition_at search.now inner.0) env.now }
{
    let accesses = search.plan.inner_accesses(body, inner, var, table);
    match shortest(accesses, env, search.index) {
        None => all_rows_by(AccessRef::Whole(table), env, search.index),
        Some(access) => cut_list(search, inner, var, access, env),
    }
}

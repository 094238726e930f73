//! Guards that cut a posting list, found by halving.
//!
//! A posting list is in order of number and of arrival. A guard such as `v.ts > m.ts` rules out all
//! of its front, and one such as
//! `v.id < m.id` all of its end, so that neither is walked.

ghost use Rattle.std.specs.Prelude.{◌≡◌, not, ◌&&◌, ◌||◌, filter, Some};
ghost use Rattle.tap_base.specs.Bytes.{IsPlaceOf};
ghost use Rattle.tap_rows.specs.declared.rows.Doc.{Doc};
ghost use Rattle.tql_core.specs.declared.atom.Atom.TheVariants.{Numbers, Times};
ghost use Rattle.tql_core.specs.Row.{OfDoc};
ghost use Rattle.tql_core.specs.Trees.{tree_at};
ghost use Rattle.tql_core.specs.Values.{both};
ghost use Rattle.time_marks.specs.Marks.{guards_of};
ghost use Rattle.row_index.specs.Cuts.{rank};
ghost use Rattle.access_plan.specs.Accesses.{is_other};
ghost use Rattle.probe_eval.specs.Cuts.{cut_limit, is_half, is_half_guard, turned_op};
ghost use Rattle.probe_eval.specs.Cuts.{is_own_time, is_own_number};
ghost use Rattle.probe_eval.specs.Cuts.{passes_cut, passes_cuts, passes_test};
ghost use Rattle.probe_eval.specs.Open.{base_known, number_known};
ghost use Rattle.probe_eval.specs.SingleLists.{IsSorted};

use crate::open::{base_known, number_known};
use access_plan::Known;
use node_pool::{NodeId, Pool};
use row_index::{Limit, ListCut, Order, PostingList};
use tap_base::Op;
use tql_core::{Atom, Base, Env, NumExpr, NumField, TNode, Term, Var, node_at, number, value};

// Which documents of a list a guard leaves.
pub(crate) enum CutTest {
    All,
    By(ListCut),
    None,
}

// Returns which numbers stand on the left of a comparison that is true, if those are all on one
// side of the right one.
fn cut_limit(op: Op) -> Option<Limit>
    ensures { result ≡ cut_limit op }
{
    match op {
        Op::Eq => None,
        Op::Ne => None,
        Op::Lt => Some(Limit::Below),
        Op::Le => Some(Limit::UpTo),
        Op::Gt => Some(Limit::Above),
        Op::Ge => Some(Limit::From),
    }
}

// Returns whether there is such a side.
fn is_half(op: Op) -> bool
    ensures { result ≡ is_half op }
{
    match op {
        Op::Eq => false,
        Op::Ne => false,
        Op::Lt => true,
        Op::Le => true,
        Op::Gt => true,
        Op::Ge => true,
    }
}

/// Returns whether the guard is such a comparison of numbers or times. No other one cuts a list.
pub(crate) fn is_half_guard(guard: &Atom) -> bool
    ensures { result ≡ is_half_guard guard.now }
{
    match guard {
        Atom::Times(_, op, _) => is_half(*op),
        Atom::Numbers(_, op, _) => is_half(*op),
        _ => false,
    }
}

// Returns the comparison of the same with its sides exchanged.
fn turned_op(op: Op) -> Op
    ensures { result ≡ turned_op op }
{
    match op {
        Op::Lt => Op::Gt,
        Op::Le => Op::Ge,
        Op::Gt => Op::Lt,
        Op::Ge => Op::Le,
        Op::Eq => Op::Eq,
        Op::Ne => Op::Ne,
    }
}

// Returns whether the time is the arrival of the variable's row.
fn is_own_time(e: Term, var: Var) -> bool
    ensures { result ≡ is_own_time var e }
{
    e == Term {
        base: Base::Arrival(var),
        plus: 0,
    }
}

// Returns whether the number is that of the variable's row.
fn is_own_number(e: NumExpr, var: Var) -> bool
    ensures { result ≡ is_own_number var e }
{
    e == NumExpr::Field(var, NumField::Id)
}

// Returns whether the first time is the arrival of the variable's row, and the other one doesn't
// name that row.
fn is_time_beside(own: Term, other: Term, var: Var) -> bool
    ensures { result ≡ (is_own_time var own && base_known (is_other var) other.base) }
{
    is_own_time(own, var) && base_known(Known::AllBut(var), other.base)
}

// Returns whether the first number is that of the variable's row, and the other one doesn't name
// that row.
fn is_number_beside(own: NumExpr, other: NumExpr, var: Var) -> bool
    ensures { result ≡ (is_own_number var own && number_known (is_other var) other) }
{
    is_own_number(own, var) && number_known(Known::AllBut(var), other)
}

// Returns the documents whose arrivals or numbers stand so to the other side. If that is absent,
// there are none.
fn kept_by(order: Order, op: Op, other: Option<i128>) -> CutTest
    ensures { (d : Doc)
        → passes_test result d ≡ (not (is_half op) || both op (Some (rank order d)) other) }
{
    match cut_limit(op) {
        None => CutTest::All,
        Some(limit) => match other {
            None => CutTest::None,
            Some(bound) => CutTest::By(ListCut {
                order,
                limit,
                bound,
            }),
        },
    }
}

// Returns which documents a comparison of times leaves.
fn kept_by_times(x: Term, op: Op, y: Term, var: Var, env: &Env) -> CutTest
    ensures { (d : Doc) → passes_test result d ≡ passes_cut var env.now (Times x op y) (OfDoc d) }
{
    let first = is_time_beside(x, y, var);
    if first {
        return kept_by(Order::Arrival, op, value(y, env));
    }
    let second = is_time_beside(y, x, var);
    if second {
        return kept_by(Order::Arrival, turned_op(op), value(x, env));
    }
    CutTest::All
}

// Returns which documents a comparison of numbers leaves.
fn kept_by_numbers(x: NumExpr, op: Op, y: NumExpr, var: Var, env: &Env) -> CutTest
    ensures { (d : Doc) → passes_test result d ≡ passes_cut var env.now (Numbers x op y) (OfDoc d) }
{
    let first = is_number_beside(x, y, var);
    if first {
        return kept_by(Order::Number, op, number(y, env));
    }
    let second = is_number_beside(y, x, var);
    if second {
        return kept_by(Order::Number, turned_op(op), number(x, env));
    }
    CutTest::All
}

// Returns which documents a guard leaves.
fn kept_by_guard(guard: &Atom, var: Var, env: &Env) -> CutTest
    ensures { (d : Doc) → passes_test result d ≡ passes_cut var env.now guard.now (OfDoc d) }
{
    match guard {
        Atom::Times(x, op, y) => kept_by_times(*x, *op, *y, var, env),
        Atom::Numbers(x, op, y) => kept_by_numbers(*x, *op, *y, var, env),
        _ => CutTest::All,
    }
}

// Returns the documents of the list that pass the test.
fn kept<'a>(by: CutTest, docs: PostingList<'a>) -> PostingList<'a>
    requires { IsSorted docs }
    ensures { result ≡ filter (passes_test by) docs.entry }
{
    match by {
        CutTest::All => docs,
        CutTest::By(cut) => docs.cut(cut),
        CutTest::None => {
            let count = docs.len();
            docs.skip(count)
        }
    }
}

/// Returns the documents of the list with which the guard is true, if it cuts the list.
pub(crate) fn cut_by<'a>(
    guard: &Atom,
    var: Var,
    env: &Env,
    docs: PostingList<'a>,
) -> PostingList<'a>
    requires { IsSorted docs }
    ensures { result ≡ filter (λ d. passes_cut var env.now guard.now (OfDoc d)) docs.entry }
{
    if is_half_guard(guard) {
        kept(kept_by_guard(guard, var, env), docs)
    } else {
        docs
    }
}

// Returns the documents of the list with which each guard of the condition at the number is true
// that cuts the list.
fn cut_docs<'a>(
    pool: &Pool<TNode>,
    id: NodeId,
    var: Var,
    env: &Env,
    docs: PostingList<'a>,
) -> PostingList<'a>
    requires node { IsPlaceOf pool.now id.0 }
    requires docs { IsSorted docs }
    ensures { result ≡ filter
        (λ d. passes_cuts var env.now (guards_of (tree_at pool.now id.0)) (OfDoc d)) docs.entry }
{
    match node_at(pool, id) {
        TNode::Plain(guard) => cut_by(guard, var, env, docs),
        TNode::All(l, r) => {
            let some = cut_docs(pool, *l, var, env, docs);
            cut_docs(pool, *r, var, env, some)
        }
        _ => docs,
    }
}

/// Returns the documents of the list with which each guard of the condition at the number is true
/// that cuts the list. Beside a list of none no guard is looked at.
pub(crate) fn left_docs<'a>(
    pool: &Pool<TNode>,
    id: NodeId,
    var: Var,
    env: &Env,
    docs: PostingList<'a>,
) -> PostingList<'a>
    requires node { IsPlaceOf pool.now id.0 }
    requires docs { IsSorted docs }
    ensures { result ≡ filter
        (λ d. passes_cuts var env.now (guards_of (tree_at pool.now id.0)) (OfDoc d)) docs.entry }
{
    let none = docs.len() == 0;
    if none {
        return docs;
    }
    cut_docs(pool, id, var, env, docs)
}

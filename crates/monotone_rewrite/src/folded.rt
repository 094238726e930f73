//! Bodies of a condition at a time, folded into the nodes of a pool.

ghost use Rattle.std.specs.Prelude.{◌≡◌, IfOk, OnOk};
ghost use Rattle.tql_core.specs.Condition.{condition};
ghost use Rattle.tql_core.specs.Trees.{IsTreeAt, KeepsTrees};
ghost use Rattle.time_marks.specs.Marks.{body};
ghost use Rattle.monotone_rewrite.specs.Folding.{same_base, is_there, fold_atom, fold};

use crate::shared::{shared_all, shared_constant, shared_either, shared_exists, shared_not};
use node_pool::{NodeId, Pool};
use tap_base::{Copied, Memory, Op};
use tql_core::{Atom, Base, Cond, TNode, Term, compares, intern_node};

// Returns whether the bases are equal.
fn is_same_base(a: Base, b: Base) -> bool
    ensures { result ≡ same_base a b }
{
    match (a, b) {
        (Base::Arrival(v), Base::Arrival(w)) => v.0 == w.0,
        (Base::Date(v), Base::Date(w)) => v.0 == w.0,
        (Base::Fixed, Base::Fixed) => true,
        (Base::ArrivalDay(v, n), Base::ArrivalDay(w, k)) => v.0 == w.0 && n == k,
        (Base::DateDay(v, n), Base::DateDay(w, k)) => v.0 == w.0 && n == k,
        _ => false,
    }
}

// Returns whether each row that has the term has the base.
fn is_there(at: &Term, base: Base) -> bool
    ensures { result ≡ is_there at.now base }
{
    match base {
        Base::Arrival(_) => true,
        Base::Date(v) => is_same_base(Base::Date(v), at.base),
        Base::Fixed => true,
        Base::ArrivalDay(v, n) => is_same_base(Base::ArrivalDay(v, n), at.base),
        Base::DateDay(v, n) => is_same_base(Base::DateDay(v, n), at.base),
    }
}

/// Interns an atom, folded at the term: a comparison that is known is True or False. `Memory`
/// comes if memory runs out or the pool is full.
pub fn folded_atom(pool: &mut Pool<TNode>, at: &Term, atom: Atom) -> Result<NodeId, Memory>
    ensures kept { OnOk result (KeepsTrees pool.old pool.new) }
    ensures tree { IfOk result (λ id. IsTreeAt pool.new id.0 (fold_atom at.now atom)) }
{
    match atom {
        Atom::Numbers(x, op, y) => intern_node(pool, TNode::Plain(Atom::Numbers(x, op, y))),
        Atom::Texts(x, op, y) => intern_node(pool, TNode::Plain(Atom::Texts(x, op, y))),
        Atom::Has(v, f, y) => intern_node(pool, TNode::Plain(Atom::Has(v, f, y))),
        Atom::Times(x, op, y) => {
            if is_same_base(x.base, y.base) && is_there(at, x.base) {
                shared_constant(pool, compares(op, i128::from(x.plus), i128::from(y.plus)))
            } else {
                intern_node(pool, TNode::Plain(Atom::Times(x, op, y)))
            }
        }
    }
}

/// Interns the body of the condition at the term, folded from the leaves up, and returns its node.
/// `Memory` comes if memory runs out or the pool is full.
pub(crate) fn folded_body(pool: &mut Pool<TNode>, cond: &Cond, at: &Term) -> Result<NodeId, Memory>
    ensures kept { OnOk result (KeepsTrees pool.old pool.new) }
    ensures tree { IfOk result (λ id.
        IsTreeAt pool.new id.0 (fold at.now (body (condition cond.now) at.now))) }
{
    match cond {
        Cond::True => intern_node(pool, TNode::True),
        Cond::False => intern_node(pool, TNode::False),
        Cond::Plain(atom) => folded_atom(pool, at, atom.copied()?),
        Cond::NowAtLeast(term) => folded_atom(pool, at, Atom::Times(*at, Op::Ge, *term)),
        Cond::NowBefore(term) => folded_atom(pool, at, Atom::Times(*at, Op::Lt, *term)),
        Cond::All(l, r) => {
            let left = folded_body(pool, l, at)?;
            let right = folded_body(pool, r, at)?;
            let both = shared_all(pool, left, right)?;
            Ok(both)
        }
        Cond::Either(l, r) => {
            let left = folded_body(pool, l, at)?;
            let right = folded_body(pool, r, at)?;
            let either = shared_either(pool, left, right)?;
            Ok(either)
        }
        Cond::Not(x) => {
            let inner = folded_body(pool, x, at)?;
            let opposite = shared_not(pool, inner)?;
            Ok(opposite)
        }
        Cond::Exists(var, table, x) => {
            let arrival = Term {
                base: Base::Arrival(*var),
                plus: 0,
            };
            let here = folded_atom(pool, at, Atom::Times(arrival, Op::Le, *at))?;
            let inner = folded_body(pool, x, at)?;
            let both = shared_all(pool, here, inner)?;
            let some = shared_exists(pool, *var, *table, both)?;
            Ok(some)
        }
    }
}

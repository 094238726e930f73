//! Bodies of a condition at a time, in the nodes of a pool.

ghost use Rattle.std.specs.Prelude.{◌≡◌, IfOk, OnOk};
ghost use Rattle.tql_core.specs.Condition.{condition};
ghost use Rattle.tql_core.specs.Trees.{IsTreeAt, KeepsTrees};
ghost use Rattle.time_marks.specs.Marks.{body};

use crate::nodes::{all_node, either_node, exists_node, not_node};
use node_pool::{NodeId, Pool};
use tap_base::{Copied, Memory, Op};
use time_marks::arrival_term;
use tql_core::{Atom, Cond, TNode, Term, intern_node};

/// Interns the body of the condition at the term, and returns its node. `Memory` comes if memory
/// runs out or the pool is full.
pub(crate) fn body_at(pool: &mut Pool<TNode>, cond: &Cond, at: &Term) -> Result<NodeId, Memory>
    ensures kept { OnOk result (KeepsTrees pool.old pool.new) }
    ensures tree { IfOk result (λ id.
        IsTreeAt pool.new id.0 (body (condition cond.now) at.now)) }
{
    match cond {
        Cond::True => intern_node(pool, TNode::True),
        Cond::False => intern_node(pool, TNode::False),
        Cond::Plain(atom) => intern_node(pool, TNode::Plain(atom.copied()?)),
        Cond::NowAtLeast(term) => {
            intern_node(pool, TNode::Plain(Atom::Times(*at, Op::Ge, *term)))
        }
        Cond::NowBefore(term) => intern_node(pool, TNode::Plain(Atom::Times(*at, Op::Lt, *term))),
        Cond::All(l, r) => {
            let left = body_at(pool, l, at)?;
            let right = body_at(pool, r, at)?;
            let both = all_node(pool, left, right)?;
            Ok(both)
        }
        Cond::Either(l, r) => {
            let left = body_at(pool, l, at)?;
            let right = body_at(pool, r, at)?;
            let either = either_node(pool, left, right)?;
            Ok(either)
        }
        Cond::Not(x) => {
            let inner = body_at(pool, x, at)?;
            let opposite = not_node(pool, inner)?;
            Ok(opposite)
        }
        Cond::Exists(var, table, x) => {
            let come = Atom::Times(arrival_term(*var), Op::Le, *at);
            let here = intern_node(pool, TNode::Plain(come))?;
            let inner = body_at(pool, x, at)?;
            let both = all_node(pool, here, inner)?;
            let some = exists_node(pool, *var, *table, both)?;
            Ok(some)
        }
    }
}

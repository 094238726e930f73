//! Whether a body names a variable.

ghost use Rattle.std.specs.Prelude.{◌≡◌};
ghost use Rattle.tap_base.specs.Bytes.{IsPlaceOf};
ghost use Rattle.tql_core.specs.Trees.{tree_at};
ghost use Rattle.probe_eval.specs.Conjuncts.{mentions};

use crate::open::atom_known;
use access_plan::Known;
use node_pool::{NodeId, Pool};
use tql_core::{TNode, Var, node_at};

/// Returns whether the body at the number names the variable.
pub(crate) fn names(pool: &Pool<TNode>, body: NodeId, var: Var) -> bool
    requires { IsPlaceOf pool.now body.0 }
    ensures { result ≡ mentions var (tree_at pool.now body.0) }
{
    match node_at(pool, body) {
        TNode::True => false,
        TNode::False => false,
        TNode::Plain(atom) => !atom_known(Known::AllBut(var), atom),
        TNode::All(l, r) => names(pool, *l, var) || names(pool, *r, var),
        TNode::Either(l, r) => names(pool, *l, var) || names(pool, *r, var),
        TNode::Not(x) => names(pool, *x, var),
        TNode::Exists(_, _, x) => names(pool, *x, var),
    }
}

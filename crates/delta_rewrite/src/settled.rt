//! Bodies with the guards of a path true, folded into the nodes of a pool.

ghost use Rattle.std.specs.Prelude.{◌≡◌, IfOk, OnOk};
ghost use Rattle.std.specs.List.{list_any};
ghost use Rattle.tap_base.specs.Bytes.{IsPlaceOf};
ghost use Rattle.tql_core.specs.Condition.{Plain};
ghost use Rattle.tql_core.specs.Trees.{tree_at, IsTreeAt, KeepsTrees};
ghost use Rattle.tql_core.specs.contracts.atom.AtomPartialEq.TheImpl as atoms;
ghost use Rattle.monotone_rewrite.specs.Folding.{fold};
ghost use Rattle.delta_rewrite.specs.Delta.{is_guard, settled};

use monotone_rewrite::{folded_atom, shared_all, shared_either, shared_exists, shared_not};
use node_pool::{NodeId, Pool};
use tap_base::{Copied, Memory};
use time_marks::Step;
use tql_core::{Atom, TNode, Term, intern_node, node_at};

// Returns whether the atom is one of these.
fn has_atom(guards: &[Atom], atom: &Atom) -> bool
    ensures { result ≡ list_any (λ guard. atoms.ghosts.eq atom.now guard) guards.now }
{
    guards.iter().any(|guard| atom == guard)
}

// Returns whether the atom is a guard of the path.
fn is_guard(path: &[Step], atom: &Atom) -> bool
    ensures { result ≡ is_guard path.now atom.now }
{
    path.iter()
        .any(|step| has_atom(step.guards.as_slice(), atom))
}

// Interns an atom, folded at the term. A guard of the path is True.
fn settled_atom(
    pool: &mut Pool<TNode>,
    path: &[Step],
    at: &Term,
    atom: Atom,
) -> Result<NodeId, Memory>
    ensures kept { OnOk result (KeepsTrees pool.old pool.new) }
    ensures tree { IfOk result (λ id.
        IsTreeAt pool.new id.0 (fold at.now (settled path.now (Plain atom)))) }
{
    if is_guard(path, &atom) {
        intern_node(pool, TNode::True)
    } else {
        folded_atom(pool, at, atom)
    }
}

/// Interns the condition at the number with each guard of the path true, folded at the term, and
/// returns its node. `Memory` comes if memory runs out or the pool is full.
pub(crate) fn settled_body(
    pool: &mut Pool<TNode>,
    path: &[Step],
    at: &Term,
    id: NodeId,
) -> Result<NodeId, Memory>
    requires { IsPlaceOf pool.old id.0 }
    ensures kept { OnOk result (KeepsTrees pool.old pool.new) }
    ensures tree { IfOk result (λ other.
        IsTreeAt pool.new other.0 (fold at.now (settled path.now (tree_at pool.old id.0)))) }
{
    match node_at(pool, id) {
        TNode::True => Ok(id),
        TNode::False => Ok(id),
        TNode::Plain(atom) => {
            let atom = atom.copied()?;
            settled_atom(pool, path, at, atom)
        }
        TNode::All(l, r) => {
            let (l, r) = (*l, *r);
            let left = settled_body(pool, path, at, l)?;
            let right = settled_body(pool, path, at, r)?;
            let both = shared_all(pool, left, right)?;
            Ok(both)
        }
        TNode::Either(l, r) => {
            let (l, r) = (*l, *r);
            let left = settled_body(pool, path, at, l)?;
            let right = settled_body(pool, path, at, r)?;
            let either = shared_either(pool, left, right)?;
            Ok(either)
        }
        TNode::Not(x) => {
            let x = *x;
            let inner = settled_body(pool, path, at, x)?;
            let opposite = shared_not(pool, inner)?;
            Ok(opposite)
        }
        TNode::Exists(var, table, x) => {
            let (var, table, x) = (*var, *table, *x);
            let inner = settled_body(pool, path, at, x)?;
            let some = shared_exists(pool, var, table, inner)?;
            Ok(some)
        }
    }
}

/// Interns the condition at the number, folded at the term, and returns its node. `Memory` comes
/// if memory runs out or the pool is full.
pub(crate) fn folded_body(pool: &mut Pool<TNode>, at: &Term, id: NodeId) -> Result<NodeId, Memory>
    requires { IsPlaceOf pool.old id.0 }
    ensures kept { OnOk result (KeepsTrees pool.old pool.new) }
    ensures tree { IfOk result (λ other.
        IsTreeAt pool.new other.0 (fold at.now (tree_at pool.old id.0))) }
{
    let folded = settled_body(pool, &[], at, id)?;
    Ok(folded)
}

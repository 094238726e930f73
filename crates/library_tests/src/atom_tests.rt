//! Copies of atoms, and nodes of a pool.

ghost use Rattle.std.specs.Prelude.{◌≡◌, []};

use node_pool::{NodeId, Pool, PoolNode};
use std::alloc::Global;
use tap_base::{Copied, Memory, Text};
use tql_core::{Atom, ListField, TNode, TextExpr, Var};

// Returns the atom that a message has the word lunch.
fn has_lunch(alloc: Global) -> Result<Atom, Memory> {
    let word = Text::from_slice(alloc, b"lunch")?;
    Ok(Atom::Has(Var(0), ListField::Words, TextExpr::Literal(word)))
}

// Returns whether this is that atom.
fn is_has_lunch(atom: &Atom) -> bool {
    match atom {
        Atom::Has(var, ListField::Words, TextExpr::Literal(text)) => {
            *var == Var(0) && text.as_slice() == b"lunch".as_slice()
        }
        _ => false,
    }
}

// Returns whether a copy of the atom is that atom.
fn is_copied(atom: &Atom) -> Result<bool, Memory> {
    let copy = atom.copied()?;
    let same = is_has_lunch(&copy);
    drop(copy);
    Ok(same)
}

#[test]
fn an_atom_is_copied(rt: HostRuntime) -> Result<(), Memory> {
    let atom = has_lunch(rt.alloc())?;
    let same = is_copied(&atom);
    drop(atom);
    assert!(rt; same?);
    Ok(())
}

// Adds a node to a pool without nodes, one over it, and the first again.
fn add_nodes(pool: &mut Pool<TNode>) -> Result<[NodeId; 3], Memory>
    requires { pool.old ≡ [] }
{
    let always = pool.intern(TNode::True)?;
    let not = pool.intern(TNode::Not(always))?;
    let again = pool.intern(TNode::True)?;
    Ok([always, not, again])
}

#[test]
fn equal_nodes_have_one_number(rt: HostRuntime) -> Result<(), Memory> {
    let mut pool = Pool::new(rt.alloc());
    let added = add_nodes(&mut pool);
    let len = pool.len();
    drop(pool);
    let [always, not, again] = added?;
    assert_eq!(rt; always.0, 0);
    assert_eq!(rt; not.0, 1);
    assert_eq!(rt; again.0, 0);
    assert_eq!(rt; len, 2);
    assert_eq!(rt; TNode::Not(not).kids_below(1), false);
    Ok(())
}

//! Tests of a pool at a concrete type of nodes.
ghost use Rattle.std.specs.Prelude.{◌≡◌, true, [], IfOk, OnOk, ◌≤◌, ◌+◌, length};
ghost use Rattle.node_pool.specs.Pools.{are_below};

use node_pool::{NodeId, Pool, PoolNode};
use tap_base::Memory;

// A leaf, or the opposite of another node.
#[derive(Debug, PartialEq, Eq, Hash, Drop)]
enum Part {
    Leaf(u8),
    Not(NodeId),
}

impl PoolNode for Part {
    ghost use Rattle.std.specs.Prelude.{[], ◌∷◌};
    ghost use Rattle.library_tests.specs.declared.pool_tests.Part.TheVariants.{Leaf, Not};
    ghost use Rattle.std.proofs.Common.{ap};
    ghost use Rattle.std.proofs.lemmas.Bool.{false≢true, eqb-true};

    ghost kids = { elim [ Leaf n ↦ [] | Not x ↦ x.0 ∷ [] ] };

    fn kids_below(&self, limit: u32) -> bool {
        match self {
            Part::Leaf(_) => true,
            Part::Not(part) => part.0 < limit,
        }
    }

    ghost exact = { elim [
      | Leaf n ↦
          elim [ Leaf k ↦ λ h. ap Leaf (eqb-true n k h) | Not k ↦ λ h. absurd (false≢true h) ]
      | Not x ↦ elim [
        | Leaf k ↦ λ h. absurd (false≢true h)
        | Not y ↦ λ h. ap (λ i. Not (record { 0 = i })) (eqb-true x.0 y.0 h)
      ]
    ] };
}

#[test]
fn equal_nodes_have_one_number(rt: HostRuntime) -> Result<(), Memory> {
    let mut pool = Pool::new(rt.alloc());
    let leaf = pool.intern(Part::Leaf(7))?;
    let opposite = pool.intern(Part::Not(leaf))?;
    let again = pool.intern(Part::Leaf(7))?;
    assert_eq!(rt; leaf.0, 0);
    assert_eq!(rt; opposite.0, 1);
    assert_eq!(rt; again.0, 0);
    assert_eq!(rt; pool.len(), 2);
    assert_eq!(rt; *pool.get(opposite), Part::Not(leaf));
    assert_eq!(rt; Part::Not(opposite).kids_below(1), false);
    Ok(())
}

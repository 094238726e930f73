//! The queries and documents of picks.
ghost use Rattle.std.specs.Prelude.{◌≡◌, ◌++◌, ◌∷◌, [], List, not, map, true, IfOk};
ghost use Rattle.std.specs.List.{list_any};
ghost use Rattle.tap_rows.specs.declared.rows.Pick.{Pick};
ghost use Rattle.restart_core.specs.Damages.{is_same_pick};
ghost use Rattle.restart_core.specs.Earlier.{pair_of};

use indexmap::IndexSet;
use std::alloc::Global;
use std::marker::Model;
use tap_base::Memory;
use tap_rows::Pick;

/// The key of a pick: the numbers of its query and its document.
#[derive(Clone, Copy, Debug, PartialEq, Eq, Hash)]
pub(crate) struct Pair {
    query: u32,
    doc: u32,
}

/// The distinct keys of some picks, in order, as a set: one look-up finds whether a key is new.
#[derive(Drop)]
pub(crate) struct Picked {
    pairs: IndexSet<Pair>,
}

impl Model for Picked {
    ghost use Rattle.std.specs.Prelude.{List};
    ghost use Rattle.restart_core.specs.declared.picked.Pair.{Pair};

    ghost Value = { List Pair };

    ghost view = { λ picked. picked.pairs.keys };
}

impl Picked {
    // Returns no keys.
    pub(crate) fn new(alloc: Global) -> Picked
        ensures { result ≡ [] }
    {
        Picked {
            pairs: IndexSet::new(alloc),
        }
    }

    // Adds the key of a pick, and returns whether it is new among the keys of some picks.
    pub(crate) fn add(&mut self, pick: &Pick) -> Result<bool, Memory>
        ensures new { (picks : List Pick) → self.old ≡ map pair_of picks
            → IfOk result (λ new. new ≡ not (list_any (is_same_pick pick.now) picks)) }
        ensures pairs { (picks : List Pick) → self.old ≡ map pair_of picks
            → IfOk result (λ new. new ≡ true → self.new ≡ map pair_of (picks ++ pick.now ∷ [])) }
    {
        Ok(
            self.pairs.insert(Pair {
                query: pick.query.0,
                doc: pick.doc.0,
            })?,
        )
    }
}

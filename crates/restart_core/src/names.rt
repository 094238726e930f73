//! The owners and names of queries.
ghost use Rattle.std.specs.Prelude.{◌≡◌, ◌++◌, ◌∷◌, [], List, not, map, true, IfOk};
ghost use Rattle.std.specs.List.{list_any};
ghost use Rattle.tap_rows.specs.declared.rows.QueryRow.{QueryRow};
ghost use Rattle.tap_rows.specs.WellFormed.{is_query_of};
ghost use Rattle.restart_core.specs.Earlier.{named_of};

use indexmap::IndexSet;
use std::alloc::Global;
use std::marker::Model;
use tap_base::{HashKey, Memory, Text};
use tap_rows::QueryRow;

/// The key of a query: its owner and its name.
#[derive(PartialEq, Eq, Hash, Drop)]
pub(crate) struct Named {
    owner: Text,
    name: Text,
}

/// The distinct keys of some queries, in order, as a set: one look-up finds whether a key is new.
#[derive(Drop)]
pub(crate) struct Names {
    set: IndexSet<Named, HashKey>,
}

impl Model for Names {
    ghost use Rattle.std.specs.Prelude.{List};
    ghost use Rattle.restart_core.specs.declared.names.Named.{Named};

    ghost Value = { List Named };

    ghost view = { λ names. names.set.keys };
}

impl Names {
    // Returns no keys, to be hashed under this key.
    pub(crate) fn new(alloc: Global, key: HashKey) -> Names
        ensures { result ≡ [] }
    {
        Names {
            set: IndexSet::with_hasher(alloc, key),
        }
    }

    // Adds the key of a query, and returns whether it is new among the keys of some queries.
    pub(crate) fn add(&mut self, query: &QueryRow) -> Result<bool, Memory>
        ensures new { (queries : List QueryRow) → self.old ≡ map named_of queries
            → IfOk result (λ new.
            new ≡ not (list_any (is_query_of query.now.owner query.now.name) queries)) }
        ensures names { (queries : List QueryRow) → self.old ≡ map named_of queries
            → IfOk result (λ new. new ≡ true
            → self.new ≡ map named_of (queries ++ query.now ∷ [])) }
    {
        let owner = query.owner.copy()?;
        let name = query.name.copy()?;
        Ok(self.set.insert(Named { owner, name })?)
    }
}

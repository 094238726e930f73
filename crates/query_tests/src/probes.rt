//! Probes of a document that tests use.

ghost use Rattle.std.specs.Prelude.{◌≡◌, [], ◌∷◌, IfOk};
ghost use Rattle.tql_tree.specs.declared.table.Table.TheVariants.{Docs};

use node_pool::NodeId;
use std::alloc::Global;
use tap_base::{Memory, Rows};
use time_marks::{Probe, Ranged, Seek, Step};
use tql_core::{Term, Var};
use tql_tree::Table;

// Returns the path of the document alone.
fn document_path(alloc: Global) -> Result<Rows<Step>, Memory>
    ensures { IfOk result (λ path.
        path ≡ record { var = record { 0 = 0 }; table = Docs; guards = [] } ∷ []) }
{
    let mut path = Rows::new(alloc);
    let step = Step {
        var: Var(0),
        table: Table::Docs,
        guards: Rows::new(alloc),
    };
    match path.push(step) {
        Ok(()) => Ok(path),
        Err(Memory) => {
            drop(path);
            Err(Memory)
        }
    }
}

/// Returns the probe that finds a document with this mark, with its seek.
pub fn part_at(alloc: Global, at: Term, body: NodeId) -> Result<Ranged, Memory>
    ensures { IfOk result (λ part. part.probe ≡ record {
      path = record { var = record { 0 = 0 }; table = Docs; guards = [] } ∷ [];
      at = at;
      body = body;
    }) }
{
    let path = document_path(alloc)?;
    let probe = Probe { path, at, body };
    let seek = Seek::of(probe.at);
    Ok(Ranged { probe, seek })
}

//! Window queries.
ghost use Rattle.std.specs.Prelude.{◌≡◌, true};
ghost use Rattle.time_marks.specs.Kept.{are_kept};

use crate::Probe;
use node_pool::Pool;
use tap_base::Rows;
use tql_core::TNode;

/// Holds the probes of a window query, and the nodes of their bodies. Each body is a node of the
/// pool, and each mark is at a time that typing gives: it adds at most 450,000,086,400 seconds to
/// its base, or takes as many off.
#[derive(Drop)]
pub struct WindowQuery {
    pub pool: Pool<TNode>,
    pub probes: Rows<Probe>,
    ghost kept: { are_kept pool probes ≡ true },
}

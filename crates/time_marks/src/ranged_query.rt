//! Window queries whose marks are solved.
ghost use Rattle.std.specs.Prelude.{◌≡◌, true};
ghost use Rattle.time_marks.specs.KeptParts.{parts_kept};

use crate::Ranged;
use node_pool::Pool;
use tap_base::Rows;
use tql_core::TNode;

/// Holds a window query whose marks are solved. What `WindowQuery` guarantees it guarantees.
#[derive(Drop)]
pub struct RangedQuery {
    pub pool: Pool<TNode>,
    pub parts: Rows<Ranged>,
    ghost kept: { parts_kept pool parts ≡ true },
}

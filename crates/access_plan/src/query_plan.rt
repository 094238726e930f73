//! A query with its orders and accesses.

ghost use Rattle.std.specs.Prelude.{◌≡◌};
ghost use Rattle.std.specs.Coded.{Coded-set};
ghost use Rattle.tql_core.specs.Condition.{Exists};
ghost use Rattle.tql_core.specs.Trees.{tree_at};
ghost use Rattle.access_plan.specs.Accesses.{inner_accesses};
ghost use Rattle.access_plan.specs.Inners.{inners_of};
ghost use Rattle.access_plan.specs.Orders.{orders_of};

use crate::{Access, Reach};
use node_pool::NodeId;
use tap_base::Rows;
use time_marks::RangedQuery;
use tql_core::Var;
use tql_tree::Table;

/// A query, for each of its parts the order in which the variables of the path are bound after the
/// driving row, each with the access to its rows, and for each node of its pool that is an EXISTS
/// the accesses to the rows of that.
#[derive(Drop)]
pub struct Plan {
    pub query: RangedQuery,
    pub orders: Rows<Rows<Reach>>,
    pub inners: Rows<Rows<Access>>,
    ghost planned: { orders ≡ orders_of query.parts } by { Coded-set orders-code orders (orders_of query.parts) },
    ghost found: { inners ≡ inners_of query.pool } by { Coded-set inners-code inners (inners_of query.pool) },
}

impl Plan {
    /// Returns the accesses to the rows of the EXISTS at the number, whose inner condition is at
    /// `inner`. They were found when the plan was made.
    pub fn inner_accesses(&self, id: NodeId, inner: NodeId, var: Var, table: Table) -> &[Access]
        requires { tree_at self.now.query.pool id.0
            ≡ Exists var table (tree_at self.now.query.pool inner.0) }
        ensures { result.now ≡ inner_accesses var table (tree_at self.now.query.pool inner.0) }
    {
        match self.inners.as_slice().get(id.0 as usize) {
            None => &[],
            Some(found) => found.as_slice(),
        }
    }
}

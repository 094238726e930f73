//! Probes.
use crate::Step;
use node_pool::NodeId;
use tap_base::Rows;
use tql_core::Term;

/// Holds a mark of a condition, and the condition's body there: the condition with the mark's
/// second in the place of now, over all rows. The body is a node of the query's pool.
#[derive(Drop)]
pub struct Probe {
    pub path: Rows<Step>,
    pub at: Term,
    pub body: NodeId,
}

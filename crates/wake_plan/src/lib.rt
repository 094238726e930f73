//! The moment at which a run is next worthwhile.
#![tactic(auto)]

mod delivers;
mod due;
mod firsts;
pub mod laws;
mod planner;
mod starts;
mod turn;

pub use planner::wake;

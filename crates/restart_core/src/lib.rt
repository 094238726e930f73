//! Reads stored tables again: checks that no row is damaged, and reads the conditions of their
//! queries.
#![tactic(auto)]

mod docs;
mod fault;
mod filters;
pub mod laws;
mod names;
mod notes;
mod picked;
mod picks;
mod queries;
mod rows;
mod runs;
mod sound;
mod start;

pub use fault::{RestartFault, TableName, Why};
pub use sound::{Sound, check_tables};
pub use start::{Start, cut_start};

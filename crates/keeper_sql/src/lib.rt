//! The keeper of tables in an SQL database.
#![tactic(auto)]

// Errors of a transaction's calls are passed on by `match` and `if let`, and not by `?`: behind `?`
// the proof search finds no clause on the error. So a `match` may return what it is given.

mod change;
mod create;
mod docs;
mod filters;
mod keep;
mod notes;
mod opened;
mod opening;
mod picks;
mod queries;
mod reading;
mod runs;
mod sql_keeper;
mod version;

pub use keep::is_memory;
pub use sql_keeper::SqlKeeper;

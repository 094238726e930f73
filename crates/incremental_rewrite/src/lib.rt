//! Window queries without repeats, their marks solved for the stored seconds, and as lines.
#![tactic(auto)]

mod bodies;
mod explain;
mod ranges;
mod texts;

pub use explain::render;
pub use ranges::incremental;

//! Window queries whose probes ask only what their driving rows make true.
#![tactic(auto)]

mod asked;
mod bodies;
mod delta;
pub mod laws;
mod nodes;
mod renamed;
mod settled;
mod window;

pub use window::delta_from;

//! A run's documents as one message that holds them in mbox form.
#![tactic(auto)]

mod digests;
pub mod laws;
mod lined;

pub use digests::digest;
pub use lined::first_lined;

#[cfg(test)]
mod tests;

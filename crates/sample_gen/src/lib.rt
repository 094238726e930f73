//! A sample: the commands that a number of messages give, and the lines that sum up their replies.
#![tactic(auto)]

mod commands;
mod generator;
mod message;
mod summary;

pub use commands::{SAMPLE_LIMIT, sample};
pub use summary::Summary;

#[cfg(test)]
mod tests;

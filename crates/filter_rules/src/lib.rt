//! Filters: reads the rules of a text, and rates documents by them.
#![tactic(auto)]

mod fault;
pub mod laws;
mod line_fault;
mod rating;
mod read;
mod rule;
mod rule_line;
mod rules;

pub use fault::RuleFault;
pub use rating::{Rating, appraise};
pub use read::{RULE_LIMIT, read_rules};
pub use rule::KeptRule;
pub use rules::Rules;

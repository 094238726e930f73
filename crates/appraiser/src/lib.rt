//! Lists a box in the order of its ratings.
#![tactic(auto)]

mod listings;

pub use filter_rules::{KeptRule, RULE_LIMIT, Rating, RuleFault, Rules, appraise, read_rules};
pub use listings::listing;

//! What a condition gives at a second, asked from scratch.
#![tactic(auto)]

mod snapshot;

pub use snapshot::{gives, holds_at, is_doc_given};

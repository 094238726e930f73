//! Counts votes: notes of one kind, of which each author's last one on a document counts.
#![tactic(auto)]

mod counts;
mod scores;
mod undo;
mod vote_key;

pub use scores::Scores;
pub use tap_rows::Score;
pub use undo::VoteUndo;

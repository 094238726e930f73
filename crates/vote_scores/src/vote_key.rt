//! What a vote is looked up by.
use tap_base::Text;

/// What a vote is looked up by: its kind, the number of its document, and its author.
#[derive(PartialEq, Eq, Hash, Drop)]
pub(crate) struct VoteKey {
    pub kind: Text,
    pub doc: u32,
    pub author: Text,
}

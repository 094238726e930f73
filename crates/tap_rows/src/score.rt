//! The votes on a document.
use tap_base::DocNum;

/// The votes on a document: how many users voted, and the sum of their votes.
#[derive(Clone, Copy, Debug, PartialEq, Eq)]
pub struct Score {
    pub doc: DocNum,
    pub voters: u32,
    pub sum: i128,
}

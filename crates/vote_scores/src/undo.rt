//! What undoes an added vote.

/// What undoes an added vote: its place, from 0, and the value that it had before. `None` means
/// that the vote was appended.
#[derive(Drop)]
pub struct VoteUndo {
    pub at: u32,
    pub old: Option<i64>,
}

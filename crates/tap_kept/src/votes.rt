//! The votes of stored notes.

ghost use Rattle.std.specs.Prelude.{◌≡◌, OnOk, OnErr, IfOk};
ghost use Rattle.vote_scores.specs.Tally.{CanUndoVote, tally, without_vote, with_vote};

use std::alloc::Global;
use tap_base::{HashKey, Memory};
use tap_rows::Note;
use vote_scores::{Scores, VoteUndo};

/// Adds the vote of a note. There are at most 4,294,967,295 votes, since their places are `u32`. At
/// Err nothing has changed.
pub fn add_vote(votes: &mut Scores, note: &Note) -> Result<VoteUndo, Memory>
    ensures votes { OnOk result (votes.new ≡ with_vote note.now votes.old) }
    ensures undo { IfOk result (λ undo. CanUndoVote undo votes.new
        × (without_vote undo votes.new ≡ votes.old)) }
    ensures err { OnErr result (votes.new ≡ votes.old) }
{
    if votes.len() == u32::MAX {
        Err(Memory)
    } else {
        votes.add(note)
    }
}

/// Adds up the votes of all notes, hashed under this key.
pub fn tally_votes(alloc: Global, key: HashKey, notes: &[Note]) -> Result<Scores, Memory>
    ensures { IfOk result (λ votes. votes ≡ tally notes.now) }
{
    let mut votes = Scores::with_key(alloc, key);
    for note in notes {
        add_vote(&mut votes, note)?;
    }
    Ok(votes)
}

//! The votes of all notes.
ghost use Rattle.std.specs.Prelude.{◌≡◌, ◌<◌, [], length, IfOk, OnOk, OnErr};
ghost use Rattle.tap_rows.specs.declared.tables.Tables.{Tables};
ghost use Rattle.vote_scores.specs.Counts.{counted_from, counted_if, AreSmall};
ghost use Rattle.vote_scores.specs.Entries.{key_of, vote_at};
ghost use Rattle.tap_rows.specs.Votes.{scores_of, AreNumbered};
ghost use Rattle.vote_scores.specs.Tally.{tally, vote_place, vote_value, with_vote, without_vote};
ghost use Rattle.vote_scores.specs.Tally.{CanUndoVote, VotesAreDistinct};

use crate::counts::Counts;
use crate::undo::VoteUndo;
use crate::vote_key::VoteKey;
use indexmap::IndexMap;
use std::alloc::Global;
use std::marker::Model;
use tap_base::{HashKey, Memory, Rows};
use tap_rows::{Note, Score};

/// The vote of each author on each document, kind by kind, in order of the first such note. A vote
/// is looked up by its hash.
#[derive(Drop)]
pub struct Scores {
    votes: IndexMap<VoteKey, i64, HashKey>,
}

impl Model for Scores {
    ghost use Rattle.std.specs.Prelude.{◌<◌, ◌^◌, List, length, map};
    ghost use Rattle.vote_scores.specs.Tally.{Vote};
    ghost use Rattle.vote_scores.specs.Entries.{vote_at};

    ghost Value = { List Vote };

    ghost view = { λ scores. map vote_at scores.votes.entries };

    ghost invariant = { λ scores. length scores.votes.entries < 2 ^ 32 };
}

// Returns what the vote of a note is looked up by.
fn key_of(note: &Note) -> Result<VoteKey, Memory>
    ensures { IfOk result (λ key. key ≡ key_of note.now) }
{
    let kind = note.kind.copy()?;
    let author = note.author.copy()?;
    Ok(VoteKey {
        kind,
        doc: note.doc.0,
        author,
    })
}

fn count_if(counts: &mut Counts, kind: &[u8], key: &VoteKey, value: i64) -> Result<(), Memory>
    requires small { AreSmall 4294967294 counts.old }
    ensures { OnOk result (counts.new ≡ counted_if kind.now (vote_at (key.now, value)) counts.old) }
{
    if key.kind.as_slice() == kind {
        counts.count(key.doc, value)
    } else {
        Ok(())
    }
}

impl Scores {
    /// Returns no votes, to be hashed under the fixed key.
    pub fn new(alloc: Global) -> Scores
        ensures { result ≡ [] }
    {
        Scores::with_key(alloc, HashKey::fixed())
    }

    /// Returns no votes, to be hashed under this key.
    pub fn with_key(alloc: Global, key: HashKey) -> Scores
        ensures { result ≡ [] }
    {
        Scores {
            votes: IndexMap::with_hasher(alloc, key),
        }
    }

    /// Returns how many votes there are. No two are of one kind, document and author.
    pub fn len(&self) -> u32
        ensures count { result ≡ length self.now }
        ensures distinct { VotesAreDistinct self.now }
    {
        self.votes.len() as u32
    }

    /// Sets the value of the vote of the note's kind, document and author, or appends that vote, by
    /// one look-up. Fails with
    /// `Memory` when out of memory, and nothing has changed then.
    pub fn add(&mut self, note: &Note) -> Result<VoteUndo, Memory>
        requires room { length self.old < 4294967295 }
        ensures ok { OnOk result (self.new ≡ with_vote note.now self.old) }
        ensures place { IfOk result (λ undo. undo.at ≡ vote_place note.now self.old) }
        ensures old { IfOk result (λ undo. undo.old ≡ vote_value note.now self.old) }
        ensures undo { IfOk result (λ undo. CanUndoVote undo self.new
            × (without_vote undo self.new ≡ self.old)) }
        ensures err { OnErr result (self.new ≡ self.old) }
    {
        let key = key_of(note)?;
        let (at, old) = self.votes.insert_full(key, note.value)?;
        Ok(VoteUndo { at: at as u32, old })
    }

    /// Restores the value that the vote had, or removes the vote that was appended. It takes no
    /// memory.
    pub fn undo(&mut self, undo: VoteUndo)
        requires { CanUndoVote undo self.old }
        ensures { self.new ≡ without_vote undo self.old }
    {
        match undo.old {
            None => self.votes.truncate(undo.at as usize),
            Some(value) => {
                if let Some(kept) = self.votes.get_index_mut(undo.at as usize) {
                    *kept = value;
                }
            }
        }
    }

    // Counts the votes of a kind.
    fn counts(&self, alloc: Global, kind: &[u8]) -> Result<Counts, Memory>
        ensures { IfOk result (λ counts. counts ≡ counted_from kind.now [] self.now) }
    {
        let mut counts = Counts::new(alloc);
        for (key, value) in &self.votes {
            count_if(&mut counts, kind, key, *value)?;
        }
        Ok(counts)
    }

    /// Returns the scores of a kind by the votes, from the greatest sum, then in order of
    /// documents. Fails with `Memory` when out of memory.
    pub fn of_kind(&self, alloc: Global, kind: &[u8]) -> Result<Rows<Score>, Memory>
        ensures { IfOk result (λ rows. (tables : Tables) → AreNumbered tables
            → self.now ≡ tally tables.notes → rows ≡ scores_of kind.now tables) }
    {
        let counts = self.counts(alloc, kind)?;
        counts.into_rows(alloc)
    }
}

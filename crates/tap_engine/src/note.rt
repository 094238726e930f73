//! The command that adds a note on a document.

ghost use Rattle.std.specs.Prelude.{◌≡◌, ◌<◌, ◌+◌, ◌^◌, length, None, OnOk, OnErr, IfOk};
ghost use Rattle.std.specs.Prelude.{IfErr};
ghost use Rattle.std.specs.Result.{result_err};
ghost use Rattle.tap_rows.specs.declared.change.Change.{Change as RowChange};
ghost use Rattle.tap_rows.specs.Tables.{after};
ghost use Rattle.row_index.specs.Orders.{note_arrival};
ghost use Rattle.tap_engine.specs.Arriving.{MayArrive};
ghost use Rattle.script_lang.specs.declared.command.Command.{Command};
ghost use Rattle.tap_model.specs.Sessions.{moment_or_zero, user_of};
ghost use Rattle.tap_model.specs.Verdicts.{no_doc, long_note};
ghost use Rattle.vote_scores.specs.Tally.{CanUndoVote, without_vote, with_vote};

use crate::engine::Engine;
use crate::limits::refuse_more;
use crate::prepared::Prepared;
use crate::sessions::refuse_name;
use crate::undo::Undo;
use script_lang::{LimitName, Refusal, Reply};
use tap_base::{Copied, DocNum, Memory, NoteNum, Text};
use tap_kept::add_vote;
use tap_model::{NOTE_LIMIT, NOTE_TEXT_LIMIT, STORE_LIMIT};
use tap_rows::{Change, Note};
use vote_scores::VoteUndo;

// Refuses a number that is not that of one of `count` documents.
#[tactic(auto, unfolding(tap_model::specs::Verdicts::no_doc))]
pub(crate) fn refuse_doc(doc: u32, count: usize) -> Result<(), Refusal>
    ensures { result_err result ≡ no_doc doc count }
{
    if 1 <= doc && doc as usize <= count {
        Ok(())
    } else {
        Err(Refusal::NoDoc)
    }
}

// Refuses a note of more than NOTE_TEXT_LIMIT bytes.
#[tactic(auto, unfolding(tap_model::specs::Verdicts::long_note))]
fn refuse_long(len: usize) -> Result<(), Refusal>
    ensures { result_err result ≡ long_note len }
{
    if len <= NOTE_TEXT_LIMIT {
        Ok(())
    } else {
        Err(Refusal::Limit(LimitName::Note))
    }
}

impl Engine {
    ghost use Rattle.tap_engine.specs.Answering.{Prepares, RefusesAsModel};
    ghost use Rattle.tap_engine.specs.Standing.{note_bounds, note_refusal, RefusedBy};
    ghost use Rattle.tap_engine.specs.Ready.{IsReady};

    // Refuses a note of that many bytes if there is no such document or if it passes a limit.
    #[tactic(auto, unfolding(crate::specs::Standing::note_bounds))]
    fn refuse_bounds(&self, doc: u32, len: usize) -> Result<(), Refusal>
        ensures value { result_err result ≡ note_bounds self.now doc len }
        ensures few { OnOk result (length self.now.index.notes < NOTE_LIMIT) }
        ensures bytes { OnOk result (self.now.bytes + len < 2 ^ 64) }
    {
        refuse_doc(doc, self.index.docs() as usize)?;
        refuse_long(len)?;
        refuse_more(LimitName::Notes, NOTE_LIMIT, self.index.notes() as usize, 1)?;
        refuse_more(LimitName::Store, STORE_LIMIT, self.bytes, len)
    }

    // Makes the row of a new note, or gives the first refusal.
    fn new_note(&self, doc: u32, kind: Text, value: i64, text: Text) -> Result<Note, Refusal>
        ensures checks { OnOk result (note_refusal self.now doc kind text ≡ None) }
        ensures row { IfOk result (λ note. note ≡ record {
          num = record { 0 = length self.now.index.notes + 1 };
          doc = record { 0 = doc };
          author = user_of self.now.session;
          kind = kind;
          value = value;
          arrival = moment_or_zero self.now.session;
          text = text;
        }) }
        ensures refusal { IfErr result (λ refusal.
            RefusedBy (note_refusal self.now doc kind text) refusal) }
        ensures few { OnOk result (length self.now.index.notes < NOTE_LIMIT) }
        ensures bytes { OnOk result (self.now.bytes + length text < 2 ^ 64) }
    {
        let Some(moment) = self.session.moment else {
            return Err(Refusal::NoMoment);
        };
        let Some(user) = &self.session.user else {
            return Err(Refusal::NoUser);
        };
        refuse_name(kind.as_slice())?;
        self.refuse_bounds(doc, text.len())?;
        Ok(Note {
            num: NoteNum(self.index.notes() + 1),
            doc: DocNum(doc),
            author: user.copy()?,
            kind,
            value,
            arrival: moment,
            text,
        })
    }

    // Adds a note with its vote, and gives its row as a change, and what undoes the vote. At Err
    // nothing has changed.
    fn add_note(&mut self, note: Note) -> Result<(Change, VoteUndo), Memory>
        requires number { note.num.0 ≡ length self.old.index.notes + 1 }
        requires arrives { MayArrive note_arrival note.arrival self.old.index.notes }
        requires bytes { self.old.bytes + length note.text < 2 ^ 64 }
        ensures change { IfOk result (λ made. made.0 ≡ RowChange.OneNote note) }
        ensures engine { OnOk result (self.new ≡ record self.old {
          index = after self.old.index (RowChange.OneNote note);
          votes = with_vote note self.old.votes;
          bytes = self.old.bytes + length note.text;
        }) }
        ensures vote { IfOk result (λ made. CanUndoVote made.1 self.new.votes
            × (without_vote made.1 self.new.votes ≡ self.old.votes)) }
        ensures err { OnErr result (self.new ≡ self.old) }
    {
        let len = note.text.len();
        let row = note.copied()?;
        let vote = add_vote(&mut self.votes, &note)?;
        if let Err(fault) = self.index.add_note(note) {
            self.votes.undo(vote);
            return Err(fault);
        }
        self.bytes += len;
        Ok((Change::OneNote(row), vote))
    }

    // Adds a note on a document.
    pub(crate) fn note(
        &mut self,
        doc: u32,
        kind: Text,
        value: i64,
        text: Text,
    ) -> Result<Prepared, Refusal>
        requires ready { IsReady self.old }
        ensures ok { IfOk result
            (Prepares self.old (Command.AddNote doc kind value text) self.new) }
        ensures refusal { IfErr result
            (RefusesAsModel self.old (Command.AddNote doc kind value text)) }
        ensures err { OnErr result (self.new ≡ self.old) }
    {
        let bytes = self.bytes;
        let note = self.new_note(doc, kind, value, text)?;
        let num = note.num;
        let (change, vote) = self.add_note(note)?;
        Ok(Prepared {
            reply: Reply::OneNote(num),
            change: Some(change),
            undo: Undo::Note { bytes, vote },
        })
    }
}

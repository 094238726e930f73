//! The places of notes by their document, value, author, kind and text.

ghost use Rattle.std.specs.Prelude.{◌≡◌, List, [], ◌∷◌, ◌++◌, OnOk, OnErr};
ghost use Rattle.tap_rows.specs.declared.rows.Note.{Note};
ghost use Rattle.row_index.specs.Orders.{note_number};
ghost use Rattle.row_index.specs.Posts.{places_of};
ghost use Rattle.row_index.specs.Notes.{NotePosts, IsNextNote, IsNotePosted, IsNotePartly};
ghost use Rattle.row_index.specs.Notes.{IsNoteForgotten, note_texts_of, notes_with};

use crate::note_text_kind::NoteTextKind;
use crate::number_places::NumberPlaces;
use crate::postings::Postings;
use std::alloc::Global;
use tap_base::{HashKey, Memory};
use tap_rows::Note;

/// The places of notes by their document, by their value, and by their texts of each kind.
#[derive(Drop)]
pub(crate) struct NotePlaces {
    pub(crate) doc: NumberPlaces,
    pub(crate) value: NumberPlaces,
    author: Postings,
    kind: Postings,
    text: Postings,
}

impl NotePlaces {
    /// Returns an index of no notes, which hashes numbers and texts under this key.
    pub(crate) fn new(alloc: Global, key: HashKey) -> NotePlaces
        ensures { NotePosts [] result }
    {
        NotePlaces {
            doc: NumberPlaces::new(alloc, key),
            value: NumberPlaces::new(alloc, key),
            author: Postings::new(alloc, key),
            kind: Postings::new(alloc, key),
            text: Postings::new(alloc, key),
        }
    }

    /// Returns the places of the notes that have the text, by one look-up.
    pub(crate) fn under(&self, kind: NoteTextKind, text: &[u8]) -> &[u32]
        ensures { (notes : List Note) → NotePosts notes self.now
            → result.now ≡ places_of note_number (notes_with (note_texts_of kind) text.now notes) }
    {
        match kind {
            NoteTextKind::Author => self.author.under(text),
            NoteTextKind::Kind => self.kind.under(text),
            NoteTextKind::Text => self.text.under(text),
        }
    }

    // Puts the place under each text and number of the note. After `Memory` it is under some of
    // them.
    fn put(&mut self, note: &Note, place: u32) -> Result<(), Memory>
        ensures ok { OnOk result (IsNotePosted note.now place self.old self.new) }
        ensures err { OnErr result (IsNotePartly note.now place self.old self.new) }
    {
        self.doc.add(i64::from(note.doc.0), place)?;
        self.value.add(note.value, place)?;
        self.author.add(note.author.as_slice(), place)?;
        self.kind.add(note.kind.as_slice(), place)?;
        self.text.add(note.text.as_slice(), place)?;
        Ok(())
    }

    /// Removes the note at this place, the last one, by a look-up of each of its texts and numbers.
    pub(crate) fn forget(&mut self, note: &Note, place: u32)
        ensures { IsNoteForgotten note.now place self.old self.new }
    {
        self.doc.forget(i64::from(note.doc.0), place);
        self.value.forget(note.value, place);
        self.author.forget(note.author.as_slice(), place);
        self.kind.forget(note.kind.as_slice(), place);
        self.text.forget(note.text.as_slice(), place);
    }

    /// Adds the note at the place after those of `notes`. After an error the notes are found as
    /// before.
    pub(crate) fn add(&mut self, note: &Note, place: u32) -> Result<(), Memory>
        ensures ok { OnOk result ((notes : List Note) → IsNextNote notes note.now place
            → NotePosts notes self.old → NotePosts (notes ++ note.now ∷ []) self.new) }
        ensures err { OnErr result ((notes : List Note) → IsNextNote notes note.now place
            → NotePosts notes self.old → NotePosts notes self.new) }
    {
        let done = self.put(note, place);
        if done.is_err() {
            self.forget(note, place);
        }
        done
    }
}

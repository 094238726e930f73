//! The rows of documents and notes, and their indexes.

ghost use Rattle.std.specs.Prelude.{◌≡◌, ◌+◌, ◌<◌, ℤ, pos, ◌≤ℤ◌, []};
ghost use Rattle.std.specs.Prelude.{◌∷◌, length, nat_eq, option_copied, option_to_list, slice_get};
ghost use Rattle.std.specs.Prelude.{take, OnOk, OnErr};
ghost use Rattle.std.specs.List.{find};
ghost use Rattle.tap_rows.specs.declared.rows.Note.{Note};
ghost use Rattle.tap_rows.specs.declared.tables.Tables.{Tables};
ghost use Rattle.tap_rows.specs.declared.change.Change.TheVariants.{Docs, OneNote};
ghost use Rattle.tap_rows.specs.Arrivals.{Arrived};
ghost use Rattle.tap_rows.specs.Fields.{fields};
ghost use Rattle.tap_rows.specs.Kept.{Each};
ghost use Rattle.tap_rows.specs.Tables.{no_rows, after};
ghost use Rattle.row_index.specs.Orders.{InPlace, doc_number, doc_arrival, note_number};
ghost use Rattle.row_index.specs.Orders.{note_arrival, in_window, up_to};
ghost use Rattle.row_index.specs.Texts.{with_text, texts_of};
ghost use Rattle.row_index.specs.Dates.{dated_in};
ghost use Rattle.row_index.specs.Held.{indexed_notes, AreOnDocs, AreSized, AreValued};
ghost use Rattle.row_index.specs.Numbers.{of_size, notes_valued};
ghost use Rattle.row_index.specs.Notes.{note_texts_of, notes_with};
ghost use Rattle.row_index.specs.Rows.{without_last_note};
ghost use Rattle.tap_base.specs.Numbers.{IsMoment};

use crate::arrivals::{docs_up_to, docs_within, notes_up_to, notes_within, places_within};
use crate::doc_places::{DocPlaces, cut_docs};
use crate::note_places::NotePlaces;
use crate::note_text_kind::NoteTextKind;
use crate::posting_list::PostingList;
use crate::text_kind::TextKind;
use crate::walk::{DocWalk, NoteWalk, Walk};
use std::alloc::Global;
use std::marker::Model;
use std::sync::ledger::Ledger;
use tap_base::{DocNum, HashKey, Memory, Steps};
use tap_rows::{KeptDoc, Note};

/// All documents and notes, with their indexes. Its value is the tables with these rows and no
/// others.
pub struct RowIndex {
    docs: Vec<KeptDoc>,
    places: DocPlaces,
    notes: Vec<Note>,
    note_places: NotePlaces,
    key: HashKey,
}

impl Model for RowIndex {
    ghost use Rattle.tap_rows.specs.declared.tables.Tables.{Tables};
    ghost use Rattle.row_index.specs.Rows.{rows_alone};
    ghost use Rattle.row_index.specs.Held.{IsIndexOf};

    ghost Value = { Tables };

    ghost view = { λ index. rows_alone index.docs.items index.notes.items };

    ghost invariant = { λ index.
        IsIndexOf index.docs.items index.places index.notes.items index.note_places };
}

impl Drop for RowIndex {
    // One call wherever an index is dropped: derived, it would show each caller all rows and
    // indexes.
    fn drop(self) {
        let RowIndex {
            docs,
            places,
            notes,
            note_places,
            key: _,
        } = self;
        drop(docs);
        drop(places);
        drop(notes);
        drop(note_places);
    }
}

impl RowIndex {
    /// Returns an index of no rows, which hashes texts under the fixed key.
    pub fn new(alloc: Global) -> RowIndex
        ensures { result ≡ no_rows }
    {
        RowIndex::with_key(alloc, HashKey::fixed())
    }

    /// Returns an index of no rows, which hashes texts under this key.
    pub fn with_key(alloc: Global, key: HashKey) -> RowIndex
        ensures { result ≡ no_rows }
    {
        RowIndex {
            docs: Vec::new(alloc),
            places: DocPlaces::new(alloc, key),
            notes: Vec::new(alloc),
            note_places: NotePlaces::new(alloc, key),
            key,
        }
    }

    /// Returns the key under which texts are hashed.
    pub fn key(&self) -> HashKey {
        self.key
    }

    /// Returns how many documents there are. Their numbers are their places, from 1, and their
    /// arrivals never fall. Their sizes have 32 bits.
    pub fn docs(&self) -> u32
        ensures count { result ≡ length self.now.docs }
        ensures places { InPlace doc_number doc_arrival self.now.docs }
        ensures arrived { Arrived 1 (pos 0) self.now.docs }
        ensures sizes { AreSized self.now.docs }
    {
        self.docs.len() as u32
    }

    /// Returns how many notes there are. Their numbers are their places, from 1, and their arrivals
    /// never fall. The numbers of the documents that they are on have 32 bits, and their values 64
    /// bits with a sign.
    pub fn notes(&self) -> u32
        ensures count { result ≡ length self.now.notes }
        ensures documents { AreOnDocs self.now.notes }
        ensures values { AreValued self.now.notes }
        ensures places { InPlace note_number note_arrival self.now.notes }
    {
        self.notes.len() as u32
    }

    /// Returns the documents that arrived from `low` up to but not at `high`, in seconds since
    /// 1970-01-01T00:00:00Z.
    pub fn docs_arrived(&self, low: i64, high: i64) -> DocWalk<'_>
        ensures { result ≡ in_window doc_arrival low high self.now.docs }
    {
        Walk::over(docs_within(&self.docs, low, high))
    }

    /// Returns the documents that arrived up to `last`.
    pub fn all_docs_to(&self, last: i64) -> DocWalk<'_>
        ensures { result ≡ up_to doc_arrival last self.now.docs }
    {
        Walk::over(docs_up_to(&self.docs, last))
    }

    /// Returns the documents whose date is from `low` up to but not at `high`, in order of date,
    /// then of number.
    pub fn docs_dated(&self, low: i64, high: i64) -> DocWalk<'_>
        ensures { result ≡ dated_in low high self.now.docs }
    {
        Walk::by_date(&self.docs, self.places.dates.within(low, high))
    }

    /// Returns the documents that have the text, of this kind, by one look-up.
    pub fn by_text(&self, kind: TextKind, text: &[u8]) -> PostingList<'_>
        ensures { result ≡ with_text (texts_of kind) text.now self.now.docs }
    {
        PostingList::at(&self.docs, self.places.texts.under(kind, text))
    }

    /// Returns the documents that have the text, of this kind, and that arrived from `low` up to
    /// but not at `high`: by one look-up, and two halvings of its posting list.
    pub fn by_text_arrived(
        &self,
        kind: TextKind,
        text: &[u8],
        low: i64,
        high: i64,
    ) -> PostingList<'_>
        ensures { result
            ≡ in_window doc_arrival low high (with_text (texts_of kind) text.now self.now.docs) }
    {
        let places = self.places.texts.under(kind, text);
        PostingList::at(&self.docs, places_within(&self.docs, places, low, high))
    }

    /// Returns the documents of this size, in bytes, by one look-up.
    pub fn of_size(&self, size: u32) -> PostingList<'_>
        ensures { result ≡ of_size size self.now.docs }
    {
        PostingList::at(&self.docs, self.places.sizes.under(i64::from(size)))
    }

    /// Returns the notes on this document, by one look-up.
    pub fn notes_of(&self, doc: DocNum) -> NoteWalk<'_>
        ensures { result ≡ indexed_notes doc.0 self.now.notes }
    {
        Walk::placed(&self.notes, self.note_places.doc.under(i64::from(doc.0)))
    }

    /// Returns how many notes are on this document, by one look-up and without a step.
    pub fn count_on(&self, doc: DocNum) -> usize
        ensures { result ≡ length (indexed_notes doc.0 self.now.notes) }
    {
        self.note_places.doc.under(i64::from(doc.0)).len()
    }

    /// Returns the notes that have the text, of this kind, by one look-up.
    pub fn notes_by(&self, kind: NoteTextKind, text: &[u8]) -> NoteWalk<'_>
        ensures { result ≡ notes_with (note_texts_of kind) text.now self.now.notes }
    {
        Walk::placed(&self.notes, self.note_places.under(kind, text))
    }

    /// Returns how many notes have the text, of this kind, by one look-up and without a step.
    pub fn count_by(&self, kind: NoteTextKind, text: &[u8]) -> usize
        ensures { result ≡ length (notes_with (note_texts_of kind) text.now self.now.notes) }
    {
        self.note_places.under(kind, text).len()
    }

    /// Returns the notes of this value, by one look-up.
    pub fn notes_valued(&self, value: i64) -> NoteWalk<'_>
        ensures { result ≡ notes_valued value self.now.notes }
    {
        Walk::placed(&self.notes, self.note_places.value.under(value))
    }

    /// Returns how many notes have this value, by one look-up and without a step.
    pub fn count_valued(&self, value: i64) -> usize
        ensures { result ≡ length (notes_valued value self.now.notes) }
    {
        self.note_places.value.under(value).len()
    }

    /// Returns the notes that arrived from `low` up to but not at `high`.
    pub fn notes_arrived(&self, low: i64, high: i64) -> NoteWalk<'_>
        ensures { result ≡ in_window note_arrival low high self.now.notes }
    {
        Walk::over(notes_within(&self.notes, low, high))
    }

    /// Returns the notes that arrived up to `last`.
    pub fn all_notes_to(&self, last: i64) -> NoteWalk<'_>
        ensures { result ≡ up_to note_arrival last self.now.notes }
    {
        Walk::over(notes_up_to(&self.notes, last))
    }

    /// Returns the document of this number, with one step. `None` comes if and only if there is
    /// none, and then no step.
    pub fn doc<L: Ledger>(&self, num: DocNum, steps: &mut Steps<L>) -> Option<&KeptDoc>
        ensures doc { option_copied result ≡ find (λ doc. nat_eq doc.num.0 num.0) self.now.docs }
        ensures steps { steps.new ≡ steps.old + length (option_to_list (option_copied result)) }
    {
        let doc = doc_at(&self.docs, num.0);
        if doc.is_some() {
            steps.tick();
        }
        doc
    }

    /// Returns all documents, with a step for each.
    pub fn every_doc<L: Ledger>(&self, steps: &mut Steps<L>) -> &[KeptDoc]
        ensures docs { result.now ≡ self.now.docs }
        ensures steps { steps.new ≡ steps.old + length self.now.docs }
    {
        steps.add(self.docs.len());
        &self.docs
    }

    /// Returns all notes, with a step for each.
    pub fn every_note<L: Ledger>(&self, steps: &mut Steps<L>) -> &[Note]
        ensures notes { result.now ≡ self.now.notes }
        ensures steps { steps.new ≡ steps.old + length self.now.notes }
    {
        steps.add(self.notes.len());
        &self.notes
    }

    /// Takes room for that many more documents and notes at once. `Memory` comes if memory runs
    /// out.
    pub fn reserve(&mut self, docs: usize, notes: usize) -> Result<(), Memory>
        ensures { self.new ≡ self.old }
    {
        self.docs.reserve(docs)?;
        self.notes.reserve(notes)?;
        Ok(())
    }

    /// Appends a document. `Memory` comes if memory runs out, and then nothing has changed.
    pub fn add_doc(&mut self, doc: KeptDoc) -> Result<(), Memory>
        requires number { doc.num.0 ≡ length self.old.docs + 1 }
        requires moment { IsMoment doc.arrival }
        requires after { Each (λ other. other.arrival ≤ℤ doc.arrival) self.old.docs }
        ensures ok { OnOk result (self.new ≡ after self.old (Docs (doc ∷ []))) }
        ensures err { OnErr result (self.new ≡ self.old) }
    {
        let place = doc_num(&doc) - 1;
        // Brings into scope that the size has 32 bits.
        let _size = doc_size(&doc);
        // Memory first, so that the push after the indexes can't fail.
        if self.docs.reserve(1).is_err() {
            drop(doc);
            return Err(Memory);
        }
        match self.places.add(&doc, place) {
            Err(Memory) => {
                drop(doc);
                Err(Memory)
            }
            Ok(words) => {
                let mut doc = doc;
                doc.set_words(words);
                self.docs.push(doc)?;
                Ok(())
            }
        }
    }

    /// Appends a note. `Memory` comes if memory runs out, and then nothing has changed.
    pub fn add_note(&mut self, note: Note) -> Result<(), Memory>
        requires number { note.num.0 ≡ length self.old.notes + 1 }
        requires moment { IsMoment note.arrival }
        requires after { Each (λ other. other.arrival ≤ℤ note.arrival) self.old.notes }
        ensures ok { OnOk result (self.new ≡ after self.old (OneNote note)) }
        ensures err { OnErr result (self.new ≡ self.old) }
    {
        let place = note.num.0 - 1;
        // Memory first, so that the push after the index can't fail.
        self.notes.reserve(1)?;
        self.note_places.add(&note, place)?;
        self.notes.push(note)?;
        Ok(())
    }

    /// Removes the documents after the first `len`. It takes no memory. It looks at each text of
    /// the index once, however many documents are removed.
    pub fn cut_docs(&mut self, len: usize)
        ensures { self.new ≡ record self.old { docs = take len self.old.docs } }
    {
        cut_docs(&mut self.docs, &mut self.places, len);
    }

    /// Removes the last note. It takes no memory.
    pub fn forget_last_note(&mut self)
        requires { 0 < length self.old.notes }
        ensures last { self.new ≡ without_last_note self.old }
        ensures undone { (before : Tables) (note : Note) → self.old ≡ after before (OneNote note)
            → self.new ≡ before }
    {
        if let Some(note) = self.notes.pop() {
            self.note_places.forget(&note, self.notes.len() as u32);
            drop(note);
        }
    }
}

// Returns the document's number.
fn doc_num(doc: &KeptDoc) -> u32
    ensures { result ≡ doc.now.num.0 }
{
    doc.doc().num.0
}

// Returns the document's size, in bytes.
#[tactic(auto, unfolding(tap_rows::specs::Fields::fields))]
fn doc_size(doc: &KeptDoc) -> u32
    ensures { result ≡ (fields doc.now).size }
{
    doc.fields().size
}

// Returns the document at this place, from 0.
fn doc_in(docs: &[KeptDoc], place: usize) -> Option<&KeptDoc>
    ensures { option_copied result ≡ slice_get docs.now place }
{
    docs.get(place)
}

// Returns the document of this number.
fn doc_at(docs: &[KeptDoc], num: u32) -> Option<&KeptDoc>
    requires { InPlace doc_number doc_arrival docs.now }
    ensures { option_copied result ≡ find (λ doc. nat_eq doc.num.0 num) docs.now }
{
    if num == 0 {
        None
    } else {
        doc_in(docs, num as usize - 1)
    }
}

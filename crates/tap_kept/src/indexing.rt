//! The index of stored documents and notes.

ghost use Rattle.std.specs.Prelude.{◌≡◌, ◌≤◌, [], length, OnOk, IfOk};
ghost use Rattle.tap_rows.specs.declared.change.Change.{Change};
ghost use Rattle.tap_rows.specs.Tables.{after};
ghost use Rattle.row_index.specs.Orders.{doc_number, doc_arrival, note_number, note_arrival};
ghost use Rattle.row_index.specs.Rows.{rows_alone};
ghost use Rattle.tap_kept.specs.Starting.{FollowInOrder, with_notes};
ghost use Rattle.tap_kept.specs.StoredRows.{AreShortDocs};

use mail_fields::keep;
use query_eval::Hits;
use row_index::RowIndex;
use std::alloc::Global;
use tap_base::{HashKey, Memory, Rows};
use tap_rows::{Doc, Note};

// Adds documents after the others, with the values of their fields.
fn add_docs(alloc: Global, index: &mut RowIndex, docs: Rows<Doc>) -> Result<(), Memory>
    requires left { FollowInOrder doc_number doc_arrival index.old.docs docs }
    requires short { AreShortDocs docs }
    ensures { OnOk result (index.new ≡ after index.old (Change.Docs docs)) }
{
    // Taken at once: rows that grow are copied each time their room doubles.
    index.reserve(docs.len(), 0)?;
    for doc in docs.into_vec() {
        index.add_doc(keep(alloc, index.key(), doc)?)?;
    }
    Ok(())
}

// Adds notes after the others.
fn add_notes(index: &mut RowIndex, notes: Rows<Note>) -> Result<(), Memory>
    requires { FollowInOrder note_number note_arrival index.old.notes notes }
    ensures { OnOk result (index.new ≡ with_notes index.old notes) }
{
    index.reserve(0, notes.len())?;
    for note in notes.into_vec() {
        index.add_note(note)?;
    }
    Ok(())
}

// Adds documents and notes to an index of no rows, and returns room for a hit of each document.
fn fill_index(
    alloc: Global,
    index: &mut RowIndex,
    docs: Rows<Doc>,
    notes: Rows<Note>,
) -> Result<Hits, Memory>
    requires none { index.old ≡ rows_alone [] [] }
    requires docs { FollowInOrder doc_number doc_arrival [] docs }
    requires short { AreShortDocs docs }
    requires notes { FollowInOrder note_number note_arrival [] notes }
    ensures index { OnOk result (index.new ≡ rows_alone docs notes) }
    ensures room { IfOk result (λ hits. length index.new.docs ≤ hits.room) }
    ensures fronts { IfOk result (λ hits. hits.fronts ≡ []) }
{
    match add_docs(alloc, index, docs) {
        Ok(()) => {}
        Err(Memory) => {
            drop(notes);
            return Err(Memory);
        }
    }
    add_notes(index, notes)?;
    let hits = Hits::with_room(alloc, index.docs())?;
    Ok(hits)
}

/// Builds an index that owns these documents and notes and hashes texts under this key, and room
/// for a hit of each document, so that no run asks for memory to search.
pub fn index_rows(
    alloc: Global,
    key: HashKey,
    docs: Rows<Doc>,
    notes: Rows<Note>,
) -> Result<(RowIndex, Hits), Memory>
    requires docs { FollowInOrder doc_number doc_arrival [] docs }
    requires short { AreShortDocs docs }
    requires notes { FollowInOrder note_number note_arrival [] notes }
    ensures index { IfOk result (λ made. made.0 ≡ rows_alone docs notes) }
    ensures room { IfOk result (λ made. length made.0.docs ≤ made.1.room) }
    ensures fronts { IfOk result (λ made. made.1.fronts ≡ []) }
{
    let mut index = RowIndex::with_key(alloc, key);
    match fill_index(alloc, &mut index, docs, notes) {
        Ok(hits) => Ok((index, hits)),
        Err(Memory) => {
            drop(index);
            Err(Memory)
        }
    }
}

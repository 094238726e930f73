//! Tests of adding, walking and removing rows.

ghost use Rattle.std.specs.Prelude.{◌≡◌, ◌+◌, ◌<◌, ◌≤◌, ◌≤ℤ◌, pos, [], length, IfOk};
ghost use Rattle.tap_base.specs.Ledgers.{IsBlankOf};
ghost use Rattle.tap_rows.specs.Kept.{Each};
ghost use Rattle.tap_rows.specs.Tables.{after};
ghost use Rattle.tap_rows.specs.declared.change.Change.TheVariants.{OneNote};
ghost use Rattle.tap_rows.specs.declared.tables.TheConstants.{MESSAGE_LIMIT};
ghost use Rattle.tap_base.specs.Numbers.{IsMoment};

use crate::documents::{blank_doc, with_doc};
use mail_fields::keep;
use row_index::{DocWalk, NoteTextKind, NoteWalk, RowIndex, TextKind, Walk};
use std::alloc::Global;
use std::marker::Brand;
use std::sync::ledger::{Blank, Ledger};
use tap_base::{DocNum, HashKey, Memory, NoteNum, SharedText, Steps, Text};
use tap_rows::{Doc, KeptDoc, Note};

// Returns a note without texts.
fn blank_note(alloc: Global, num: u32, doc: u32, arrival: i64) -> Note
    ensures { result ≡ record {
      num = record { 0 = num };
      doc = record { 0 = doc };
      author = [];
      kind = [];
      value = pos 0;
      arrival = arrival;
      text = [];
    } }
{
    Note {
        num: NoteNum(num),
        doc: DocNum(doc),
        author: Text::new(alloc),
        kind: Text::new(alloc),
        value: 0,
        arrival,
        text: Text::new(alloc),
    }
}

// Returns how many rows a walk hands out.
fn count<T, L: Ledger>(walk: Walk<'_, T>, steps: &mut Steps<L>) -> usize {
    let mut rows = walk;
    let mut n: usize = 0;
    while let Some(_) = rows.next(steps) {
        n = n.saturating_add(1);
    }
    n
}

// Returns the index with a further note.
fn with_note(index: RowIndex, note: Note) -> Result<RowIndex, Memory>
    requires number { note.num.0 ≡ length index.notes + 1 }
    requires moment { IsMoment note.arrival }
    requires after { Each (λ other. other.arrival ≤ℤ note.arrival) index.notes }
    ensures { IfOk result (λ new. new ≡ after index (OneNote note)) }
{
    let mut index = index;
    match index.add_note(note) {
        Ok(()) => Ok(index),
        Err(Memory) => {
            drop(index);
            Err(Memory)
        }
    }
}

// Returns two documents, and a note on the second.
fn three_rows(alloc: Global) -> Result<RowIndex, Memory> {
    let one = with_doc(RowIndex::new(alloc), blank_doc(alloc, 1, 5)?)?;
    let two = with_doc(one, blank_doc(alloc, 2, 9)?)?;
    with_note(two, blank_note(alloc, 1, 2, 9))
}

// Returns the counts of some walks over those rows.
fn counts<L: Ledger>(index: &RowIndex, steps: &mut Steps<L>) -> [usize; 5] {
    [
        count(index.docs_arrived(5, 9), steps),
        count(index.all_docs_to(9), steps),
        count(index.notes_of(DocNum(2)), steps),
        count(index.docs_dated(0, 10), steps),
        count(index.by_text(TextKind::Word, b"hi").walk(), steps),
    ]
}

// Removes the documents after the first, and returns how many are left.
fn left(index: &mut RowIndex) -> u32 {
    index.cut_docs(1);
    index.docs()
}

// Returns those counts, and how many documents are left after that.
fn counted<L: Ledger>(alloc: Global, blank: Blank) -> Result<([usize; 5], u32), Memory>
    requires blank { IsBlankOf L.name L.parts blank }
{
    let mut index = three_rows(alloc)?;
    let mut steps = Steps::<L>::start(blank);
    let found = counts(&index, &mut steps);
    let left = left(&mut index);
    drop(index);
    Ok((found, left))
}

#[test]
fn rows_are_added_walked_and_forgotten(rt: HostRuntime) -> Result<(), Memory> {
    let (found, left) = counted::<Brand>(rt.alloc(), Blank::new(1))?;
    assert_eq!(rt; found, [1, 2, 1, 0, 0]);
    assert_eq!(rt; left, 1);
    Ok(())
}

// What documents are looked for by.
#[derive(Clone, Copy)]
enum DocKey<'a> {
    Text(TextKind, &'a [u8]),
    Size(u32),
}

// What notes are looked for by.
#[derive(Clone, Copy)]
enum NoteKey<'a> {
    Text(NoteTextKind, &'a [u8]),
    Value(i64),
}

// Returns whether the document has the key, by its fields.
fn has_key(doc: &KeptDoc, key: DocKey) -> bool {
    let fields = doc.fields();
    match key {
        DocKey::Text(TextKind::To, text) => fields.to.holds(text),
        DocKey::Text(TextKind::Cc, text) => fields.cc.holds(text),
        DocKey::Text(TextKind::Newsgroups, text) => fields.newsgroups.holds(text),
        DocKey::Text(_, _) => false,
        DocKey::Size(size) => fields.size == size,
    }
}

// Returns whether the note has the key, by its fields.
fn note_has_key(note: &Note, key: NoteKey) -> bool {
    match key {
        NoteKey::Text(NoteTextKind::Author, text) => note.author.as_slice() == text,
        NoteKey::Text(NoteTextKind::Kind, text) => note.kind.as_slice() == text,
        NoteKey::Text(NoteTextKind::Text, text) => note.text.as_slice() == text,
        NoteKey::Value(value) => note.value == value,
    }
}

// Returns the documents that the index finds by the key.
fn docs_by<'a>(index: &'a RowIndex, key: DocKey) -> DocWalk<'a> {
    match key {
        DocKey::Text(kind, text) => index.by_text(kind, text).walk(),
        DocKey::Size(size) => index.of_size(size).walk(),
    }
}

// Returns the notes that the index finds by the key, and how many it says there are.
fn notes_by<'a>(index: &'a RowIndex, key: NoteKey) -> (NoteWalk<'a>, usize) {
    match key {
        NoteKey::Text(kind, text) => (index.notes_by(kind, text), index.count_by(kind, text)),
        NoteKey::Value(value) => (index.notes_valued(value), index.count_valued(value)),
    }
}

// Returns how many documents the index finds by the key. `None` comes if they aren't those that a
// look at each of all documents finds, in order.
fn docs_found<L: Ledger>(index: &RowIndex, key: DocKey, steps: &mut Steps<L>) -> Option<usize> {
    let mut found = docs_by(index, key);
    let mut all = index.all_docs_to(9);
    let mut n: usize = 0;
    'docs: while let Some(doc) = all.next(steps) {
        if has_key(doc, key) {
            if found.next(steps)?.doc().num != doc.doc().num {
                return None;
            }
            n = n.saturating_add(1);
        }
    }
    match found.next(steps) {
        None => Some(n),
        Some(_) => None,
    }
}

// Returns how many notes the index finds by the key. `None` comes if they aren't those that a look
// at each of all notes finds, in order, or if the index counts others.
fn notes_found<L: Ledger>(index: &RowIndex, key: NoteKey, steps: &mut Steps<L>) -> Option<usize> {
    let (found, count) = notes_by(index, key);
    let mut found = found;
    let mut all = index.all_notes_to(9);
    let mut n: usize = 0;
    'notes: while let Some(note) = all.next(steps) {
        if note_has_key(note, key) {
            if found.next(steps)?.num != note.num {
                return None;
            }
            n = n.saturating_add(1);
        }
    }
    match found.next(steps) {
        None if n == count => Some(n),
        _ => None,
    }
}

// Returns a document with this text.
fn message(alloc: Global, num: u32, text: &[u8]) -> Result<KeptDoc, Memory>
    requires { length text.now ≤ MESSAGE_LIMIT }
    ensures { IfOk result (λ doc.
        doc ≡ record { num = record { 0 = num }; arrival = pos 9; text = text.now }) }
{
    let doc = Doc {
        num: DocNum(num),
        arrival: 9,
        text: SharedText::of(alloc, Text::from_slice(alloc, text)?)?,
    };
    keep(alloc, HashKey::fixed(), doc)
}

// Returns a note with this value and these texts: its author, its kind and its text.
fn note(alloc: Global, num: u32, value: i64, texts: [&[u8]; 3]) -> Result<Note, Memory>
    ensures number { IfOk result (λ note. note.num ≡ record { 0 = num }) }
    ensures arrival { IfOk result (λ note. note.arrival ≡ pos 9) }
{
    Ok(Note {
        num: NoteNum(num),
        doc: DocNum(1),
        author: Text::from_slice(alloc, texts[0])?,
        kind: Text::from_slice(alloc, texts[1])?,
        value,
        arrival: 9,
        text: Text::from_slice(alloc, texts[2])?,
    })
}

// Returns three documents, the first and the last of which have the same text, and three notes.
fn six_rows(alloc: Global) -> Result<RowIndex, Memory> {
    let text = b"To: bob@b, eve@e\nCc: dan@d\nNewsgroups: comp.x\n\nhi";
    let other = b"To: eve@e\nCc: bob@b, dan@d\nNewsgroups: comp.x, comp.y\n\nhi";
    let one = with_doc(RowIndex::new(alloc), message(alloc, 1, text)?)?;
    let two = with_doc(one, message(alloc, 2, other)?)?;
    let three = with_doc(two, message(alloc, 3, text)?)?;
    let four = with_note(three, note(alloc, 1, 3, [b"ann", b"score", b"fine"])?)?;
    let five = with_note(four, note(alloc, 2, -3, [b"bob", b"score", b"ann"])?)?;
    with_note(five, note(alloc, 3, 3, [b"ann", b"fine", b"fine"])?)
}

// Returns how many documents are found by some keys.
fn docs_by_keys<L: Ledger>(index: &RowIndex, steps: &mut Steps<L>) -> [Option<usize>; 8] {
    [
        docs_found(index, DocKey::Text(TextKind::To, b"bob@b"), steps),
        docs_found(index, DocKey::Text(TextKind::To, b"eve@e"), steps),
        docs_found(index, DocKey::Text(TextKind::To, b"dan@d"), steps),
        docs_found(index, DocKey::Text(TextKind::Cc, b"bob@b"), steps),
        docs_found(index, DocKey::Text(TextKind::Cc, b"dan@d"), steps),
        docs_found(index, DocKey::Text(TextKind::Newsgroups, b"comp.y"), steps),
        docs_found(index, DocKey::Size(49), steps),
        docs_found(index, DocKey::Size(50), steps),
    ]
}

// Returns how many notes are found by some keys.
fn notes_by_keys<L: Ledger>(index: &RowIndex, steps: &mut Steps<L>) -> [Option<usize>; 6] {
    [
        notes_found(index, NoteKey::Text(NoteTextKind::Author, b"ann"), steps),
        notes_found(index, NoteKey::Text(NoteTextKind::Kind, b"score"), steps),
        notes_found(index, NoteKey::Text(NoteTextKind::Text, b"ann"), steps),
        notes_found(index, NoteKey::Text(NoteTextKind::Text, b"score"), steps),
        notes_found(index, NoteKey::Value(3), steps),
        notes_found(index, NoteKey::Value(-3), steps),
    ]
}

// Returns how many rows are found by those keys.
fn found<L: Ledger>(
    alloc: Global,
    blank: Blank,
) -> Result<([Option<usize>; 8], [Option<usize>; 6]), Memory>
    requires blank { IsBlankOf L.name L.parts blank }
{
    let index = six_rows(alloc)?;
    let mut steps = Steps::<L>::start(blank);
    let docs = docs_by_keys(&index, &mut steps);
    let notes = notes_by_keys(&index, &mut steps);
    drop(index);
    Ok((docs, notes))
}

#[test]
fn rows_found_by_a_key_are_those_that_have_it(rt: HostRuntime) -> Result<(), Memory> {
    let (docs, notes) = found::<Brand>(rt.alloc(), Blank::new(1))?;
    assert!(rt;
        docs == [
            Some(2),
            Some(3),
            Some(0),
            Some(1),
            Some(3),
            Some(1),
            Some(2),
            Some(0)
        ]
    );
    assert!(rt; notes == [Some(2), Some(2), Some(1), Some(0), Some(2), Some(1)]);
    Ok(())
}

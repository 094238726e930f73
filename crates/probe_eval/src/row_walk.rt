//! Walks over rows of either table.

ghost use Rattle.std.specs.Prelude.{◌≡◌, ◌+◌, [], ◌++◌, None, length, map, nat_eq, option_to_list};
ghost use Rattle.std.specs.List.{find};
ghost use Rattle.tql_core.specs.Row.{OfDoc, OfNote};
ghost use Rattle.probe_eval.specs.RowWalks.{table_left, each_left, rows_left, row_list};
ghost use Rattle.probe_eval.specs.Work.{rows_with, rows_with_each};

use crate::kinds::{FieldKind, field_kind};
use row_index::{DocWalk, NoteWalk, RowIndex};
use std::marker::Model;
use std::sync::ledger::Ledger;
use tap_base::{DocNum, Steps, Text};
use tql_core::{RowRef, TextField};

// The document of a number.
#[derive(Drop)]
struct One<'a> {
    index: &'a RowIndex,
    num: DocNum,
}

// Rows that are left of one table.
#[derive(Drop)]
enum TableWalk<'a> {
    Docs(DocWalk<'a>),
    Notes(NoteWalk<'a>),
}

// The rows that have one of some texts as a field: those that are left of one text, and the texts
// behind it.
#[derive(Drop)]
struct Each<'a> {
    index: &'a RowIndex,
    field: TextField,
    rows: TableWalk<'a>,
    texts: &'a [Text],
}

// The rows that are left, by where they come from.
#[derive(Drop)]
enum Left<'a> {
    Docs(DocWalk<'a>),
    Notes(NoteWalk<'a>),
    One(One<'a>),
    Each(Each<'a>),
    Nothing,
}

/// A walk over rows of one table. Its value is the rows that are left.
#[derive(Drop)]
pub struct RowWalk<'a> {
    left: Left<'a>,
}

impl<'a> Model for RowWalk<'a> {
    ghost use Rattle.std.specs.Prelude.{List};
    ghost use Rattle.tql_core.specs.Row.{Row};
    ghost use Rattle.probe_eval.specs.RowWalks.{rows_left};

    ghost Value = { List Row };

    ghost view = { λ walk. rows_left walk.left };
}

// Returns the document of a number, with one step if there is one.
fn doc_of<'a, L: Ledger>(one: &One<'a>, steps: &mut Steps<L>) -> Option<RowRef<'a>>
    ensures row { row_list result ≡ map OfDoc
        (option_to_list (find (λ doc. nat_eq doc.num.0 one.now.num.0) one.now.index.now.docs)) }
    ensures steps { steps.new ≡ steps.old + length (row_list result) }
{
    match one.index.doc(one.num, steps) {
        None => None,
        Some(doc) => Some(RowRef::OfDoc(doc)),
    }
}

// Returns the rows of which the field is the text, by one look-up.
fn rows_with<'a>(field: TextField, text: &[u8], index: &'a RowIndex) -> TableWalk<'a>
    ensures { table_left result ≡ rows_with field index.now text.now }
{
    match field_kind(field) {
        FieldKind::OfDocs(kind) => TableWalk::Docs(index.by_text(kind, text).walk()),
        FieldKind::OfNotes(kind) => TableWalk::Notes(index.notes_by(kind, text)),
    }
}

// Removes and returns the next row, with one step if there is one.
fn next_of<'a, L: Ledger>(walk: &mut TableWalk<'a>, steps: &mut Steps<L>) -> Option<RowRef<'a>>
    ensures rows { table_left walk.old ≡ row_list result ++ table_left walk.new }
    ensures end { result ≡ None → table_left walk.old ≡ [] }
    ensures steps { steps.new ≡ steps.old + length (row_list result) }
{
    match walk {
        TableWalk::Docs(docs) => match docs.next(steps) {
            None => None,
            Some(doc) => Some(RowRef::OfDoc(doc)),
        },
        TableWalk::Notes(notes) => match notes.next(steps) {
            None => None,
            Some(note) => Some(RowRef::OfNote(note)),
        },
    }
}

// Removes and returns the next row, with one step if there is one.
fn next_of_each<'a, L: Ledger>(walk: &mut Each<'a>, steps: &mut Steps<L>) -> Option<RowRef<'a>>
    ensures rows { each_left walk.old ≡ row_list result ++ each_left walk.new }
    ensures end { result ≡ None → each_left walk.old ≡ [] }
    ensures steps { steps.new ≡ steps.old + length (row_list result) }
{
    'texts: loop {
        if let Some(row) = next_of(&mut walk.rows, steps) {
            return Some(row);
        }
        match walk.texts.split_first() {
            None => return None,
            Some((text, rest)) => {
                walk.rows = rows_with(walk.field, text.as_slice(), walk.index);
                walk.texts = rest;
            }
        }
    }
}

impl<'a> RowWalk<'a> {
    /// Returns a walk over no rows.
    pub fn none() -> RowWalk<'a>
        ensures { result ≡ [] }
    {
        RowWalk {
            left: Left::Nothing,
        }
    }

    /// Returns a walk over documents.
    pub fn of_docs(docs: DocWalk<'a>) -> RowWalk<'a>
        ensures { result ≡ map OfDoc docs.entry }
    {
        RowWalk {
            left: Left::Docs(docs),
        }
    }

    /// Returns a walk over notes.
    pub fn of_notes(notes: NoteWalk<'a>) -> RowWalk<'a>
        ensures { result ≡ map OfNote notes.entry }
    {
        RowWalk {
            left: Left::Notes(notes),
        }
    }

    /// Returns a walk over the document of this number, if there is one.
    pub fn of_one(index: &'a RowIndex, num: DocNum) -> RowWalk<'a>
        ensures { result
            ≡ map OfDoc (option_to_list (find (λ doc. nat_eq doc.num.0 num.0) index.now.docs)) }
    {
        RowWalk {
            left: Left::One(One { index, num }),
        }
    }

    /// Returns a walk over the rows of which the field is the text, by one look-up.
    pub(crate) fn of_text(index: &'a RowIndex, field: TextField, text: &[u8]) -> RowWalk<'a>
        ensures { result ≡ rows_with field index.now text.now }
    {
        match rows_with(field, text, index) {
            TableWalk::Docs(docs) => RowWalk::of_docs(docs),
            TableWalk::Notes(notes) => RowWalk::of_notes(notes),
        }
    }

    /// Returns a walk over the rows of which the field is one of the texts, one text after the
    /// other.
    pub fn of_each(index: &'a RowIndex, field: TextField, texts: &'a [Text]) -> RowWalk<'a>
        ensures { result ≡ rows_with_each field index.now texts.now }
    {
        match texts.split_first() {
            None => RowWalk::none(),
            Some((text, texts)) => {
                let rows = rows_with(field, text.as_slice(), index);
                RowWalk {
                    left: Left::Each(Each {
                        index,
                        field,
                        rows,
                        texts,
                    }),
                }
            }
        }
    }

    /// Removes and returns the next row, with one step. `None` comes if and only if no row is left,
    /// and then no step.
    pub fn next<L: Ledger>(&mut self, steps: &mut Steps<L>) -> Option<RowRef<'a>>
        ensures rows { self.old ≡ row_list result ++ self.new }
        ensures end { result ≡ None → self.old ≡ [] }
        ensures steps { steps.new ≡ steps.old + length (row_list result) }
    {
        match &mut self.left {
            Left::Docs(docs) => match docs.next(steps) {
                None => None,
                Some(doc) => Some(RowRef::OfDoc(doc)),
            },
            Left::Notes(notes) => match notes.next(steps) {
                None => None,
                Some(note) => Some(RowRef::OfNote(note)),
            },
            Left::One(one) => {
                let found = doc_of(one, steps);
                self.left = Left::Nothing;
                found
            }
            Left::Each(walk) => next_of_each(walk, steps),
            Left::Nothing => None,
        }
    }
}

//! Writes and reads the rows of the table `notes`.

ghost use Rattle.std.specs.Prelude.{◌≡◌, ◌<◌, ◌^◌, [], ◌∷◌, OnOk};
ghost use Rattle.sqlite.specs.Values.{bound};
ghost use Rattle.keeper_sql.specs.RowsAsValues.{given_note, note_in, note_kinds, note_shown};
ghost use Rattle.keeper_sql.specs.RowsAsValues.{as_kept};
ghost use Rattle.keeper_sql.specs.Store.{only, RowsWritten};
ghost use Rattle.keeper_sql.specs.Calls.{AreRowsOf, CommitsNothing, Does, DoesOrUndoes, ReadsStore};
ghost use Rattle.keeper_sql.specs.Calls.{ReadsOnly, ReadsOrUndoes};
ghost use Rattle.keeper_sql.specs.Schema.{insert_note, select_notes};
ghost use Rattle.keeper_sql.specs.Failing.{FailsBy, FailsToRead, FailsToWrite};

use crate::reading::{TableRow, bytes, integer, number, read_rows};
use sqlite::types::ValueRef;
use sqlite::{Alter, Error, Row, Transaction};
use std::alloc::Global;
use tap_base::{DocNum, NoteNum, Rows};
use tap_rows::Note;

// Returns the parameters of the statement that inserts a note.
fn note_values(note: &Note) -> [ValueRef<'_>; 7]
    ensures given { bound result ≡ given_note note.now }
    ensures range { (note.now.num.0 < 2 ^ 32) × (note.now.doc.0 < 2 ^ 32) }
{
    [
        ValueRef::Int(i64::from(note.num.0)),
        ValueRef::Int(i64::from(note.doc.0)),
        ValueRef::Blob(note.author.as_slice()),
        ValueRef::Blob(note.kind.as_slice()),
        ValueRef::Int(note.value),
        ValueRef::Int(note.arrival),
        ValueRef::Blob(note.text.as_slice()),
    ]
}

/// Inserts the row of a note.
pub fn insert_note<S: Alter>(tx: &mut Transaction<'_, S>, note: &Note) -> Result<(), Error>
    ensures same_reference { tx.new.conn.ghost_name ≡ tx.old.conn.ghost_name }
    ensures ok { Does S.Store tx.old.conn.now tx.new.conn.now result
        (RowsWritten (only 2 (as_kept (given_note note.now) ∷ []))) }
    ensures err { DoesOrUndoes S.Store tx.old.conn.now tx.new.conn.now result }
    ensures survives { CommitsNothing S.Store tx.old.conn.now tx.new.conn.now }
    ensures fails { FailsBy S.Store tx.old.conn.now tx.new.conn.now result
        (FailsToWrite insert_note (given_note note.now)) }
    ensures read { OnOk result (note_in (as_kept (given_note note.now)) ≡ note.now) }
{
    let values = note_values(note);
    match tx.execute(
        "INSERT INTO notes (num, doc, author, kind, value, arrival, body) VALUES (?1, ?2, ?3, ?4, \
        ?5, ?6, ?7)",
        &values,
    ) {
        Ok(_) => Ok(()),
        Err(error) => Err(error),
    }
}

impl TableRow for Note {
    ghost shown = { note_shown };

    ghost kinds = { note_kinds };

    fn read(alloc: Global, row: &Row) -> Result<Note, Error> {
        let num = NoteNum(number(row, 0)?);
        let doc = DocNum(number(row, 1)?);
        let author = bytes(alloc, row, 2)?;
        let kind = bytes(alloc, row, 3)?;
        let value = integer(row, 4)?;
        let arrival = integer(row, 5)?;
        let text = bytes(alloc, row, 6)?;
        Ok(Note {
            num,
            doc,
            author,
            kind,
            value,
            arrival,
            text,
        })
    }
}

/// Returns the notes, in order of their numbers.
pub fn read_notes<S: Alter>(alloc: Global, tx: &mut Transaction<'_, S>) -> Result<Rows<Note>, Error>
    ensures same_reference { tx.new.conn.ghost_name ≡ tx.old.conn.ghost_name }
    ensures same { ReadsOnly S.Store tx.old.conn.now tx.new.conn.now result }
    ensures read { ReadsStore S.Store tx.old.conn.now tx.new.conn.now result (AreRowsOf 2 note_in) }
    ensures err { ReadsOrUndoes S.Store tx.old.conn.now tx.new.conn.now result }
    ensures survives { CommitsNothing S.Store tx.old.conn.now tx.new.conn.now }
    ensures fails { FailsBy S.Store tx.old.conn.now tx.new.conn.now result
        (FailsToRead select_notes note_kinds) }
{
    match tx.query_all(
        "SELECT num, doc, author, kind, value, arrival, body FROM notes ORDER BY num",
        &[],
    ) {
        Ok(shown) => read_rows(alloc, shown),
        Err(error) => Err(error),
    }
}

//! Rows of either table.
ghost use Rattle.std.specs.Prelude.{◌≡◌, int_le};
ghost use Rattle.tql_core.specs.Row.{arrival, date, OfDoc};
ghost use Rattle.tql_core.specs.Bindings.{row_of};
ghost use Rattle.tap_rows.specs.Fields.{fields};

use tap_rows::{Fields, KeptDoc, Note};

/// Borrows a row of either table: a document with its fields, or a note.
#[derive(Clone, Copy)]
pub enum RowRef<'a> {
    OfDoc(&'a KeptDoc),
    OfNote(&'a Note),
}

// Returns the fields of a document.
pub(crate) fn fields(doc: &KeptDoc) -> &Fields
    ensures { result.now ≡ fields doc.now }
{
    doc.fields()
}

/// Returns the second at which the row arrived, since 1970-01-01T00:00:00Z.
pub fn arrival(row: RowRef<'_>) -> i64
    ensures { result ≡ arrival (row_of row.entry) }
{
    match row {
        RowRef::OfDoc(doc) => doc.doc().arrival,
        RowRef::OfNote(note) => note.arrival,
    }
}

// Returns the second of the row's date, if it has one.
pub(crate) fn date(row: RowRef<'_>) -> Option<i64>
    ensures { result ≡ date (row_of row.entry) }
{
    match row {
        RowRef::OfDoc(doc) => fields(doc).date,
        RowRef::OfNote(_) => None,
    }
}

// Returns whether the row arrived by this second.
pub(crate) fn has_come(row: RowRef<'_>, second: i64) -> bool
    ensures { result ≡ int_le (arrival (row_of row.entry)) second }
{
    match row {
        RowRef::OfDoc(doc) => doc.doc().arrival <= second,
        RowRef::OfNote(note) => note.arrival <= second,
    }
}

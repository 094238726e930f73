//! The fields of documents and notes, by name.
ghost use Rattle.std.specs.Prelude.{◌≡◌};
ghost use Rattle.tql_types.specs.Fields.{doc_field, note_field, field_named, is_time};

use tql_core::{ListField, NumField, TextField};
use tql_tree::Table;

/// Names a field of a row, by what it is.
#[derive(Clone, Copy, Debug, PartialEq, Eq)]
pub enum Field {
    Number(NumField),
    Text(TextField),
    List(ListField),
    Arrival,
    Date,
}

// Returns a document's field of this name.
fn find_doc_field(name: &[u8]) -> Option<Field>
    ensures { result ≡ doc_field name.now }
{
    if name == b"id".as_slice() {
        Some(Field::Number(NumField::Id))
    } else if name == b"size".as_slice() {
        Some(Field::Number(NumField::Size))
    } else if name == b"from".as_slice() {
        Some(Field::Text(TextField::From))
    } else if name == b"subject".as_slice() {
        Some(Field::Text(TextField::Subject))
    } else if name == b"msgid".as_slice() {
        Some(Field::Text(TextField::MsgId))
    } else if name == b"inreplyto".as_slice() {
        Some(Field::Text(TextField::InReplyTo))
    } else if name == b"ts".as_slice() {
        Some(Field::Arrival)
    } else if name == b"date".as_slice() {
        Some(Field::Date)
    } else if name == b"to".as_slice() {
        Some(Field::List(ListField::To))
    } else if name == b"cc".as_slice() {
        Some(Field::List(ListField::Cc))
    } else if name == b"newsgroups".as_slice() {
        Some(Field::List(ListField::Newsgroups))
    } else if name == b"references".as_slice() {
        Some(Field::List(ListField::References))
    } else if name == b"words".as_slice() {
        Some(Field::List(ListField::Words))
    } else {
        None
    }
}

// Returns a note's field of this name.
fn find_note_field(name: &[u8]) -> Option<Field>
    ensures { result ≡ note_field name.now }
{
    if name == b"id".as_slice() {
        Some(Field::Number(NumField::Id))
    } else if name == b"doc".as_slice() {
        Some(Field::Number(NumField::DocOf))
    } else if name == b"value".as_slice() {
        Some(Field::Number(NumField::Value))
    } else if name == b"author".as_slice() {
        Some(Field::Text(TextField::Author))
    } else if name == b"kind".as_slice() {
        Some(Field::Text(TextField::NoteKind))
    } else if name == b"text".as_slice() {
        Some(Field::Text(TextField::NoteText))
    } else if name == b"ts".as_slice() {
        Some(Field::Arrival)
    } else {
        None
    }
}

/// Returns the table's field of this name, if it has one.
pub fn find_field(table: Table, name: &[u8]) -> Option<Field>
    ensures { result ≡ field_named table name.now }
{
    match table {
        Table::Docs => find_doc_field(name),
        Table::Notes => find_note_field(name),
    }
}

/// Returns whether the field is a time.
pub fn is_time_field(field: Field) -> bool
    ensures { result ≡ is_time field }
{
    matches!(field, Field::Arrival | Field::Date)
}

//! The rows of the tables.
use tap_base::{DocNum, NoteNum, QueryNum, SharedText, Text};

/// A stored document. A number is a row's place in its table, from 1; an arrival is in seconds
/// since 1970-01-01T00:00:00Z, as every moment of a row. Copies of a row share its text.
#[derive(Drop)]
pub struct Doc {
    pub num: DocNum,
    pub arrival: i64,
    pub text: SharedText,
}

/// A note of an author on a document, of a kind, with a value.
#[derive(Drop)]
pub struct Note {
    pub num: NoteNum,
    pub doc: DocNum,
    pub author: Text,
    pub kind: Text,
    pub value: i64,
    pub arrival: i64,
    pub text: Text,
}

/// A user's query, by its name, with the text of its condition.
#[derive(Drop)]
pub struct QueryRow {
    pub num: QueryNum,
    pub owner: Text,
    pub name: Text,
    pub source: Text,
    pub arrival: i64,
}

/// A run of a query: it delivered what was first given before its moment.
#[derive(Clone, Copy, Debug, PartialEq, Eq)]
pub struct RunRow {
    pub num: u32,
    pub query: QueryNum,
    pub moment: i64,
}

/// A document that a run delivered, with the first second at which the query gives it.
#[derive(Clone, Copy, Debug, PartialEq, Eq)]
pub struct Pick {
    pub num: u32,
    pub query: QueryNum,
    pub run: u32,
    pub doc: DocNum,
    pub first: i64,
}

/// A user's filter, with its text.
#[derive(Drop)]
pub struct FilterRow {
    pub num: u32,
    pub owner: Text,
    pub source: Text,
    pub arrival: i64,
}

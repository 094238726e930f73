//! The rows that one command adds.
use crate::{Doc, FilterRow, Note, Pick, QueryRow, RunRow};
use tap_base::Rows;

/// The rows that one command adds to the tables: some documents, one note, one query, one run with
/// its picks, or one filter.
#[derive(Drop)]
pub enum Change {
    Docs(Rows<Doc>),
    OneNote(Note),
    OneQuery(QueryRow),
    RunDone(RunRow, Rows<Pick>),
    OneFilter(FilterRow),
}

//! What a query gives: hits, entries of a box, and rated entries.
use tap_base::{DocNum, Text};

/// A document with the first second at which a query gives it.
#[derive(Clone, Copy, Debug, PartialEq, Eq)]
pub struct Hit {
    pub doc: DocNum,
    pub first: i64,
}

/// A document in a box: the first second at which the query gives it, and the ordinal, from 1, of
/// the run that delivered it.
#[derive(Clone, Copy, Debug, PartialEq, Eq)]
pub struct Entry {
    pub doc: DocNum,
    pub first: i64,
    pub run: u32,
}

/// A document in a listed box, with its rating by a filter: its priority and its class.
#[derive(Drop)]
pub struct Listed {
    pub entry: Entry,
    pub priority: u32,
    pub class: Text,
}

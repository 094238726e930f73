//! The tables that a query names.

/// Names the table of a variable's rows: documents or notes.
#[derive(Clone, Copy, Debug, PartialEq, Eq, Hash)]
pub enum Table {
    Docs,
    Notes,
}

//! The kinds of posting lists of which each document stands in at most one.

use row_index::TextKind;

/// What the documents of a posting list have in common, if each document stands in at most one list
/// of the kind: a text of which a document has at most one, or the size.
#[derive(Clone, Copy, PartialEq, Eq)]
pub enum ListKind {
    Text(TextKind),
    Size,
}

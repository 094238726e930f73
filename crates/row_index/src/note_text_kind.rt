//! The kinds of texts by which notes are found.

/// A kind of text by which notes are found: the author, the kind or the text.
#[derive(Clone, Copy, Debug, PartialEq, Eq)]
pub enum NoteTextKind {
    Author,
    Kind,
    Text,
}

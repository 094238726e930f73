//! The kinds of texts by which the index finds rows of a field.

ghost use Rattle.std.specs.Prelude.{◌≡◌};
ghost use Rattle.probe_eval.specs.Kinds.{field_kind, of_docs, list_kind};

use row_index::{NoteTextKind, TextKind};
use tql_core::{ListField, TextField};

/// The kind of a text by which the index finds documents, or notes.
#[derive(Clone, Copy)]
pub enum FieldKind {
    OfDocs(TextKind),
    OfNotes(NoteTextKind),
}

/// Returns the kind of text by which the index finds rows of a field.
pub(crate) fn field_kind(field: TextField) -> FieldKind
    ensures { result ≡ field_kind field }
{
    match field {
        TextField::From => FieldKind::OfDocs(TextKind::Sender),
        TextField::Subject => FieldKind::OfDocs(TextKind::Subject),
        TextField::MsgId => FieldKind::OfDocs(TextKind::MsgId),
        TextField::InReplyTo => FieldKind::OfDocs(TextKind::Parent),
        TextField::Author => FieldKind::OfNotes(NoteTextKind::Author),
        TextField::NoteKind => FieldKind::OfNotes(NoteTextKind::Kind),
        TextField::NoteText => FieldKind::OfNotes(NoteTextKind::Text),
    }
}

/// Returns the kind of text by which the index finds documents, if it is one.
pub(crate) fn of_docs(kind: FieldKind) -> Option<TextKind>
    ensures { result ≡ of_docs kind }
{
    match kind {
        FieldKind::OfDocs(kind) => Some(kind),
        FieldKind::OfNotes(_) => None,
    }
}

/// Returns the kind of text by which the index finds documents of a field that is a list.
pub(crate) fn list_kind(list: ListField) -> TextKind
    ensures { result ≡ list_kind list }
{
    match list {
        ListField::To => TextKind::To,
        ListField::Cc => TextKind::Cc,
        ListField::Newsgroups => TextKind::Newsgroups,
        ListField::References => TextKind::Reference,
        ListField::Words => TextKind::Word,
    }
}

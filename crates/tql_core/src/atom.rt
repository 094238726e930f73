//! Atoms: conditions on rows that don't speak of now.

use crate::{Term, Var};
use tap_base::{Copied, Memory, Op, Text};

/// Names a field that is a number: a row's number, a document's size in bytes, the number of the
/// document that a note is on, a note's value.
#[derive(Clone, Copy, Debug, PartialEq, Eq, Hash)]
pub enum NumField {
    Id,
    Size,
    DocOf,
    Value,
}

/// Names a field that is a text: four of documents, three of notes.
#[derive(Clone, Copy, Debug, PartialEq, Eq, Hash)]
pub enum TextField {
    From,
    Subject,
    MsgId,
    InReplyTo,
    Author,
    NoteKind,
    NoteText,
}

/// Names a field of a document that is a list of texts.
#[derive(Clone, Copy, Debug, PartialEq, Eq, Hash)]
pub enum ListField {
    To,
    Cc,
    Newsgroups,
    References,
    Words,
}

/// Holds a number, or names a number field of a variable's row.
#[derive(Clone, Copy, Debug, PartialEq, Eq, Hash)]
pub enum NumExpr {
    Literal(i64),
    Field(Var, NumField),
}

/// Holds a text, or names a text field of a variable's row.
#[derive(PartialEq, Eq, Hash, Drop)]
pub enum TextExpr {
    Literal(Text),
    Field(Var, TextField),
}

/// Holds a condition on rows that doesn't speak of now: a comparison of two numbers, texts or
/// times, or that a list has a text.
#[derive(PartialEq, Eq, Hash, Drop)]
pub enum Atom {
    Numbers(NumExpr, Op, NumExpr),
    Texts(TextExpr, Op, TextExpr),
    Times(Term, Op, Term),
    Has(Var, ListField, TextExpr),
}

impl Copied for TextExpr {
    fn copied(&self) -> Result<TextExpr, Memory> {
        match self {
            TextExpr::Literal(text) => Ok(TextExpr::Literal(text.copy()?)),
            TextExpr::Field(var, field) => Ok(TextExpr::Field(*var, *field)),
        }
    }
}

impl Copied for Atom {
    fn copied(&self) -> Result<Atom, Memory> {
        match self {
            Atom::Numbers(x, op, y) => Ok(Atom::Numbers(*x, *op, *y)),
            Atom::Texts(x, op, y) => Ok(Atom::Texts(x.copied()?, *op, y.copied()?)),
            Atom::Times(x, op, y) => Ok(Atom::Times(*x, *op, *y)),
            Atom::Has(var, field, y) => Ok(Atom::Has(*var, *field, y.copied()?)),
        }
    }
}

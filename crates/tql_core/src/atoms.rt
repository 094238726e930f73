//! The values of expressions and the truth of atoms, for some bound rows.
ghost use Rattle.std.specs.Prelude.{◌≡◌, Option, Some, option_copied};
ghost use Rattle.std.specs.List.{list_any};
ghost use Rattle.std.specs.declared.cmp.Ordering.{Ordering};
ghost use Rattle.std.specs.Ordering.{is_eq};
ghost use Rattle.tql_core.specs.Values.{lookup, on_row, field, number, text_field, text};
ghost use Rattle.tql_core.specs.Values.{list_field, compare, both};
ghost use Rattle.tql_core.specs.Values.{answers, text_cmp, both_texts, has, true_atom};
ghost use Rattle.tql_core.specs.Bindings.{row_of};

use crate::row_ref::fields;
use crate::values::value;
use crate::{Atom, Env, ListField, NumExpr, NumField, RowRef, TextExpr, TextField, Var};
use std::cmp::Ordering;
use tap_base::{MessageWords, Op, Text};

/// Returns whether the comparison of the two numbers holds.
pub fn compares(op: Op, x: i128, y: i128) -> bool
    ensures { result ≡ compare op x y }
{
    match op {
        Op::Eq => x == y,
        Op::Ne => x != y,
        Op::Lt => x < y,
        Op::Le => x <= y,
        Op::Gt => x > y,
        Op::Ge => x >= y,
    }
}

// Returns whether the comparison holds, which it doesn't if a side is absent.
fn both(op: Op, x: Option<i128>, y: Option<i128>) -> bool
    ensures { result ≡ both op x y }
{
    match (x, y) {
        (Some(x), Some(y)) => compares(op, x, y),
        _ => false,
    }
}

// Returns a number of the row, if its table has this field.
fn field(which: NumField, row: RowRef) -> Option<i128>
    ensures { result ≡ field which (row_of row.entry) }
{
    match (which, row) {
        (NumField::Id, RowRef::OfDoc(doc)) => Some(i128::from(doc.doc().num.0)),
        (NumField::Id, RowRef::OfNote(note)) => Some(i128::from(note.num.0)),
        (NumField::Size, RowRef::OfDoc(doc)) => Some(i128::from(fields(doc).size)),
        (NumField::DocOf, RowRef::OfNote(note)) => Some(i128::from(note.doc.0)),
        (NumField::Value, RowRef::OfNote(note)) => Some(i128::from(note.value)),
        _ => None,
    }
}

/// Returns the number that the expression has, or `None` if and only if its variable is unbound or
/// its row has no such field.
pub fn number(of: NumExpr, env: &Env) -> Option<i128>
    ensures { result ≡ number of env.now }
{
    match of {
        NumExpr::Literal(n) => Some(i128::from(n)),
        NumExpr::Field(v, f) => match env.get(v) {
            None => None,
            Some(row) => field(f, row),
        },
    }
}

// Returns the bytes of a text, if there is one.
fn bytes_of(text: &Option<Text>) -> Option<&[u8]>
    ensures { option_copied result ≡ text.now }
{
    match text {
        None => None,
        Some(text) => Some(text.as_slice()),
    }
}

// Returns a text of the row, if its table has this field and the row has it.
fn text_field(field: TextField, row: RowRef<'_>) -> Option<&[u8]>
    ensures { option_copied result ≡ text_field field (row_of row.entry) }
{
    match row {
        RowRef::OfDoc(doc) => match field {
            TextField::From => bytes_of(&fields(doc).from),
            TextField::Subject => bytes_of(&fields(doc).subject),
            TextField::MsgId => bytes_of(&fields(doc).msgid),
            TextField::InReplyTo => bytes_of(&fields(doc).inreplyto),
            _ => None,
        },
        RowRef::OfNote(note) => match field {
            TextField::Author => Some(note.author.as_slice()),
            TextField::NoteKind => Some(note.kind.as_slice()),
            TextField::NoteText => Some(note.text.as_slice()),
            _ => None,
        },
    }
}

/// Returns the text that the expression has, or `None` if and only if its variable is unbound or
/// the field is absent.
pub fn text<'a>(of: &'a TextExpr, env: &Env<'a>) -> Option<&'a [u8]>
    ensures { option_copied result ≡ text of.now env.now }
{
    match of {
        TextExpr::Literal(text) => Some(text.as_slice()),
        TextExpr::Field(v, f) => match env.get(*v) {
            None => None,
            Some(row) => text_field(*f, row),
        },
    }
}

// Returns whether the comparison holds of two values in this order.
fn answers(op: Op, order: Ordering) -> bool
    ensures { result ≡ answers op order }
{
    match op {
        Op::Eq => order.is_eq(),
        Op::Ne => !order.is_eq(),
        Op::Lt => order.is_lt(),
        Op::Le => !order.is_gt(),
        Op::Gt => order.is_gt(),
        Op::Ge => !order.is_lt(),
    }
}

// Returns whether the texts are equal.
fn is_same(x: &[u8], y: &[u8]) -> bool
    ensures { result ≡ is_eq (text_cmp x.now y.now) }
{
    x == y
}

// Returns whether the comparison of two texts by bytes holds. Equal texts are found without an
// order.
fn compares_texts(op: Op, x: &[u8], y: &[u8]) -> bool
    ensures { result ≡ answers op (text_cmp x.now y.now) }
{
    match op {
        Op::Eq => is_same(x, y),
        Op::Ne => !is_same(x, y),
        _ => answers(op, x.cmp(y)),
    }
}

// Returns whether the comparison of two texts by bytes holds, which it doesn't if a side is absent.
fn both_texts(op: Op, x: Option<&[u8]>, y: Option<&[u8]>) -> bool
    ensures { result ≡ both_texts op (option_copied x.entry) (option_copied y.entry) }
{
    match (x, y) {
        (Some(x), Some(y)) => compares_texts(op, x, y),
        _ => false,
    }
}

// Returns whether the text is one of these.
fn holds_text(texts: &[Text], text: &[u8]) -> bool
    ensures { result ≡ list_any (λ x. is_eq (text_cmp x text.now)) texts.now }
{
    for held in texts {
        if is_same(held.as_slice(), text) {
            return true;
        }
    }
    false
}

// Returns whether the text is one of the words of a message.
fn holds_word(words: &MessageWords, text: &[u8]) -> bool
    ensures { result ≡ list_any (λ x. is_eq (text_cmp x text.now)) words.now }
{
    words.holds(text)
}

// Returns whether a list of the row has the text, which it doesn't if its table has no such field.
fn row_has(field: ListField, row: RowRef<'_>, text: &[u8]) -> bool
    ensures { result ≡ has (list_field field (row_of row.entry)) (Some text.now) }
{
    match row {
        RowRef::OfDoc(doc) => match field {
            ListField::To => holds_text(fields(doc).to.as_slice(), text),
            ListField::Cc => holds_text(fields(doc).cc.as_slice(), text),
            ListField::Newsgroups => holds_text(fields(doc).newsgroups.as_slice(), text),
            ListField::References => holds_text(fields(doc).references.as_slice(), text),
            ListField::Words => holds_word(&fields(doc).words, text),
        },
        RowRef::OfNote(_) => false,
    }
}

// Returns whether a list of the variable's row has the text, which it doesn't if a side is absent.
fn has<'a>(v: Var, f: ListField, text: Option<&[u8]>, env: &Env<'a>) -> bool
    ensures { result ≡ has (on_row (lookup v.0 env.now) (list_field f)) (option_copied text.entry) }
{
    match (env.get(v), text) {
        (Some(row), Some(text)) => row_has(f, row, text),
        _ => false,
    }
}

/// Returns the truth of an atom, which is false if a side is absent.
pub fn true_atom<'a>(atom: &'a Atom, env: &Env<'a>) -> bool
    ensures { result ≡ true_atom atom.now env.now }
{
    match atom {
        Atom::Numbers(x, op, y) => both(*op, number(*x, env), number(*y, env)),
        Atom::Texts(x, op, y) => both_texts(*op, text(x, env), text(y, env)),
        Atom::Times(x, op, y) => both(*op, value(*x, env), value(*y, env)),
        Atom::Has(v, f, y) => has(*v, *f, text(y, env), env),
    }
}

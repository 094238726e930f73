//! Atoms, times and variables in the syntax of a query.

ghost use Rattle.std.specs.Prelude.{◌≡◌, ◌++◌, OnOk, codes};
ghost use Rattle.tql_tree.specs.Canonical.{text_of_op};
ghost use Rattle.incremental_rewrite.specs.Lines.{var_text, plus_text, arrival_text, date_text};
ghost use Rattle.incremental_rewrite.specs.Lines.{term_text};
ghost use Rattle.incremental_rewrite.specs.Lines.{num_field_text, text_field_text, list_field_text};
ghost use Rattle.incremental_rewrite.specs.Lines.{number_text, text_text, atom_text};

use std::alloc::Global;
use tap_base::{Memory, Op, Text, put_decimal};
use tql_core::{Atom, Base, ListField, NumExpr, NumField, Term, TextExpr, TextField, Var};
use tql_tree::{name_of_op, put_quoted};

fn name_of_number(field: NumField) -> &'static [u8]
    ensures { result.now ≡ num_field_text field }
{
    match field {
        NumField::Id => b"id".as_slice(),
        NumField::Size => b"size".as_slice(),
        NumField::DocOf => b"doc".as_slice(),
        NumField::Value => b"value".as_slice(),
    }
}

fn name_of_text(field: TextField) -> &'static [u8]
    ensures { result.now ≡ text_field_text field }
{
    match field {
        TextField::From => b"from".as_slice(),
        TextField::Subject => b"subject".as_slice(),
        TextField::MsgId => b"msgid".as_slice(),
        TextField::InReplyTo => b"inreplyto".as_slice(),
        TextField::Author => b"author".as_slice(),
        TextField::NoteKind => b"kind".as_slice(),
        TextField::NoteText => b"text".as_slice(),
    }
}

fn name_of_list(field: ListField) -> &'static [u8]
    ensures { result.now ≡ list_field_text field }
{
    match field {
        ListField::To => b"to".as_slice(),
        ListField::Cc => b"cc".as_slice(),
        ListField::Newsgroups => b"newsgroups".as_slice(),
        ListField::References => b"references".as_slice(),
        ListField::Words => b"words".as_slice(),
    }
}

// Appends a variable's name.
pub(crate) fn put_var(alloc: Global, var: Var, into: &mut Text) -> Result<(), Memory>
    ensures { OnOk result (into.new ≡ into.old ++ var_text var) }
{
    if var.0 == 0 {
        return into.push_slice(b"m");
    }
    if var.0 < 8 {
        into.push_slice(b"v")?;
        put_decimal(alloc, i64::from(var.0), into)
    } else {
        into.push_slice(b"p")?;
        put_decimal(alloc, i64::from(var.0 - 8), into)
    }
}

// Appends a number of seconds that is added to a time, or nothing if it is 0.
fn put_plus(alloc: Global, n: i64, into: &mut Text) -> Result<(), Memory>
    ensures { OnOk result (into.new ≡ into.old ++ plus_text n) }
{
    if n == 0 {
        return Ok(());
    }
    if 0 < n {
        into.push_slice(b" + ")?;
        return put_decimal(alloc, n, into);
    }
    // The digits without their sign, which has blanks around it here.
    let mut digits = Text::new(alloc);
    put_decimal(alloc, n, &mut digits)?;
    into.push_slice(b" - ")?;
    into.push_slice(&digits.as_slice()[1..])
}

// Appends an arrival and the seconds that are added to it.
fn put_arrival(alloc: Global, var: Var, plus: i64, into: &mut Text) -> Result<(), Memory>
    ensures { OnOk result (into.new ≡ into.old ++ arrival_text var plus) }
{
    put_var(alloc, var, into)?;
    into.push_slice(b".ts")?;
    put_plus(alloc, plus, into)
}

// Appends a date and the seconds that are added to it.
fn put_date(alloc: Global, var: Var, plus: i64, into: &mut Text) -> Result<(), Memory>
    ensures { OnOk result (into.new ≡ into.old ++ date_text var plus) }
{
    put_var(alloc, var, into)?;
    into.push_slice(b".date")?;
    put_plus(alloc, plus, into)
}

// Appends a time.
pub(crate) fn put_term(alloc: Global, term: Term, into: &mut Text) -> Result<(), Memory>
    ensures { OnOk result (into.new ≡ into.old ++ term_text term) }
{
    match term.base {
        Base::Arrival(var) => put_arrival(alloc, var, term.plus, into),
        Base::Date(var) => put_date(alloc, var, term.plus, into),
        Base::Fixed => {
            into.push_slice(b"TIME ")?;
            put_decimal(alloc, term.plus, into)
        }
        Base::ArrivalDay(var, plus) => {
            into.push_slice(b"DAY(")?;
            put_arrival(alloc, var, plus, into)?;
            into.push_slice(b")")
        }
        Base::DateDay(var, plus) => {
            into.push_slice(b"DAY(")?;
            put_date(alloc, var, plus, into)?;
            into.push_slice(b")")
        }
    }
}

// Appends a number or the name of a number field.
fn put_number(alloc: Global, x: NumExpr, into: &mut Text) -> Result<(), Memory>
    ensures { OnOk result (into.new ≡ into.old ++ number_text x) }
{
    match x {
        NumExpr::Literal(n) => put_decimal(alloc, n, into),
        NumExpr::Field(var, field) => {
            put_var(alloc, var, into)?;
            into.push_slice(b".")?;
            into.push_slice(name_of_number(field))
        }
    }
}

// Appends a text in quotes or the name of a text field.
fn put_text(alloc: Global, x: &TextExpr, into: &mut Text) -> Result<(), Memory>
    ensures { OnOk result (into.new ≡ into.old ++ text_text x.now) }
{
    match x {
        TextExpr::Literal(text) => put_quoted(text.as_slice(), into),
        TextExpr::Field(var, field) => {
            put_var(alloc, *var, into)?;
            into.push_slice(b".")?;
            into.push_slice(name_of_text(*field))
        }
    }
}

// Appends the sign of a comparison between blanks.
fn put_op(op: Op, into: &mut Text) -> Result<(), Memory>
    ensures { OnOk result (into.new ≡ into.old ++ codes " " ++ text_of_op op ++ codes " ") }
{
    into.push_slice(b" ")?;
    into.push_slice(name_of_op(op))?;
    into.push_slice(b" ")
}

// Appends an atom.
pub(crate) fn put_atom(alloc: Global, atom: &Atom, into: &mut Text) -> Result<(), Memory>
    ensures { OnOk result (into.new ≡ into.old ++ atom_text atom.now) }
{
    match atom {
        Atom::Numbers(x, op, y) => {
            put_number(alloc, *x, into)?;
            put_op(*op, into)?;
            put_number(alloc, *y, into)
        }
        Atom::Texts(x, op, y) => {
            put_text(alloc, x, into)?;
            put_op(*op, into)?;
            put_text(alloc, y, into)
        }
        Atom::Times(x, op, y) => {
            put_term(alloc, *x, into)?;
            put_op(*op, into)?;
            put_term(alloc, *y, into)
        }
        Atom::Has(var, field, y) => {
            put_var(alloc, *var, into)?;
            into.push_slice(b".")?;
            into.push_slice(name_of_list(*field))?;
            into.push_slice(b" HAS ")?;
            put_text(alloc, y, into)
        }
    }
}

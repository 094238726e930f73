//! The rows that an access of the index reaches.

ghost use Rattle.std.specs.Prelude.{◌≡◌, ◌≤◌, ℕ, ℤ, pos, neg_ℤ, ◌≤ℤ◌, false, filter, int_le};
ghost use Rattle.std.specs.Prelude.{option_copied, Option, Some, None, IfSome, unwrap_or, []};
ghost use Rattle.tap_base.specs.declared.numbers.Op.TheVariants.{Eq};
ghost use Rattle.tap_rows.specs.Fields.{fields};
ghost use Rattle.tql_core.specs.declared.atom.NumField.TheVariants.{Id, Size, DocOf, Value};
ghost use Rattle.tql_core.specs.Row.{OfDoc, arrival, rows_of};
ghost use Rattle.tql_core.specs.Values.{both};
ghost use Rattle.access_plan.specs.Accesses.{walked_list};
ghost use Rattle.access_plan.specs.Views.{access_at};
ghost use Rattle.probe_eval.specs.Work.{rows_of_number, rows_of_text, rows_of_entry, listed_texts};
ghost use Rattle.probe_eval.specs.Work.{rows_by, all_rows_by};

use crate::kinds::list_kind;
use crate::row_walk::RowWalk;
use access_plan::AccessRef;
use row_index::RowIndex;
use tap_base::{DocNum, Text};
use tap_rows::{Fields, KeptDoc};
use tql_core::{Env, ListField, NumField, RowRef, TextField, Var, number, text};
use tql_tree::Table;

/// Returns the number, if it has 32 bits.
pub(crate) fn short(num: Option<i128>) -> Option<u32>
    ensures some { IfSome result (λ n. num ≡ Some (pos n)) }
    ensures none { result ≡ None → (k : ℕ) → k ≤ 4294967295 → both Eq (Some (pos k)) num ≡ false }
{
    match num {
        None => None,
        Some(num) => u32::try_from(num).ok(),
    }
}

/// Returns the number, if it has 64 bits and a sign.
pub(crate) fn signed(num: Option<i128>) -> Option<i64>
    ensures some { IfSome result (λ n. num ≡ Some n) }
    ensures none { result ≡ None → (k : ℤ) → neg_ℤ (pos 9223372036854775808) ≤ℤ k
        → k ≤ℤ pos 9223372036854775807 → both Eq (Some k) num ≡ false }
{
    match num {
        None => None,
        Some(num) => i64::try_from(num).ok(),
    }
}

// Returns the document of this number.
fn with_number(num: Option<i128>, index: &RowIndex) -> RowWalk<'_>
    ensures { result ≡ rows_of_number Id index.now num }
{
    // Brings into scope that the documents' numbers are their places.
    let _docs = index.docs();
    match short(num) {
        None => RowWalk::none(),
        Some(num) => RowWalk::of_one(index, DocNum(num)),
    }
}

// Returns the documents of this size.
fn with_size(num: Option<i128>, index: &RowIndex) -> RowWalk<'_>
    ensures { result ≡ rows_of_number Size index.now num }
{
    // Brings into scope that sizes have 32 bits.
    let _docs = index.docs();
    match short(num) {
        None => RowWalk::none(),
        Some(size) => RowWalk::of_docs(index.of_size(size).walk()),
    }
}

// Returns the notes on the document of this number.
fn with_doc(num: Option<i128>, index: &RowIndex) -> RowWalk<'_>
    ensures { result ≡ rows_of_number DocOf index.now num }
{
    // Brings into scope that the numbers of noted documents have 32 bits.
    let _notes = index.notes();
    match short(num) {
        None => RowWalk::none(),
        Some(num) => RowWalk::of_notes(index.notes_of(DocNum(num))),
    }
}

// Returns the notes of this value.
fn with_value(num: Option<i128>, index: &RowIndex) -> RowWalk<'_>
    ensures { result ≡ rows_of_number Value index.now num }
{
    // Brings into scope that values have 64 bits.
    let _notes = index.notes();
    match signed(num) {
        None => RowWalk::none(),
        Some(value) => RowWalk::of_notes(index.notes_valued(value)),
    }
}

// Returns the rows of which the field is the number.
fn with_field(field: NumField, num: Option<i128>, index: &RowIndex) -> RowWalk<'_>
    ensures { result ≡ rows_of_number field index.now num }
{
    match field {
        NumField::Id => with_number(num, index),
        NumField::Size => with_size(num, index),
        NumField::DocOf => with_doc(num, index),
        NumField::Value => with_value(num, index),
    }
}

// Returns the rows of which the field is the text.
fn with_text<'a>(field: TextField, text: Option<&[u8]>, index: &'a RowIndex) -> RowWalk<'a>
    ensures { result ≡ rows_of_text field index.now (option_copied text.entry) }
{
    match text {
        None => RowWalk::none(),
        Some(text) => RowWalk::of_text(index, field, text),
    }
}

// Returns the documents that have the text in their list.
fn with_entry<'a>(list: ListField, text: Option<&[u8]>, index: &'a RowIndex) -> RowWalk<'a>
    ensures { result ≡ rows_of_entry list index.now (option_copied text.entry) }
{
    match text {
        None => RowWalk::none(),
        Some(text) => RowWalk::of_docs(index.by_text(list_kind(list), text).walk()),
    }
}

// Returns the fields of a document.
#[tactic(auto, unfolding(tap_rows::specs::Fields::fields))]
fn fields_in(doc: &KeptDoc) -> &Fields
    ensures { result.now ≡ fields doc.now }
{
    doc.fields()
}

// Returns the texts of a document's list that are looked up.
fn texts_in(doc: &KeptDoc, list: ListField) -> &[Text]
    ensures { result.now ≡ unwrap_or (walked_list list (OfDoc doc.now)) [] }
{
    let fields = fields_in(doc);
    match list {
        ListField::To => fields.to.as_slice(),
        ListField::Cc => fields.cc.as_slice(),
        ListField::Newsgroups => fields.newsgroups.as_slice(),
        ListField::References => fields.references.as_slice(),
        ListField::Words => &[],
    }
}

/// Returns the texts in a list of the variable's row that are looked up: none if it has no row, or
/// that of a note.
pub(crate) fn listed_texts<'a>(var: Var, list: ListField, env: &Env<'a>) -> &'a [Text]
    ensures { result.now ≡ listed_texts var list env.now }
{
    match env.get(var) {
        Some(RowRef::OfDoc(doc)) => texts_in(doc, list),
        Some(RowRef::OfNote(_note)) => &[],
        None => &[],
    }
}

// Returns the rows of a table that have arrived by `last`.
fn whole_to(table: Table, last: i64, index: &RowIndex) -> RowWalk<'_>
    ensures { result ≡ filter (λ row. int_le (arrival row) last) (rows_of table index.now) }
{
    match table {
        Table::Docs => RowWalk::of_docs(index.all_docs_to(last)),
        Table::Notes => RowWalk::of_notes(index.all_notes_to(last)),
    }
}

/// Returns the rows that an access reaches, of a whole table those that have arrived by `last`.
/// Those of which a field is a text that stands twice in a row's list come twice.
pub(crate) fn rows_by<'a>(
    access: AccessRef<'a>,
    last: i64,
    env: &Env<'a>,
    index: &'a RowIndex,
) -> RowWalk<'a>
    ensures { result ≡ rows_by last (access_at access.entry) env.now index.now }
{
    match access {
        AccessRef::ByNumber(field, e) => with_field(field, number(e, env), index),
        AccessRef::ByText(field, e) => with_text(field, text(e, env), index),
        AccessRef::ByEntry(list, e) => with_entry(list, text(e, env), index),
        AccessRef::ByEach(var, list, field) => {
            RowWalk::of_each(index, field, listed_texts(var, list, env))
        }
        AccessRef::Whole(table) => whole_to(table, last, index),
    }
}

/// Returns the rows that an access reaches.
pub(crate) fn all_rows_by<'a>(
    access: AccessRef<'a>,
    env: &Env<'a>,
    index: &'a RowIndex,
) -> RowWalk<'a>
    ensures { result ≡ all_rows_by (access_at access.entry) env.now index.now }
{
    // Brings into scope that no row arrived after the last second.
    let _docs = index.docs();
    let _notes = index.notes();
    rows_by(access, i64::MAX, env, index)
}

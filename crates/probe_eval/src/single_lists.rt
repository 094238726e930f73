//! Posting lists by a key of which each document has at most one: a text, or the size.

ghost use Rattle.std.specs.Prelude.{◌≡◌, None, IfSome, option_copied};
ghost use Rattle.access_plan.specs.Views.{access_at};
ghost use Rattle.probe_eval.specs.Kinds.{field_kind};
ghost use Rattle.probe_eval.specs.SingleLists.{text_key, size_key, single_key};
ghost use Rattle.probe_eval.specs.SingleLists.{IsUnder, IsUnderField, IsOfSize, ReachesList};

use crate::access_rows::short;
use crate::kinds::{FieldKind, field_kind};
use crate::list_kind::ListKind;
use access_plan::AccessRef;
use row_index::{PostingList, RowIndex, TextKind};
use tql_core::{Env, NumField, TextField, number, text};

/// The documents under a key of a kind of which each document has at most one, so that each stands
/// in one such list.
#[derive(Drop)]
pub struct SingleList<'a> {
    pub kind: ListKind,
    pub docs: PostingList<'a>,
}

// Returns the list under the text, if there is one.
fn list_under<'a>(
    kind: TextKind,
    text: Option<&[u8]>,
    index: &'a RowIndex,
) -> Option<SingleList<'a>>
    ensures some { IfSome result (λ found.
        IsUnder kind (option_copied text.entry) index.now found) }
    ensures none { result ≡ None → option_copied text.entry ≡ None }
{
    match text {
        None => None,
        Some(text) => Some(SingleList {
            kind: ListKind::Text(kind),
            docs: index.by_text(kind, text),
        }),
    }
}

// Returns the list under the text, if there is one and the field is one of documents.
fn list_of_field<'a>(
    field: TextField,
    text: Option<&[u8]>,
    index: &'a RowIndex,
) -> Option<SingleList<'a>>
    ensures some { IfSome result (λ found.
        IsUnderField field (option_copied text.entry) index.now found) }
    ensures none { result ≡ None → text_key (field_kind field) (option_copied text.entry) ≡ None }
{
    match field_kind(field) {
        FieldKind::OfDocs(kind) => list_under(kind, text, index),
        FieldKind::OfNotes(_own) => None,
    }
}

// Returns the list of the documents of the size, if it has 32 bits.
fn list_of_size<'a>(num: Option<i128>, index: &'a RowIndex) -> Option<SingleList<'a>>
    ensures some { IfSome result (λ found. IsOfSize num index.now found) }
    ensures none { result ≡ None → size_key num ≡ None }
{
    match short(num) {
        None => None,
        Some(size) => Some(SingleList {
            kind: ListKind::Size,
            docs: index.of_size(size),
        }),
    }
}

/// Returns the posting list that the access reaches, by one look-up. `None` comes if and only if it
/// goes by neither a size nor a text of which each document has at most one, or what it goes by is
/// absent, or is no number of 32 bits.
pub fn single_list<'a>(
    access: AccessRef<'a>,
    env: &Env<'a>,
    index: &'a RowIndex,
) -> Option<SingleList<'a>>
    ensures some { IfSome result (λ found.
        ReachesList index.now (access_at access.entry) env.now found) }
    ensures none { result ≡ None → single_key (access_at access.entry) env.now ≡ None }
{
    // Brings into scope that the documents arrived in order of their numbers.
    let _docs = index.docs();
    match access {
        AccessRef::ByText(field, e) => list_of_field(field, text(e, env), index),
        AccessRef::ByNumber(NumField::Size, e) => list_of_size(number(e, env), index),
        _ => None,
    }
}

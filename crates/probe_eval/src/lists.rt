//! The lists that accesses give, and the shortest of them.

ghost use Rattle.std.specs.Prelude.{◌≡◌, ◌⊎◌, [], length, false, None, Some, IfSome};
ghost use Rattle.std.specs.Prelude.{option_copied};
ghost use Rattle.tql_core.specs.declared.atom.NumField.TheVariants.{DocOf, Value};
ghost use Rattle.tql_core.specs.Row.{rows_of};
ghost use Rattle.access_plan.specs.Views.{access_at, option_access};
ghost use Rattle.probe_eval.specs.Shortest.{IsUnderText, IsListOf, count_each};
ghost use Rattle.probe_eval.specs.Shortest.{shorter_access, shortest_after};
ghost use Rattle.probe_eval.specs.SingleLists.{single_key};
ghost use Rattle.probe_eval.specs.Work.{is_list, rows_of_number, rows_of_text, rows_with};
ghost use Rattle.probe_eval.specs.Work.{all_rows_by, access_length, shortest};

use crate::access_rows::{listed_texts, short, signed};
use crate::kinds::{FieldKind, field_kind, list_kind, of_docs};
use crate::single_lists::single_list;
use access_plan::{Access, AccessRef};
use row_index::{PostingList, RowIndex, TextKind};
use tap_base::{DocNum, Text};
use tql_core::{Env, NumField, TextField, number, text};
use tql_tree::Table;

// Returns the documents under the text, if there is one.
fn docs_under<'a>(
    kind: TextKind,
    text: Option<&[u8]>,
    index: &'a RowIndex,
) -> Option<PostingList<'a>>
    ensures some { IfSome result (λ docs.
        IsUnderText kind (option_copied text.entry) index.now docs) }
    ensures none { result ≡ None → option_copied text.entry ≡ None }
{
    match text {
        None => None,
        Some(text) => Some(index.by_text(kind, text)),
    }
}

/// Returns the posting list that the access gives by a text of which a document may have many.
pub(crate) fn many_list<'a>(
    access: AccessRef<'a>,
    env: &Env<'a>,
    index: &'a RowIndex,
) -> Option<PostingList<'a>>
    ensures some { IfSome result (λ docs.
        IsListOf index.now (access_at access.entry) env.now docs) }
    ensures none { result ≡ None → single_key (access_at access.entry) env.now ≡ None
        → (is_list (access_at access.entry) ≡ false)
        ⊎ (all_rows_by (access_at access.entry) env.now index.now ≡ []) }
{
    // Brings into scope that the documents arrived in order of their numbers, and that sizes have
    // 32 bits.
    let _docs = index.docs();
    match access {
        AccessRef::ByEntry(list, e) => docs_under(list_kind(list), text(e, env), index),
        _ => None,
    }
}

/// Returns whether the access gives a posting list of documents.
pub(crate) fn is_list(access: AccessRef) -> bool
    ensures { result ≡ is_list (access_at access.entry) }
{
    match access {
        AccessRef::ByNumber(NumField::Size, _) => true,
        AccessRef::ByText(field, _) => of_docs(field_kind(field)).is_some(),
        AccessRef::ByEntry(_, _) => true,
        _ => false,
    }
}

/// Returns the posting list that the access gives, by one look-up. `None` comes if it gives none,
/// or if it reaches no row.
pub(crate) fn text_list<'a>(
    access: AccessRef<'a>,
    env: &Env<'a>,
    index: &'a RowIndex,
) -> Option<PostingList<'a>>
    ensures some { IfSome result (λ docs.
        IsListOf index.now (access_at access.entry) env.now docs) }
    ensures none { result ≡ None
        → (is_list (access_at access.entry) ≡ false)
        ⊎ (all_rows_by (access_at access.entry) env.now index.now ≡ []) }
{
    match single_list(access, env, index) {
        Some(found) => Some(found.docs),
        None => many_list(access, env, index),
    }
}

// Returns how many rows have the text as a field.
fn count_with(field: TextField, text: &[u8], index: &RowIndex) -> usize
    ensures { result ≡ length (rows_with field index.now text.now) }
{
    match field_kind(field) {
        FieldKind::OfDocs(kind) => index.by_text(kind, text).len(),
        FieldKind::OfNotes(kind) => index.count_by(kind, text),
    }
}

// Returns how many rows have one of these texts as a field; those of one that stands twice count
// twice.
fn count_each(field: TextField, texts: &[Text], index: &RowIndex) -> u128
    ensures { result ≡ count_each field index.now texts.now }
{
    // Brings into scope that a number of 32 bits counts the rows.
    let _docs = index.docs();
    let _notes = index.notes();
    let _count = texts.len();
    let mut sum: u128 = 0;
    for text in texts {
        sum += count_with(field, text.as_slice(), index) as u128;
    }
    sum
}

// Returns how many rows have the text as a field, if there is one.
fn count_text(field: TextField, text: Option<&[u8]>, index: &RowIndex) -> u128
    ensures { result ≡ length (rows_of_text field index.now (option_copied text.entry)) }
{
    match text {
        None => 0,
        Some(text) => count_with(field, text, index) as u128,
    }
}

// Returns how many notes are on the document of this number.
fn count_notes(num: Option<i128>, index: &RowIndex) -> u128
    ensures { result ≡ length (rows_of_number DocOf index.now num) }
{
    // Brings into scope that the numbers of noted documents have 32 bits.
    let _notes = index.notes();
    match short(num) {
        None => 0,
        Some(num) => index.count_on(DocNum(num)) as u128,
    }
}

// Returns how many notes have this value.
fn count_valued(num: Option<i128>, index: &RowIndex) -> u128
    ensures { result ≡ length (rows_of_number Value index.now num) }
{
    // Brings into scope that values have 64 bits.
    let _notes = index.notes();
    match signed(num) {
        None => 0,
        Some(value) => index.count_valued(value) as u128,
    }
}

// Returns how many rows a table has.
fn count_rows(table: Table, index: &RowIndex) -> u128
    ensures { result ≡ length (rows_of table index.now) }
{
    match table {
        Table::Docs => index.docs() as u128,
        Table::Notes => index.notes() as u128,
    }
}

// Returns how many rows an access reaches that gives no posting list.
fn other_length<'a>(access: AccessRef<'a>, env: &Env<'a>, index: &'a RowIndex) -> u128
    requires { (is_list (access_at access) ≡ false)
        ⊎ (all_rows_by (access_at access) env.now index.now ≡ []) }
    ensures { result ≡ access_length index.now env.now (access_at access.entry) }
{
    match access {
        AccessRef::ByNumber(NumField::Id, _) => 1,
        AccessRef::ByNumber(NumField::DocOf, e) => count_notes(number(e, env), index),
        AccessRef::ByNumber(NumField::Value, e) => count_valued(number(e, env), index),
        AccessRef::ByText(field, e) => count_text(field, text(e, env), index),
        AccessRef::ByEach(var, list, field) => {
            count_each(field, listed_texts(var, list, env), index)
        }
        AccessRef::Whole(table) => count_rows(table, index),
        _ => 0,
    }
}

// Returns how many rows an access reaches, without a step.
fn length_of<'a>(access: AccessRef<'a>, env: &Env<'a>, index: &'a RowIndex) -> u128
    ensures { result ≡ access_length index.now env.now (access_at access.entry) }
{
    if !is_list(access) {
        return other_length(access, env, index);
    }
    match text_list(access, env, index) {
        None => 0,
        Some(docs) => docs.len() as u128,
    }
}

/// Returns the access that gives the shorter list, of equal ones the first.
pub(crate) fn shorter_access<'a>(
    best: Option<AccessRef<'a>>,
    access: AccessRef<'a>,
    env: &Env<'a>,
    index: &'a RowIndex,
) -> Option<AccessRef<'a>>
    ensures { option_access result
        ≡ shorter_access index.now env.now (option_access best.entry) (access_at access.entry) }
{
    match best {
        None => Some(access),
        Some(other) => {
            if length_of(access, env, index) < length_of(other, env, index) {
                Some(access)
            } else {
                Some(other)
            }
        }
    }
}

// Returns the shortest of an access, which reaches `len` rows, and those behind it, of equal ones
// the first. If it reaches none, no other list is looked up.
fn shortest_after<'a>(
    best: AccessRef<'a>,
    len: u128,
    accesses: &'a [Access],
    env: &Env<'a>,
    index: &'a RowIndex,
) -> AccessRef<'a>
    requires { len ≡ access_length index.now env.now (access_at best) }
    ensures { Some (access_at result)
        ≡ shortest_after index.now env.now (Some (access_at best.entry)) accesses.now }
{
    if len == 0 {
        return best;
    }
    match accesses.split_first() {
        None => best,
        Some((access, rest)) => {
            let other = length_of(access.as_ref(), env, index);
            if other < len {
                shortest_after(access.as_ref(), other, rest, env, index)
            } else {
                shortest_after(best, len, rest, env, index)
            }
        }
    }
}

// Returns the shortest of an access and those behind it. If there are none, it is taken as it is.
fn shortest_beside<'a>(
    first: AccessRef<'a>,
    rest: &'a [Access],
    env: &Env<'a>,
    index: &'a RowIndex,
) -> AccessRef<'a>
    ensures { Some (access_at result)
        ≡ shortest_after index.now env.now (Some (access_at first.entry)) rest.now }
{
    match rest.split_first() {
        None => first,
        Some(_) => shortest_after(first, length_of(first, env, index), rest, env, index),
    }
}

/// Returns the access that gives the shortest list, of equal ones the first. `None` comes if and
/// only if there is none. Lists are looked up for their lengths without a step; a list beside which
/// there is no other isn't.
pub(crate) fn shortest<'a>(
    accesses: &'a [Access],
    env: &Env<'a>,
    index: &'a RowIndex,
) -> Option<AccessRef<'a>>
    ensures { option_access result ≡ shortest index.now env.now accesses.now }
{
    match accesses.split_first() {
        None => None,
        Some((access, rest)) => Some(shortest_beside(access.as_ref(), rest, env, index)),
    }
}

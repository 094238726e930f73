//! Guards that compare a text of a driving document with a literal: the index has a posting list
//! under it.

ghost use Rattle.std.specs.Prelude.{◌≡◌, [], fold, filter, length, map, Some, true, is_some};
ghost use Rattle.std.specs.Prelude.{option_copied};
ghost use Rattle.tql_core.specs.Row.{OfDoc};
ghost use Rattle.tql_core.specs.Values.{bind, true_atom};
ghost use Rattle.row_index.specs.Orders.{in_window, doc_arrival};
ghost use Rattle.row_index.specs.Texts.{texts_of, with_text};
ghost use Rattle.probe_eval.specs.Literals.{kind_if, literal_kind, literal_of};
ghost use Rattle.probe_eval.specs.Literals.{list_length, shorter, rarer, rarest, chosen};

use crate::kinds::{field_kind, list_kind, of_docs};
use crate::row_walk::RowWalk;
use row_index::{RowIndex, TextKind};
use tap_base::Op;
use time_marks::{Seek, Step, Window};
use tql_core::{Atom, TextExpr, Var};
use tql_tree::Table;

// Returns the kind, if the field is one of the variable.
fn kind_if(var: Var, of: Var, kind: Option<TextKind>) -> Option<TextKind>
    ensures { result ≡ kind_if var of kind }
{
    if of.0 == var.0 { kind } else { None }
}

/// Returns the kind of text that a guard asks of the variable's document by a literal. `None` comes
/// if and only if the guard isn't such a comparison.
pub(crate) fn literal_kind(var: Var, guard: &Atom) -> Option<TextKind>
    ensures { result ≡ literal_kind var guard.now }
{
    match guard {
        Atom::Texts(TextExpr::Field(of, field), Op::Eq, TextExpr::Literal(_)) => {
            kind_if(var, *of, of_docs(field_kind(*field)))
        }
        Atom::Texts(TextExpr::Literal(_), Op::Eq, TextExpr::Field(of, field)) => {
            kind_if(var, *of, of_docs(field_kind(*field)))
        }
        Atom::Has(of, field, TextExpr::Literal(_)) => { kind_if(var, *of, Some(list_kind(*field))) }
        _ => None,
    }
}

// Returns the literal of such a guard.
fn literal_of(guard: &Atom) -> &[u8]
    ensures { result.now ≡ literal_of guard.now }
{
    match guard {
        Atom::Texts(TextExpr::Field(_, _), _, TextExpr::Literal(text)) => text.as_slice(),
        Atom::Texts(TextExpr::Literal(text), _, TextExpr::Field(_, _)) => text.as_slice(),
        Atom::Has(_, _, TextExpr::Literal(text)) => text.as_slice(),
        _ => &[],
    }
}

// Returns how many documents have the text, of this kind.
fn count_under(kind: TextKind, text: &[u8], index: &RowIndex) -> usize
    ensures { result ≡ length (with_text (texts_of kind) text.now index.now.docs) }
{
    // Brings into scope that all documents arrived at moments of the clock.
    let _docs = index.docs();
    index.by_text_arrived(kind, text, 0, i64::MAX).len()
}

// Returns the documents that have the text, of this kind, and that arrived in a window.
fn docs_under<'a>(kind: TextKind, text: &[u8], w: Window, index: &'a RowIndex) -> RowWalk<'a>
    ensures { result ≡ map OfDoc
        (in_window doc_arrival w.low w.high (with_text (texts_of kind) text.now index.now.docs)) }
{
    let list = index.by_text_arrived(kind, text, w.low, w.high);
    RowWalk::of_docs(list.walk())
}

// Returns how many documents the posting list has under the guard's literal.
fn list_length(index: &RowIndex, var: Var, guard: &Atom) -> usize
    ensures { result ≡ list_length index.now var guard.now }
{
    match literal_kind(var, guard) {
        None => 0,
        Some(kind) => count_under(kind, literal_of(guard), index),
    }
}

// Returns the guard of the shorter posting list, of equal ones the first.
fn shorter<'a>(
    index: &RowIndex,
    var: Var,
    best: Option<&'a Atom>,
    guard: &'a Atom,
) -> Option<&'a Atom>
    ensures { option_copied result ≡ shorter index.now var (option_copied best.entry) guard.now }
{
    match best {
        None => Some(guard),
        Some(other) => {
            if list_length(index, var, guard) < list_length(index, var, other) {
                Some(guard)
            } else {
                Some(other)
            }
        }
    }
}

// Returns the guard of the shorter posting list, if the second has one.
fn rarer<'a>(
    index: &RowIndex,
    var: Var,
    best: Option<&'a Atom>,
    guard: &'a Atom,
) -> Option<&'a Atom>
    ensures { option_copied result ≡ rarer index.now var (option_copied best.entry) guard.now }
{
    if literal_kind(var, guard).is_some() {
        shorter(index, var, best, guard)
    } else {
        best
    }
}

// Returns the guard of the shortest posting list of these and one before them.
fn rarest_of<'a>(
    index: &RowIndex,
    var: Var,
    before: Option<&'a Atom>,
    guards: &'a [Atom],
) -> Option<&'a Atom>
    ensures { option_copied result
        ≡ fold (rarer index.now var) (option_copied before.entry) guards.now }
{
    let mut best = before;
    for guard in guards {
        best = rarer(index, var, best, guard);
    }
    best
}

// Returns of the guards of a path by a literal that of the shortest posting list. `None` comes if
// and only if there is none.
fn rarest<'a>(index: &RowIndex, var: Var, path: &'a [Step]) -> Option<&'a Atom>
    ensures { option_copied result ≡ rarest index.now var path.now }
{
    let mut best = None;
    for step in path {
        best = rarest_of(index, var, best, step.guards.as_slice());
    }
    best
}

/// Returns the guard whose posting list drives a probe, if documents drive it by their arrival.
pub(crate) fn chosen<'a>(
    index: &RowIndex,
    var: Var,
    path: &'a [Step],
    seek: Seek,
    table: Table,
) -> Option<&'a Atom>
    ensures { option_copied result ≡ chosen index.now var path.now seek table }
{
    match (seek, table) {
        (Seek::Arrived { .. }, Table::Docs) => rarest(index, var, path),
        (Seek::ArrivedDay { .. }, Table::Docs) => rarest(index, var, path),
        _ => None,
    }
}

/// Returns the documents under the guard's literal that arrived in a window, by two halvings of the
/// posting list.
pub(crate) fn under_literal<'a>(
    guard: &'a Atom,
    var: Var,
    w: Window,
    index: &'a RowIndex,
) -> RowWalk<'a>
    requires { is_some (literal_kind var guard.now) ≡ true }
    ensures { result ≡ filter (λ row. true_atom guard.now (bind var row []))
        (map OfDoc (in_window doc_arrival w.low w.high index.now.docs)) }
{
    match literal_kind(var, guard) {
        None => RowWalk::none(),
        Some(kind) => docs_under(kind, literal_of(guard), w, index),
    }
}

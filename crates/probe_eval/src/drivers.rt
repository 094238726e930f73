//! The rows that drive a probe: those whose mark lies in the window, and which of them are walked.

ghost use Rattle.std.specs.Prelude.{◌≡◌};
ghost use Rattle.time_marks.specs.Seeks.{CanSeek};
ghost use Rattle.probe_eval.specs.Drivers.{seek_var, arrived_rows, dated_rows, stored_rows, walked};
ghost use Rattle.probe_eval.specs.Drivers.{mark_in};
ghost use Rattle.probe_eval.specs.Searches.{searched};
ghost use Rattle.probe_eval.specs.Tables.{table_in};

use crate::literals::{chosen, under_literal};
use crate::row_walk::RowWalk;
use crate::search::Search;
use row_index::RowIndex;
use time_marks::{Seek, Step, Window};
use tql_core::Var;
use tql_tree::Table;

// Returns the table of a variable of the path.
fn table_in(path: &[Step], var: Var) -> Table
    ensures { result ≡ table_in path.now var.0 }
{
    for step in path {
        if step.var.0 == var.0 {
            return step.table;
        }
    }
    Table::Docs
}

/// Returns the variable of the driving row. `None` comes if and only if the mark is fixed.
pub fn seek_var(seek: Seek) -> Option<Var>
    ensures { result ≡ seek_var seek }
{
    match seek {
        Seek::Arrived { var, .. } => Some(var),
        Seek::Dated { var, .. } => Some(var),
        Seek::Fixed { .. } => None,
        Seek::ArrivedDay { var, .. } => Some(var),
        Seek::DatedDay { var, .. } => Some(var),
    }
}

fn arrived_rows(table: Table, w: Window, index: &RowIndex) -> RowWalk<'_>
    ensures { result ≡ arrived_rows table w index.now }
{
    match table {
        Table::Docs => RowWalk::of_docs(index.docs_arrived(w.low, w.high)),
        Table::Notes => RowWalk::of_notes(index.notes_arrived(w.low, w.high)),
    }
}

// Returns the rows of a table whose date lies in a window. Notes have no date.
fn dated_rows(table: Table, w: Window, index: &RowIndex) -> RowWalk<'_>
    ensures { result ≡ dated_rows table w index.now }
{
    match table {
        Table::Docs => RowWalk::of_docs(index.docs_dated(w.low, w.high)),
        Table::Notes => RowWalk::none(),
    }
}

// Returns the rows whose stored second lies in a window.
fn stored_rows(seek: Seek, table: Table, w: Window, index: &RowIndex) -> RowWalk<'_>
    ensures { result ≡ stored_rows seek table w index.now }
{
    match seek {
        Seek::Arrived { .. } => arrived_rows(table, w, index),
        Seek::Dated { .. } => dated_rows(table, w, index),
        Seek::Fixed { .. } => RowWalk::none(),
        Seek::ArrivedDay { .. } => arrived_rows(table, w, index),
        Seek::DatedDay { .. } => dated_rows(table, w, index),
    }
}

/// Returns the driving rows of the probe that are walked, in order of their stored second. If
/// documents drive it by their arrival, and a guard of its path compares a text of them with a
/// literal by which the index finds documents, these are the documents of its posting list: of
/// several such guards of the one with the shortest list.
pub fn walked<'a>(search: &Search<'a>, seek: Seek, var: Var, w: Window) -> RowWalk<'a>
    requires window { CanSeek seek w }
    ensures { result ≡ walked search.now.index.now w (searched search.now) seek var }
{
    let path = search.probe.path.as_slice();
    let table = table_in(path, var);
    let stored = seek.window(w);
    match chosen(search.index, var, path, seek, table) {
        None => stored_rows(seek, table, stored, search.index),
        Some(guard) => under_literal(guard, var, stored, search.index),
    }
}

/// Returns the second, if it lies in the window.
pub fn mark_in(w: Window, second: Option<i128>) -> Option<i64>
    ensures { result ≡ mark_in w second }
{
    match second {
        None => None,
        Some(second) => {
            if i128::from(w.low) <= second && second < i128::from(w.high) {
                Some(second as i64)
            } else {
                None
            }
        }
    }
}

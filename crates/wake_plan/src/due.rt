//! What is due at a mark: a driving row, read ahead.

ghost use Rattle.std.specs.Prelude.{◌≡◌, ◌+◌, ◌≤◌, [], drop};
ghost use Rattle.tql_core.specs.Bindings.{row_of};
ghost use Rattle.tql_core.specs.Values.{bind, value};
ghost use Rattle.probe_eval.specs.Drivers.{mark_in};
ghost use Rattle.probe_eval.specs.Searches.{searched};
ghost use Rattle.wake_plan.specs.Turns.{due_at, first_due};

use probe_eval::{RowWalk, Search, mark_in};
use std::sync::ledger::Ledger;
use tap_base::Steps;
use time_marks::Window;
use tql_core::{Env, RowRef, Var, value};

/// A driving row, bound alone, or no row for a fixed mark, with the mark.
#[derive(Drop)]
pub(crate) struct DrivingRow<'a> {
    pub(crate) env: Env<'a>,
    pub(crate) mark: i64,
}

/// Returns the mark of bound rows. `None` comes if and only if they have none in the window.
pub(crate) fn mark_at<'a>(search: &Search<'a>, w: Window, env: &Env<'a>) -> Option<i64>
    ensures { result ≡ mark_in w (value search.now.probe.now.at env.now) }
{
    mark_in(w, value(search.probe.at, env))
}

// Returns a driving row bound alone, with its mark. `None` comes if and only if it has none in the
// window.
fn due_at<'a>(search: &Search<'a>, w: Window, var: Var, row: RowRef<'a>) -> Option<DrivingRow<'a>>
    ensures { result ≡ due_at w (searched search.now) (bind var (row_of row.entry) []) }
{
    let env = Env::new().bind(var, row);
    match mark_at(search, w, &env) {
        None => None,
        Some(mark) => Some(DrivingRow { env, mark }),
    }
}

/// Removes the next driving row and returns it with its mark, with one step if there is a row.
pub(crate) fn read_ahead<'a, L: Ledger>(
    search: &Search<'a>,
    w: Window,
    var: Var,
    rows: &mut RowWalk<'a>,
    steps: &mut Steps<L>,
) -> Option<DrivingRow<'a>>
    ensures due { result ≡ first_due w (searched search.now) var rows.old }
    ensures rows { rows.new ≡ drop 1 rows.old }
    ensures steps { steps.new ≤ steps.old + 1 }
    ensures more { steps.old ≤ steps.new }
{
    match rows.next(steps) {
        None => None,
        Some(row) => due_at(search, w, var, row),
    }
}

//! The turns of a plan's probes before a row has been looked at.

ghost use Rattle.std.specs.Prelude.{◌≡◌, ◌+◌, ◌≤◌, length, Some, None, true, option_to_list, IfOk};
ghost use Rattle.std.specs.Prelude.{OnErr};
ghost use Rattle.std.specs.List.{flat_map};
ghost use Rattle.tap_rows.specs.Kept.{Each};
ghost use Rattle.tql_core.specs.Bounds.{is_bounded};
ghost use Rattle.time_marks.specs.declared.window.Window.{Window};
ghost use Rattle.time_marks.specs.Seeks.{seek_of, CanSeek};
ghost use Rattle.probe_eval.specs.Drivers.{seek_var, seek_hits, seek_cost};
ghost use Rattle.probe_eval.specs.Runs.{query_hits, query_cost, CanRun};
ghost use Rattle.probe_eval.specs.Searches.{searched, CanSearch};
ghost use Rattle.probe_eval.specs.Work.{total};
ghost use Rattle.wake_plan.specs.Turns.{hits_left, cost_left, IsTurn};
ghost use Rattle.wake_plan.specs.Wakes.{IsUpTo};

use crate::due::{DrivingRow, mark_at, read_ahead};
use crate::turn::Turn;
use access_plan::{Plan, Reach};
use little_box::LittleBox;
use probe_eval::{RowWalk, Search, order_at, seek_var, walked};
use row_index::RowIndex;
use std::alloc::Global;
use std::sync::ledger::Ledger;
use tap_base::{Memory, Steps};
use time_marks::{Seek, Window};
use tql_core::{Env, Var};

// Returns the turn of a probe with a fixed mark.
fn fixed<'a>(search: Search<'a>, order: &'a [Reach], w: Window) -> Turn<'a>
    requires search { CanSearch search (length order.now) }
    ensures turn { IsTurn w result }
    ensures hits { hits_left w result
        ≡ seek_hits search.entry.seen.now search.entry.index.now w (searched search.entry)
        order.now (seek_of search.entry.probe.now.at) None }
    ensures cost { (u : Window) → IsUpTo w u → cost_left u result
        ≤ 1 + seek_cost search.entry.seen.now search.entry.index.now u (searched search.entry)
        order.now (seek_of search.entry.probe.now.at) None }
{
    let env = Env::new();
    let next = match mark_at(&search, w, &env) {
        None => None,
        Some(mark) => Some(DrivingRow { env, mark }),
    };
    Turn {
        search,
        order,
        var: Var(0),
        rows: RowWalk::none(),
        next,
    }
}

// Returns the turn of a probe with driving rows, of those that are walked the first one read ahead.
fn driven<'a, L: Ledger>(
    search: Search<'a>,
    order: &'a [Reach],
    seek: Seek,
    var: Var,
    w: Window,
    steps: &mut Steps<L>,
) -> Turn<'a>
    requires search { CanSearch search (1 + length order.now) }
    requires bounded { is_bounded search.probe.now.at ≡ true }
    requires seek { seek ≡ seek_of search.probe.now.at }
    requires window { CanSeek seek w }
    requires var { seek_var seek ≡ Some var }
    ensures turn { IsTurn w result }
    ensures hits { hits_left w result ≡ seek_hits search.entry.seen.now search.entry.index.now w
        (searched search.entry) order.now seek (Some var) }
    ensures cost { (u : Window) → IsUpTo w u → steps.new + cost_left u result
        ≤ steps.old + (1 + seek_cost search.entry.seen.now search.entry.index.now u
        (searched search.entry) order.now seek (Some var)) }
    ensures more { steps.old ≤ steps.new }
{
    // Brings into scope that arrivals never fall.
    let _docs = search.index.docs();
    let _notes = search.index.notes();
    let mut rows = walked(&search, seek, var, w);
    let next = read_ahead(&search, w, var, &mut rows, steps);
    Turn {
        search,
        order,
        var,
        rows,
        next,
    }
}

// Returns the turn of a probe.
fn start<'a, L: Ledger>(
    search: Search<'a>,
    order: &'a [Reach],
    seek: Seek,
    w: Window,
    steps: &mut Steps<L>,
) -> Turn<'a>
    requires search { CanSearch search
        (length (option_to_list (seek_var seek)) + length order.now) }
    requires bounded { is_bounded search.probe.now.at ≡ true }
    requires seek { seek ≡ seek_of search.probe.now.at }
    requires window { CanSeek seek w }
    ensures turn { IsTurn w result }
    ensures hits { hits_left w result ≡ seek_hits search.entry.seen.now search.entry.index.now w
        (searched search.entry) order.now seek (seek_var seek) }
    ensures cost { (u : Window) → IsUpTo w u → steps.new + cost_left u result
        ≤ steps.old + (1 + seek_cost search.entry.seen.now search.entry.index.now u
        (searched search.entry) order.now seek (seek_var seek)) }
    ensures more { steps.old ≤ steps.new }
{
    match seek_var(seek) {
        None => fixed(search, order, w),
        Some(var) => driven(search, order, seek, var, w, steps),
    }
}

/// Returns the turns of all probes of a plan. `Memory` comes if memory runs out, and then no step
/// was taken.
pub(crate) fn starts<'a, L: Ledger>(
    alloc: Global,
    plan: &'a Plan,
    index: &'a RowIndex,
    seen: &'a LittleBox,
    w: Window,
    steps: &mut Steps<L>,
) -> Result<Vec<Turn<'a>>, Memory>
    requires { CanRun plan.now.query w }
    ensures turns { IfOk result (λ turns. Each (IsTurn w) turns.items) }
    ensures hits { IfOk result (λ turns.
        flat_map (hits_left w) turns.items ≡ query_hits seen.now index.now w plan.now.query) }
    ensures cost { (u : Window) → IsUpTo w u
        → IfOk result (λ turns. steps.new + total (cost_left u) turns.items
        ≤ steps.old
        + (length plan.now.query.parts + query_cost seen.now index.now u plan.now.query)) }
    ensures err { OnErr result (steps.new ≡ steps.old) }
    ensures more { steps.old ≤ steps.new }
{
    let parts = plan.query.parts.as_slice();
    let mut turns = Vec::with_capacity(alloc, parts.len())?;
    for (place, part) in parts.iter().enumerate() {
        let search = Search {
            plan,
            probe: &part.probe,
            index,
            seen,
        };
        let _ = turns.push(start(search, order_at(plan, place), part.seek, w, steps));
    }
    Ok(turns)
}

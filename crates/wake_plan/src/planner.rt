//! The wake planner.

ghost use Rattle.std.specs.Prelude.{◌≡◌, ◌+◌, ◌≤◌, length, pos, IfOk, IfSome};
ghost use Rattle.std.specs.List.{flat_map};
ghost use Rattle.jiff_core.specs.Calendar.{IsWithin};
ghost use Rattle.tap_rows.specs.Kept.{Each, In};
ghost use Rattle.time_marks.specs.Probes.{Probe, meaning_without};
ghost use Rattle.time_marks.specs.Views.{ranged_probes};
ghost use Rattle.probe_eval.specs.Nested.{was_seen};
ghost use Rattle.probe_eval.specs.Runs.{query_cost, HasValidProbes};
ghost use Rattle.probe_eval.specs.Work.{total};
ghost use Rattle.wake_plan.specs.Marked.{marked_ahead, IsPlain};
ghost use Rattle.wake_plan.specs.Turns.{hits_left, cost_left, IsTurn};
ghost use Rattle.time_marks.specs.NextWake.{after_mark, greater, least_mark, next_wake};
ghost use Rattle.wake_plan.specs.Wakes.{hits_ahead, wake_window};
ghost use Rattle.tap_base.specs.Numbers.{IsMoment};

use crate::firsts::first_place;
use crate::starts::starts;
use crate::turn::Turn;
use access_plan::Plan;
use little_box::LittleBox;
use row_index::RowIndex;
use std::alloc::Global;
use std::sync::ledger::Ledger;
use tap_base::{Memory, Steps};
use time_marks::Window;

// The last second that a script may name.
const LAST_MOMENT: i64 = 250_000_000_000;

// Returns the least mark at which a turn delivers. The turn with the least mark goes on.
fn first_delivery<'a, L: Ledger>(
    turns: &mut Vec<Turn<'a>>,
    w: Window,
    steps: &mut Steps<L>,
) -> Option<i64>
    requires turns { Each (IsTurn w) turns.old.items }
    requires low { IsWithin 250000000000 w.low }
    requires end { w.high ≡ pos 250000000000 }
    ensures mark { result ≡ least_mark (flat_map (hits_left w) turns.old.items) }
    ensures within { IfSome result (λ b. IsWithin 250000000000 b) }
    ensures steps { steps.new ≤ steps.old + total
        (cost_left (wake_window w.low (flat_map (hits_left w) turns.old.items))) turns.old.items }
    ensures more { steps.old ≤ steps.new }
{
    while let Some(place) = first_place(turns.as_slice()) {
        let mark = turns[place.index].advance(w, steps);
        if mark.is_some() {
            return mark;
        }
    }
    None
}

// Returns the greater of now and the second after the mark.
fn moment_after(now: i64, mark: i64) -> i64
    requires { IsWithin 250000000000 mark }
    ensures { result ≡ greater now (after_mark mark) }
{
    let next = mark + 1;
    if now <= next { next } else { now }
}

/// Returns the moment from now on at which a run is next worthwhile: the greater of now and the
/// second after the least mark, from `last` on, with which a document is found that isn't in the
/// box. `None` comes if and only if there is no such mark. Moments are seconds since
/// 1970-01-01T00:00:00Z. `Memory` comes if memory runs out.
///
/// The driving rows of the probes are read side by side in order of their marks, one ahead in each
/// probe, and nothing is read after the first beside which a document is found. So the steps are at
/// most those of a run up to the least mark, and one for each probe. For probes whose path is the
/// document alone and whose body has no EXISTS these are at most the rows marked there, and one for
/// each probe.
pub fn wake<L: Ledger>(
    alloc: Global,
    plan: &Plan,
    index: &RowIndex,
    seen: &LittleBox,
    last: i64,
    now: i64,
    steps: &mut Steps<L>,
) -> Result<Option<i64>, Memory>
    requires last { IsMoment last }
    requires now { IsMoment now }
    requires probes { HasValidProbes plan.now.query }
    ensures moment { IfOk result (λ moment. moment ≡ next_wake now
        (meaning_without (was_seen seen.now) (ranged_probes plan.now.query)
        index.now (record { low = last; high = pos 250000000000 }))) }
    ensures steps { steps.new ≤ steps.old + (length plan.now.query.parts
        + query_cost seen.now index.now
        (wake_window last (hits_ahead seen.now plan.now.query index.now last)) plan.now.query) }
    ensures plain { ((p : Probe) → In p (ranged_probes plan.now.query) → IsPlain p)
        → steps.new ≤ steps.old
        + marked_ahead index.now (wake_window last
        (hits_ahead seen.now plan.now.query index.now last)) (ranged_probes plan.now.query) }
{
    let w = Window {
        low: last,
        high: LAST_MOMENT,
    };
    let mut turns = starts(alloc, plan, index, seen, w, steps)?;
    match first_delivery(&mut turns, w, steps) {
        None => Ok(None),
        Some(mark) => Ok(Some(moment_after(now, mark))),
    }
}

//! The hits of one probe.

ghost use Rattle.std.specs.Prelude.{◌≡◌, ◌+◌, ◌≤◌, [], Some, length, option_to_list};
ghost use Rattle.time_marks.specs.Seeks.{CanSeek};
ghost use Rattle.query_eval.specs.Placed.{CanStoreHits, Stores};
ghost use Rattle.query_eval.specs.RunFronts.{AreDone};
ghost use Rattle.probe_eval.specs.Nexts.{IsNearestIfKnown};
ghost use Rattle.probe_eval.specs.Searches.{searched, CanSearch};
ghost use Rattle.probe_eval.specs.Drivers.{seek_var, hits_at, seek_hits, cost_at};
ghost use Rattle.query_eval.specs.Driven.{driven_hits, is_settled, turn_cost};
ghost use Rattle.query_eval.specs.Lowest.{keeping};

use crate::fronts::Fronts;
use crate::least_hits::LeastHits;
use crate::listed::collect_listed;
use crate::nested::collect_hits;
use access_plan::Reach;
use probe_eval::{Next, Search, goes_by_list, mark_in, seek_var, walked};
use std::sync::ledger::Ledger;
use tap_base::Steps;
use time_marks::{Seek, Window};
use tql_core::{Env, Var, value};

// Stores the hits beside the rows that are bound, if their mark lies in the window.
fn collect_at<'a, L: Ledger>(
    search: &Search<'a>,
    order: &'a [Reach],
    w: Window,
    next: &mut Next<'a>,
    env: &Env<'a>,
    into: &mut LeastHits,
    fronts: &mut Fronts,
    steps: &mut Steps<L>,
)
    requires search { CanSearch search.now (length env.now + length order.now) }
    requires next { IsNearestIfKnown search.now.probe.now.path env.now next.old }
    requires ready { CanStoreHits into.old }
    requires fronts { AreDone search.now into.old fronts.old }
    ensures hits { Stores into.old into.new
        (hits_at search.now.seen.now search.now.index.now w (searched search.now)
        order.now env.now) }
    ensures next { IsNearestIfKnown search.now.probe.now.path env.now next.new }
    ensures ready { CanStoreHits into.new }
    ensures places { length into.new.places.items ≡ length into.old.places.items }
    ensures fronts { AreDone search.now into.new fronts.new }
    ensures boxes { fronts.new.boxes ≡ fronts.old.boxes }
    ensures steps { steps.new ≤ steps.old
        + cost_at (is_settled search.now.seen.now into.old.hits.items) search.now.index.now w
        (searched search.now) order.now env.now }
    ensures more { steps.old ≤ steps.new }
{
    if let Some(mark) = mark_in(w, value(search.probe.at, env)) {
        collect_hits(search, order, next, env, mark, into, fronts, steps);
    }
}

// Stores the hits at the marks of the driving rows that are walked. The nearest step is found once
// for all of them.
fn collect_driven<'a, L: Ledger>(
    search: &Search<'a>,
    order: &'a [Reach],
    seek: Seek,
    var: Var,
    w: Window,
    into: &mut LeastHits,
    fronts: &mut Fronts,
    steps: &mut Steps<L>,
)
    requires window { CanSeek seek w }
    requires search { CanSearch search.now (1 + length order.now) }
    requires ready { CanStoreHits into.old }
    requires fronts { AreDone search.now into.old fronts.old }
    ensures hits { Stores into.old into.new
        (driven_hits search.now.seen.now search.now.index.now w (searched search.now) order.now seek
        var) }
    ensures ready { CanStoreHits into.new }
    ensures places { length into.new.places.items ≡ length into.old.places.items }
    ensures fronts { AreDone search.now into.new fronts.new }
    ensures boxes { fronts.new.boxes ≡ fronts.old.boxes }
    ensures steps { steps.new ≤ steps.old + turn_cost (keeping (length into.old.places.items))
        search.now.seen.now search.now.index.now w
        (searched search.now) order.now into.old.hits.items seek (Some var) }
    ensures more { steps.old ≤ steps.new }
{
    let mut rows = walked(search, seek, var, w);
    let free = Env::new();
    let mut below = Next::Unknown;
    while let Some(row) = rows.next(steps) {
        collect_at(
            search,
            order,
            w,
            &mut below,
            &free.bind(var, row),
            into,
            fronts,
            steps,
        );
    }
}

// Stores the hits at the marks of the driving rows that are walked. If these are a posting list
// beside which nothing is asked for, their marks alone are tested.
fn collect_walked<'a, L: Ledger>(
    search: &Search<'a>,
    order: &'a [Reach],
    seek: Seek,
    var: Var,
    w: Window,
    into: &mut LeastHits,
    fronts: &mut Fronts,
    steps: &mut Steps<L>,
)
    requires window { CanSeek seek w }
    requires search { CanSearch search.now (1 + length order.now) }
    requires ready { CanStoreHits into.old }
    requires fronts { AreDone search.now into.old fronts.old }
    ensures hits { Stores into.old into.new
        (driven_hits search.now.seen.now search.now.index.now w (searched search.now) order.now seek
        var) }
    ensures ready { CanStoreHits into.new }
    ensures places { length into.new.places.items ≡ length into.old.places.items }
    ensures fronts { AreDone search.now into.new fronts.new }
    ensures boxes { fronts.new.boxes ≡ fronts.old.boxes }
    ensures steps { steps.new ≤ steps.old + turn_cost (keeping (length into.old.places.items))
        search.now.seen.now search.now.index.now w
        (searched search.now) order.now into.old.hits.items seek (Some var) }
    ensures more { steps.old ≤ steps.new }
{
    if goes_by_list(search, seek, var) {
        collect_listed(search, seek, var, w, into, steps);
    } else {
        collect_driven(search, order, seek, var, w, into, fronts, steps);
    }
}

/// Stores the hits of a probe: at its fixed mark, or at those of all driving rows.
pub(crate) fn collect_part<'a, L: Ledger>(
    search: &Search<'a>,
    order: &'a [Reach],
    seek: Seek,
    w: Window,
    into: &mut LeastHits,
    fronts: &mut Fronts,
    steps: &mut Steps<L>,
)
    requires window { CanSeek seek w }
    requires search { CanSearch search.now
        (length (option_to_list (seek_var seek)) + length order.now) }
    requires ready { CanStoreHits into.old }
    requires fronts { AreDone search.now into.old fronts.old }
    ensures hits { Stores into.old into.new
        (seek_hits search.now.seen.now search.now.index.now w (searched search.now) order.now seek
        (seek_var seek)) }
    ensures ready { CanStoreHits into.new }
    ensures places { length into.new.places.items ≡ length into.old.places.items }
    ensures fronts { AreDone search.now into.new fronts.new }
    ensures boxes { fronts.new.boxes ≡ fronts.old.boxes }
    ensures steps { steps.new ≤ steps.old + turn_cost (keeping (length into.old.places.items))
        search.now.seen.now search.now.index.now w
        (searched search.now) order.now into.old.hits.items seek (seek_var seek) }
    ensures more { steps.old ≤ steps.new }
{
    match seek_var(seek) {
        None => collect_at(
            search,
            order,
            w,
            &mut Next::Unknown,
            &Env::new(),
            into,
            fronts,
            steps,
        ),
        Some(var) => collect_walked(search, order, seek, var, w, into, fronts, steps),
    }
}

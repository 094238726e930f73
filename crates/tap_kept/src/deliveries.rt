//! What stored runs and picks make of queries that were never run.

ghost use Rattle.std.specs.Prelude.{◌≡◌, ◌+◌, ◌-◌, ◌^◌, ◌<◌, ◌≤◌, [], false, map, length};
ghost use Rattle.std.specs.Prelude.{slice_index_or, OnOk, IfOk};
ghost use Rattle.little_box.specs.Boxes.{is_in};
ghost use Rattle.tap_rows.specs.Kept.{Each, RunsFrom, QueriesFrom};
ghost use Rattle.tap_kept.specs.Keeping.{cached_query, never_run, after_run, HoldsAt, ChangesAt};
ghost use Rattle.tap_kept.specs.Starting.{rows_in, runs_alone, ordinal_in, with_entry, IsRowNumber};
ghost use Rattle.tap_kept.specs.StoredRows.{AreDeliveries};

use crate::cached_queries::CachedQueries;
use std::alloc::Global;
use tap_base::{Memory, Rows};
use tap_rows::{Entry, Pick, RunRow};

// Gives the ordinal of a query's next run after that many runs. It fits, since it is no greater
// than the run's number.
fn ordinal_after(runs: usize, num: u32) -> u32
    requires { runs + 1 ≤ num }
    ensures value { result ≡ runs + 1 }
    ensures small { result < 2 ^ 32 }
{
    runs as u32 + 1
}

// Adds a run to its query, and gives its ordinal among that query's runs.
fn add_run(queries: &mut CachedQueries, run: &RunRow) -> Result<u32, Memory>
    requires query { IsRowNumber run.now.query.0 (length queries.old) }
    requires few { HoldsAt (run.now.query.0 - 1) (λ query. query.runs + 1 ≤ run.now.num)
        queries.old }
    ensures ordinal { IfOk result (λ ordinal.
        HoldsAt (run.now.query.0 - 1) (λ query. ordinal ≡ query.runs + 1) queries.old) }
    ensures queries { OnOk result
        (ChangesAt (run.now.query.0 - 1) (after_run run.now.moment []) queries.old queries.new) }
{
    let place = run.query.0 as usize - 1;
    let ordinal = ordinal_after(queries.at(place).runs, run.num);
    queries.add_run(place, run.moment, ordinal, &[])?;
    Ok(ordinal)
}

// Adds runs to queries that were never run, and gives the ordinal of each among its query's runs.
fn add_runs(alloc: Global, queries: &mut CachedQueries, runs: &[RunRow]) -> Result<Vec<u32>, Memory>
    requires numbered { QueriesFrom 1 (rows_in queries.old) }
    requires fresh { queries.old ≡ map never_run (rows_in queries.old) }
    requires runs { RunsFrom 1 runs.now }
    requires owned { Each (λ run. IsRowNumber run.query.0 (length queries.old)) runs.now }
    ensures queries { OnOk result
        (queries.new ≡ map (cached_query (runs_alone runs.now [])) (rows_in queries.old)) }
    ensures ordinals { IfOk result (λ ordinals.
        ordinals.items ≡ map (ordinal_in runs.now) runs.now) }
{
    let mut ordinals = Vec::new(alloc);
    for run in runs {
        ordinals.push(add_run(queries, run)?)?;
    }
    Ok(ordinals)
}

// Adds a pick as an entry to its query. The entry has the ordinal of the pick's run, which
// `ordinals` has at that run's place.
fn add_pick(queries: &mut CachedQueries, ordinals: &[u32], pick: &Pick) -> Result<(), Memory>
    requires query { IsRowNumber pick.now.query.0 (length queries.old) }
    requires run { IsRowNumber pick.now.run (length ordinals.now) }
    requires unseen { HoldsAt (pick.now.query.0 - 1)
        (λ query. is_in pick.now.doc.0 query.entries ≡ false) queries.old }
    ensures { OnOk result (ChangesAt (pick.now.query.0 - 1)
        (with_entry (record {
          doc = pick.now.doc;
          first = pick.now.first;
          run = slice_index_or ordinals.now (pick.now.run - 1) 0;
        }))
        queries.old queries.new) }
{
    queries.add_entry(
        pick.query.0 as usize - 1,
        Entry {
            doc: pick.doc,
            first: pick.first,
            run: ordinals[pick.run as usize - 1],
        },
    )
}

// Adds the runs and the picks of queries that were never run, each to its query.
pub(crate) fn deliver(
    alloc: Global,
    queries: &mut CachedQueries,
    runs: &[RunRow],
    picks: &[Pick],
) -> Result<(), Memory>
    requires numbered { QueriesFrom 1 (rows_in queries.old) }
    requires fresh { queries.old ≡ map never_run (rows_in queries.old) }
    requires owned { Each (λ run. IsRowNumber run.query.0 (length queries.old)) runs.now }
    requires deliveries { AreDeliveries runs.now picks.now }
    ensures { OnOk result
        (queries.new ≡ map (cached_query (runs_alone runs.now picks.now)) (rows_in queries.old)) }
{
    let ordinals = add_runs(alloc, queries, runs)?;
    for pick in picks {
        add_pick(queries, &ordinals, pick)?;
    }
    Ok(())
}

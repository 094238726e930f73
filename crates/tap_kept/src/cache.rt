//! What an engine has in memory of stored queries, filters and their owners.

ghost use Rattle.std.specs.Prelude.{◌≡◌, ◌⊎◌, ◌++◌, [], map, length, false, true, None, Some, Ok};
ghost use Rattle.std.specs.Prelude.{OnOk, IfOk, IfErr};
ghost use Rattle.std.specs.Option.{option_map};
ghost use Rattle.tap_base.specs.Words.{with_new};
ghost use Rattle.tap_rows.specs.Kept.{Each, QueriesFrom};
ghost use Rattle.tql_core.specs.Condition.{condition};
ghost use Rattle.restart_core.specs.Readings.{reading_of};
ghost use Rattle.tap_kept.specs.declared.start_fault.StartFault.{StartFault as Fault};
ghost use Rattle.tap_kept.specs.Keeping.{cached_query, never_run};
ghost use Rattle.tap_kept.specs.Starting.{is_unread, first_unread, runs_alone, IsRowNumber};
ghost use Rattle.tap_kept.specs.StoredRows.{HaveConditions, AreDeliveries};
ghost use Rattle.tap_base.specs.Numbers.{IsMoment};

use crate::cached_filter::CachedFilter;
use crate::cached_queries::CachedQueries;
use crate::cached_query::CachedQuery;
use crate::deliveries::deliver;
use crate::planned_query::PlannedQuery;
use crate::start_fault::StartFault;
use filter_rules::{RuleFault, read_rules};
use std::alloc::Global;
use tap_base::{HashKey, Memory, Rows, Texts, WordSet};
use tap_rows::{FilterRow, Pick, QueryRow, RunRow};
use tql_core::Cond;

// Caches a query that was never run: makes the plan of its condition.
fn cache_query(alloc: Global, row: QueryRow, cond: Cond) -> Result<CachedQuery, Memory>
    requires cond { reading_of row ≡ Ok (condition cond) }
    requires arrival { IsMoment row.arrival }
    ensures { IfOk result (λ kept. kept ≡ never_run row) }
{
    let planned = PlannedQuery::new(alloc, row, cond)?;
    Ok(CachedQuery::new(alloc, planned))
}

// Appends queries that were never run, each with its condition.
fn push_queries(
    alloc: Global,
    queries: &mut CachedQueries,
    rows: Rows<QueryRow>,
    conds: Vec<Cond>,
) -> Result<(), Memory>
    requires read { HaveConditions rows conds.items }
    ensures { OnOk result (queries.new ≡ queries.old ++ map never_run rows) }
{
    for (row, cond) in rows.into_vec().into_iter().zip(conds) {
        queries.push(cache_query(alloc, row, cond)?)?;
    }
    Ok(())
}

// Adds queries with their conditions, their runs and what they have delivered to no queries.
fn fill_queries(
    alloc: Global,
    queries: &mut CachedQueries,
    rows: Rows<QueryRow>,
    conds: Vec<Cond>,
    runs: &[RunRow],
    picks: &[Pick],
) -> Result<(), Memory>
    requires none { queries.old ≡ [] }
    requires read { HaveConditions rows conds.items }
    requires numbered { QueriesFrom 1 rows }
    requires owned { Each (λ run. IsRowNumber run.query.0 (length rows)) runs.now }
    requires deliveries { AreDeliveries runs.now picks.now }
    ensures { OnOk result (queries.new ≡ map (cached_query (runs_alone runs.now picks.now)) rows) }
{
    push_queries(alloc, queries, rows, conds)?;
    deliver(alloc, queries, runs, picks)?;
    Ok(())
}

/// Caches queries with their conditions, their runs and what they have delivered.
pub fn cache_delivered(
    alloc: Global,
    rows: Rows<QueryRow>,
    conds: Vec<Cond>,
    runs: &[RunRow],
    picks: &[Pick],
) -> Result<CachedQueries, Memory>
    requires read { HaveConditions rows conds.items }
    requires numbered { QueriesFrom 1 rows }
    requires owned { Each (λ run. IsRowNumber run.query.0 (length rows)) runs.now }
    requires deliveries { AreDeliveries runs.now picks.now }
    ensures { IfOk result (λ queries.
        queries ≡ map (cached_query (runs_alone runs.now picks.now)) rows) }
{
    let mut queries = CachedQueries::new(alloc);
    match fill_queries(alloc, &mut queries, rows, conds, runs, picks) {
        Ok(()) => Ok(queries),
        Err(Memory) => {
            drop(queries);
            Err(Memory)
        }
    }
}

// Caches a filter with the rules of its text, or reports its number if the text has a fault.
#[tactic(auto, unfolding(tap_model::specs::Verdicts::filter_fault, tap_model::specs::Filters::rules_in_text))]
fn cache_filter(alloc: Global, row: FilterRow) -> Result<CachedFilter, StartFault>
    ensures read { OnOk result (is_unread row ≡ false) }
    ensures kept { IfOk result (λ kept. kept ≡ row) }
    ensures fault { IfErr result (λ fault. (fault ≡ Fault.Memory)
        ⊎ ((is_unread row ≡ true) × (fault ≡ Fault.Rules row.num))) }
{
    match read_rules(alloc, row.source.as_slice()) {
        Ok(rules) => Ok(CachedFilter::new(row, rules)),
        Err(RuleFault::Memory) => Err(StartFault::Memory),
        Err(_) => Err(StartFault::Rules { num: row.num }),
    }
}

// Appends filters with the rules of their texts.
fn push_filters(
    alloc: Global,
    kept: &mut Rows<CachedFilter>,
    filters: Rows<FilterRow>,
) -> Result<(), StartFault>
    ensures read { OnOk result (first_unread filters ≡ None) }
    ensures kept { OnOk result (kept.new ≡ kept.old ++ filters) }
    ensures fault { IfErr result (λ fault. (fault ≡ Fault.Memory)
        ⊎ (option_map Fault.Rules (first_unread filters) ≡ Some fault)) }
{
    for row in filters.into_vec() {
        kept.push(cache_filter(alloc, row)?)?;
    }
    Ok(())
}

/// Caches filters with the rules of their texts, or reports the number of the first whose text has
/// a fault.
pub fn cache_filters(
    alloc: Global,
    filters: Rows<FilterRow>,
) -> Result<Rows<CachedFilter>, StartFault>
    ensures read { OnOk result (first_unread filters ≡ None) }
    ensures kept { IfOk result (λ kept. kept ≡ filters) }
    ensures fault { IfErr result (λ fault. (fault ≡ Fault.Memory)
        ⊎ (option_map Fault.Rules (first_unread filters) ≡ Some fault)) }
{
    let mut kept = Rows::new(alloc);
    match push_filters(alloc, &mut kept, filters) {
        Ok(()) => Ok(kept),
        Err(fault) => {
            drop(kept);
            Err(fault)
        }
    }
}

// Appends the owner of each query.
fn push_query_owners(owners: &mut Texts, queries: &[QueryRow]) -> Result<(), Memory>
    ensures { OnOk result (owners.new ≡ owners.old ++ map (λ query. query.owner) queries.now) }
{
    for query in queries {
        owners.push(query.owner.copy()?)?;
    }
    Ok(())
}

// Appends the owner of each filter.
fn push_filter_owners(owners: &mut Texts, filters: &[FilterRow]) -> Result<(), Memory>
    ensures { OnOk result (owners.new ≡ owners.old ++ map (λ filter. filter.owner) filters.now) }
{
    for filter in filters {
        owners.push(filter.owner.copy()?)?;
    }
    Ok(())
}

/// Lists the different owners of queries and filters, each once, looked up by their hashes under
/// this key.
pub fn owners_of(
    alloc: Global,
    key: HashKey,
    queries: &[QueryRow],
    filters: &[FilterRow],
) -> Result<Texts, Memory>
    ensures { IfOk result (λ owners. owners ≡ with_new []
        (map (λ query. query.owner) queries.now ++ map (λ filter. filter.owner) filters.now)) }
{
    let mut owners = Texts::new(alloc);
    push_query_owners(&mut owners, queries)?;
    push_filter_owners(&mut owners, filters)?;
    WordSet::of(alloc, key, &owners)?.into_texts()
}

//! The conditions of queries, or the first damaged one.
ghost use Rattle.std.specs.Prelude.{◌≡◌, ◌⊎◌, ◌++◌, ◌∷◌, List, map, pos, [], None, Some, Ok, OnOk};
ghost use Rattle.std.specs.Prelude.{IfOk, IfErr};
ghost use Rattle.tap_rows.specs.declared.rows.QueryRow.{QueryRow};
ghost use Rattle.tql_core.specs.Condition.{condition};
ghost use Rattle.tql_text.specs.Texts.{AgreesWithText};
ghost use Rattle.restart_core.specs.declared.fault.TableName.{TableName};
ghost use Rattle.restart_core.specs.declared.fault.RestartFault.{RestartFault};
ghost use Rattle.restart_core.specs.Damages.{row_damage, own_reason, query_reason, queries_damage};
ghost use Rattle.restart_core.specs.Earlier.{named_of};
ghost use Rattle.restart_core.specs.Readings.{reading_of, readings_of, as_read};

use crate::names::Names;
use crate::rows::{damaged, follows};
use crate::{RestartFault, TableName, Why, cut_start};
use std::alloc::Global;
use tap_base::{HashKey, Rows, is_name};
use tap_rows::QueryRow;
use tql_core::Cond;
use tql_text::{TextFault, read_condition};

// Returns why the query is damaged at this place by itself, its text aside.
fn own_reason(place: usize, low: i64, query: &QueryRow) -> Option<Why>
    ensures { result ≡ own_reason place low query.now }
{
    if query.num.0 as usize != place {
        Some(Why::Number)
    } else if !follows(low, query.arrival) {
        Some(Why::Moment)
    } else if !is_name(query.owner.as_slice()) || !is_name(query.name.as_slice()) {
        Some(Why::Name)
    } else {
        None
    }
}

// Reads the condition of a query's text.
fn read_text(alloc: Global, query: &QueryRow) -> Result<Cond, TextFault>
    ensures { AgreesWithText (reading_of query.now) result }
{
    let source = query.source.as_slice();
    read_condition(alloc, &source[cut_start(source).at..])
}

// Reads the condition of the query at this place, and adds its key to those before it.
fn read_query(
    alloc: Global,
    names: &mut Names,
    place: usize,
    low: i64,
    query: &QueryRow,
) -> Result<Cond, RestartFault>
    ensures cond { IfOk result (λ cond. reading_of query.now ≡ Ok (condition cond)) }
    ensures stands { (earlier : List QueryRow) → names.old ≡ map named_of earlier
        → OnOk result (query_reason earlier place low query.now ≡ None) }
    ensures names { (earlier : List QueryRow) → names.old ≡ map named_of earlier
        → OnOk result (names.new ≡ map named_of (earlier ++ query.now ∷ [])) }
    ensures fault { (earlier : List QueryRow) → names.old ≡ map named_of earlier
        → IfErr result (λ fault. (fault ≡ RestartFault.Memory)
        ⊎ (row_damage TableName.Queries place (query_reason earlier place low query.now)
        ≡ Some fault)) }
{
    if let Some(why) = own_reason(place, low, query) {
        return Err(damaged(TableName::Queries, place, why));
    }
    if !names.add(query)? {
        return Err(damaged(TableName::Queries, place, Why::Twice));
    }
    match read_text(alloc, query) {
        Ok(cond) => Ok(cond),
        Err(TextFault::Memory) => Err(RestartFault::Memory),
        Err(_) => Err(damaged(TableName::Queries, place, Why::Text)),
    }
}

// Appends the conditions of the queries, behind none, and their keys.
fn push_conds(
    alloc: Global,
    names: &mut Names,
    conds: &mut Rows<Cond>,
    queries: &[QueryRow],
) -> Result<(), RestartFault>
    requires names { names.old ≡ [] }
    requires conds { conds.old ≡ [] }
    ensures sound { OnOk result (queries_damage [] 1 (pos 0) queries.now ≡ None) }
    ensures conds { OnOk result (readings_of queries.now ≡ as_read conds.new) }
    ensures fault { IfErr result (λ fault. (fault ≡ RestartFault.Memory)
        ⊎ (queries_damage [] 1 (pos 0) queries.now ≡ Some fault)) }
{
    let mut low = 0;
    for (i, query) in queries.iter().enumerate() {
        conds.push(read_query(alloc, names, i + 1, low, query)?)?;
        low = query.arrival;
    }
    Ok(())
}

// Reads the conditions of the queries. An error gives the first damaged query, or means out of
// memory.
pub(crate) fn read_queries(
    alloc: Global,
    key: HashKey,
    queries: &[QueryRow],
) -> Result<Vec<Cond>, RestartFault>
    ensures sound { OnOk result (queries_damage [] 1 (pos 0) queries.now ≡ None) }
    ensures conds { IfOk result (λ conds. readings_of queries.now ≡ as_read conds.items) }
    ensures fault { IfErr result (λ fault. (fault ≡ RestartFault.Memory)
        ⊎ (queries_damage [] 1 (pos 0) queries.now ≡ Some fault)) }
{
    let mut names = Names::new(alloc, key);
    let mut conds = Rows::new(alloc);
    let read = push_conds(alloc, &mut names, &mut conds, queries);
    drop(names);
    match read {
        Ok(()) => Ok(conds.into_vec()),
        Err(fault) => {
            drop(conds);
            Err(fault)
        }
    }
}

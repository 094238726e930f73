//! Stored tables of which no row is damaged.
ghost use Rattle.std.specs.Prelude.{◌≡◌, ◌⊎◌, None, Some, true, OnOk, IfOk, IfErr};
ghost use Rattle.tap_rows.specs.WellFormed.{is_well_formed};
ghost use Rattle.restart_core.specs.declared.fault.RestartFault.{RestartFault};
ghost use Rattle.restart_core.specs.Damages.{damage_of, later_damage};
ghost use Rattle.restart_core.specs.Readings.{readings_of, as_read};

use crate::RestartFault;
use crate::docs::docs_damage;
use crate::filters::filters_damage;
use crate::notes::notes_damage;
use crate::picks::picks_damage;
use crate::queries::read_queries;
use crate::runs::runs_damage;
use std::alloc::Global;
use std::marker::Model;
use tap_base::HashKey;
use tap_rows::Tables;
use tql_core::Cond;

/// Stored tables of which no row is damaged, with the conditions of their queries. Contracts see
/// the tables alone.
#[derive(Drop)]
pub struct Sound {
    tables: Tables,
    conds: Vec<Cond>,
}

impl Model for Sound {
    ghost use Rattle.std.specs.Prelude.{◌≡◌, None};
    ghost use Rattle.restart_core.specs.Damages.{damage_of};
    ghost use Rattle.restart_core.specs.Readings.{readings_of, as_read};
    ghost use Rattle.tap_rows.specs.declared.tables.Tables.{Tables};

    ghost Value = { Tables };

    ghost view = { λ sound. sound.tables };

    ghost invariant = { λ sound. (damage_of sound.tables ≡ None)
        × (readings_of sound.tables.queries ≡ as_read sound.conds.items) };
}

// Reports a damage as an error.
fn refuse(damage: Option<RestartFault>) -> Result<(), RestartFault>
    ensures ok { OnOk result (damage ≡ None) }
    ensures fault { IfErr result (λ fault. damage ≡ Some fault) }
{
    match damage {
        None => Ok(()),
        Some(fault) => Err(fault),
    }
}

// Checks runs, picks and filters.
fn check_later(alloc: Global, tables: &Tables) -> Result<(), RestartFault>
    ensures sound { OnOk result (later_damage tables.now ≡ None) }
    ensures fault { IfErr result (λ fault. (fault ≡ RestartFault.Memory)
        ⊎ (later_damage tables.now ≡ Some fault)) }
{
    refuse(runs_damage(tables.queries.as_slice(), tables.runs.as_slice()))?;
    refuse(picks_damage(
        alloc,
        tables.runs.as_slice(),
        tables.docs.as_slice(),
        tables.picks.as_slice(),
    )?)?;
    refuse(filters_damage(tables.filters.as_slice()))?;
    Ok(())
}

// Checks all rows, and reads the conditions of queries.
#[tactic(auto, unfolding(crate::specs::Damages::damage_of))]
fn check_rows(alloc: Global, key: HashKey, tables: &Tables) -> Result<Vec<Cond>, RestartFault>
    ensures sound { OnOk result (damage_of tables.now ≡ None) }
    ensures conds { IfOk result (λ conds. readings_of tables.now.queries ≡ as_read conds.items) }
    ensures fault { IfErr result (λ fault. (fault ≡ RestartFault.Memory)
        ⊎ (damage_of tables.now ≡ Some fault)) }
{
    refuse(docs_damage(tables.docs.as_slice()))?;
    refuse(notes_damage(tables.docs.as_slice(), tables.notes.as_slice()))?;
    let conds = read_queries(alloc, key, tables.queries.as_slice())?;
    match check_later(alloc, tables) {
        Ok(()) => Ok(conds),
        Err(fault) => {
            drop(conds);
            Err(fault)
        }
    }
}

/// Checks all rows of stored tables, in the order documents, notes, queries, runs, picks, filters,
/// and returns the tables if none is damaged. `Damaged` gives the first damaged row and its first
/// reason, `Memory` means out of memory. The texts of queries are read, those of filters are not.
/// Each query and each pick takes one look-up, the queries' under this key.
pub fn check_tables(alloc: Global, key: HashKey, tables: Tables) -> Result<Sound, RestartFault>
    ensures tables { IfOk result (λ sound. sound ≡ tables) }
    ensures sound { OnOk result (damage_of tables ≡ None) }
    ensures fault { IfErr result (λ fault. (fault ≡ RestartFault.Memory)
        ⊎ (damage_of tables ≡ Some fault)) }
{
    match check_rows(alloc, key, &tables) {
        Ok(conds) => Ok(Sound { tables, conds }),
        Err(fault) => {
            drop(tables);
            Err(fault)
        }
    }
}

impl Sound {
    /// Returns the tables and the condition of each query, in order. It takes no memory.
    pub fn into_parts(self) -> (Tables, Vec<Cond>)
        ensures tables { result.0 ≡ self }
        ensures sound { damage_of self ≡ None }
        ensures formed { is_well_formed self ≡ true }
        ensures conds { readings_of self.queries ≡ as_read result.1.items }
    {
        (self.tables, self.conds)
    }
}

//! Writes and reads the rows of the table `runs`.

ghost use Rattle.std.specs.Prelude.{◌≡◌, ◌<◌, ◌^◌, [], ◌∷◌, OnOk};
ghost use Rattle.sqlite.specs.Values.{bound};
ghost use Rattle.keeper_sql.specs.RowsAsValues.{given_run, run_in, run_kinds, run_shown, as_kept};
ghost use Rattle.keeper_sql.specs.Store.{only, RowsWritten};
ghost use Rattle.keeper_sql.specs.Calls.{AreRowsOf, CommitsNothing, Does, DoesOrUndoes, ReadsStore};
ghost use Rattle.keeper_sql.specs.Calls.{ReadsOnly, ReadsOrUndoes};
ghost use Rattle.keeper_sql.specs.Schema.{insert_run, select_runs};
ghost use Rattle.keeper_sql.specs.Failing.{FailsBy, FailsToRead, FailsToWrite};

use crate::reading::{TableRow, integer, number, read_rows};
use sqlite::types::ValueRef;
use sqlite::{Alter, Error, Row, Transaction};
use std::alloc::Global;
use tap_base::{QueryNum, Rows};
use tap_rows::RunRow;

// Returns the parameters of the statement that inserts a run.
fn run_values(run: &RunRow) -> [ValueRef<'_>; 3]
    ensures given { bound result ≡ given_run run.now }
    ensures range { (run.now.num < 2 ^ 32) × (run.now.query.0 < 2 ^ 32) }
{
    [
        ValueRef::Int(i64::from(run.num)),
        ValueRef::Int(i64::from(run.query.0)),
        ValueRef::Int(run.moment),
    ]
}

pub fn insert_run<S: Alter>(tx: &mut Transaction<'_, S>, run: &RunRow) -> Result<(), Error>
    ensures same_reference { tx.new.conn.ghost_name ≡ tx.old.conn.ghost_name }
    ensures ok { Does S.Store tx.old.conn.now tx.new.conn.now result
        (RowsWritten (only 4 (as_kept (given_run run.now) ∷ []))) }
    ensures err { DoesOrUndoes S.Store tx.old.conn.now tx.new.conn.now result }
    ensures survives { CommitsNothing S.Store tx.old.conn.now tx.new.conn.now }
    ensures fails { FailsBy S.Store tx.old.conn.now tx.new.conn.now result
        (FailsToWrite insert_run (given_run run.now)) }
    ensures read { OnOk result (run_in (as_kept (given_run run.now)) ≡ run.now) }
{
    let values = run_values(run);
    match tx.execute(
        "INSERT INTO runs (num, query, moment) VALUES (?1, ?2, ?3)",
        &values,
    ) {
        Ok(_) => Ok(()),
        Err(error) => Err(error),
    }
}

impl TableRow for RunRow {
    ghost shown = { run_shown };

    ghost kinds = { run_kinds };

    fn read(_alloc: Global, row: &Row) -> Result<RunRow, Error> {
        let num = number(row, 0)?;
        let query = QueryNum(number(row, 1)?);
        let moment = integer(row, 2)?;
        Ok(RunRow { num, query, moment })
    }
}

/// Returns the runs, in order of their numbers.
pub fn read_runs<S: Alter>(
    alloc: Global,
    tx: &mut Transaction<'_, S>,
) -> Result<Rows<RunRow>, Error>
    ensures same_reference { tx.new.conn.ghost_name ≡ tx.old.conn.ghost_name }
    ensures same { ReadsOnly S.Store tx.old.conn.now tx.new.conn.now result }
    ensures read { ReadsStore S.Store tx.old.conn.now tx.new.conn.now result (AreRowsOf 4 run_in) }
    ensures err { ReadsOrUndoes S.Store tx.old.conn.now tx.new.conn.now result }
    ensures survives { CommitsNothing S.Store tx.old.conn.now tx.new.conn.now }
    ensures fails { FailsBy S.Store tx.old.conn.now tx.new.conn.now result
        (FailsToRead select_runs run_kinds) }
{
    match tx.query_all("SELECT num, query, moment FROM runs ORDER BY num", &[]) {
        Ok(shown) => read_rows(alloc, shown),
        Err(error) => Err(error),
    }
}

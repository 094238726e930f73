//! Writes and reads the rows of the table `filters`.

ghost use Rattle.std.specs.Prelude.{◌≡◌, ◌<◌, ◌^◌, [], ◌∷◌, OnOk};
ghost use Rattle.sqlite.specs.Values.{bound};
ghost use Rattle.keeper_sql.specs.RowsAsValues.{given_filter, filter_in, filter_kinds};
ghost use Rattle.keeper_sql.specs.RowsAsValues.{filter_shown, as_kept};
ghost use Rattle.keeper_sql.specs.Store.{only, RowsWritten};
ghost use Rattle.keeper_sql.specs.Calls.{AreRowsOf, CommitsNothing, Does, DoesOrUndoes, ReadsStore};
ghost use Rattle.keeper_sql.specs.Calls.{ReadsOnly, ReadsOrUndoes};
ghost use Rattle.keeper_sql.specs.Schema.{insert_filter, select_filters};
ghost use Rattle.keeper_sql.specs.Failing.{FailsBy, FailsToRead, FailsToWrite};

use crate::reading::{TableRow, bytes, integer, number, read_rows};
use sqlite::types::ValueRef;
use sqlite::{Alter, Error, Row, Transaction};
use std::alloc::Global;
use tap_base::Rows;
use tap_rows::FilterRow;

// Returns the parameters of the statement that inserts a filter.
fn filter_values(filter: &FilterRow) -> [ValueRef<'_>; 4]
    ensures given { bound result ≡ given_filter filter.now }
    ensures range { filter.now.num < 2 ^ 32 }
{
    [
        ValueRef::Int(i64::from(filter.num)),
        ValueRef::Blob(filter.owner.as_slice()),
        ValueRef::Blob(filter.source.as_slice()),
        ValueRef::Int(filter.arrival),
    ]
}

pub fn insert_filter<S: Alter>(tx: &mut Transaction<'_, S>, filter: &FilterRow) -> Result<(), Error>
    ensures same_reference { tx.new.conn.ghost_name ≡ tx.old.conn.ghost_name }
    ensures ok { Does S.Store tx.old.conn.now tx.new.conn.now result
        (RowsWritten (only 6 (as_kept (given_filter filter.now) ∷ []))) }
    ensures err { DoesOrUndoes S.Store tx.old.conn.now tx.new.conn.now result }
    ensures survives { CommitsNothing S.Store tx.old.conn.now tx.new.conn.now }
    ensures fails { FailsBy S.Store tx.old.conn.now tx.new.conn.now result
        (FailsToWrite insert_filter (given_filter filter.now)) }
    ensures read { OnOk result (filter_in (as_kept (given_filter filter.now)) ≡ filter.now) }
{
    let values = filter_values(filter);
    match tx.execute(
        "INSERT INTO filters (num, owner, source, arrival) VALUES (?1, ?2, ?3, ?4)",
        &values,
    ) {
        Ok(_) => Ok(()),
        Err(error) => Err(error),
    }
}

impl TableRow for FilterRow {
    ghost shown = { filter_shown };

    ghost kinds = { filter_kinds };

    fn read(alloc: Global, row: &Row) -> Result<FilterRow, Error> {
        let num = number(row, 0)?;
        let owner = bytes(alloc, row, 1)?;
        let source = bytes(alloc, row, 2)?;
        let arrival = integer(row, 3)?;
        Ok(FilterRow {
            num,
            owner,
            source,
            arrival,
        })
    }
}

/// Returns the filters, in order of their numbers.
pub fn read_filters<S: Alter>(
    alloc: Global,
    tx: &mut Transaction<'_, S>,
) -> Result<Rows<FilterRow>, Error>
    ensures same_reference { tx.new.conn.ghost_name ≡ tx.old.conn.ghost_name }
    ensures same { ReadsOnly S.Store tx.old.conn.now tx.new.conn.now result }
    ensures read { ReadsStore S.Store tx.old.conn.now tx.new.conn.now result
        (AreRowsOf 6 filter_in) }
    ensures err { ReadsOrUndoes S.Store tx.old.conn.now tx.new.conn.now result }
    ensures survives { CommitsNothing S.Store tx.old.conn.now tx.new.conn.now }
    ensures fails { FailsBy S.Store tx.old.conn.now tx.new.conn.now result
        (FailsToRead select_filters filter_kinds) }
{
    match tx.query_all(
        "SELECT num, owner, source, arrival FROM filters ORDER BY num",
        &[],
    ) {
        Ok(shown) => read_rows(alloc, shown),
        Err(error) => Err(error),
    }
}

//! Writes and reads the rows of the table `queries`.

ghost use Rattle.std.specs.Prelude.{◌≡◌, ◌<◌, ◌^◌, [], ◌∷◌, OnOk};
ghost use Rattle.sqlite.specs.Values.{bound};
ghost use Rattle.keeper_sql.specs.RowsAsValues.{given_query, query_in, query_kinds, query_shown};
ghost use Rattle.keeper_sql.specs.RowsAsValues.{as_kept};
ghost use Rattle.keeper_sql.specs.Store.{only, RowsWritten};
ghost use Rattle.keeper_sql.specs.Calls.{AreRowsOf, CommitsNothing, Does, DoesOrUndoes, ReadsStore};
ghost use Rattle.keeper_sql.specs.Calls.{ReadsOnly, ReadsOrUndoes};
ghost use Rattle.keeper_sql.specs.Schema.{insert_query, select_queries};
ghost use Rattle.keeper_sql.specs.Failing.{FailsBy, FailsToRead, FailsToWrite};

use crate::reading::{TableRow, bytes, integer, number, read_rows};
use sqlite::types::ValueRef;
use sqlite::{Alter, Error, Row, Transaction};
use std::alloc::Global;
use tap_base::{QueryNum, Rows};
use tap_rows::QueryRow;

// Returns the parameters of the statement that inserts a query.
fn query_values(query: &QueryRow) -> [ValueRef<'_>; 5]
    ensures given { bound result ≡ given_query query.now }
    ensures range { query.now.num.0 < 2 ^ 32 }
{
    [
        ValueRef::Int(i64::from(query.num.0)),
        ValueRef::Blob(query.owner.as_slice()),
        ValueRef::Blob(query.name.as_slice()),
        ValueRef::Blob(query.source.as_slice()),
        ValueRef::Int(query.arrival),
    ]
}

pub fn insert_query<S: Alter>(tx: &mut Transaction<'_, S>, query: &QueryRow) -> Result<(), Error>
    ensures same_reference { tx.new.conn.ghost_name ≡ tx.old.conn.ghost_name }
    ensures ok { Does S.Store tx.old.conn.now tx.new.conn.now result
        (RowsWritten (only 3 (as_kept (given_query query.now) ∷ []))) }
    ensures err { DoesOrUndoes S.Store tx.old.conn.now tx.new.conn.now result }
    ensures survives { CommitsNothing S.Store tx.old.conn.now tx.new.conn.now }
    ensures fails { FailsBy S.Store tx.old.conn.now tx.new.conn.now result
        (FailsToWrite insert_query (given_query query.now)) }
    ensures read { OnOk result (query_in (as_kept (given_query query.now)) ≡ query.now) }
{
    let values = query_values(query);
    match tx.execute(
        "INSERT INTO queries (num, owner, name, source, arrival) VALUES (?1, ?2, ?3, ?4, ?5)",
        &values,
    ) {
        Ok(_) => Ok(()),
        Err(error) => Err(error),
    }
}

impl TableRow for QueryRow {
    ghost shown = { query_shown };

    ghost kinds = { query_kinds };

    fn read(alloc: Global, row: &Row) -> Result<QueryRow, Error> {
        let num = QueryNum(number(row, 0)?);
        let owner = bytes(alloc, row, 1)?;
        let name = bytes(alloc, row, 2)?;
        let source = bytes(alloc, row, 3)?;
        let arrival = integer(row, 4)?;
        Ok(QueryRow {
            num,
            owner,
            name,
            source,
            arrival,
        })
    }
}

/// Returns the queries, in order of their numbers.
pub fn read_queries<S: Alter>(
    alloc: Global,
    tx: &mut Transaction<'_, S>,
) -> Result<Rows<QueryRow>, Error>
    ensures same_reference { tx.new.conn.ghost_name ≡ tx.old.conn.ghost_name }
    ensures same { ReadsOnly S.Store tx.old.conn.now tx.new.conn.now result }
    ensures read { ReadsStore S.Store tx.old.conn.now tx.new.conn.now result
        (AreRowsOf 3 query_in) }
    ensures err { ReadsOrUndoes S.Store tx.old.conn.now tx.new.conn.now result }
    ensures survives { CommitsNothing S.Store tx.old.conn.now tx.new.conn.now }
    ensures fails { FailsBy S.Store tx.old.conn.now tx.new.conn.now result
        (FailsToRead select_queries query_kinds) }
{
    match tx.query_all(
        "SELECT num, owner, name, source, arrival FROM queries ORDER BY num",
        &[],
    ) {
        Ok(shown) => read_rows(alloc, shown),
        Err(error) => Err(error),
    }
}

//! Writes and reads the rows of the table `picks`.

ghost use Rattle.std.specs.Prelude.{◌≡◌, ◌≤◌, ◌<◌, ◌+◌, ◌^◌, [], ◌∷◌, ◌++◌, length, map, take};
ghost use Rattle.std.specs.Prelude.{drop, OnOk};
ghost use Rattle.std.specs.List.{flat_map};
ghost use Rattle.sqlite.specs.Values.{bound};
ghost use Rattle.keeper_sql.specs.RowsAsValues.{given_pick, pick_in, pick_kinds, pick_shown};
ghost use Rattle.keeper_sql.specs.RowsAsValues.{as_kept};
ghost use Rattle.keeper_sql.specs.Store.{only, RowsWritten};
ghost use Rattle.keeper_sql.specs.Calls.{AreRowsOf, CommitsNothing, Does, DoesOrUndoes, ReadsStore};
ghost use Rattle.keeper_sql.specs.Calls.{ReadsOnly, ReadsOrUndoes};
ghost use Rattle.keeper_sql.specs.Schema.{insert_pick, insert_eight, select_picks};
ghost use Rattle.keeper_sql.specs.Failing.{FailsBy, FailsToInsert, FailsToInsertPicks, FailsToRead};
ghost use Rattle.keeper_sql.specs.Failing.{FailsToWrite, FailsWithin};

use crate::reading::{TableRow, integer, number, read_rows};
use sqlite::types::ValueRef;
use sqlite::{Alter, Error, Row, Transaction};
use std::alloc::Global;
use tap_base::{DocNum, QueryNum, Rows};
use tap_rows::Pick;

// How many delivered documents one statement inserts, if there are that many.
const MANY: usize = 8;

// Returns the parameters of the statement that inserts a delivered document.
fn pick_values(pick: &Pick) -> [ValueRef<'_>; 5]
    ensures given { bound result ≡ given_pick pick.now }
    ensures range { (pick.now.num < 2 ^ 32) × (pick.now.query.0 < 2 ^ 32) × (pick.now.run < 2 ^ 32)
        × (pick.now.doc.0 < 2 ^ 32) }
{
    [
        ValueRef::Int(i64::from(pick.num)),
        ValueRef::Int(i64::from(pick.query.0)),
        ValueRef::Int(i64::from(pick.run)),
        ValueRef::Int(i64::from(pick.doc.0)),
        ValueRef::Int(pick.first),
    ]
}

/// Inserts the row of a delivered document.
pub fn insert_pick<S: Alter>(tx: &mut Transaction<'_, S>, pick: &Pick) -> Result<(), Error>
    ensures same_reference { tx.new.conn.ghost_name ≡ tx.old.conn.ghost_name }
    ensures ok { Does S.Store tx.old.conn.now tx.new.conn.now result
        (RowsWritten (only 5 (as_kept (given_pick pick.now) ∷ []))) }
    ensures err { DoesOrUndoes S.Store tx.old.conn.now tx.new.conn.now result }
    ensures survives { CommitsNothing S.Store tx.old.conn.now tx.new.conn.now }
    ensures fails { FailsBy S.Store tx.old.conn.now tx.new.conn.now result
        (FailsToWrite insert_pick (given_pick pick.now)) }
    ensures read { OnOk result (pick_in (as_kept (given_pick pick.now)) ≡ pick.now) }
{
    let values = pick_values(pick);
    match tx.execute(
        "INSERT INTO picks (num, query, run, doc, second) VALUES (?1, ?2, ?3, ?4, ?5)",
        &values,
    ) {
        Ok(_) => Ok(()),
        Err(error) => Err(error),
    }
}

// Puts the parameters of a delivered document among those of a statement, from this place on.
fn put_values(values: &mut [ValueRef<'_>], at: usize, pick: &Pick)
    requires { at + 5 ≤ length values.old }
    ensures given { bound values.new
        ≡ take at (bound values.old) ++ given_pick pick.now ++ drop (at + 5) (bound values.old) }
    ensures read { pick_in (as_kept (given_pick pick.now)) ≡ pick.now }
{
    values[at] = ValueRef::Int(i64::from(pick.num));
    values[at + 1] = ValueRef::Int(i64::from(pick.query.0));
    values[at + 2] = ValueRef::Int(i64::from(pick.run));
    values[at + 3] = ValueRef::Int(i64::from(pick.doc.0));
    values[at + 4] = ValueRef::Int(pick.first);
}

// Returns the parameters of the statement that inserts eight delivered documents.
fn eight_values<'a>(picks: &[Pick]) -> [ValueRef<'a>; 40]
    requires { length picks.now ≡ 8 }
    ensures given { bound result ≡ flat_map given_pick picks.now }
    ensures read { map pick_in (map (λ x. as_kept (given_pick x)) picks.now) ≡ picks.now }
{
    let mut values = [ValueRef::Null; 40];
    for (i, pick) in picks.iter().enumerate() {
        put_values(&mut values, 5 * i, pick);
    }
    values
}

// Inserts the rows of eight delivered documents by one statement, which is read and planned once.
fn insert_eight<S: Alter>(tx: &mut Transaction<'_, S>, picks: &[Pick]) -> Result<(), Error>
    requires { length picks.now ≡ 8 }
    ensures same_reference { tx.new.conn.ghost_name ≡ tx.old.conn.ghost_name }
    ensures ok { Does S.Store tx.old.conn.now tx.new.conn.now result
        (RowsWritten (only 5 (map (λ x. as_kept (given_pick x)) picks.now))) }
    ensures err { DoesOrUndoes S.Store tx.old.conn.now tx.new.conn.now result }
    ensures survives { CommitsNothing S.Store tx.old.conn.now tx.new.conn.now }
    ensures fails { FailsBy S.Store tx.old.conn.now tx.new.conn.now result
        (FailsToWrite insert_eight (flat_map given_pick picks.now)) }
    ensures read { OnOk result
        (map pick_in (map (λ x. as_kept (given_pick x)) picks.now) ≡ picks.now) }
{
    let values = eight_values(picks);
    match tx.execute(
        "INSERT INTO picks (num, query, run, doc, second) VALUES (?1, ?2, ?3, ?4, ?5), \
         (?6, ?7, ?8, ?9, ?10), (?11, ?12, ?13, ?14, ?15), (?16, ?17, ?18, ?19, ?20), \
         (?21, ?22, ?23, ?24, ?25), (?26, ?27, ?28, ?29, ?30), (?31, ?32, ?33, ?34, ?35), \
         (?36, ?37, ?38, ?39, ?40)",
        &values,
    ) {
        Ok(_) => Ok(()),
        Err(error) => Err(error),
    }
}

// Inserts the rows of the delivered documents, one by one.
fn insert_each<S: Alter>(tx: &mut Transaction<'_, S>, picks: &[Pick]) -> Result<(), Error>
    ensures same_reference { tx.new.conn.ghost_name ≡ tx.old.conn.ghost_name }
    ensures ok { Does S.Store tx.old.conn.now tx.new.conn.now result
        (RowsWritten (only 5 (map (λ x. as_kept (given_pick x)) picks.now))) }
    ensures err { DoesOrUndoes S.Store tx.old.conn.now tx.new.conn.now result }
    ensures survives { CommitsNothing S.Store tx.old.conn.now tx.new.conn.now }
    ensures fails { FailsWithin S.Store tx.old.conn.now tx.new.conn.now result
        (FailsToInsert insert_pick given_pick picks.now) }
    ensures read { OnOk result
        (map pick_in (map (λ x. as_kept (given_pick x)) picks.now) ≡ picks.now) }
{
    'adds: for pick in picks {
        if let Err(error) = insert_pick(tx, pick) {
            return Err(error);
        }
    }
    Ok(())
}

/// Inserts the rows of the delivered documents, in their order: eight at a time, and those that are
/// left one by one.
pub fn insert_picks<S: Alter>(tx: &mut Transaction<'_, S>, picks: &[Pick]) -> Result<(), Error>
    ensures same_reference { tx.new.conn.ghost_name ≡ tx.old.conn.ghost_name }
    ensures ok { Does S.Store tx.old.conn.now tx.new.conn.now result
        (RowsWritten (only 5 (map (λ x. as_kept (given_pick x)) picks.now))) }
    ensures err { DoesOrUndoes S.Store tx.old.conn.now tx.new.conn.now result }
    ensures survives { CommitsNothing S.Store tx.old.conn.now tx.new.conn.now }
    ensures fails { FailsWithin S.Store tx.old.conn.now tx.new.conn.now result
        (FailsToInsertPicks picks.now) }
    ensures read { OnOk result
        (map pick_in (map (λ x. as_kept (given_pick x)) picks.now) ≡ picks.now) }
{
    let mut done = 0;
    'eights: while picks.len() - done >= MANY {
        if let Err(error) = insert_eight(tx, &picks[done..done + MANY]) {
            return Err(error);
        }
        done += MANY;
    }
    insert_each(tx, &picks[done..])
}

impl TableRow for Pick {
    ghost shown = { pick_shown };

    ghost kinds = { pick_kinds };

    fn read(_alloc: Global, row: &Row) -> Result<Pick, Error> {
        let num = number(row, 0)?;
        let query = QueryNum(number(row, 1)?);
        let run = number(row, 2)?;
        let doc = DocNum(number(row, 3)?);
        let first = integer(row, 4)?;
        Ok(Pick {
            num,
            query,
            run,
            doc,
            first,
        })
    }
}

/// Returns the delivered documents, in order of their numbers.
pub fn read_picks<S: Alter>(alloc: Global, tx: &mut Transaction<'_, S>) -> Result<Rows<Pick>, Error>
    ensures same_reference { tx.new.conn.ghost_name ≡ tx.old.conn.ghost_name }
    ensures same { ReadsOnly S.Store tx.old.conn.now tx.new.conn.now result }
    ensures read { ReadsStore S.Store tx.old.conn.now tx.new.conn.now result (AreRowsOf 5 pick_in) }
    ensures err { ReadsOrUndoes S.Store tx.old.conn.now tx.new.conn.now result }
    ensures survives { CommitsNothing S.Store tx.old.conn.now tx.new.conn.now }
    ensures fails { FailsBy S.Store tx.old.conn.now tx.new.conn.now result
        (FailsToRead select_picks pick_kinds) }
{
    match tx.query_all(
        "SELECT num, query, run, doc, second FROM picks ORDER BY num",
        &[],
    ) {
        Ok(shown) => read_rows(alloc, shown),
        Err(error) => Err(error),
    }
}

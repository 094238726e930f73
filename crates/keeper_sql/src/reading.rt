//! Reads the rows that a query shows, as rows of the tables.

ghost use Rattle.std.specs.Prelude.{◌≡◌, ◌++◌, ◌∷◌, [], List, map, IfOk, IfErr, OnOk};
ghost use Rattle.sqlite_value.specs.Order.{column, Row as Values};
ghost use Rattle.sqlite.specs.declared.types.Type.{«Type» as SqlType};
ghost use Rattle.sqlite.specs.declared.types.Type.TheVariants.{Integer, Blob};
ghost use Rattle.keeper_sql.specs.RowsAsValues.{number_in_value, integer_of, bytes_of};
ghost use Rattle.keeper_sql.specs.Failing.{FailsToTake, FailsToTakeRow, FailsToTakeRows};

use sqlite::{Error, ErrorCode, Row};
use std::alloc::Global;
use tap_base::{Memory, Rows, Text};

/// A row of a table.
pub trait TableRow: Drop {
    // The row that a query shows by these values.
    ghost shown: { Values → Self };

    // The types of its values.
    ghost kinds: { List SqlType };

    /// Reads a row that a query shows. `OutOfMemory` if a text of it could not be copied.
    fn read(alloc: Global, row: &Row) -> Result<Self, Error>
    where
        Self: Sized,
        ensures ok { IfOk result (λ x. x ≡ shown row.now) }
        ensures fails { IfErr result (FailsToTakeRow kinds row.now) };
}

/// Returns the number in a column, or 0 if it isn't between 0 and 4,294,967,295. A row with the
/// number 0 is damaged.
pub fn number(row: &Row, at: usize) -> Result<u32, Error>
    ensures ok { IfOk result (λ n. n ≡ number_in_value (column row.now at)) }
    ensures fails { IfErr result (FailsToTake Integer row.now at) }
{
    let number: i64 = integer(row, at)?;
    Ok(u32::try_from(number).unwrap_or(0))
}

/// Returns the integer in a column.
pub fn integer(row: &Row, at: usize) -> Result<i64, Error>
    ensures ok { IfOk result (λ n. n ≡ integer_of (column row.now at)) }
    ensures fails { IfErr result (FailsToTake Integer row.now at) }
{
    row.get(at)
}

/// Returns the bytes in a column.
pub fn bytes(alloc: Global, row: &Row, at: usize) -> Result<Text, Error>
    ensures ok { IfOk result (λ text. text ≡ bytes_of (column row.now at)) }
    ensures fails { IfErr result (FailsToTake Blob row.now at) }
{
    let bytes: Result<Vec<u8>, Error> = row.get(at);
    match bytes {
        Ok(bytes) => Ok(Text::from_vec(alloc, bytes)),
        Err(error) => Err(error),
    }
}

// Returns the error of a call of the store that is out of memory.
pub fn no_memory(_memory: Memory) -> Error
    ensures { result ≡ Error.SqliteFailure ErrorCode.OutOfMemory }
{
    Error::SqliteFailure(ErrorCode::OutOfMemory)
}

// Appends a row that a query shows, and frees what it was read from.
fn push_row<T: TableRow>(alloc: Global, rows: &mut Rows<T>, shown: Row) -> Result<(), Error>
    ensures ok { OnOk result (rows.new ≡ rows.old ++ T.shown shown ∷ []) }
    ensures fails { IfErr result (FailsToTakeRow T.kinds shown) }
{
    let row = T::read(alloc, &shown);
    drop(shown);
    match rows.push(row?) {
        Ok(()) => Ok(()),
        Err(memory) => Err(no_memory(memory)),
    }
}

// Appends the rows that a query shows.
fn push_rows<T: TableRow>(alloc: Global, rows: &mut Rows<T>, shown: Vec<Row>) -> Result<(), Error>
    ensures ok { OnOk result (rows.new ≡ rows.old ++ map T.shown shown.items) }
    ensures fails { IfErr result (FailsToTakeRows T.kinds shown.items) }
{
    for row in shown {
        push_row(alloc, rows, row)?;
    }
    Ok(())
}

/// Reads the rows that a query shows, one by one: each is freed once it is read.
pub fn read_rows<T: TableRow>(alloc: Global, shown: Vec<Row>) -> Result<Rows<T>, Error>
    ensures ok { IfOk result (λ rows. rows ≡ map T.shown shown.items) }
    ensures fails { IfErr result (FailsToTakeRows T.kinds shown.items) }
{
    let mut rows = Rows::new(alloc);
    match push_rows(alloc, &mut rows, shown) {
        Ok(()) => Ok(rows),
        Err(error) => {
            drop(rows);
            Err(error)
        }
    }
}

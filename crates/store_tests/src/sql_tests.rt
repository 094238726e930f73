//! Two sessions over one store in memory.

ghost use Rattle.std.specs.Prelude.{◌≡◌, false};

use crate::documents::{TwoDocs, keep, two_docs};
use keeper_sql::SqlKeeper;
use sqlite::{Connection, MemStore};
use std::alloc::Global;
use tap_base::Memory;
use tap_rows::Change;

// Runs a session that commits a change; how many documents it found, and the connection.
fn session(
    alloc: Global,
    connection: Connection<MemStore>,
    change: &Change,
) -> (Option<usize>, Connection<MemStore>)
    requires { connection.in_transaction ≡ false }
{
    let mut keeper = SqlKeeper::adopt(connection);
    let found = keep(alloc, &mut keeper, ":memory:", change);
    (found, keeper.into_connection())
}

// Runs two sessions over a store, each of which adds a document; how many documents each found.
fn both_found(alloc: Global, connection: Connection<MemStore>, docs: &TwoDocs) -> [Option<usize>; 2]
    requires { connection.in_transaction ≡ false }
{
    let (first, connection) = session(alloc, connection, &docs.one);
    if !connection.is_autocommit() {
        drop(connection);
        return [first, None];
    }
    let (second, connection) = session(alloc, connection, &docs.two);
    drop(connection);
    [first, second]
}

// Runs those sessions over a store in memory.
fn found_in_memory(alloc: Global, docs: &TwoDocs) -> Result<[Option<usize>; 2], Memory> {
    let connection = Connection::open_in_memory(alloc)?;
    Ok(both_found(alloc, connection, docs))
}

// Returns how many documents those sessions find.
fn found(alloc: Global) -> Result<[Option<usize>; 2], Memory> {
    let docs = two_docs(alloc)?;
    let found = found_in_memory(alloc, &docs);
    drop(docs);
    found
}

#[test]
fn rows_are_kept_and_found_again(rt: HostRuntime) -> Result<(), Memory> {
    let [first, second] = found(rt.alloc())?;
    assert_eq!(rt; first, Some(0));
    assert_eq!(rt; second, Some(1));
    Ok(())
}

//! Sessions over files in memory, and over stores that statements make.

ghost use Rattle.std.specs.Prelude.{◌≡◌, false, IfSome};
ghost use Rattle.store_tests.specs.Usable.{AreBothUsable};

use crate::file_sessions::{Ran, new_files, run_over, session};
use crate::three_scripts::{FIRST, FIRST_REPLIES, SECOND, SECOND_REPLIES, THIRD, THIRD_REPLIES};
use sqlite::{Connection, Files, MemStore};
use sqlite_disk::Disk;
use std::alloc::Global;
use std::test::Fail;

// Runs a session over the files; returns them if it ended with status 0 and wrote this.
fn next_session<D: Disk + Drop>(
    alloc: Global,
    files: Files<D>,
    script: &[u8],
    want: &[u8],
) -> Option<Files<D>>
    requires usable { AreBothUsable D.Disk files }
    ensures usable { IfSome result (λ left. AreBothUsable D.Disk left) }
{
    let (status, written, files) = session(alloc, files, script)?;
    let is_right = status == 0 && written.as_slice() == want;
    drop(written);
    if is_right {
        Some(files)
    } else {
        drop(files);
        None
    }
}

// Returns how many of three sessions over the same files are right, up to the first that isn't.
fn right_sessions(alloc: Global) -> u8 {
    let Some(files) = next_session(alloc, new_files(alloc), FIRST, FIRST_REPLIES) else {
        return 0;
    };
    let Some(files) = next_session(alloc, files, SECOND, SECOND_REPLIES) else {
        return 1;
    };
    match next_session(alloc, files, THIRD, THIRD_REPLIES) {
        Some(files) => {
            drop(files);
            3
        }
        None => 2,
    }
}

#[test]
fn sessions_go_on_over_files(rt: HostRuntime) {
    assert_eq!(rt; right_sessions(rt.alloc()), 3);
}

// Returns a connection if it is in no transaction.
fn idle(connection: Connection<MemStore>) -> Option<Connection<MemStore>>
    ensures idle { IfSome result (λ connection. connection.in_transaction ≡ false) }
{
    if connection.is_autocommit() {
        Some(connection)
    } else {
        drop(connection);
        None
    }
}

// Returns a store that these statements make.
fn store_of(alloc: Global, statements: &str) -> Option<Connection<MemStore>>
    ensures idle { IfSome result (λ connection. connection.in_transaction ≡ false) }
{
    let Ok(mut connection) = Connection::open_in_memory(alloc) else {
        return None;
    };
    match connection.execute_batch(statements) {
        Ok(()) => idle(connection),
        Err(_) => {
            drop(connection);
            None
        }
    }
}

// Returns the version that a store has.
fn version_of(connection: &mut Connection<MemStore>) -> Option<i64> {
    let Ok(row) = connection.query_row("SELECT version FROM meta", &[]) else {
        return None;
    };
    let version = row.get(0).ok();
    drop(row);
    version
}

// Runs a script over such a store: its status and what it wrote, and the version of the store then.
fn script_over(alloc: Global, statements: &str, script: &[u8]) -> Option<(Ran, Option<i64>)> {
    let connection = store_of(alloc, statements)?;
    let (ran, mut connection) = run_over(alloc, connection, script);
    let version = version_of(&mut connection);
    drop(connection);
    Some((ran, version))
}

// A store of version 1 with one document, whose number is too large.
const DAMAGED: &str =
    "CREATE TABLE meta (id INTEGER PRIMARY KEY CHECK (id = 1), version INTEGER NOT NULL) STRICT;
    INSERT INTO meta (id, version) VALUES (1, 1);
    CREATE TABLE docs (num INTEGER PRIMARY KEY, arrival INTEGER NOT NULL, body BLOB NOT NULL) \
    STRICT;
    INSERT INTO docs (num, arrival, body) VALUES (4294967296, 100, x'0a')";

#[test]
fn a_number_that_is_too_large_is_damage(rt: HostRuntime) -> Result<(), Fail> {
    let Some((ran, version)) = script_over(rt.alloc(), DAMAGED, b"as ann\n") else {
        return Err(Fail::from("no store"));
    };
    let (status, written) = ran?;
    assert_eq!(rt; version, Some(2));
    assert_eq!(rt; status, 6);
    assert_eq!(rt;
        written.as_slice(),
        b"stop 6 damaged docs 1 number\n".as_slice()
    );
    drop(written);
    Ok(())
}

// A store of a version that isn't known.
const LATER_VERSION: &str =
    "CREATE TABLE meta (id INTEGER PRIMARY KEY CHECK (id = 1), version INTEGER NOT NULL) STRICT;
    INSERT INTO meta (id, version) VALUES (1, 7)";

#[test]
fn another_version_is_refused(rt: HostRuntime) -> Result<(), Fail> {
    let Some((ran, version)) = script_over(rt.alloc(), LATER_VERSION, b"as ann\n") else {
        return Err(Fail::from("no store"));
    };
    let (status, written) = ran?;
    assert_eq!(rt; version, Some(7));
    assert_eq!(rt; status, 6);
    assert_eq!(rt; written.as_slice(), b"stop 6 version 7\n".as_slice());
    drop(written);
    Ok(())
}

// A store of version 1 with the rows of the first of three sessions.
const FIRST_VERSION: &str =
    "CREATE TABLE meta (id INTEGER PRIMARY KEY CHECK (id = 1), version INTEGER NOT NULL) STRICT;
    INSERT INTO meta (id, version) VALUES (1, 1);
    CREATE TABLE docs (num INTEGER PRIMARY KEY, arrival INTEGER NOT NULL, body BLOB NOT NULL) \
    STRICT;
    INSERT INTO docs (num, arrival, body) VALUES
        (1, 100, x'5375626a6563743a2068690a0a'), (2, 110, x'5375626a6563743a2068690a0a');
    CREATE TABLE queries (num INTEGER PRIMARY KEY, owner BLOB NOT NULL, name BLOB NOT NULL, \
    source BLOB NOT NULL, arrival INTEGER NOT NULL) STRICT;
    INSERT INTO queries (num, owner, name, source, arrival) VALUES
        (1, x'616e6e', x'71', x'6d2e776f726473204841532027686927', 100);
    CREATE TABLE runs (num INTEGER PRIMARY KEY, query INTEGER NOT NULL, moment INTEGER NOT NULL) \
    STRICT;
    INSERT INTO runs (num, query, moment) VALUES (1, 1, 101), (2, 1, 111);
    CREATE TABLE picks (num INTEGER PRIMARY KEY, query INTEGER NOT NULL, run INTEGER NOT NULL, \
    doc INTEGER NOT NULL, second INTEGER NOT NULL) STRICT;
    INSERT INTO picks (num, query, run, doc, second) VALUES (1, 1, 1, 1, 100), (2, 1, 2, 2, 110)";

#[test]
fn a_store_of_version_1_goes_on(rt: HostRuntime) -> Result<(), Fail> {
    let Some((ran, version)) = script_over(rt.alloc(), FIRST_VERSION, SECOND) else {
        return Err(Fail::from("no store"));
    };
    let (status, written) = ran?;
    assert_eq!(rt; version, Some(2));
    assert_eq!(rt; status, 0);
    assert_eq!(rt; written.as_slice(), SECOND_REPLIES);
    drop(written);
    Ok(())
}

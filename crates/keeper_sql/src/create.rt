//! Makes the tables of a store that aren't there.

ghost use Rattle.std.specs.Prelude.{◌≡◌, ◌+◌, ◌<◌, []};
ghost use Rattle.keeper_sql.specs.Schema.{create_text, create_texts, schema_prefix};
ghost use Rattle.keeper_sql.specs.Store.{Makes};
ghost use Rattle.keeper_sql.specs.Calls.{CommitsNothing, Does, DoesOrUndoes};
ghost use Rattle.keeper_sql.specs.Failing.{FailsAmong, FailsBy, FailsToWrite, FailsWithin};

use sqlite::{Alter, Error, Transaction};

// Returns the statement that makes the table of this place, unless it is there.
fn create_text(table: usize) -> &'static str
    requires { table < 7 }
    ensures { result.now ≡ create_text table }
{
    match table {
        0 => {
            "CREATE TABLE IF NOT EXISTS meta (id INTEGER PRIMARY KEY CHECK (id = 1), version \
            INTEGER NOT NULL) STRICT"
        }
        1 => {
            "CREATE TABLE IF NOT EXISTS docs (num INTEGER PRIMARY KEY, arrival INTEGER NOT NULL, \
            body BLOB NOT NULL) STRICT"
        }
        2 => {
            "CREATE TABLE IF NOT EXISTS notes (num INTEGER PRIMARY KEY, doc INTEGER NOT NULL, \
            author BLOB NOT NULL, kind BLOB NOT NULL, value INTEGER NOT NULL, arrival INTEGER NOT \
            NULL, body BLOB NOT NULL) STRICT"
        }
        3 => {
            "CREATE TABLE IF NOT EXISTS queries (num INTEGER PRIMARY KEY, owner BLOB NOT NULL, \
            name BLOB NOT NULL, source BLOB NOT NULL, arrival INTEGER NOT NULL) STRICT"
        }
        4 => {
            "CREATE TABLE IF NOT EXISTS runs (num INTEGER PRIMARY KEY, query INTEGER NOT NULL, \
            moment INTEGER NOT NULL) STRICT"
        }
        5 => {
            "CREATE TABLE IF NOT EXISTS picks (num INTEGER PRIMARY KEY, query INTEGER NOT NULL, \
            run INTEGER NOT NULL, doc INTEGER NOT NULL, second INTEGER NOT NULL) STRICT"
        }
        _ => {
            "CREATE TABLE IF NOT EXISTS filters (num INTEGER PRIMARY KEY, owner BLOB NOT NULL, \
            source BLOB NOT NULL, arrival INTEGER NOT NULL) STRICT"
        }
    }
}

// Makes the table of this place, unless it is there.
fn create_table<S: Alter>(tx: &mut Transaction<'_, S>, table: usize) -> Result<(), Error>
    requires { table < 7 }
    ensures same_reference { tx.new.conn.ghost_name ≡ tx.old.conn.ghost_name }
    ensures ok { Does S.Store tx.old.conn.now tx.new.conn.now result
        (Makes (schema_prefix table) table (schema_prefix (table + 1)) (table + 1)) }
    ensures err { DoesOrUndoes S.Store tx.old.conn.now tx.new.conn.now result }
    ensures survives { CommitsNothing S.Store tx.old.conn.now tx.new.conn.now }
    ensures fails { FailsBy S.Store tx.old.conn.now tx.new.conn.now result
        (FailsToWrite (create_text table) []) }
{
    match tx.execute(create_text(table), &[]) {
        Ok(_) => Ok(()),
        Err(error) => Err(error),
    }
}

/// Makes the tables that aren't there. A table that is there is unchanged.
pub fn create_all<S: Alter>(tx: &mut Transaction<'_, S>) -> Result<(), Error>
    ensures same_reference { tx.new.conn.ghost_name ≡ tx.old.conn.ghost_name }
    ensures ok { Does S.Store tx.old.conn.now tx.new.conn.now result
        (Makes (schema_prefix 0) 0 (schema_prefix 7) 7) }
    ensures err { DoesOrUndoes S.Store tx.old.conn.now tx.new.conn.now result }
    ensures survives { CommitsNothing S.Store tx.old.conn.now tx.new.conn.now }
    ensures fails { FailsWithin S.Store tx.old.conn.now tx.new.conn.now result
        (FailsAmong create_texts) }
{
    'tables: for table in 0..7 {
        if let Err(error) = create_table(tx, table) {
            return Err(error);
        }
    }
    Ok(())
}

//! Writes and reads the rows of the table `docs`.

ghost use Rattle.std.specs.Prelude.{◌≡◌, ◌<◌, ◌^◌, [], ◌∷◌, map, OnOk};
ghost use Rattle.sqlite.specs.Values.{bound};
ghost use Rattle.keeper_sql.specs.RowsAsValues.{given_doc, doc_in, doc_kinds, doc_shown, as_kept};
ghost use Rattle.keeper_sql.specs.Store.{only, RowsWritten};
ghost use Rattle.keeper_sql.specs.Calls.{AreRowsOf, CommitsNothing, Does, DoesOrUndoes, ReadsStore};
ghost use Rattle.keeper_sql.specs.Calls.{ReadsOnly, ReadsOrUndoes};
ghost use Rattle.keeper_sql.specs.Schema.{insert_doc, select_docs};
ghost use Rattle.keeper_sql.specs.Failing.{FailsBy, FailsToInsert, FailsToRead, FailsToWrite};
ghost use Rattle.keeper_sql.specs.Failing.{FailsWithin};

use crate::reading::{TableRow, bytes, integer, no_memory, number, read_rows};
use sqlite::types::ValueRef;
use sqlite::{Alter, Error, Row, Transaction};
use std::alloc::Global;
use tap_base::{DocNum, Rows, SharedText};
use tap_rows::Doc;

// Returns the parameters of the statement that inserts a document.
fn doc_values(doc: &Doc) -> [ValueRef<'_>; 3]
    ensures given { bound result ≡ given_doc doc.now }
    ensures range { doc.now.num.0 < 2 ^ 32 }
{
    [
        ValueRef::Int(i64::from(doc.num.0)),
        ValueRef::Int(doc.arrival),
        ValueRef::Blob(doc.text.as_slice()),
    ]
}

/// Inserts the row of a document.
pub fn insert_doc<S: Alter>(tx: &mut Transaction<'_, S>, doc: &Doc) -> Result<(), Error>
    ensures same_reference { tx.new.conn.ghost_name ≡ tx.old.conn.ghost_name }
    ensures ok { Does S.Store tx.old.conn.now tx.new.conn.now result
        (RowsWritten (only 1 (as_kept (given_doc doc.now) ∷ []))) }
    ensures err { DoesOrUndoes S.Store tx.old.conn.now tx.new.conn.now result }
    ensures survives { CommitsNothing S.Store tx.old.conn.now tx.new.conn.now }
    ensures fails { FailsBy S.Store tx.old.conn.now tx.new.conn.now result
        (FailsToWrite insert_doc (given_doc doc.now)) }
    ensures read { OnOk result (doc_in (as_kept (given_doc doc.now)) ≡ doc.now) }
{
    let values = doc_values(doc);
    match tx.execute(
        "INSERT INTO docs (num, arrival, body) VALUES (?1, ?2, ?3)",
        &values,
    ) {
        Ok(_) => Ok(()),
        Err(error) => Err(error),
    }
}

/// Inserts the rows of the documents, in their order.
pub fn insert_docs<S: Alter>(tx: &mut Transaction<'_, S>, docs: &[Doc]) -> Result<(), Error>
    ensures same_reference { tx.new.conn.ghost_name ≡ tx.old.conn.ghost_name }
    ensures ok { Does S.Store tx.old.conn.now tx.new.conn.now result
        (RowsWritten (only 1 (map (λ x. as_kept (given_doc x)) docs.now))) }
    ensures err { DoesOrUndoes S.Store tx.old.conn.now tx.new.conn.now result }
    ensures survives { CommitsNothing S.Store tx.old.conn.now tx.new.conn.now }
    ensures fails { FailsWithin S.Store tx.old.conn.now tx.new.conn.now result
        (FailsToInsert insert_doc given_doc docs.now) }
    ensures read { OnOk result (map doc_in (map (λ x. as_kept (given_doc x)) docs.now) ≡ docs.now) }
{
    'adds: for doc in docs {
        if let Err(error) = insert_doc(tx, doc) {
            return Err(error);
        }
    }
    Ok(())
}

impl TableRow for Doc {
    ghost shown = { doc_shown };

    ghost kinds = { doc_kinds };

    fn read(alloc: Global, row: &Row) -> Result<Doc, Error> {
        let num = DocNum(number(row, 0)?);
        let arrival = integer(row, 1)?;
        match SharedText::of(alloc, bytes(alloc, row, 2)?) {
            Ok(text) => Ok(Doc { num, arrival, text }),
            Err(memory) => Err(no_memory(memory)),
        }
    }
}

/// Returns the documents, in order of their numbers.
pub fn read_docs<S: Alter>(alloc: Global, tx: &mut Transaction<'_, S>) -> Result<Rows<Doc>, Error>
    ensures same_reference { tx.new.conn.ghost_name ≡ tx.old.conn.ghost_name }
    ensures same { ReadsOnly S.Store tx.old.conn.now tx.new.conn.now result }
    ensures read { ReadsStore S.Store tx.old.conn.now tx.new.conn.now result (AreRowsOf 1 doc_in) }
    ensures err { ReadsOrUndoes S.Store tx.old.conn.now tx.new.conn.now result }
    ensures survives { CommitsNothing S.Store tx.old.conn.now tx.new.conn.now }
    ensures fails { FailsBy S.Store tx.old.conn.now tx.new.conn.now result
        (FailsToRead select_docs doc_kinds) }
{
    match tx.query_all("SELECT num, arrival, body FROM docs ORDER BY num", &[]) {
        Ok(shown) => read_rows(alloc, shown),
        Err(error) => Err(error),
    }
}

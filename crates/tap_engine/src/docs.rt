//! The adding of documents, for the commands that add messages.

ghost use Rattle.std.specs.Prelude.{◌≡◌, ◌≤◌, ◌<◌, ◌+◌, ◌^◌, ◌∷◌, []};
ghost use Rattle.std.specs.Prelude.{length, take, max, OnOk, OnErr, IfOk};
ghost use Rattle.tap_rows.specs.declared.change.Change.{Change as RowChange};
ghost use Rattle.tap_rows.specs.Tables.{after};
ghost use Rattle.row_index.specs.Orders.{doc_arrival};
ghost use Rattle.tap_engine.specs.Arriving.{MayArrive, AreShortTexts};
ghost use Rattle.tap_model.specs.Verdicts.{bytes_of_all};
ghost use Rattle.tap_model.specs.Replies.{docs_from, some_docs};

use crate::engine::Engine;
use mail_fields::keep;
use row_index::RowIndex;
use script_lang::MESSAGE_LIMIT;
use std::alloc::Global;
use tap_base::{DocNum, Memory, Rows, SharedText};
use tap_model::DOCUMENT_LIMIT;
use tap_rows::{Change, Doc};

// Sums the lengths of texts, in bytes.
pub(crate) fn total(texts: &[SharedText]) -> usize
    requires { bytes_of_all texts.now < 2 ^ 64 }
    ensures { result ≡ bytes_of_all texts.now }
{
    let mut bytes = 0;
    for text in texts {
        bytes += text.len();
    }
    bytes
}

// Makes documents with these texts that arrive at this moment, numbered from `first` on.
fn make_rows(
    alloc: Global,
    first: usize,
    moment: i64,
    texts: &[SharedText],
) -> Result<Rows<Doc>, Memory>
    requires { first + length texts.now < 2 ^ 32 }
    ensures { IfOk result (λ rows. rows ≡ docs_from first moment texts.now) }
{
    let mut rows = Rows::new(alloc);
    let mut num = first;
    for text in texts {
        rows.push(Doc {
            num: DocNum(num as u32),
            arrival: moment,
            text: text.copy()?,
        })?;
        num += 1;
    }
    Ok(rows)
}

// Adds a document with this text after the others. At Err nothing has changed.
fn push_doc(
    alloc: Global,
    index: &mut RowIndex,
    moment: i64,
    text: &SharedText,
) -> Result<(), Memory>
    requires few { length index.old.docs + 1 < 2 ^ 32 }
    requires arrives { MayArrive doc_arrival moment index.old.docs }
    requires short { length text.now ≤ MESSAGE_LIMIT }
    ensures ok { OnOk result (index.new ≡ after index.old
        (RowChange.Docs (docs_from (length index.old.docs + 1) moment (text.now ∷ [])))) }
    ensures err { OnErr result (index.new ≡ index.old) }
{
    let doc = Doc {
        num: DocNum(index.docs() + 1),
        arrival: moment,
        text: text.copy()?,
    };
    index.add_doc(keep(alloc, index.key(), doc)?)
}

// Adds documents with these texts after the others. At Err the first of them may have been added.
fn push_docs(
    alloc: Global,
    index: &mut RowIndex,
    moment: i64,
    texts: &[SharedText],
) -> Result<(), Memory>
    requires few { length index.old.docs + length texts.now < 2 ^ 32 }
    requires arrives { MayArrive doc_arrival moment index.old.docs }
    requires short { AreShortTexts texts.now }
    ensures ok { OnOk result (index.new ≡ after index.old
        (RowChange.Docs (docs_from (length index.old.docs + 1) moment texts.now))) }
    ensures err { OnErr result
        (record index.new { docs = take (length index.old.docs) index.new.docs } ≡ index.old) }
{
    for text in texts {
        push_doc(alloc, index, moment, text)?;
    }
    Ok(())
}

// Adds documents with these texts after the others, all or none: at Err those that were added are
// removed again.
fn add_all(
    alloc: Global,
    index: &mut RowIndex,
    moment: i64,
    texts: &[SharedText],
) -> Result<(), Memory>
    requires few { length index.old.docs + length texts.now < 2 ^ 32 }
    requires arrives { MayArrive doc_arrival moment index.old.docs }
    requires short { AreShortTexts texts.now }
    ensures ok { OnOk result (index.new ≡ after index.old
        (RowChange.Docs (docs_from (length index.old.docs + 1) moment texts.now))) }
    ensures err { OnErr result (index.new ≡ index.old) }
{
    let len = index.docs() as usize;
    let done = push_docs(alloc, index, moment, texts);
    if done.is_err() {
        index.cut_docs(len);
    }
    done
}

impl Engine {
    ghost use Rattle.tap_engine.specs.Answering.{IsUnchangedButHits};

    // Adds documents that arrive at this moment, all or none, and gives their rows as one change,
    // or None for no documents. At Err nothing has changed but the room for hits.
    pub(crate) fn add_docs(
        &mut self,
        alloc: Global,
        moment: i64,
        texts: &[SharedText],
    ) -> Result<Option<Change>, Memory>
        requires few { length self.old.index.docs + length texts.now
            ≤ max (length self.old.index.docs) DOCUMENT_LIMIT }
        requires short { AreShortTexts texts.now }
        requires bytes { self.old.bytes + bytes_of_all texts.now < 2 ^ 64 }
        requires arrives { MayArrive doc_arrival moment self.old.index.docs }
        requires room { length self.old.index.docs ≤ self.old.hits.room }
        ensures change { IfOk result (λ change.
            change ≡ some_docs (docs_from (length self.old.index.docs + 1) moment texts.now)) }
        ensures engine { OnOk result (self.new ≡ record self.old {
          index = after self.old.index
              (RowChange.Docs (docs_from (length self.old.index.docs + 1) moment texts.now));
          hits = self.new.hits;
          bytes = self.old.bytes + bytes_of_all texts.now;
        }) }
        ensures room { OnOk result (length self.new.index.docs ≤ self.new.hits.room) }
        ensures more { self.old.hits.room ≤ self.new.hits.room }
        ensures fronts { self.new.hits.fronts ≡ self.old.hits.fronts }
        ensures err { OnErr result (IsUnchangedButHits self.new self.old) }
    {
        if texts.is_empty() {
            return Ok(None);
        }
        let count = self.index.docs() as usize;
        let rows = make_rows(alloc, count + 1, moment, texts)?;
        self.hits.grow((count + texts.len()) as u32)?;
        add_all(alloc, &mut self.index, moment, texts)?;
        self.bytes += total(texts);
        Ok(Some(Change::Docs(rows)))
    }
}

//! Documents and boxes that tests use.

ghost use Rattle.std.specs.Prelude.{◌≡◌, ◌+◌, ◌≤ℤ◌, [], ◌∷◌, length, IfOk};
ghost use Rattle.tap_rows.specs.Kept.{Each};
ghost use Rattle.tap_rows.specs.Tables.{after};
ghost use Rattle.tap_rows.specs.declared.change.Change.TheVariants.{Docs};
ghost use Rattle.tap_base.specs.Numbers.{IsMoment};

use little_box::LittleBox;
use row_index::RowIndex;
use std::alloc::Global;
use tap_base::{DocNum, Memory, MessageWords, SharedText, Text, Texts};
use tap_rows::{Doc, Entry, Fields, KeptDoc};

/// Returns a document without a text.
pub fn blank_doc(alloc: Global, num: u32, arrival: i64) -> Result<KeptDoc, Memory>
    ensures { IfOk result (λ doc.
        doc ≡ record { num = record { 0 = num }; arrival = arrival; text = [] }) }
{
    let doc = Doc {
        num: DocNum(num),
        arrival,
        text: SharedText::of(alloc, Text::new(alloc))?,
    };
    let fields = Fields {
        date: None,
        from: None,
        subject: None,
        msgid: None,
        inreplyto: None,
        to: Texts::new(alloc),
        cc: Texts::new(alloc),
        newsgroups: Texts::new(alloc),
        references: Texts::new(alloc),
        words: MessageWords::of(Text::new(alloc), doc.text.copy()?, 0),
        size: 0,
    };
    Ok(KeptDoc::new(doc, fields))
}

/// Returns the index with a further document.
pub fn with_doc(index: RowIndex, doc: KeptDoc) -> Result<RowIndex, Memory>
    requires number { doc.num.0 ≡ length index.docs + 1 }
    requires moment { IsMoment doc.arrival }
    requires after { Each (λ other. other.arrival ≤ℤ doc.arrival) index.docs }
    ensures { IfOk result (λ new. new ≡ after index (Docs (doc ∷ []))) }
{
    let mut index = index;
    match index.add_doc(doc) {
        Ok(()) => Ok(index),
        Err(Memory) => {
            drop(index);
            Err(Memory)
        }
    }
}

/// Returns two documents of second 100.
pub fn two_docs(alloc: Global) -> Result<RowIndex, Memory> {
    let one = with_doc(RowIndex::new(alloc), blank_doc(alloc, 1, 100)?)?;
    with_doc(one, blank_doc(alloc, 2, 100)?)
}

/// Returns a box with the second document.
pub fn second_seen(alloc: Global) -> Result<LittleBox, Memory> {
    let mut seen = LittleBox::new(alloc);
    let entry = Entry {
        doc: DocNum(2),
        first: 105,
        run: 1,
    };
    match seen.add(entry) {
        Ok(()) => Ok(seen),
        Err(Memory) => {
            drop(seen);
            Err(Memory)
        }
    }
}

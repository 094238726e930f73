//! The places of documents by their texts, dates and sizes.

ghost use Rattle.std.specs.Prelude.{◌≡◌, ◌<◌, ◌-◌, List, [], ◌∷◌, ◌++◌, length, take};
ghost use Rattle.std.specs.Prelude.{pos, IfOk, OnOk, OnErr};
ghost use Rattle.tap_rows.specs.declared.rows.Doc.{Doc};
ghost use Rattle.row_index.specs.Orders.{InPlace, doc_number, doc_arrival};
ghost use Rattle.row_index.specs.Posts.{IsFreePlace};
ghost use Rattle.row_index.specs.Texts.{IsNext, words_in, list_of};
ghost use Rattle.row_index.specs.Held.{DocPosts, NumberPosts};
ghost use Rattle.row_index.specs.declared.text_kind.TextKind.TheVariants.{Word};
ghost use Rattle.tap_rows.specs.Fields.{fields};

use crate::dates::Dates;
use crate::doc_texts::{DocTexts, fields_in};
use crate::number_places::NumberPlaces;
use std::alloc::Global;
use tap_base::{HashKey, Memory, MessageWords};
use tap_rows::KeptDoc;

/// The indexes of documents, by text, by date and by size.
#[derive(Drop)]
pub(crate) struct DocPlaces {
    pub(crate) texts: DocTexts,
    pub(crate) dates: Dates,
    pub(crate) sizes: NumberPlaces,
}

// Returns the size of the document, in bytes.
fn size_of(doc: &KeptDoc) -> i64
    ensures { result ≡ pos (fields doc.now).size }
{
    i64::from(fields_in(doc).size)
}

// Adds the document's date and size, at the place after those of `docs`. After an error the
// documents are found as before.
fn add_numbers(
    dates: &mut Dates,
    sizes: &mut NumberPlaces,
    doc: &KeptDoc,
    place: u32,
) -> Result<(), Memory>
    ensures ok { OnOk result ((docs : List Doc) → IsNext docs doc.now place
        → NumberPosts docs dates.old sizes.old
        → NumberPosts (docs ++ doc.now ∷ []) dates.new sizes.new) }
    ensures err { OnErr result ((docs : List Doc) → IsNext docs doc.now place
        → NumberPosts docs dates.old sizes.old → NumberPosts docs dates.new sizes.new) }
{
    let size = size_of(doc);
    sizes.add(size, place)?;
    match dates.add(doc, place) {
        Ok(()) => Ok(()),
        Err(Memory) => {
            sizes.forget(size, place);
            Err(Memory)
        }
    }
}

impl DocPlaces {
    /// Returns indexes of no documents, which hash texts under this key.
    pub(crate) fn new(alloc: Global, key: HashKey) -> DocPlaces
        ensures { DocPosts [] result }
    {
        DocPlaces {
            texts: DocTexts::new(alloc, key),
            dates: Dates::new(alloc),
            sizes: NumberPlaces::new(alloc, key),
        }
    }

    /// Adds the document at the place after those of `docs`, and returns its words, whose places
    /// are known then. After an error the documents are found as before.
    pub(crate) fn add(&mut self, doc: &KeptDoc, place: u32) -> Result<MessageWords, Memory>
        requires { IsFreePlace place (list_of Word self.old.texts) }
        ensures words { IfOk result (λ words. words ≡ words_in doc.now) }
        ensures ok { OnOk result ((docs : List Doc) → IsNext docs doc.now place
            → DocPosts docs self.old → DocPosts (docs ++ doc.now ∷ []) self.new) }
        ensures err { OnErr result ((docs : List Doc) → IsNext docs doc.now place
            → DocPosts docs self.old → DocPosts docs self.new) }
    {
        let words = self.texts.add(doc, place)?;
        match add_numbers(&mut self.dates, &mut self.sizes, doc, place) {
            Ok(()) => Ok(words),
            Err(Memory) => {
                drop(words);
                self.texts.cut(place);
                Err(Memory)
            }
        }
    }
}

// Removes the last document, its date and its size.
fn cut_last(docs: &mut Vec<KeptDoc>, dates: &mut Dates, sizes: &mut NumberPlaces)
    requires some { 0 < length docs.old.items }
    requires stand { InPlace doc_number doc_arrival docs.old.items }
    requires numbers { NumberPosts docs.old.items dates.old sizes.old }
    ensures docs { docs.new.items ≡ take (length docs.old.items - 1) docs.old.items }
    ensures stand { InPlace doc_number doc_arrival docs.new.items }
    ensures numbers { NumberPosts docs.new.items dates.new sizes.new }
{
    if let Some(doc) = docs.pop() {
        let place = docs.len() as u32;
        dates.forget(&doc, place);
        sizes.forget(size_of(&doc), place);
        drop(doc);
    }
}

// Removes the documents after the first `len`, their dates and their sizes.
fn cut_numbers(docs: &mut Vec<KeptDoc>, dates: &mut Dates, sizes: &mut NumberPlaces, len: usize)
    requires stand { InPlace doc_number doc_arrival docs.old.items }
    requires numbers { NumberPosts docs.old.items dates.old sizes.old }
    ensures docs { docs.new.items ≡ take len docs.old.items }
    ensures stand { InPlace doc_number doc_arrival docs.new.items }
    ensures numbers { NumberPosts docs.new.items dates.new sizes.new }
{
    'docs: while docs.len() > len {
        cut_last(docs, dates, sizes);
    }
}

/// Removes the documents after the first `len`, and what finds them. It takes no memory.
pub(crate) fn cut_docs(docs: &mut Vec<KeptDoc>, places: &mut DocPlaces, len: usize)
    requires stand { InPlace doc_number doc_arrival docs.old.items }
    requires found { DocPosts docs.old.items places.old }
    ensures docs { docs.new.items ≡ take len docs.old.items }
    ensures stand { InPlace doc_number doc_arrival docs.new.items }
    ensures found { DocPosts docs.new.items places.new }
{
    if len < docs.len() {
        cut_numbers(docs, &mut places.dates, &mut places.sizes, len);
        places.texts.cut(len as u32);
    }
}

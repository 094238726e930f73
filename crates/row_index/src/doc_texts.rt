//! The places of documents by their texts.

ghost use Rattle.std.specs.Prelude.{◌≡◌, ◌≢◌, ◌+◌, List, [], ◌∷◌, ◌++◌, length, IfOk};
ghost use Rattle.std.specs.Prelude.{OnOk, OnErr};
ghost use Rattle.tap_rows.specs.declared.rows.Doc.{Doc};
ghost use Rattle.tap_rows.specs.Fields.{fields};
ghost use Rattle.row_index.specs.declared.text_kind.TextKind.TheVariants.{Word};
ghost use Rattle.row_index.specs.Orders.{doc_number};
ghost use Rattle.row_index.specs.Posts.{places_of, posted_all, IsPartlyPosted, IsFreePlace};
ghost use Rattle.row_index.specs.Texts.{IsNext, TextPosts, IsPosted, IsPartly, ArePosted, IsCut};
ghost use Rattle.row_index.specs.Texts.{with_text, texts_of, words_in, field_texts, list_of};
ghost use Rattle.std.specs.Str.{bytes_eq};

use crate::postings::Postings;
use crate::text_kind::TextKind;
use std::alloc::Global;
use tap_base::{HashKey, Memory, MessageWords};
use tap_rows::{Fields, KeptDoc};

/// How many kinds of texts there are.
const KINDS: usize = 9;

/// The places of documents by their texts of each kind, in the order of the kinds.
#[derive(Drop)]
pub(crate) struct DocTexts {
    lists: [Postings; KINDS],
}

// Returns the fields of a document.
#[tactic(auto, unfolding(tap_rows::specs::Fields::fields))]
pub(crate) fn fields_in(doc: &KeptDoc) -> &Fields
    ensures { result.now ≡ fields doc.now }
{
    doc.fields()
}

// Puts the place under each text of the fields of this kind. After `Memory` it is under the first
// few of them. The words have a way of their own.
fn add_texts(list: &mut Postings, kind: TextKind, fields: &Fields, place: u32) -> Result<(), Memory>
    requires { kind ≢ Word }
    ensures ok { OnOk result
        (list.new ≡ posted_all bytes_eq (field_texts kind fields.now) place list.old) }
    ensures err { OnErr result
        (IsPartlyPosted (field_texts kind fields.now) place list.old list.new) }
{
    match kind {
        TextKind::MsgId => list.add_some(&fields.msgid, place),
        TextKind::Parent => list.add_some(&fields.inreplyto, place),
        TextKind::Sender => list.add_some(&fields.from, place),
        TextKind::Subject => list.add_some(&fields.subject, place),
        TextKind::Reference => list.add_all(fields.references.as_slice(), place),
        TextKind::To => list.add_all(fields.to.as_slice(), place),
        TextKind::Cc => list.add_all(fields.cc.as_slice(), place),
        TextKind::Newsgroups => list.add_all(fields.newsgroups.as_slice(), place),
        TextKind::Word => Ok(()),
    }
}

impl DocTexts {
    /// Returns an index of no texts, which hashes them under this key.
    pub(crate) fn new(alloc: Global, key: HashKey) -> DocTexts
        ensures { TextPosts [] result }
    {
        DocTexts {
            lists: [
                Postings::new(alloc, key),
                Postings::new(alloc, key),
                Postings::new(alloc, key),
                Postings::new(alloc, key),
                Postings::new(alloc, key),
                Postings::new(alloc, key),
                Postings::new(alloc, key),
                Postings::new(alloc, key),
                Postings::new(alloc, key),
            ],
        }
    }

    /// Returns the places of the documents that have the text, by one look-up.
    pub(crate) fn under(&self, kind: TextKind, text: &[u8]) -> &[u32]
        ensures { (docs : List Doc) → TextPosts docs self.now
            → result.now ≡ places_of doc_number (with_text (texts_of kind) text.now docs) }
    {
        self.lists[kind.place()].under(text)
    }

    // Puts the place under each text of the fields but the words. After `Memory` it is under some
    // of them.
    fn put_fields(&mut self, fields: &Fields, place: u32) -> Result<(), Memory>
        ensures ok { OnOk result (ArePosted 8 fields.now place self.old self.new) }
        ensures err { OnErr result (IsPartly fields.now place self.old self.new) }
        ensures lists { length self.new.lists ≡ 9 }
    {
        for at in 0..KINDS - 1 {
            add_texts(&mut self.lists[at], TextKind::from_place(at), fields, place)?;
        }
        Ok(())
    }

    // Puts the place under each text of the document, and returns its words, whose places are known
    // then. After `Memory` it is under some of the texts.
    fn put(&mut self, doc: &KeptDoc, place: u32) -> Result<MessageWords, Memory>
        requires { IsFreePlace place (list_of Word self.old) }
        ensures ok { OnOk result (IsPosted (fields doc.now) place self.old self.new) }
        ensures err { OnErr result (IsPartly (fields doc.now) place self.old self.new) }
        ensures words { IfOk result (λ words. words ≡ words_in doc.now) }
    {
        let fields = fields_in(doc);
        self.put_fields(fields, place)?;
        self.lists[KINDS - 1].add_message(&fields.words, place)
    }

    /// Removes the documents from place `len` on from under their texts. It looks at each text of
    /// the index once.
    pub(crate) fn cut(&mut self, len: u32)
        ensures { IsCut len self.old self.new }
    {
        for at in 0..KINDS {
            self.lists[at].cut(len);
        }
    }

    /// Adds the document under its texts, at the place after those of `docs`, and returns its
    /// words, whose places are known then. After an error the documents are found as before.
    pub(crate) fn add(&mut self, doc: &KeptDoc, place: u32) -> Result<MessageWords, Memory>
        requires { IsFreePlace place (list_of Word self.old) }
        ensures words { IfOk result (λ words. words ≡ words_in doc.now) }
        ensures ok { OnOk result ((docs : List Doc) → IsNext docs doc.now place
            → TextPosts docs self.old → TextPosts (docs ++ doc.now ∷ []) self.new) }
        ensures err { OnErr result ((docs : List Doc) → IsNext docs doc.now place
            → TextPosts docs self.old → TextPosts docs self.new) }
    {
        let done = self.put(doc, place);
        if done.is_err() {
            self.cut(place);
        }
        done
    }
}

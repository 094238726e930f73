//! Posting lists: the places of rows under a text of theirs.

ghost use Rattle.std.specs.Prelude.{◌≡◌, ◌<◌, ◌++◌, ◌∷◌, [], false, not, length, option_to_list};
ghost use Rattle.std.specs.Prelude.{IfOk, OnOk, OnErr};
ghost use Rattle.std.specs.Str.{bytes_eq};
ghost use Rattle.tap_base.specs.FirstPlaces.{HoldSameTexts};
ghost use Rattle.row_index.specs.Posts.{posted_all, noted_then, IsPartlyPosted, IsFreePlace};
ghost use Rattle.row_index.specs.Places.{under, ends_with, posted, unposted, is_used_key};
ghost use Rattle.row_index.specs.Places.{cut_at, cut_all};

use crate::places::{cut_places, drop_place, put_place};
use indexmap::IndexMap;
use std::alloc::Global;
use std::marker::Model;
use tap_base::{HashKey, Memory, MessageWords, Text, TextBytes, WordReader};

/// The places under each text, in order.
#[derive(Drop)]
pub(crate) struct Postings {
    places: IndexMap<Text, Vec<u32>, HashKey>,
    alloc: Global,
}

impl Model for Postings {
    ghost use Rattle.std.specs.Prelude.{ℕ, List, map};

    ghost Value = { List (List ℕ × List ℕ) };

    ghost view = { λ p. map (λ e. (e.0, e.1.items)) p.places.entries };
}

impl Postings {
    /// Returns an index of no texts, which hashes them under this key.
    pub(crate) fn new(alloc: Global, key: HashKey) -> Postings
        ensures { result ≡ [] }
    {
        Postings {
            places: IndexMap::with_hasher(alloc, key),
            alloc,
        }
    }

    /// Returns the places under the text, by one look-up.
    pub(crate) fn under(&self, key: &[u8]) -> &[u32]
        ensures { result.now ≡ under bytes_eq key.now self.now }
    {
        match self.places.get(TextBytes(key)) {
            Some(places) => places.as_slice(),
            None => &[],
        }
    }

    // Puts the first place under a text.
    fn begin(&mut self, key: &[u8], place: u32) -> Result<(), Memory>
        requires { is_used_key bytes_eq key.now self.old ≡ false }
        ensures ok { OnOk result (self.new ≡ posted bytes_eq key.now place self.old) }
        ensures err { OnErr result (self.new ≡ self.old) }
    {
        let mut places = Vec::new(self.alloc);
        places.push(place)?;
        self.places
            .insert(Text::from_slice(self.alloc, key)?, places)?;
        Ok(())
    }

    /// Puts the place under the text, and returns whether it wasn't the last one there. After an
    /// error nothing has changed.
    pub(crate) fn add(&mut self, key: &[u8], place: u32) -> Result<bool, Memory>
        ensures new { IfOk result (λ new.
            new ≡ not (ends_with place (under bytes_eq key.now self.old))) }
        ensures ok { OnOk result (self.new ≡ posted bytes_eq key.now place self.old) }
        ensures err { OnErr result (self.new ≡ self.old) }
    {
        match self.places.get_mut(TextBytes(key)) {
            Some(places) => put_place(places, place),
            None => {
                self.begin(key, place)?;
                Ok(true)
            }
        }
    }

    /// Puts the place under each of the texts. After `Memory` it is under the first few of them.
    pub(crate) fn add_all(&mut self, keys: &[Text], place: u32) -> Result<(), Memory>
        ensures ok { OnOk result (self.new ≡ posted_all bytes_eq keys.now place self.old) }
        ensures err { OnErr result (IsPartlyPosted keys.now place self.old self.new) }
    {
        for key in keys {
            self.add(key.as_slice(), place)?;
        }
        Ok(())
    }

    // Puts the place under the word that was read last, and notes the word if the place wasn't the
    // last one there. After `Memory` the place may be there, and the word isn't noted.
    fn add_word(&mut self, reader: &mut WordReader, place: u32) -> Result<(), Memory>
        requires { 0 < length reader.old.word }
        ensures ok { OnOk result
            (self.new ≡ posted bytes_eq reader.old.word place self.old) }
        ensures noted { OnOk result
            (reader.new.noted ≡ noted_then place reader.old.word self.old reader.old.noted) }
        ensures err { OnErr result
            (IsPartlyPosted (reader.old.word ∷ []) place self.old self.new) }
        ensures left { reader.new.left ≡ reader.old.left }
        ensures words { reader.new.words ≡ reader.old.words }
    {
        let new = self.add(reader.word(), place)?;
        if new {
            return reader.note();
        }
        Ok(())
    }

    // Puts the place under each word that is left to be read, and notes those that the message
    // hasn't had before: a word that it had has the place as its last one. So each word is looked
    // up once, whenever it comes. After `Memory` the place is under the first few words.
    fn add_words(&mut self, reader: &mut WordReader, place: u32) -> Result<(), Memory>
        ensures ok { OnOk result (self.new ≡ posted_all bytes_eq reader.old.left place self.old) }
        ensures err { OnErr result (IsPartlyPosted reader.old.left place self.old self.new) }
        ensures noted { OnOk result (IsFreePlace place self.old
            → HoldSameTexts reader.new.noted (reader.old.noted ++ reader.old.left)) }
        ensures words { reader.new.words ≡ reader.old.words }
    {
        'words: while reader.advance() {
            self.add_word(reader, place)?;
        }
        Ok(())
    }

    /// Puts the place under each of the words, and returns them, with their places in the text.
    /// After `Memory` the place is under the first few of them.
    pub(crate) fn add_message(
        &mut self,
        words: &MessageWords,
        place: u32,
    ) -> Result<MessageWords, Memory>
        requires { IsFreePlace place self.old }
        ensures ok { OnOk result (self.new ≡ posted_all bytes_eq words.now place self.old) }
        ensures err { OnErr result (IsPartlyPosted words.now place self.old self.new) }
        ensures words { IfOk result (λ all. all ≡ words.now) }
    {
        let mut reader = words.read(self.alloc)?;
        match self.add_words(&mut reader, place) {
            Ok(()) => Ok(reader.into_words()),
            Err(Memory) => {
                drop(reader);
                Err(Memory)
            }
        }
    }

    /// Puts the place under the text, if there is one.
    pub(crate) fn add_some(&mut self, key: &Option<Text>, place: u32) -> Result<(), Memory>
        ensures ok { OnOk result
            (self.new ≡ posted_all bytes_eq (option_to_list key.now) place self.old) }
        ensures err { OnErr result
            (IsPartlyPosted (option_to_list key.now) place self.old self.new) }
    {
        match key {
            Some(key) => {
                self.add(key.as_slice(), place)?;
                Ok(())
            }
            None => Ok(()),
        }
    }

    /// Removes the place from under the text, if it is the last one there.
    pub(crate) fn forget(&mut self, key: &[u8], place: u32)
        ensures { self.new ≡ unposted bytes_eq key.now place self.old }
    {
        if let Some(places) = self.places.get_mut(TextBytes(key)) {
            drop_place(places, place);
        }
    }

    // Removes the places from `len` on from under the text of this place among the texts.
    fn cut_at(&mut self, at: usize, len: u32)
        ensures { self.new ≡ cut_at len at self.old }
    {
        if let Some(places) = self.places.get_index_mut(at) {
            cut_places(places, len);
        }
    }

    /// Removes the places from `len` on from under all texts. It looks at each text once.
    pub(crate) fn cut(&mut self, len: u32)
        ensures { self.new ≡ cut_all len self.old }
    {
        for at in 0..self.places.len() {
            self.cut_at(at, len);
        }
    }
}

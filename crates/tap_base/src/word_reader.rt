//! Reads the words of a message one by one.
ghost use Rattle.std.specs.Prelude.{◌≡◌, ◌≤◌, ◌<◌, ◌++◌, ◌∷◌, [], true, false, IfOk, OnOk, length};
ghost use Rattle.std.specs.Prelude.{drop};
ghost use Rattle.std.specs.Str.{str_to_ascii_lowercase};
ghost use Rattle.tap_base.specs.Words.{with_new, words_of_both, joined_text};
ghost use Rattle.tap_base.specs.FirstPlaces.{HoldSameTexts};

use crate::first_places::{FirstPlaces, tag};
use crate::words::first_word;
use crate::{Memory, MessageWords, SharedText, Text};
use std::alloc::Global;
use std::cmp::min;
use std::marker::Model;

// Of how many bytes of a message one distinct word is expected, and for how many words room is
// taken at once, at most.
const BYTES_A_WORD: usize = 7;

const ROOM_LIMIT: usize = 4_096;

/// Reads the words of a message, with each that comes again, lowered. Whoever reads them notes
/// those that are new; then the places of these tell where the distinct words are.
#[derive(Drop)]
pub struct WordReader {
    subject: Text,
    text: SharedText,
    body: usize,
    // The subject, an LF and the body, lowered.
    lowered: Text,
    // The last word is from `start` to `end`, and the words that are left from `next` on.
    start: usize,
    end: usize,
    next: usize,
    firsts: FirstPlaces,
}

impl Model for WordReader {
    ghost use Rattle.std.specs.Prelude.{take, drop, ◌-◌};
    ghost use Rattle.tap_base.specs.Words.{words, words_of_both};
    ghost use Rattle.tap_base.specs.FirstPlaces.{WordsRead, IsReading, words_at};

    ghost Value = { WordsRead };

    ghost view = { λ r. record {
      words = words_of_both r.subject (drop r.body r.text);
      left = words (drop r.next r.lowered);
      word = take (r.end - r.start) (drop r.start r.lowered);
      noted = words_at r.lowered r.firsts.firsts;
    } };

    ghost invariant = { λ r.
        IsReading r.subject r.text r.body r.lowered r.start r.end r.next r.firsts };
}

// Returns the two texts with an LF between them.
fn joined(alloc: Global, front: &[u8], back: &[u8]) -> Result<Vec<u8>, Memory>
    ensures { IfOk result (λ bytes. bytes.items ≡ joined_text front.now back.now) }
{
    let room = front.len().saturating_add(back.len()).saturating_add(1);
    let mut bytes = Vec::with_capacity(alloc, room)?;
    bytes.extend_from_slice(front)?;
    bytes.push(b'\n')?;
    bytes.extend_from_slice(back)?;
    Ok(bytes)
}

// Returns the bytes with A to Z lowered.
fn lowered(alloc: Global, bytes: Vec<u8>) -> Text
    ensures { result ≡ str_to_ascii_lowercase bytes.items }
{
    let mut bytes = bytes;
    bytes.make_ascii_lowercase();
    Text::from_vec(alloc, bytes)
}

impl WordReader {
    // Begins to read the words of a subject and of the text from `body` on.
    pub(crate) fn new(
        alloc: Global,
        subject: Text,
        text: SharedText,
        body: usize,
    ) -> Result<WordReader, Memory>
        requires { body ≤ length text }
        ensures words { IfOk result (λ reader.
            reader.words ≡ words_of_both subject (drop body text)) }
        ensures left { IfOk result (λ reader.
            with_new [] reader.left ≡ words_of_both subject (drop body text)) }
        ensures noted { IfOk result (λ reader. reader.noted ≡ []) }
    {
        let bytes = joined(alloc, subject.as_slice(), &text.as_slice()[body..])?;
        let firsts = FirstPlaces::with_room(alloc, min(bytes.len() / BYTES_A_WORD, ROOM_LIMIT))?;
        Ok(WordReader {
            subject,
            text,
            body,
            lowered: lowered(alloc, bytes),
            start: 0,
            end: 0,
            next: 0,
            firsts,
        })
    }

    /// Reads the next word, and returns whether there was one.
    pub fn advance(&mut self) -> bool
        ensures word { result ≡ true → self.old.left ≡ self.new.word ∷ self.new.left }
        ensures some { result ≡ true → 0 < length self.new.word }
        ensures end { result ≡ false → self.old.left ≡ [] }
        ensures noted { self.new.noted ≡ self.old.noted }
        ensures words { self.new.words ≡ self.old.words }
    {
        match first_word(&self.lowered.as_slice()[self.next..]) {
            None => false,
            Some(first) => {
                self.start = self.next + first.start;
                self.end = self.next + first.end;
                self.next += first.next;
                true
            }
        }
    }

    /// Returns the word that was read last.
    pub fn word(&self) -> &[u8]
        ensures { result.now ≡ self.now.word }
    {
        &self.lowered.as_slice()[self.start..self.end]
    }

    /// Notes the word that was read last. Fails with `Memory` when out of memory.
    pub fn note(&mut self) -> Result<(), Memory>
        requires { 0 < length self.old.word }
        ensures noted { OnOk result (self.new.noted ≡ self.old.noted ++ self.old.word ∷ []) }
        ensures left { self.new.left ≡ self.old.left }
        ensures words { self.new.words ≡ self.old.words }
    {
        let tag = tag(self.word());
        self.firsts.push(self.start, tag)
    }

    /// Returns the words, of which each has been noted. Whether a text is one of them is then seen
    /// at the places of those that were.
    pub fn into_words(self) -> MessageWords
        requires { HoldSameTexts self.noted self.words }
        ensures { result ≡ self.words }
    {
        let WordReader {
            subject,
            text,
            body,
            lowered: _,
            start: _,
            end: _,
            next: _,
            firsts,
        } = self;
        MessageWords::known(subject, text, body, firsts)
    }
}

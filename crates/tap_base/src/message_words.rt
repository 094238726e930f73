//! The words of a message.
ghost use Rattle.std.specs.Prelude.{◌≡◌, ◌≤◌, ◌++◌, ◌∷◌, [], ℕ, IfOk, length, drop};
ghost use Rattle.std.specs.Str.{bytes_eq, str_to_ascii_lowercase};
ghost use Rattle.tap_base.specs.Words.{words, has_text, with_new, word_from, words_of_both};
ghost use Rattle.tap_base.specs.Words.{joined_text};
ghost use Rattle.tap_base.specs.FirstPlaces.{words_at, HaveTags, AreWordsOf};

use crate::first_places::{FirstPlaces, tag};
use crate::word_reader::WordReader;
use crate::words::{first_word, word_len};
use crate::{HashKey, Memory, SharedText, Text, Texts, WordSet};
use std::alloc::Global;
use std::marker::Model;

/// The distinct words of a message, lowered, in order of first appearance: those of its subject,
/// then those of its body. No word is stored. They are read from the message's text, where each
/// distinct one comes first if a `WordReader` has found that out, and otherwise from the start.
#[derive(Drop)]
pub struct MessageWords {
    subject: Text,
    text: SharedText,
    // Where the body begins in the text. It goes to the text's end.
    body: usize,
    // Where the distinct words come first in the subject, an LF and the body, if that is known.
    firsts: Option<FirstPlaces>,
}

impl Model for MessageWords {
    ghost use Rattle.std.specs.Prelude.{ℕ, List, ◌≤◌, length, drop};
    ghost use Rattle.tap_base.specs.Words.{words_of_both, joined_text};
    ghost use Rattle.tap_base.specs.FirstPlaces.{KnowsWords};

    ghost Value = { List (List ℕ) };

    ghost view = { λ m. words_of_both m.subject (drop m.body m.text) };

    ghost invariant = { λ m. (m.body ≤ length m.text)
        × KnowsWords (joined_text m.subject (drop m.body m.text)) m.firsts };
}

// Returns whether the part is this word, once A to Z are lowered in it.
fn is_lowered(part: &[u8], word: &[u8]) -> bool
    ensures { result ≡ bytes_eq word.now (str_to_ascii_lowercase part.now) }
{
    if part.len() != word.len() {
        return false;
    }
    for (i, b) in part.iter().enumerate() {
        if word[i] != b.to_ascii_lowercase() {
            return false;
        }
    }
    true
}

// Returns whether a text has this word.
fn has_word(text: &[u8], word: &[u8]) -> bool
    ensures { result ≡ has_text (words text.now) word.now }
{
    let mut rest = text;
    'words: while let Some(first) = first_word(rest) {
        if is_lowered(&rest[first.start..first.end], word) {
            return true;
        }
        rest = &rest[first.next..];
    }
    false
}

// Returns whether a subject or a body has this word.
fn is_in_either(subject: &[u8], body: &[u8], word: &[u8]) -> bool
    ensures { result ≡ has_text (words_of_both subject.now body.now) word.now }
{
    if has_word(subject, word) {
        return true;
    }
    has_word(body, word)
}

// Returns what follows a place in the subject, an LF and the body, as far as a word there goes.
fn from_place<'a>(subject: &'a [u8], body: &'a [u8], at: usize) -> &'a [u8]
    ensures { word_from result.now 0 ≡ word_from (joined_text subject.now body.now) at }
{
    if at < subject.len() {
        &subject[at..]
    } else if at > subject.len() && at - subject.len() <= body.len() {
        &body[at - subject.len() - 1..]
    } else {
        &[]
    }
}

// Returns the bytes of the word at a place in the subject, an LF and the body.
fn word_at<'a>(subject: &'a [u8], body: &'a [u8], at: usize) -> &'a [u8]
    ensures { str_to_ascii_lowercase result.now ≡ word_from (joined_text subject.now body.now) at }
{
    let rest = from_place(subject, body, at);
    &rest[..word_len(rest)]
}

// Returns whether one of the words at these places in the subject, an LF and the body is this one.
// Its tag mostly tells.
fn is_at(subject: &[u8], body: &[u8], firsts: &FirstPlaces, word: &[u8]) -> bool
    requires { HaveTags (joined_text subject.now body.now) firsts.now.firsts }
    ensures { result
        ≡ has_text (words_at (joined_text subject.now body.now) firsts.now.firsts) word.now }
{
    let tag = tag(word);
    let mut rest = firsts.walk();
    'places: while let Some(at) = rest.next_with(tag) {
        if is_lowered(word_at(subject, body, at), word) {
            return true;
        }
    }
    false
}

impl MessageWords {
    pub fn of(subject: Text, text: SharedText, body: usize) -> MessageWords
        requires { body ≤ length text }
        ensures { result ≡ words_of_both subject (drop body text) }
    {
        MessageWords {
            subject,
            text,
            body,
            firsts: None,
        }
    }

    // Returns the same with the places where the distinct words come first.
    pub(crate) fn known(
        subject: Text,
        text: SharedText,
        body: usize,
        firsts: FirstPlaces,
    ) -> MessageWords
        requires within { body ≤ length text }
        requires firsts { AreWordsOf (joined_text subject (drop body text)) firsts.firsts }
        ensures { result ≡ words_of_both subject (drop body text) }
    {
        MessageWords {
            subject,
            text,
            body,
            firsts: Some(firsts),
        }
    }

    /// Returns whether this text is one of the words. Once their places are known, it looks at each
    /// distinct word at most, and mostly at its tag alone.
    pub fn holds(&self, text: &[u8]) -> bool
        ensures { result ≡ has_text self.now text.now }
    {
        let subject = self.subject.as_slice();
        let body = &self.text.as_slice()[self.body..];
        match &self.firsts {
            None => is_in_either(subject, body, text),
            Some(firsts) => is_at(subject, body, firsts, text),
        }
    }

    /// Begins to read the words, with each that comes again. Fails with `Memory` when out of
    /// memory.
    pub fn read(&self, alloc: Global) -> Result<WordReader, Memory>
        ensures words { IfOk result (λ reader. reader.words ≡ self.now) }
        ensures left { IfOk result (λ reader. with_new [] reader.left ≡ self.now) }
        ensures noted { IfOk result (λ reader. reader.noted ≡ []) }
    {
        WordReader::new(alloc, self.subject.copy()?, self.text.copy()?, self.body)
    }

    /// Returns the words as a list. They are looked up by their hashes under this key. Fails with
    /// `Memory` when out of memory.
    pub fn texts(&self, alloc: Global, key: HashKey) -> Result<Texts, Memory>
        ensures { IfOk result (λ texts. texts ≡ self.now) }
    {
        let mut set = WordSet::new(alloc, key);
        set.add(self.subject.as_slice())?;
        set.add(&self.text.as_slice()[self.body..])?;
        set.into_texts()
    }

    /// Returns a copy, which shares the text. Fails with `Memory` when out of memory.
    pub fn copy(&self) -> Result<MessageWords, Memory>
        ensures { IfOk result (λ copy. copy ≡ self.now) }
    {
        let firsts = match &self.firsts {
            None => None,
            Some(firsts) => Some(firsts.copy()?),
        };
        Ok(MessageWords {
            subject: self.subject.copy()?,
            text: self.text.copy()?,
            body: self.body,
            firsts,
        })
    }
}

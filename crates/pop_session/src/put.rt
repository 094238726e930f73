//! Puts replies into a sink.
ghost use Rattle.std.specs.Prelude.{◌++◌, Some, codes};
ghost use Rattle.tap_edges.specs.Puts.{PutBehind};
ghost use Rattle.pop_session.specs.Letters.{crlf_line, stuffed, sent_lines, letter_at, rows_from};
ghost use Rattle.pop_session.specs.Replies.{row_reply, text_reply, pop_reply_bytes};
ghost use Rattle.pop_session.specs.declared.reply.PopReply.TheVariants.{Rows};
ghost use Rattle.pop_session.specs.Sessions.{AreShort, IsWithinLimit};

use crate::buffer::{
    accepted_line, has_dot, head_line, number_line, one_row_line, refusal_line, row_line,
    sent_line, totals_line,
};
use crate::letter::{Letter, letter_at, size_of, total_size};
use crate::reply::{Listing, PopRefusal, PopReply};
use digest_mail::first_lined;
use tap_edges::{PutFailed, Sink, put_next};

// Puts a line of a letter: the bytes and the CRLF each by a call, so that no copy is made.
fn put_line<K: Sink>(sink: &mut K, start: usize, text: &[u8]) -> Result<usize, PutFailed>
    ensures { PutBehind K.Sink start (crlf_line text.now) sink.old sink.new result }
{
    match put_next(sink, start, text) {
        Ok(done) => put_next(sink, done, b"\r\n"),
        Err(failed) => Err(failed),
    }
}

// Puts a long line of a letter as it is sent, without a copy.
fn put_long_line<K: Sink>(sink: &mut K, start: usize, text: &[u8]) -> Result<usize, PutFailed>
    ensures { PutBehind K.Sink start (crlf_line (stuffed text.now)) sink.old sink.new result }
{
    if !has_dot(text) {
        return put_line(sink, start, text);
    }
    match put_next(sink, start, b".") {
        Ok(done) => put_line(sink, done, text),
        Err(failed) => Err(failed),
    }
}

// Puts a line of a letter as it is sent: a line that isn't long by one call.
fn put_stuffed<K: Sink>(sink: &mut K, start: usize, text: &[u8]) -> Result<usize, PutFailed>
    ensures { PutBehind K.Sink start (crlf_line (stuffed text.now)) sink.old sink.new result }
{
    if text.len() <= 1000 {
        put_next(sink, start, sent_line(text).as_slice())
    } else {
        put_long_line(sink, start, text)
    }
}

fn put_lines<K: Sink>(sink: &mut K, start: usize, text: &[u8]) -> Result<usize, PutFailed>
    ensures { PutBehind K.Sink start (sent_lines text.now) sink.old sink.new result }
{
    let mut done = start;
    let mut rest = text;
    'lines: while !rest.is_empty() {
        let first = first_lined(rest);
        done = match put_stuffed(sink, done, first.line) {
            Ok(done) => done,
            Err(failed) => return Err(failed),
        };
        rest = first.rest;
    }
    Ok(done)
}

// Puts the row of each letter.
fn put_rows<K: Sink>(
    sink: &mut K,
    start: usize,
    listing: Listing,
    letters: &[Letter],
) -> Result<usize, PutFailed>
    requires { AreShort letters.now }
    ensures { PutBehind K.Sink start (rows_from listing 1 letters.now) sink.old sink.new result }
{
    let mut done = start;
    for (i, letter) in letters.iter().enumerate() {
        done = match put_next(
            sink,
            done,
            row_line(listing, i as u64 + 1, letter).as_slice(),
        ) {
            Ok(done) => done,
            Err(failed) => return Err(failed),
        };
    }
    Ok(done)
}

// Puts the rows of all letters, and a line of one dot.
fn put_all_rows<K: Sink>(
    sink: &mut K,
    start: usize,
    listing: Listing,
    letters: &[Letter],
) -> Result<usize, PutFailed>
    requires { AreShort letters.now }
    ensures { PutBehind K.Sink start (rows_from listing 1 letters.now ++ crlf_line (codes "."))
        sink.old sink.new result }
{
    match put_rows(sink, start, listing, letters) {
        Ok(done) => put_line(sink, done, b"."),
        Err(failed) => Err(failed),
    }
}

// Puts the lines of a text, and a line of one dot.
fn put_all_lines<K: Sink>(sink: &mut K, start: usize, text: &[u8]) -> Result<usize, PutFailed>
    ensures { PutBehind K.Sink start (sent_lines text.now ++ crlf_line (codes "."))
        sink.old sink.new result }
{
    match put_lines(sink, start, text) {
        Ok(done) => put_line(sink, done, b"."),
        Err(failed) => Err(failed),
    }
}

// Puts the reply that is the row of a letter.
fn put_row<K: Sink>(
    sink: &mut K,
    start: usize,
    listing: Listing,
    number: u64,
    letters: &[Letter],
) -> Result<usize, PutFailed>
    requires { AreShort letters.now }
    ensures { PutBehind K.Sink start (row_reply listing number (letter_at letters.now number))
        sink.old sink.new result }
{
    match letter_at(letters, number) {
        None => put_next(sink, start, refusal_line(PopRefusal::NoMessage).as_slice()),
        Some(letter) => put_next(
            sink,
            start,
            one_row_line(listing, number, letter).as_slice(),
        ),
    }
}

// Puts the text of a letter: its size, its lines, and a line of one dot.
fn put_letter<K: Sink>(sink: &mut K, start: usize, letter: &Letter) -> Result<usize, PutFailed>
    requires { IsWithinLimit letter.now }
    ensures { PutBehind K.Sink start (text_reply (Some letter.now)) sink.old sink.new result }
{
    let text = letter.text.as_slice();
    match put_next(sink, start, number_line(size_of(text)).as_slice()) {
        Ok(done) => put_all_lines(sink, done, text),
        Err(failed) => Err(failed),
    }
}

// Puts the reply that is the text of a letter.
fn put_text<K: Sink>(
    sink: &mut K,
    start: usize,
    number: u64,
    letters: &[Letter],
) -> Result<usize, PutFailed>
    requires { AreShort letters.now }
    ensures { PutBehind K.Sink start (text_reply (letter_at letters.now number))
        sink.old sink.new result }
{
    match letter_at(letters, number) {
        None => put_next(sink, start, refusal_line(PopRefusal::NoMessage).as_slice()),
        Some(letter) => put_letter(sink, start, letter),
    }
}

// Puts the head and the rows of all letters.
fn put_list<K: Sink>(
    sink: &mut K,
    start: usize,
    listing: Listing,
    letters: &[Letter],
) -> Result<usize, PutFailed>
    requires { AreShort letters.now }
    ensures { PutBehind K.Sink start (pop_reply_bytes letters.now (Rows listing))
        sink.old sink.new result }
{
    match put_next(sink, start, head_line(listing, letters.len()).as_slice()) {
        Ok(done) => put_all_rows(sink, done, listing, letters),
        Err(failed) => Err(failed),
    }
}

/// Puts a reply behind `start` bytes, and returns how many bytes are put then. An error gives how
/// many bytes were put, with these `start`. It takes no memory.
pub(crate) fn put_reply<K: Sink>(
    sink: &mut K,
    start: usize,
    letters: &[Letter],
    reply: PopReply,
) -> Result<usize, PutFailed>
    requires { AreShort letters.now }
    ensures { PutBehind K.Sink start (pop_reply_bytes letters.now reply) sink.old sink.new result }
{
    match reply {
        PopReply::Accepted => put_next(sink, start, accepted_line().as_slice()),
        PopReply::Refused(refusal) => put_next(sink, start, refusal_line(refusal).as_slice()),
        PopReply::Totals => {
            let size = total_size(letters);
            put_next(sink, start, totals_line(letters.len(), size).as_slice())
        }
        PopReply::Rows(listing) => put_list(sink, start, listing, letters),
        PopReply::Row(listing, number) => put_row(sink, start, listing, number, letters),
        PopReply::Text(number) => put_text(sink, start, number, letters),
    }
}

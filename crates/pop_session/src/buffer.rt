//! Lines of replies in a buffer of fixed size, made without memory.
ghost use Rattle.std.specs.Prelude.{◌≡◌, ◌≤◌, ◌+◌, ◌++◌, List, ℕ, ◌==◌, slice_index, length, codes};
ghost use Rattle.std.specs.Fmt.{decimal};
ghost use Rattle.pop_session.specs.Sessions.{HasRowRoom, IsWithinLimit};
ghost use Rattle.arrayvec.specs.ArrayVec.{array_vec_len};
ghost use Rattle.pop_session.specs.Letters.{crlf_line, stuffed, size_of, row_text};
ghost use Rattle.pop_session.specs.Replies.{rows_head, pop_refusal_text};
ghost use Rattle.pop_session.specs.declared.reply.Listing.TheVariants.{Sizes, Ids};

use crate::letter::{Letter, size_of};
use crate::reply::{Listing, PopRefusal};
use arrayvec::ArrayVec;
use itoa::{Buffer, Integer};

// Appends bytes, for which there is room. A buffer of 128 bytes holds any line of a reply that is
// no letter's.
fn push_bytes(buffer: &mut ArrayVec<u8, 128>, bytes: &[u8])
    requires { array_vec_len buffer.old + length bytes.now ≤ 128 }
    ensures { buffer.new.items ≡ buffer.old.items ++ bytes.now }
{
    let _pushed = buffer.try_extend_from_slice(bytes);
}

// Appends the digits of a number. No integer has more than 40 bytes in decimal.
fn push_number<I: Integer>(buffer: &mut ArrayVec<u8, 128>, n: I)
    requires { array_vec_len buffer.old + 40 ≤ 128 }
    ensures bytes { buffer.new.items ≡ buffer.old.items ++ I.text n }
    ensures short { array_vec_len buffer.new ≤ array_vec_len buffer.old + 40 }
{
    let mut digits = Buffer::new();
    push_bytes(buffer, digits.format(n).as_bytes());
}

fn text_line(text: &[u8]) -> ArrayVec<u8, 128>
    requires { length text.now ≤ 20 }
    ensures { result.items ≡ crlf_line text.now }
{
    let mut buffer = ArrayVec::new();
    push_bytes(&mut buffer, text);
    push_bytes(&mut buffer, b"\r\n");
    buffer
}

pub(crate) fn greeting_line() -> ArrayVec<u8, 128>
    ensures { result.items ≡ crlf_line (codes "+OK tapestry") }
{
    text_line(b"+OK tapestry")
}

/// Returns the reply to a request that is accepted.
pub(crate) fn accepted_line() -> ArrayVec<u8, 128>
    ensures { result.items ≡ crlf_line (codes "+OK") }
{
    text_line(b"+OK")
}

pub(crate) fn refusal_line(refusal: PopRefusal) -> ArrayVec<u8, 128>
    ensures { result.items ≡ crlf_line (pop_refusal_text refusal) }
{
    match refusal {
        PopRefusal::Long => text_line(b"-ERR long"),
        PopRefusal::Unknown => text_line(b"-ERR unknown"),
        PopRefusal::State => text_line(b"-ERR state"),
        PopRefusal::Form => text_line(b"-ERR form"),
        PopRefusal::Denied => text_line(b"-ERR denied"),
        PopRefusal::Kept => text_line(b"-ERR kept"),
        PopRefusal::NoMessage => text_line(b"-ERR message"),
    }
}

/// Returns the reply of one number.
pub(crate) fn number_line(n: u64) -> ArrayVec<u8, 128>
    ensures { result.items ≡ crlf_line (codes "+OK " ++ decimal n) }
{
    let mut buffer = ArrayVec::new();
    push_bytes(&mut buffer, b"+OK ");
    push_number(&mut buffer, n);
    push_bytes(&mut buffer, b"\r\n");
    buffer
}

/// Returns the reply to STAT: the number of letters and their size.
pub(crate) fn totals_line(count: usize, size: u128) -> ArrayVec<u8, 128>
    ensures { result.items
        ≡ crlf_line (codes "+OK " ++ decimal count ++ codes " " ++ decimal size) }
{
    let mut buffer = ArrayVec::new();
    push_bytes(&mut buffer, b"+OK ");
    push_number(&mut buffer, count);
    push_bytes(&mut buffer, b" ");
    push_number(&mut buffer, size);
    push_bytes(&mut buffer, b"\r\n");
    buffer
}

/// Returns the line before the rows of all letters.
pub(crate) fn head_line(listing: Listing, count: usize) -> ArrayVec<u8, 128>
    ensures { result.items ≡ crlf_line (rows_head listing count) }
{
    match listing {
        Listing::Sizes => number_line(count as u64),
        Listing::Ids => accepted_line(),
    }
}

// Appends the row of a letter: its number, and its size.
fn push_size(buffer: &mut ArrayVec<u8, 128>, number: u64, letter: &Letter)
    requires room { HasRowRoom (array_vec_len buffer.old) }
    requires short { IsWithinLimit letter.now }
    ensures row { buffer.new.items ≡ buffer.old.items ++ row_text Sizes number letter.now }
    ensures short { array_vec_len buffer.new ≤ array_vec_len buffer.old + 81 }
{
    push_number(buffer, number);
    push_bytes(buffer, b" ");
    push_number(buffer, size_of(letter.text.as_slice()));
}

// Appends the row of a letter: its number, and its document's number.
fn push_id(buffer: &mut ArrayVec<u8, 128>, number: u64, letter: &Letter)
    requires room { HasRowRoom (array_vec_len buffer.old) }
    ensures row { buffer.new.items ≡ buffer.old.items ++ row_text Ids number letter.now }
    ensures short { array_vec_len buffer.new ≤ array_vec_len buffer.old + 82 }
{
    push_number(buffer, number);
    push_bytes(buffer, b" d");
    push_number(buffer, letter.doc.0);
}

// Appends the row of a letter.
fn push_row(buffer: &mut ArrayVec<u8, 128>, listing: Listing, number: u64, letter: &Letter)
    requires room { HasRowRoom (array_vec_len buffer.old) }
    requires short { IsWithinLimit letter.now }
    ensures row { buffer.new.items ≡ buffer.old.items ++ row_text listing number letter.now }
    ensures short { array_vec_len buffer.new ≤ array_vec_len buffer.old + 82 }
{
    match listing {
        Listing::Sizes => push_size(buffer, number, letter),
        Listing::Ids => push_id(buffer, number, letter),
    }
}

/// Returns the row of a letter in a list.
pub(crate) fn row_line(listing: Listing, number: u64, letter: &Letter) -> ArrayVec<u8, 128>
    requires { IsWithinLimit letter.now }
    ensures { result.items ≡ crlf_line (row_text listing number letter.now) }
{
    let mut buffer = ArrayVec::new();
    push_row(&mut buffer, listing, number, letter);
    push_bytes(&mut buffer, b"\r\n");
    buffer
}

/// Returns the reply that is the row of a letter.
pub(crate) fn one_row_line(listing: Listing, number: u64, letter: &Letter) -> ArrayVec<u8, 128>
    requires { IsWithinLimit letter.now }
    ensures { result.items ≡ crlf_line (codes "+OK " ++ row_text listing number letter.now) }
{
    let mut buffer = ArrayVec::new();
    push_bytes(&mut buffer, b"+OK ");
    push_row(&mut buffer, listing, number, letter);
    push_bytes(&mut buffer, b"\r\n");
    buffer
}

// Returns a line of a letter, after what comes before it.
fn line_after(front: &[u8], text: &[u8]) -> ArrayVec<u8, 1024>
    requires front { length front.now ≤ 1 }
    requires text { length text.now ≤ 1000 }
    ensures { result.items ≡ front.now ++ crlf_line text.now }
{
    let mut buffer = ArrayVec::new();
    let _front = buffer.try_extend_from_slice(front);
    let _text = buffer.try_extend_from_slice(text);
    let _end = buffer.try_extend_from_slice(b"\r\n");
    buffer
}

/// Returns whether a line begins with a dot.
pub(crate) fn has_dot(text: &[u8]) -> bool
    ensures { result ≡ (slice_index text.now 0 == 46) }
{
    text.first() == Some(&b'.')
}

/// Returns a line of a letter as it is sent: with one more dot before one that begins with a dot
/// (RFC 1939 3).
pub(crate) fn sent_line(text: &[u8]) -> ArrayVec<u8, 1024>
    requires { length text.now ≤ 1000 }
    ensures { result.items ≡ crlf_line (stuffed text.now) }
{
    if has_dot(text) {
        line_after(b".", text)
    } else {
        line_after(b"", text)
    }
}

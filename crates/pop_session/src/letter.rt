//! A letter of a mailbox.
ghost use Rattle.std.specs.Prelude.{◌≡◌, ◌≤◌, length};
ghost use Rattle.std.specs.List.{flat_map};
ghost use Rattle.mail_fields.specs.Digests.{lined};
ghost use Rattle.pop_session.specs.Letters.{crlf_line, size_of, total_size, letter_at};
ghost use Rattle.std.specs.Prelude.{option_copied};
ghost use Rattle.pop_session.specs.Sessions.{AreShort};

use digest_mail::first_lined;
use tap_base::{DocNum, Text};

/// A letter: the number of its document, and its text. Its number in a session is its place in the
/// list, from 1.
#[derive(Drop)]
pub struct Letter {
    pub doc: DocNum,
    pub text: Text,
}

/// Returns the size of a text: the bytes of its lines, each with CRLF (RFC 1939 11).
pub(crate) fn size_of(text: &[u8]) -> u64
    requires { length text.now ≤ 1048576 }
    ensures value { result ≡ size_of text.now }
    ensures short { result ≤ 3145728 }
{
    let mut size = 0u64;
    let mut rest = text;
    'lines: while !rest.is_empty() {
        let first = first_lined(rest);
        size += first.line.len() as u64 + 2;
        rest = first.rest;
    }
    size
}

/// Returns the size of all letters together.
pub(crate) fn total_size(letters: &[Letter]) -> u128
    requires { AreShort letters.now }
    ensures { result ≡ total_size letters.now }
{
    let mut total = 0u128;
    for letter in letters {
        total += size_of(letter.text.as_slice()) as u128;
    }
    total
}

/// Returns the letter of a number, from 1, if there is one.
pub(crate) fn letter_at(letters: &[Letter], number: u64) -> Option<&Letter>
    ensures { option_copied result ≡ letter_at letters.now number }
{
    if number == 0 {
        None
    } else {
        letters.get(number as usize - 1)
    }
}

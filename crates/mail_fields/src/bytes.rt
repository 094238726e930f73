//! Places of bytes and blanks.
ghost use Rattle.std.specs.Prelude.{◌≡◌, ◌≤◌, ◌-◌, ◌==◌, length};
ghost use Rattle.std.specs.List.{position_or_len, suffix_len};
ghost use Rattle.tap_base.specs.Bytes.{is_blank};
ghost use Rattle.tap_rows.specs.Headers.{trimmed, without_blank_end};

use memchr::memchr;
use tap_base::{is_blank_byte, skip_blanks};

// Returns how many bytes come before the first one that is `b`; all of them if there is none.
pub(crate) fn place_of(b: u8, bytes: &[u8]) -> usize
    ensures value { result ≡ position_or_len (λ x. x == b) bytes.now }
    ensures within { result ≤ length bytes.now }
{
    match memchr(b, bytes) {
        Some(place) => place,
        None => bytes.len(),
    }
}

// Returns how many bytes there are without the blanks at the end.
fn len_without_blank_end(bytes: &[u8]) -> usize
    ensures value { result ≡ length bytes.now - suffix_len is_blank bytes.now }
    ensures within { result ≤ length bytes.now }
{
    let mut len = bytes.len();
    while len > 0 && is_blank_byte(bytes[len - 1]) {
        len -= 1;
    }
    len
}

// Returns the bytes without the blanks at both ends.
pub(crate) fn trim(bytes: &[u8]) -> &[u8]
    ensures { result.now ≡ trimmed bytes.now }
{
    let rest = skip_blanks(bytes);
    &rest[..len_without_blank_end(rest)]
}

//! Names of users, queries, kinds and classes.
ghost use Rattle.std.specs.Prelude.{◌≡◌, ◌≤◌, length, slice_index, true};
ghost use Rattle.std.specs.List.{list_all};
ghost use Rattle.tap_base.specs.Names.{is_lower, is_name_byte, is_name};

// Returns whether a name may have this byte.
fn is_of_name(b: u8) -> bool
    ensures { result ≡ is_name_byte b }
{
    b.is_ascii_lowercase() || b.is_ascii_digit() || b == b'_' || b == b'-' || b == b'.'
}

// Returns whether a name may have each of these bytes.
fn all_of_name(text: &[u8]) -> bool
    ensures { result ≡ list_all is_name_byte text.now }
{
    text.iter().all(|b| is_of_name(*b))
}

// Returns whether the text begins with a lower-case letter.
fn begins_name(text: &[u8]) -> bool
    ensures { result ≡ is_lower (slice_index text.now 0) }
{
    match text.first() {
        Some(b) => b.is_ascii_lowercase(),
        None => false,
    }
}

/// Returns whether this is a name of a user, a query, a kind or a class. A name has 1 to 32 bytes:
/// first a lower-case letter, then lower-case letters, digits, `_`, `-` and `.`.
pub fn is_name(text: &[u8]) -> bool
    ensures { result ≡ is_name text.now }
{
    text.len() <= 32 && begins_name(text) && all_of_name(text)
}

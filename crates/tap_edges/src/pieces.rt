//! The pieces in which a program reads its input.
ghost use Rattle.std.specs.Prelude.{◌≡◌, ◌≤◌, drop, length, min};

/// The bytes that one read asks for at most.
pub const PIECE: usize = 65536;

/// Returns the smaller number.
pub fn least(a: usize, b: usize) -> usize
    ensures { result ≡ min a b }
{
    if a < b { a } else { b }
}

/// Returns the bytes after the first `n`.
pub fn rest_from(bytes: &[u8], n: usize) -> &[u8]
    requires { n ≤ length bytes.now }
    ensures { result.now ≡ drop n bytes.now }
{
    &bytes[n..]
}

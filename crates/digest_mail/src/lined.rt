//! The lines of a document's text.
ghost use Rattle.std.specs.Prelude.{◌≡◌, ◌<◌, ◌∷◌, length};
ghost use Rattle.tap_base.specs.Bytes.{IsNonEmpty};
ghost use Rattle.mail_fields.specs.Digests.{lined, without_returns};

use mail_lines::{FirstLine, first_line};

// Returns the line without all CRs at its end.
fn without_returns(line: &[u8]) -> &[u8]
    ensures { result.now ≡ without_returns line.now }
{
    let mut front = line;
    'returns: while let Some(rest) = front.strip_suffix(b"\r".as_slice()) {
        front = rest;
    }
    front
}

/// Returns the first line of a text that isn't empty, without its LF and without all CRs before it,
/// and the text after it. A last line without an LF has no CRs at its end either.
pub fn first_lined(text: &[u8]) -> FirstLine<'_>
    requires { IsNonEmpty text.now }
    ensures lines { lined text.now ≡ result.line.now ∷ lined result.rest.now }
    ensures shorter { length result.rest.now < length text.now }
{
    let first = first_line(text);
    FirstLine {
        line: without_returns(first.line),
        rest: first.rest,
    }
}

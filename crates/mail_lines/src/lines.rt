//! The lines of a text that is all there.
ghost use Rattle.std.specs.Prelude.{◌≡◌, ◌≤◌, ◌<◌, ◌+◌, ◌==◌, ◌∷◌, ℕ, length, take, drop};
ghost use Rattle.std.specs.Prelude.{IfSome, IfNone, OnSome, slice_index, if◌then◌else◌};
ghost use Rattle.std.specs.List.{position_or_len, slice_range};
ghost use Rattle.std.specs.Str.Lines.{lines, strip_carriage_return};
ghost use Rattle.tap_base.specs.Bytes.{IsNonEmpty, IsPlaceOrEnd, IsEndOf};
ghost use Rattle.mail_lines.specs.Lines.{is_end};

use memchr::memchr;

/// The place of a line in its text: its bytes are from `start` to `end`, and the next line begins
/// at `next`.
#[derive(Clone, Copy, Debug, PartialEq, Eq)]
pub struct LineAt {
    pub start: usize,
    pub end: usize,
    pub next: usize,
}

/// A line, and the text after it and its LF.
#[derive(Clone, Copy)]
pub struct FirstLine<'a> {
    pub line: &'a [u8],
    pub rest: &'a [u8],
}

// Returns how many bytes come before the first LF; all of them if there is none.
pub(crate) fn end_of_line(text: &[u8]) -> usize
    ensures value { result ≡ position_or_len is_end text.now }
    ensures within { result ≤ length text.now }
{
    match memchr(b'\n', text) {
        Some(end) => end,
        None => text.len(),
    }
}

// Returns how many bytes a line has without one CR at its end.
pub(crate) fn without_carriage_return(line: &[u8]) -> usize
    ensures value { take result line.now ≡ strip_carriage_return line.now }
    ensures within { result ≤ length line.now }
{
    if line.last() == Some(&b'\r') {
        line.len() - 1
    } else {
        line.len()
    }
}

/// Returns the place of the line from `at` on, without its LF and without a CR directly before that
/// LF. A last line without an LF has all its bytes. Returns `None` if and only if `at` is the end
/// of the text.
pub fn next_line(text: &[u8], at: usize) -> Option<LineAt>
    requires { IsPlaceOrEnd text.now at }
    ensures some { IfSome result (λ l.
        lines (drop at text.now)
        ≡ slice_range text.now l.start l.end ∷ lines (drop l.next text.now)) }
    ensures within { IfSome result (λ l.
        (l.start ≡ at) × (l.start ≤ l.end) × (l.end ≤ l.next) × (l.next ≤ length text.now)
        × (at < l.next)) }
    ensures none { IfNone result (at ≡ length text.now) }
{
    if at == text.len() {
        return None;
    }
    let rest = &text[at..];
    let len = end_of_line(rest);
    if len == rest.len() {
        return Some(LineAt {
            start: at,
            end: text.len(),
            next: text.len(),
        });
    }
    Some(LineAt {
        start: at,
        end: at + without_carriage_return(&rest[..len]),
        next: at + len + 1,
    })
}

/// Returns the first line of a text that isn't empty, without its LF and without a CR directly
/// before that LF, and the text after it. A last line without an LF has all its bytes.
pub fn first_line(text: &[u8]) -> FirstLine<'_>
    requires { IsNonEmpty text.now }
    ensures lines { lines text.now ≡ result.line.now ∷ lines result.rest.now }
    ensures shorter { length result.rest.now < length text.now }
    ensures end { IsEndOf result.rest.now text.now }
{
    let len = end_of_line(text);
    if len == text.len() {
        return FirstLine {
            line: text,
            rest: &[],
        };
    }
    let line = &text[..len];
    let end = without_carriage_return(line);
    FirstLine {
        line: &line[..end],
        rest: &text[len + 1..],
    }
}

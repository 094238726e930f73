//! Lines that show stored rows. They hold texts of any size, so they take memory.
ghost use Rattle.std.specs.Prelude.{◌≡◌, ◌++◌, OnOk, IfOk};
ghost use Rattle.std.specs.Fmt.{decimal, signed_decimal};
ghost use Rattle.script_lang.specs.Rows.{text_end, note_text, query_text};
ghost use Rattle.script_lang.specs.Replies.{moment_text};

use itoa::{Buffer, Integer};
use std::alloc::Global;
use tap_base::{Memory, Text};
use tap_rows::Note;

/// What a line shows of a query beside its name and its text: its arrival, the first second that it
/// covers, how many runs it had, the moment of the last one, and how many entries its box has.
/// Moments are seconds since 1970-01-01T00:00:00Z.
#[derive(Clone, Copy, Debug, PartialEq, Eq)]
pub struct QueryState {
    pub arrival: i64,
    pub start: i64,
    pub runs: usize,
    pub last: Option<i64>,
    pub boxed: u32,
}

// Appends the digits of a number.
fn push_digits<I: Integer>(line: &mut Text, n: I) -> Result<(), Memory>
    ensures { OnOk result (line.new ≡ line.old ++ I.text n) }
{
    let mut digits = Buffer::new();
    line.push_slice(digits.format(n).as_bytes())
}

// Appends the text at the end of a line, with a blank before it if it isn't empty.
fn push_end(line: &mut Text, text: &[u8]) -> Result<(), Memory>
    ensures { OnOk result (line.new ≡ line.old ++ text_end text.now) }
{
    if text.is_empty() {
        return Ok(());
    }
    line.push_slice(b" ")?;
    line.push_slice(text)
}

// Appends a moment, or `never`.
fn push_moment(line: &mut Text, moment: Option<i64>) -> Result<(), Memory>
    ensures { OnOk result (line.new ≡ line.old ++ moment_text moment) }
{
    match moment {
        Some(moment) => push_digits(line, moment),
        None => line.push_slice(b"never"),
    }
}

/// Returns the line, without its LF, that shows a note. `Memory` means out of memory.
pub fn note_line(alloc: Global, note: &Note) -> Result<Text, Memory>
    ensures { IfOk result (λ line. line ≡ note_text note.now) }
{
    let mut line = Text::from_slice(alloc, b"note ")?;
    push_digits(&mut line, note.num.0)?;
    line.push_slice(b" ts ")?;
    push_digits(&mut line, note.arrival)?;
    line.push_slice(b" author ")?;
    line.push_slice(note.author.as_slice())?;
    line.push_slice(b" kind ")?;
    line.push_slice(note.kind.as_slice())?;
    line.push_slice(b" value ")?;
    push_digits(&mut line, note.value)?;
    line.push_slice(b" text")?;
    push_end(&mut line, note.text.as_slice())?;
    Ok(line)
}

/// Returns the line, without its LF, that shows a query of this name and the text of its condition.
/// `Memory` means out of memory.
pub fn query_line(
    alloc: Global,
    name: &[u8],
    state: QueryState,
    text: &[u8],
) -> Result<Text, Memory>
    ensures { IfOk result (λ line. line ≡ query_text name.now state text.now) }
{
    let mut line = Text::from_slice(alloc, b"query ")?;
    line.push_slice(name)?;
    line.push_slice(b" ts ")?;
    push_digits(&mut line, state.arrival)?;
    line.push_slice(b" from ")?;
    push_digits(&mut line, state.start)?;
    line.push_slice(b" runs ")?;
    push_digits(&mut line, state.runs)?;
    line.push_slice(b" last ")?;
    push_moment(&mut line, state.last)?;
    line.push_slice(b" boxed ")?;
    push_digits(&mut line, state.boxed)?;
    line.push_slice(b" text")?;
    push_end(&mut line, text)?;
    Ok(line)
}

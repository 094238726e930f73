//! The messages of a mailbox file.
ghost use Rattle.std.specs.Prelude.{◌≡◌, ◌≤◌, ◌<◌, ◌++◌, ◌==◌, List, [], ℕ, true, false, length};
ghost use Rattle.std.specs.Prelude.{OnOk, OnErr, IfOk};
ghost use Rattle.std.specs.List.{prefix_len};
ghost use Rattle.std.specs.Str.Lines.{lines};
ghost use Rattle.mail_lines.specs.Mbox.{is_from_line, message_from, messages_from, quotes};
ghost use Rattle.mail_lines.specs.Mbox.{unquoted};
ghost use Rattle.mail_lines.specs.Mbox.{message_text, mbox_messages, at_message, written};

use crate::lines::first_line;
use std::alloc::Global;
use tap_base::{Memory, Text, Texts};

// Returns whether the line begins with `From `.
fn is_from(line: &[u8]) -> bool
    ensures { result ≡ is_from_line line.now }
{
    line.starts_with(b"From ".as_slice())
}

// Returns how many `>` stand at the line's start.
fn quotes_of(line: &[u8]) -> usize
    ensures value { result ≡ quotes line.now }
    ensures within { result ≤ length line.now }
{
    for (i, b) in line.iter().enumerate() {
        if *b != b'>' {
            return i;
        }
    }
    line.len()
}

// Returns the line without the `>` that quotes a `From `, if it has one.
fn unquote(line: &[u8]) -> &[u8]
    ensures { result.now ≡ unquoted line.now }
{
    let quotes = quotes_of(line);
    if quotes > 0 && is_from(&line[quotes..]) {
        &line[1..]
    } else {
        line
    }
}

// Appends a line, and before it the empty line that waits, if one does. An empty line waits until
// the next line shows that it isn't the last of its message, which is left out.
fn write_line(into: &mut Text, opens: bool, line: &[u8]) -> Result<(), Memory>
    ensures { OnOk result (into.new ≡ into.old ++ written opens line.now) }
{
    if opens {
        into.push_slice(b"\n")?;
    }
    write_filled(into, line)
}

// Appends a line and its LF, unless it is empty: then it waits.
fn write_filled(into: &mut Text, line: &[u8]) -> Result<(), Memory>
    ensures { OnOk result (into.new ≡ into.old ++ written false line.now) }
{
    if line.is_empty() {
        return Ok(());
    }
    into.push_slice(unquote(line))?;
    into.push_slice(b"\n")
}

fn next_message(text: &[u8]) -> &[u8]
    ensures same { messages_from true (lines result.now) ≡ messages_from true (lines text.now) }
    ensures start { at_message (lines result.now) ≡ true }
{
    let mut rest = text;
    let mut opens = true;
    'lead: while !rest.is_empty() {
        let first = first_line(rest);
        if opens && is_from(first.line) {
            return rest;
        }
        opens = first.line.is_empty();
        rest = first.rest;
    }
    rest
}

// Appends the text of the message at the start, and returns the text from the next message on.
fn take_message<'a>(into: &mut Text, text: &'a [u8]) -> Result<&'a [u8], Memory>
    ensures text { OnOk result
        (into.new ≡ into.old ++ message_text (message_from false (lines text.now))) }
    ensures same { IfOk result (λ rest.
        messages_from true (lines rest.now) ≡ messages_from false (lines text.now)) }
    ensures start { IfOk result (λ rest. at_message (lines rest.now) ≡ true) }
    ensures shorter { IfOk result (λ rest. length rest.now ≤ length text.now) }
{
    let mut rest = text;
    let mut opens = false;
    'message: while !rest.is_empty() {
        let first = first_line(rest);
        if opens && is_from(first.line) {
            return Ok(rest);
        }
        write_line(into, opens, first.line)?;
        opens = first.line.is_empty();
        rest = first.rest;
    }
    Ok(rest)
}

/// Returns the texts of the messages of a mailbox file in mbox form (RFC 4155). A message begins
/// after a line that begins with `From ` and is the first or follows an empty line; lines before
/// the first such line are left out. A last empty line of a message is left out, a line of one or
/// more `>` and then `From ` loses one `>`, and each line ends by LF. Fails with
/// `Memory` when out of memory.
pub fn cut_mbox(alloc: Global, text: &[u8]) -> Result<Texts, Memory>
    ensures { IfOk result (λ texts. texts ≡ mbox_messages text.now) }
{
    let mut texts = Texts::new(alloc);
    let mut rest = next_message(text);
    'messages: while !rest.is_empty() {
        let mut message = Text::new(alloc);
        rest = take_message(&mut message, first_line(rest).rest)?;
        texts.push(message)?;
    }
    Ok(texts)
}

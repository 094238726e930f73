//! The lines of a digest.
ghost use Rattle.std.specs.Prelude.{◌≡◌, ◌≤◌, ◌+◌, ◌++◌, ◌∷◌, [], map, length, drop, OnOk, IfOk};
ghost use Rattle.std.specs.Option.{option_copied};
ghost use Rattle.std.specs.List.{flat_map};
ghost use Rattle.std.specs.Fmt.{decimal, signed_decimal};
ghost use Rattle.mail_lines.specs.Mbox.{is_from_line, quotes};
ghost use Rattle.mail_fields.specs.Digests.{lined, from_quoted, from_line, subject_line};
ghost use Rattle.mail_fields.specs.Digests.{digested_lines, digested_with, digested, digest_lines};

use crate::lined::first_lined;
use itoa::{Buffer, Integer};
use row_index::RowIndex;
use std::alloc::Global;
use std::sync::ledger::Ledger;
use tap_base::{Memory, Steps, Text, Texts};
use tap_rows::{Entry, KeptDoc};

// Appends the digits of a number.
fn push_number<I: Integer>(line: &mut Text, n: I) -> Result<(), Memory>
    ensures { OnOk result (line.new ≡ line.old ++ I.text n) }
{
    let mut digits = Buffer::new();
    line.push_slice(digits.format(n).as_bytes())
}

// Returns the subject of a digest.
fn subject(alloc: Global, name: &[u8], ordinal: u32) -> Result<Text, Memory>
    ensures { IfOk result (λ line. line ≡ subject_line name.now ordinal) }
{
    let mut line = Text::from_slice(alloc, b"Subject: digest ")?;
    line.push_slice(name)?;
    line.push_slice(b" ")?;
    push_number(&mut line, ordinal)?;
    Ok(line)
}

// Returns the line before a document's lines.
fn from_of(alloc: Global, entry: Entry) -> Result<Text, Memory>
    ensures { IfOk result (λ line. line ≡ from_line entry.doc.0 entry.first) }
{
    let mut line = Text::from_slice(alloc, b"From doc ")?;
    push_number(&mut line, entry.doc.0)?;
    line.push_slice(b" first ")?;
    push_number(&mut line, entry.first)?;
    Ok(line)
}

// Returns whether the line is zero or more `>` and then `From `.
fn needs_quote(line: &[u8]) -> bool
    ensures { result ≡ is_from_line (drop (quotes line.now) line.now) }
{
    let mut rest = line;
    'quotes: while let Some(after) = rest.strip_prefix(b">".as_slice()) {
        rest = after;
    }
    rest.starts_with(b"From ".as_slice())
}

// Returns a line of a document as it stands in a digest.
fn quoted_line(alloc: Global, line: &[u8]) -> Result<Text, Memory>
    ensures { IfOk result (λ text. text ≡ from_quoted line.now) }
{
    if !needs_quote(line) {
        return Text::from_slice(alloc, line);
    }
    let mut text = Text::from_slice(alloc, b">")?;
    text.push_slice(line)?;
    Ok(text)
}

// Appends the lines of a document's text.
fn push_text(alloc: Global, lines: &mut Texts, text: &[u8]) -> Result<(), Memory>
    ensures { OnOk result (lines.new ≡ lines.old ++ map from_quoted (lined text.now)) }
{
    let mut rest = text;
    'lines: while !rest.is_empty() {
        let first = first_lined(rest);
        lines.push(quoted_line(alloc, first.line)?)?;
        rest = first.rest;
    }
    Ok(())
}

// Appends the lines of a document, whose text is given.
pub(crate) fn push_document(
    alloc: Global,
    lines: &mut Texts,
    entry: Entry,
    text: &[u8],
) -> Result<(), Memory>
    ensures { OnOk result (lines.new ≡ lines.old
        ++ digested_lines (record { doc = entry.doc.0; first = entry.first; text = text.now })) }
{
    lines.push(from_of(alloc, entry)?)?;
    push_text(alloc, lines, text)?;
    lines.push(Text::new(alloc))
}

// Appends the lines of an entry's document, if there is one.
fn push_entry(
    alloc: Global,
    lines: &mut Texts,
    entry: Entry,
    doc: Option<&KeptDoc>,
) -> Result<(), Memory>
    ensures { OnOk result (lines.new
        ≡ lines.old ++ flat_map digested_lines (digested_with entry (option_copied doc.entry))) }
{
    match doc {
        None => Ok(()),
        Some(doc) => push_document(alloc, lines, entry, doc.doc().text.as_slice()),
    }
}

// Returns the header of a digest, with the empty line that ends it.
pub(crate) fn header(alloc: Global, name: &[u8], ordinal: u32) -> Result<Texts, Memory>
    ensures { IfOk result (λ lines. lines ≡ digest_lines name.now ordinal []) }
{
    let mut lines = Texts::new(alloc);
    lines.push(Text::from_slice(alloc, b"From: tapestry")?)?;
    lines.push(subject(alloc, name, ordinal)?)?;
    lines.push(Text::new(alloc))?;
    Ok(lines)
}

/// Returns the lines, without their LFs, of a run's digest: a message (RFC 5322) that holds the
/// entries' documents in mbox form (RFC 4155), in the order of the entries. `ordinal` is the run's,
/// from 1. Each entry costs at most one step, for the look-up of its document. Fails with `Memory`
/// when out of memory.
pub fn digest<L: Ledger>(
    alloc: Global,
    name: &[u8],
    ordinal: u32,
    entries: &[Entry],
    index: &RowIndex,
    steps: &mut Steps<L>,
) -> Result<Texts, Memory>
    ensures lines { IfOk result (λ lines.
        lines ≡ digest_lines name.now ordinal (digested index.now.docs entries.now)) }
    ensures steps { steps.new ≤ steps.old + length entries.now }
    ensures more { steps.old ≤ steps.new }
{
    let mut lines = header(alloc, name, ordinal)?;
    for entry in entries {
        let doc = index.doc(entry.doc, steps);
        push_entry(alloc, &mut lines, *entry, doc)?;
    }
    Ok(lines)
}

//! The entries of a field's value.
ghost use Rattle.std.specs.Prelude.{◌≡◌, ◌≤◌, ◌<◌, ◌++◌, ◌∷◌, List, [], ℕ, false, length, drop};
ghost use Rattle.std.specs.Prelude.{take, OnOk, OnErr, IfOk};
ghost use Rattle.std.specs.List.{list_any, slice_split};
ghost use Rattle.tap_base.specs.Bytes.{is_blank};
ghost use Rattle.tap_rows.specs.Entries.{address_of, addresses_in};
ghost use Rattle.mail_fields.specs.Rests.{comma_place};
ghost use Rattle.mail_fields.specs.EntryEnds.{entries_by, entry_length};

use crate::bytes::{place_of, trim};
use std::alloc::Global;
use tap_base::{Memory, Texts, after_byte, blank_place, lower};

// What ends an entry of a field's value: a comma outside quotes, or a blank.
#[derive(Clone, Copy)]
pub(crate) enum EntryEnd {
    Comma,
    Blank,
}

// Returns the address of an entry: what is between `<` and `>`, or else what comes before a
// comment.
fn address(part: &[u8]) -> &[u8]
    ensures { result.now ≡ address_of part.now }
{
    let inner = after_byte(part, place_of(b'<', part));
    let end = place_of(b'>', inner);
    if end < inner.len() {
        &inner[..end]
    } else {
        trim(&part[..place_of(b'(', part)])
    }
}

// Appends the entry of this part, unless it is empty.
pub(crate) fn push_entry(alloc: Global, part: &[u8], into: &mut Texts) -> Result<(), Memory>
    ensures { OnOk result (into.new ≡ into.old ++ addresses_in (part.now ∷ [])) }
{
    let entry = lower(alloc, address(part))?;
    if entry.len() == 0 {
        return Ok(());
    }
    into.push(entry)
}

// Returns how many bytes come before the first comma outside quotes.
fn comma_len(value: &[u8]) -> usize
    ensures value { result ≡ comma_place false value.now }
    ensures within { result ≤ length value.now }
{
    let mut quoted = false;
    for (i, b) in value.iter().enumerate() {
        if *b == b'"' {
            quoted = !quoted;
        } else if *b == b',' && !quoted {
            return i;
        }
    }
    value.len()
}

// Returns how many bytes come before the end of the first entry.
fn entry_len(end: EntryEnd, value: &[u8]) -> usize
    ensures value { result ≡ entry_length end value.now }
    ensures within { result ≤ length value.now }
{
    match end {
        EntryEnd::Comma => comma_len(value),
        EntryEnd::Blank => blank_place(value),
    }
}

// Appends the entries of a value, such as a list of addresses or of references.
pub(crate) fn push_entries(
    alloc: Global,
    end: EntryEnd,
    value: &[u8],
    into: &mut Texts,
) -> Result<(), Memory>
    ensures { OnOk result (into.new ≡ into.old ++ entries_by end value.now) }
{
    let mut rest = value;
    'parts: while !rest.is_empty() {
        let len = entry_len(end, rest);
        push_entry(alloc, &rest[..len], into)?;
        rest = after_byte(rest, len);
    }
    Ok(())
}

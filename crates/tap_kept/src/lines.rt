//! Lines that show stored rows by what is in memory of them.

ghost use Rattle.std.specs.Prelude.{◌≡◌, ◌≤◌, ◌+◌, ◌++◌, ◌∷◌, [], map, length, OnOk, IfOk};
ghost use Rattle.script_lang.specs.Rows.{note_text};
ghost use Rattle.mail_fields.specs.Digests.{lined};

use crate::cached_query::CachedQuery;
use crate::text::text_of;
use digest_mail::first_lined;
use row_index::NoteWalk;
use script_lang::{note_line, query_line};
use std::alloc::Global;
use std::sync::ledger::Ledger;
use tap_base::{Memory, Steps, Text, Texts};

/// Gives the lines of a text, without their LFs and without the CRs at their ends.
pub fn text_lines(alloc: Global, text: &[u8]) -> Result<Texts, Memory>
    ensures { IfOk result (λ lines. lines ≡ lined text.now) }
{
    let mut lines = Texts::new(alloc);
    let mut rest = text;
    'lines: while !rest.is_empty() {
        let first = first_lined(rest);
        lines.push(Text::from_slice(alloc, first.line)?)?;
        rest = first.rest;
    }
    Ok(lines)
}

/// Gives a line for each note that a walk hands out, with one step for each.
pub fn note_lines<'a, L: Ledger>(
    alloc: Global,
    notes: NoteWalk<'a>,
    steps: &mut Steps<L>,
) -> Result<Texts, Memory>
    ensures lines { IfOk result (λ lines. lines ≡ map note_text notes.entry) }
    ensures steps { steps.new ≤ steps.old + length notes.entry }
{
    let mut notes = notes;
    let mut lines = Texts::new(alloc);
    'notes: while let Some(note) = notes.next(steps) {
        lines.push(note_line(alloc, note)?)?;
    }
    Ok(lines)
}

impl CachedQuery {
    ghost use Rattle.tap_kept.specs.Lines.{cached_line, owned_line};

    // Gives the line that shows the query.
    fn line(&self, alloc: Global) -> Result<Text, Memory>
        ensures { IfOk result (λ line. line ≡ cached_line self.now) }
    {
        let row = self.row.row();
        query_line(
            alloc,
            row.name.as_slice(),
            self.state(),
            text_of(row.source.as_slice()),
        )
    }

    // Appends the line that shows the query, if it is this user's.
    pub(crate) fn push_line(
        &self,
        alloc: Global,
        owner: &[u8],
        lines: &mut Texts,
    ) -> Result<(), Memory>
        ensures { OnOk result (lines.new ≡ lines.old ++ owned_line owner.now self.now) }
    {
        if self.row.row().owner.as_slice() == owner {
            lines.push(self.line(alloc)?)
        } else {
            Ok(())
        }
    }
}

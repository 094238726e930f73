//! The first damaged note.
ghost use Rattle.std.specs.Prelude.{◌≡◌, pos};
ghost use Rattle.tap_rows.specs.WellFormed.{has_arrived};
ghost use Rattle.restart_core.specs.Damages.{note_reason, notes_damage};

use crate::rows::{follows, row, row_damage};
use crate::{RestartFault, TableName, Why};
use tap_base::is_name;
use tap_rows::{Doc, Note};

// Had the document of this number arrived by this moment?
fn has_arrived(docs: &[Doc], num: u32, moment: i64) -> bool
    ensures { result ≡ has_arrived docs.now num moment }
{
    match row(docs, num) {
        Some(doc) => doc.arrival <= moment,
        None => false,
    }
}

// Returns why the note is damaged at this place, if it is.
fn reason(docs: &[Doc], place: usize, low: i64, note: &Note) -> Option<Why>
    ensures { result ≡ note_reason docs.now place low note.now }
{
    if note.num.0 as usize != place {
        Some(Why::Number)
    } else if !follows(low, note.arrival) {
        Some(Why::Moment)
    } else if !has_arrived(docs, note.doc.0, note.arrival) {
        Some(Why::Reference)
    } else if !is_name(note.author.as_slice()) || !is_name(note.kind.as_slice()) {
        Some(Why::Name)
    } else {
        None
    }
}

// Returns the first damaged note on these documents.
pub(crate) fn notes_damage(docs: &[Doc], notes: &[Note]) -> Option<RestartFault>
    ensures { result ≡ notes_damage docs.now 1 (pos 0) notes.now }
{
    let mut low = 0;
    for (i, note) in notes.iter().enumerate() {
        let damage = row_damage(TableName::Notes, i + 1, reason(docs, i + 1, low, note));
        if damage.is_some() {
            return damage;
        }
        low = note.arrival;
    }
    None
}

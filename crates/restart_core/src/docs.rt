//! The first damaged document.
ghost use Rattle.std.specs.Prelude.{◌≡◌, ◌<◌, ◌^◌, ◌+◌, pos, length};
ghost use Rattle.restart_core.specs.Damages.{doc_reason, docs_damage};

use crate::rows::{follows, row_damage};
use crate::{RestartFault, TableName, Why};
use tap_rows::{Doc, MESSAGE_LIMIT};

// Returns why the document is damaged at this place, if it is.
fn reason(place: usize, low: i64, doc: &Doc) -> Option<Why>
    ensures { result ≡ doc_reason place low doc.now }
{
    if doc.num.0 as usize != place {
        Some(Why::Number)
    } else if !follows(low, doc.arrival) {
        Some(Why::Moment)
    } else if doc.text.len() > MESSAGE_LIMIT {
        Some(Why::Text)
    } else {
        None
    }
}

// Returns the first damaged document.
pub(crate) fn docs_damage(docs: &[Doc]) -> Option<RestartFault>
    ensures { result ≡ docs_damage 1 (pos 0) docs.now }
{
    let mut low = 0;
    for (i, doc) in docs.iter().enumerate() {
        let damage = row_damage(TableName::Docs, i + 1, reason(i + 1, low, doc));
        if damage.is_some() {
            return damage;
        }
        low = doc.arrival;
    }
    None
}

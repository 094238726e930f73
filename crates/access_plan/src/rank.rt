//! Which access is preferred as the one by which a step of a path comes next.

ghost use Rattle.std.specs.Prelude.{◌≡◌};
ghost use Rattle.access_plan.specs.Ranks.{number_rank, text_rank, list_rank, access_rank};
ghost use Rattle.access_plan.specs.Ranks.{preferred, better};
ghost use Rattle.access_plan.specs.Views.{access_at, option_access};

use crate::AccessRef;
use tql_core::{ListField, NumField, TextField};

// Returns the rank of an access by a number.
fn number_rank(field: NumField) -> u8
    ensures { result ≡ number_rank field }
{
    match field {
        NumField::Id => 0,
        NumField::DocOf => 0,
        NumField::Value => 3,
        NumField::Size => 8,
    }
}

// Returns the rank of an access by a text.
fn text_rank(field: TextField) -> u8
    ensures { result ≡ text_rank field }
{
    match field {
        TextField::MsgId => 1,
        TextField::InReplyTo => 2,
        TextField::Subject => 5,
        TextField::From => 6,
        TextField::Author => 1,
        TextField::NoteText => 2,
        TextField::NoteKind => 4,
    }
}

// Returns the rank of an access by an entry of a list.
fn list_rank(list: ListField) -> u8
    ensures { result ≡ list_rank list }
{
    match list {
        ListField::References => 4,
        ListField::To => 7,
        ListField::Cc => 7,
        ListField::Newsgroups => 7,
        ListField::Words => 9,
    }
}

// Returns the rank of an access: the less, the fewer rows it mostly reaches.
fn access_rank(access: AccessRef) -> u8
    ensures { result ≡ access_rank (access_at access.entry) }
{
    match access {
        AccessRef::ByNumber(field, _) => number_rank(field),
        AccessRef::ByText(field, _) => text_rank(field),
        AccessRef::ByEach(_, _, _) => 3,
        AccessRef::ByEntry(list, _) => list_rank(list),
        AccessRef::Whole(_) => 10,
    }
}

// Returns of two accesses that of the lesser rank, of equal ones the first.
fn preferred<'a>(best: AccessRef<'a>, access: AccessRef<'a>) -> AccessRef<'a>
    ensures { access_at result ≡ preferred (access_at best.entry) (access_at access.entry) }
{
    if access_rank(access) < access_rank(best) {
        access
    } else {
        best
    }
}

/// Returns of two accesses that may be absent the one that is preferred.
pub(crate) fn better<'a>(
    best: Option<AccessRef<'a>>,
    access: Option<AccessRef<'a>>,
) -> Option<AccessRef<'a>>
    ensures { option_access result
        ≡ better (option_access best.entry) (option_access access.entry) }
{
    match access {
        None => best,
        Some(access) => match best {
            None => Some(access),
            Some(best) => Some(preferred(best, access)),
        },
    }
}

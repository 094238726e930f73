//! The kinds of texts by which documents are found.

ghost use Rattle.std.specs.Prelude.{◌≡◌};
ghost use Rattle.row_index.specs.Texts.{kind_at, kind_place};

/// A kind of text by which documents are found: the Message-ID, the In-Reply-To, the sender, the
/// Subject, an entry of the References, of To, of Cc (RFC 5322 3.6.2 to 3.6.5) or of Newsgroups
/// (RFC 5536 3.1.4), or a word.
#[derive(Clone, Copy, Debug, PartialEq, Eq)]
pub enum TextKind {
    MsgId,
    Parent,
    Sender,
    Subject,
    Reference,
    To,
    Cc,
    Newsgroups,
    Word,
}

impl TextKind {
    // Returns the place of the kind among all, from 0.
    pub(crate) fn place(self) -> usize
        ensures { result ≡ kind_place self }
    {
        match self {
            TextKind::MsgId => 0,
            TextKind::Parent => 1,
            TextKind::Sender => 2,
            TextKind::Subject => 3,
            TextKind::Reference => 4,
            TextKind::To => 5,
            TextKind::Cc => 6,
            TextKind::Newsgroups => 7,
            TextKind::Word => 8,
        }
    }

    // Returns the kind at this place.
    pub(crate) fn from_place(place: usize) -> TextKind
        ensures { result ≡ kind_at place }
    {
        match place {
            0 => TextKind::MsgId,
            1 => TextKind::Parent,
            2 => TextKind::Sender,
            3 => TextKind::Subject,
            4 => TextKind::Reference,
            5 => TextKind::To,
            6 => TextKind::Cc,
            7 => TextKind::Newsgroups,
            _ => TextKind::Word,
        }
    }
}

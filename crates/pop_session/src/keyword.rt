//! The keywords of requests.
ghost use Rattle.std.specs.Prelude.{◌≡◌};
ghost use Rattle.pop_session.specs.Requests.{keyword_of};

/// A keyword of the protocol (RFC 1939 5 to 7). There are no others.
#[derive(Clone, Copy)]
pub enum Keyword {
    User,
    Pass,
    Quit,
    Stat,
    List,
    Uidl,
    Retr,
    Dele,
    Noop,
    Rset,
}

/// Returns the keyword that a word is, in any case (RFC 1939 3).
pub(crate) fn keyword_of(word: &[u8]) -> Option<Keyword>
    ensures { result ≡ keyword_of word.now }
{
    if word.eq_ignore_ascii_case(b"USER") {
        Some(Keyword::User)
    } else if word.eq_ignore_ascii_case(b"PASS") {
        Some(Keyword::Pass)
    } else if word.eq_ignore_ascii_case(b"QUIT") {
        Some(Keyword::Quit)
    } else if word.eq_ignore_ascii_case(b"STAT") {
        Some(Keyword::Stat)
    } else if word.eq_ignore_ascii_case(b"LIST") {
        Some(Keyword::List)
    } else if word.eq_ignore_ascii_case(b"UIDL") {
        Some(Keyword::Uidl)
    } else if word.eq_ignore_ascii_case(b"RETR") {
        Some(Keyword::Retr)
    } else if word.eq_ignore_ascii_case(b"DELE") {
        Some(Keyword::Dele)
    } else if word.eq_ignore_ascii_case(b"NOOP") {
        Some(Keyword::Noop)
    } else if word.eq_ignore_ascii_case(b"RSET") {
        Some(Keyword::Rset)
    } else {
        None
    }
}

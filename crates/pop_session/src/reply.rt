//! What a request is replied.

/// What a row of a list says of a letter.
#[derive(Clone, Copy)]
pub enum Listing {
    /// Its size (LIST, RFC 1939 5).
    Sizes,
    /// Its unique id, which is its document's number (UIDL, RFC 1939 7).
    Ids,
}

/// Why a request is refused.
#[derive(Clone, Copy)]
pub enum PopRefusal {
    Long,
    Unknown,
    State,
    Form,
    Denied,
    Kept,
    NoMessage,
}

/// The reply to a request. A letter is named by its number, from 1; if there is no such letter, the
/// request is refused.
#[derive(Clone, Copy)]
pub enum PopReply {
    Accepted,
    Refused(PopRefusal),
    Totals,
    Rows(Listing),
    Row(Listing, u64),
    Text(u64),
}

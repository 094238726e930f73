//! Commands that look stored rows up, and what they found.

/// A look-up of stored rows. It adds no rows and changes nothing.
#[derive(Clone, Copy, Debug, PartialEq, Eq)]
pub enum Lookup {
    /// `show`: the text of the document of this number.
    ShowDoc(u32),
    /// `notes`: the notes on the document of this number.
    ListNotes(u32),
    /// `queries`: the user's queries.
    ListQueries,
    /// `counts`: how many documents and notes there are.
    Count,
}

/// What a look-up found, but for the lines that follow the first line of its reply. Moments are
/// seconds since 1970-01-01T00:00:00Z.
#[derive(Clone, Copy, Debug, PartialEq, Eq)]
pub enum Found {
    /// The lines are those of the text of this document.
    DocText { doc: u32, arrival: i64 },
    /// A line shows a note on this document.
    DocNotes { doc: u32 },
    /// A line shows a query of the user.
    UserQueries,
    /// That many documents and notes, and the least moment that `at` accepts.
    Counts { docs: u32, notes: u32, moment: i64 },
}

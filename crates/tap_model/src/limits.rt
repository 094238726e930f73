//! The limits of a store, and of the texts in it. Definitions repeat these numbers, so that no
//! change here goes unseen.

/// The most documents.
pub const DOCUMENT_LIMIT: usize = 1000000;

/// The most bytes of a note's text.
pub const NOTE_TEXT_LIMIT: usize = 4096;

/// The most notes.
pub const NOTE_LIMIT: usize = 1000000;

/// The most queries of one user.
pub const USER_QUERY_LIMIT: usize = 64;

/// The most queries in all.
pub const QUERY_LIMIT: usize = 4000;

/// The most users that own a query or a filter.
pub const USER_LIMIT: usize = 1000;

/// The most filters.
pub const FILTER_ROW_LIMIT: usize = 10000;

/// The most runs.
pub const RUN_LIMIT: usize = 1000000;

/// The most deliveries of all runs together.
pub const PICK_LIMIT: usize = 4000000;

/// The most bytes of the texts of documents, notes, queries and filters together.
pub const STORE_LIMIT: usize = 134217728;

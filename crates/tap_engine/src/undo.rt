//! What undoes the rows of a command.
use vote_scores::VoteUndo;

/// What undoes the rows of a command that isn't committed: how many rows there were before it, and
/// how many bytes.
#[derive(Drop)]
pub enum Undo {
    /// There are no rows to undo.
    Nothing,
    /// Documents: how many there were.
    Docs {
        len: usize,
        bytes: usize,
    },
    /// One note, with its vote.
    Note {
        bytes: usize,
        vote: VoteUndo,
    },
    /// One query: how many queries and how many owners there were.
    Query {
        len: usize,
        owners: usize,
        bytes: usize,
    },
    /// One filter: how many filters and how many owners there were.
    Filter {
        len: usize,
        owners: usize,
        bytes: usize,
    },
    /// One run of the query at a place, which had covered the seconds up to `covered` and had that
    /// many runs and entries.
    Run {
        place: usize,
        covered: i64,
        runs: usize,
        entries: u32,
        run_count: usize,
        pick_count: usize,
    },
}

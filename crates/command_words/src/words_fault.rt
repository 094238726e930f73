//! Why a command line has no words.

/// Why the words of the command line are not given.
#[derive(Clone, Copy, Debug, PartialEq, Eq)]
pub enum WordsFault {
    /// A word isn't UTF-8.
    NotText,
    /// Out of memory.
    Memory,
}

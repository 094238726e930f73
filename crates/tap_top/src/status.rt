//! How a run ended.
ghost use Rattle.std.specs.Prelude.{◌≡◌};
ghost use Rattle.tap_top.specs.Codes.{code_of};

/// How a run ended, as the program tells the system by its exit status.
#[derive(Clone, Copy, Debug, PartialEq, Eq)]
pub enum Status {
    /// All commands were performed, and every reply begins `ok`.
    AllOk,
    /// All commands were performed, and some reply doesn't begin `ok`.
    SomeRefused,
    /// The words of the command line are refused; nothing was attached, read or written.
    WordsRefused,
    /// A read failed.
    ReadFailed,
    /// A put failed.
    PutFailed,
    /// The keeper failed; the command that it failed at has no reply.
    KeeperFailed,
    /// The store is refused; one line says why, and nothing was read.
    StoreRefused,
    /// Out of memory; with a sample also while a command was performed.
    OutOfMemory,
    /// The script has more bytes than a script may have.
    ScriptTooLong,
}

impl Status {
    /// Returns the exit status, from 0 to 8.
    pub fn code(self) -> u8
        ensures { result ≡ code_of self }
    {
        match self {
            Status::AllOk => 0,
            Status::SomeRefused => 1,
            Status::WordsRefused => 2,
            Status::ReadFailed => 3,
            Status::PutFailed => 4,
            Status::KeeperFailed => 5,
            Status::StoreRefused => 6,
            Status::OutOfMemory => 7,
            Status::ScriptTooLong => 8,
        }
    }
}

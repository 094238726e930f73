//! Why a command is refused.
ghost use Rattle.std.specs.Prelude.{◌≡◌};

use tap_base::Memory;
use tql_lex::LexFault;
use tql_parse::ParseFault;
use tql_types::TypeFault;

/// A limit that a command would pass.
#[derive(Clone, Copy, Debug, PartialEq, Eq)]
pub enum LimitName {
    /// The bytes of a line.
    Line,
    /// The bytes of a message.
    Message,
    /// The bytes of the text of an `mbox` or `filter` block.
    Block,
    /// The bytes of a note.
    Note,
    Documents,
    Notes,
    /// The queries of one user.
    Queries,
    /// The queries of all users.
    AllQueries,
    /// The users that own a query or a filter.
    Users,
    Filters,
    Runs,
    /// The deliveries of all runs.
    Picks,
    /// The bytes of all stored texts.
    Store,
}

/// Why a command is refused.
#[derive(Clone, Copy, Debug, PartialEq, Eq)]
pub enum Refusal {
    /// The first word is no command's.
    Unknown,
    /// The arguments don't fit the command.
    Form,
    /// The end of input cuts a block off.
    Cut,
    /// The text is no moment.
    BadMoment,
    /// The moment is below the last one.
    Backwards { last: i64 },
    /// The session has no moment.
    NoMoment,
    /// The session has no user.
    NoUser,
    /// The word is no name.
    BadName,
    /// The user has a query of this name.
    Taken,
    /// The user has no query of this name.
    NoQuery,
    /// There is no document of this number.
    NoDoc,
    Lex(LexFault),
    Parse(ParseFault),
    Types(TypeFault),
    /// The second isn't below the present moment.
    NotOver { now: i64 },
    /// The command would pass this limit.
    Limit(LimitName),
    /// The line of this number, from 1, is no rule; its first fault is at this byte, from 0.
    Rule { line: u32, place: u32 },
    /// The filter has more than 64 rules.
    ManyRules,
    /// Out of memory.
    Memory,
    /// The query has only that many runs.
    NoRun { runs: u32 },
}

impl From<Memory> for Refusal {
    ghost use Rattle.script_lang.specs.declared.refusal.Refusal.{Refusal};

    ghost from_gives = { λ _ refusal. refusal ≡ Refusal.Memory };

    fn from(_memory: Memory) -> Refusal {
        Refusal::Memory
    }
}

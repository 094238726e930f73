//! Why tokens have no tree.
ghost use Rattle.std.specs.Prelude.{◌≡◌};

use std::alloc::{AllocError, AllocFailed};
use tap_base::Memory;
use thiserror::Error;

/// Says why tokens have no tree. A place is that of a token, in bytes of the query's text from 0.
#[derive(Clone, Copy, Debug, PartialEq, Eq, Error)]
pub enum ParseFault {
    /// No query goes on with this token.
    #[error("no query goes on with the token at {place}")]
    Unexpected { place: u32 },
    /// The tokens end within a query.
    #[error("the query isn't whole")]
    Ended,
    /// This token opens a level above the 32nd.
    #[error("the token at {place} opens too many levels")]
    Deep { place: u32 },
    /// Out of memory.
    #[error("no memory")]
    Memory,
}

impl From<Memory> for ParseFault {
    ghost use Rattle.tql_parse.specs.declared.fault.ParseFault.{ParseFault};

    ghost from_gives = { λ _ fault. fault ≡ ParseFault.Memory };

    fn from(_memory: Memory) -> ParseFault {
        ParseFault::Memory
    }
}

impl From<AllocError> for ParseFault {
    ghost use Rattle.tql_parse.specs.declared.fault.ParseFault.{ParseFault};

    ghost from_gives = { λ _ fault. fault ≡ ParseFault.Memory };

    fn from(_error: AllocError) -> ParseFault {
        ParseFault::Memory
    }
}

impl<T: Drop> From<AllocFailed<T>> for ParseFault {
    ghost use Rattle.tql_parse.specs.declared.fault.ParseFault.{ParseFault};

    ghost from_gives = { λ _ fault. fault ≡ ParseFault.Memory };

    fn from(_error: AllocFailed<T>) -> ParseFault {
        ParseFault::Memory
    }
}

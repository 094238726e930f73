//! Why a tree is no condition.
ghost use Rattle.std.specs.Prelude.{◌≡◌};
ghost use Rattle.tql_types.specs.Faults.{type_fault_place};

use std::alloc::{AllocError, AllocFailed};
use tap_base::Memory;
use thiserror::Error;

/// Says why a tree is no condition. A place counts the bytes of the query's text from 0.
#[derive(Clone, Copy, Debug, PartialEq, Eq, Error)]
pub enum TypeFault {
    /// The variable isn't in scope.
    #[error("the variable at {place} is not in scope")]
    NoVar { place: u32 },
    /// The variable's table has no such field.
    #[error("there is no field as at {place}")]
    NoField { place: u32 },
    /// The sides of a comparison don't go together, or a field that is no time is shifted.
    #[error("the types at {place} do not go together")]
    Clash { place: u32 },
    /// The variable of an EXISTS is in scope already.
    #[error("the variable at {place} is in scope already")]
    Shadow { place: u32 },
    /// The text is no moment.
    #[error("the text at {place} is no moment")]
    BadTime { place: u32 },
    /// The duration is above 100,000,000,000 seconds.
    #[error("the duration at {place} is too long")]
    BigSpan { place: u32 },
    /// There would be a seventh variable.
    #[error("the variable at {place} is one too many")]
    ManyVars { place: u32 },
    /// The condition has more than 128 nodes.
    #[error("there are too many nodes")]
    ManyNodes,
    /// Out of memory.
    #[error("no memory")]
    Memory,
}

impl TypeFault {
    // Returns the place of the fault, or 0 if it has none.
    pub(crate) fn place(self) -> u32
        ensures { result ≡ type_fault_place self }
    {
        match self {
            TypeFault::NoVar { place }
            | TypeFault::NoField { place }
            | TypeFault::Clash { place }
            | TypeFault::Shadow { place }
            | TypeFault::BadTime { place }
            | TypeFault::BigSpan { place }
            | TypeFault::ManyVars { place } => place,
            TypeFault::ManyNodes | TypeFault::Memory => 0,
        }
    }
}

impl From<Memory> for TypeFault {
    ghost use Rattle.tql_types.specs.declared.fault.TypeFault.{TypeFault};

    ghost from_gives = { λ _ fault. fault ≡ TypeFault.Memory };

    fn from(_memory: Memory) -> TypeFault {
        TypeFault::Memory
    }
}

impl From<AllocError> for TypeFault {
    ghost use Rattle.tql_types.specs.declared.fault.TypeFault.{TypeFault};

    ghost from_gives = { λ _ fault. fault ≡ TypeFault.Memory };

    fn from(_error: AllocError) -> TypeFault {
        TypeFault::Memory
    }
}

impl<T: Drop> From<AllocFailed<T>> for TypeFault {
    ghost use Rattle.tql_types.specs.declared.fault.TypeFault.{TypeFault};

    ghost from_gives = { λ _ fault. fault ≡ TypeFault.Memory };

    fn from(_error: AllocFailed<T>) -> TypeFault {
        TypeFault::Memory
    }
}

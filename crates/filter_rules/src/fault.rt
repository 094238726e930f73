//! Why a text is no filter.
ghost use Rattle.std.specs.Prelude.{◌≡◌};

use std::alloc::{AllocError, AllocFailed};
use tap_base::Memory;

/// Why a text is no filter.
#[derive(Clone, Copy, Debug, PartialEq, Eq)]
pub enum RuleFault {
    /// The line of this number, from 1, is no rule. The place is a byte of the line, from 0.
    Line { number: usize, place: u32 },
    /// There are more than 64 rules.
    ManyRules,
    /// Out of memory.
    Memory,
}

impl From<Memory> for RuleFault {
    ghost use Rattle.filter_rules.specs.declared.fault.RuleFault.{RuleFault};

    ghost from_gives = { λ _ fault. fault ≡ RuleFault.Memory };

    fn from(_memory: Memory) -> RuleFault {
        RuleFault::Memory
    }
}

impl From<AllocError> for RuleFault {
    ghost use Rattle.filter_rules.specs.declared.fault.RuleFault.{RuleFault};

    ghost from_gives = { λ _ fault. fault ≡ RuleFault.Memory };

    fn from(_error: AllocError) -> RuleFault {
        RuleFault::Memory
    }
}

impl<T: Drop> From<AllocFailed<T>> for RuleFault {
    ghost use Rattle.filter_rules.specs.declared.fault.RuleFault.{RuleFault};

    ghost from_gives = { λ _ fault. fault ≡ RuleFault.Memory };

    fn from(_error: AllocFailed<T>) -> RuleFault {
        RuleFault::Memory
    }
}

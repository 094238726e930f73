//! Why no engine starts.

ghost use Rattle.std.specs.Prelude.{◌≡◌};

use tap_base::Memory;
use thiserror::Error;

/// Why no engine starts over sound tables.
#[derive(Debug, Drop, Error)]
pub enum StartFault {
    /// The text of the filter of this number has a fault, and it is the first such filter.
    #[error("unreadable rules of filter {num}")]
    Rules { num: u32 },
    /// Out of memory.
    #[error("no memory")]
    Memory,
}

impl From<Memory> for StartFault {
    ghost use Rattle.tap_kept.specs.declared.start_fault.StartFault.{StartFault};

    ghost from_gives = { λ _ fault. fault ≡ StartFault.Memory };

    fn from(_memory: Memory) -> StartFault {
        StartFault::Memory
    }
}

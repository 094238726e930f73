//! Why a line is no rule.
ghost use Rattle.std.specs.Prelude.{◌≡◌};

use tap_base::Memory;

/// Why a line is no rule.
#[derive(Clone, Copy, Debug, PartialEq, Eq)]
pub enum LineFault {
    /// Its first fault is at this byte, from 0.
    At(u32),
    /// Out of memory.
    Memory,
}

impl From<Memory> for LineFault {
    ghost use Rattle.filter_rules.specs.declared.line_fault.LineFault.{LineFault};

    ghost from_gives = { λ _ fault. fault ≡ LineFault.Memory };

    fn from(_memory: Memory) -> LineFault {
        LineFault::Memory
    }
}

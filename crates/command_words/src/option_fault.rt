//! Why options are not read.
ghost use Rattle.std.specs.Prelude.{◌≡◌};

use tap_base::Memory;

/// Why the options of the command line are not read.
#[derive(Clone, Copy, Debug, Drop, PartialEq, Eq)]
pub enum OptionFault {
    /// `clap` refuses the words.
    Refused,
    /// Out of memory.
    Memory,
}

impl From<Memory> for OptionFault {
    ghost use Rattle.command_words.specs.declared.option_fault.OptionFault.{OptionFault};

    ghost from_gives = { λ _ fault. fault ≡ OptionFault.Memory };

    fn from(_memory: Memory) -> OptionFault {
        OptionFault::Memory
    }
}

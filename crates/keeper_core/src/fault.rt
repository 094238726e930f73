//! The errors of a keeper.

ghost use Rattle.std.specs.Prelude.{◌≡◌};

use tap_base::Memory;
use thiserror::Error;

/// The error of an attach.
#[derive(Debug, Drop, Error)]
pub enum AttachFault {
    /// The store has this version, which is neither 1 nor 2.
    #[error("store version {version}")]
    Alien { version: i64 },
    /// The store failed, and the keeper is stopped.
    #[error("store failed")]
    Failed,
    /// The call was out of memory. Nothing else is changed.
    #[error("no memory")]
    Memory,
}

/// The error of a commit.
#[derive(Debug, Drop, Error)]
pub enum CommitFault {
    /// The store failed, and the keeper is stopped.
    #[error("store failed")]
    Failed,
    /// The call was out of memory. Nothing else is changed.
    #[error("no memory")]
    Memory,
}

impl From<Memory> for AttachFault {
    ghost use Rattle.keeper_core.specs.declared.fault.AttachFault.{AttachFault};

    ghost from_gives = { λ _ fault. fault ≡ AttachFault.Memory };

    fn from(_memory: Memory) -> AttachFault {
        AttachFault::Memory
    }
}

impl From<Memory> for CommitFault {
    ghost use Rattle.keeper_core.specs.declared.fault.CommitFault.{CommitFault};

    ghost from_gives = { λ _ fault. fault ≡ CommitFault.Memory };

    fn from(_memory: Memory) -> CommitFault {
        CommitFault::Memory
    }
}

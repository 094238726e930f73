//! Why a command was not answered.

use thiserror::Error;

/// Why a command has no reply.
#[derive(Debug, Drop, Error)]
pub enum EngineFault {
    /// The keeper failed, and the engine is stopped.
    #[error("store failed")]
    KeeperFailed,
}

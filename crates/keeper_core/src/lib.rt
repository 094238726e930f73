//! Where tables are stored: what a keeper promises, what a crash of it may leave, and keepers in
//! memory.
#![tactic(auto)]

mod fault;
mod keeper;
mod mem_keeper;
mod sure_keeper;

pub use fault::{AttachFault, CommitFault};
pub use keeper::Keeper;
pub use mem_keeper::{KeepPlan, MemKeeper};
pub use sure_keeper::SureKeeper;

//! The mail filter's top call: commands are performed over a keeper as they come, each reply before
//! the next command.
#![tactic(auto)]

// Some forms are for the proofs. A large value is dropped by name, since one that goes out of scope
// by itself is dropped field by field within its function's proof. A result that is only given on
// is matched, which names its cases there, and a label names a loop.

mod feed;
pub mod laws;
mod opening;
mod refusing;
mod sampled;
mod status;
mod store_fault;
mod tally;
mod top;

pub use opening::{OpenFault, open_store};
pub use refusing::refuse;
pub use status::Status;
pub use store_fault::StoreFault;
pub use top::{SCRIPT_LIMIT, tapestry};

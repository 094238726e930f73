//! One session of the post office protocol, version 3 (RFC 1939), over a list of letters, without
//! memory.
#![tactic(auto)]

// Some forms are for the proofs: a result that is only given on is matched, which names its cases
// there, and a label names a loop.

mod buffer;
mod hold;
mod keyword;
pub mod laws;
mod letter;
mod outcome;
mod put;
mod reply;
mod request;
mod session;

pub use hold::{SESSION_LIMIT, hold_session};
pub use letter::Letter;
pub use session::PopSession;

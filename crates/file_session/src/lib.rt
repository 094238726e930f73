//! A session over the files of a store: they are opened, a program's call is made over them, and
//! they are closed.
#![tactic(auto)]

mod files;
mod session;

pub use files::{run_session, run_to_close};
pub use session::StoreProgram;

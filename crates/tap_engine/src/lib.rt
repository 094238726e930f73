//! The engine: one command, one step, one commit.
// A `match` stands where a method with a closure would be shorter, since its arms need no clause.
// The label of a loop names its invariant in the proofs.
#![tactic(auto)]

mod ask;
mod boxes;
mod define;
mod digest;
mod docs;
mod engine;
mod explain;
mod fault;
mod filter;
mod letters;
mod limits;
mod lists;
mod look;
mod lookups;
mod mail;
mod mbox;
mod note;
mod perform;
mod prepared;
mod run;
mod scores;
mod sessions;
mod start;
mod undo;
mod undoing;
mod wake;

pub use engine::Engine;
pub use fault::EngineFault;
pub use prepared::Prepared;
pub use tap_kept::StartFault;
pub use undo::Undo;

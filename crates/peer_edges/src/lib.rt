//! A source of bytes that is asked for more in sight of a sink.
#![tactic(auto)]

mod peer;
mod watched_source;

pub use peer::Peer;
pub use watched_source::{Seen, WatchedSource};

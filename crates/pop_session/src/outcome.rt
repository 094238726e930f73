//! What a request does: its reply, and the phase after it.
use crate::reply::PopReply;

/// The phase of a session (RFC 1939 3).
#[derive(Clone, Copy)]
pub enum Phase {
    /// No name was given by the request before.
    Authorization,
    /// The request before gave a name, which is the user's or isn't.
    Named(bool),
    Transaction,
    Ended,
}

/// The reply to a request, and the phase after it.
#[derive(Clone, Copy)]
pub struct Outcome {
    pub reply: PopReply,
    pub phase: Phase,
}

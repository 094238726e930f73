//! Defines what a command does: its checks, its reply, the rows that it adds; stories of commands,
//! and what holds at each point of one. The code here is the session and the limits.
#![tactic(auto)]

pub mod laws;
mod limits;
mod session;

pub use limits::{
    DOCUMENT_LIMIT, FILTER_ROW_LIMIT, NOTE_LIMIT, NOTE_TEXT_LIMIT, PICK_LIMIT, QUERY_LIMIT,
    RUN_LIMIT, STORE_LIMIT, USER_LIMIT, USER_QUERY_LIMIT,
};
pub use session::Session;

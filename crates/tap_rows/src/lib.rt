//! The rows that are stored, how they change, and what a query gives of them.
#![tactic(auto)]

mod change;
mod copies;
mod fields;
mod fits;
mod kept_doc;
pub mod laws;
mod results;
mod rows;
mod score;
mod tables;

pub use change::Change;
pub use fields::Fields;
pub use kept_doc::KeptDoc;
pub use results::{Entry, Hit, Listed};
pub use rows::{Doc, FilterRow, Note, Pick, QueryRow, RunRow};
pub use score::Score;
pub use tables::{MESSAGE_LIMIT, Tables};

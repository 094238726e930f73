//! The rows of documents and notes, and their indexes.
#![tactic(auto)]

mod arrivals;
mod cut;
mod dates;
mod doc_places;
mod doc_texts;
mod from_end;
pub mod laws;
mod note_places;
mod note_text_kind;
mod number_places;
mod places;
mod posting_list;
mod postings;
mod row_index;
mod text_kind;
mod walk;

pub use cut::{Limit, ListCut, Order};
pub use note_text_kind::NoteTextKind;
pub use posting_list::PostingList;
pub use row_index::RowIndex;
pub use text_kind::TextKind;
pub use walk::{DocWalk, NoteWalk, Walk};

//! What one probe of a window query finds beside bound rows.
#![tactic(auto)]

mod access_rows;
mod answer;
mod bodies;
mod cuts;
mod drivers;
mod given;
mod inner_rows;
mod kinds;
pub mod laws;
mod level;
mod list_kind;
mod listed;
mod lists;
mod literals;
mod names;
mod narrow;
mod next;
mod open;
mod rests;
mod row_walk;
mod search;
mod single_lists;

pub use answer::TruthOfRows;
pub use drivers::{mark_in, seek_var, walked};
pub use level::{Level, next_level};
pub use list_kind::ListKind;
pub use listed::goes_by_list;
pub use narrow::{docs_beside, many_rows, rows_beside, step_access, step_rows};
pub use next::Next;
pub use row_walk::RowWalk;
pub use search::{Search, answer_here, holds_here, new_doc, order_at};
pub use single_lists::{SingleList, single_list};

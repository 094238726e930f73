//! What an engine has in memory of the stored rows, so that a command costs what it looks at:
//! queries with their plans and boxes, filters with their rules, the index of documents and notes,
//! the votes of notes, and the sums of all rows.
#![tactic(auto)]

mod asked;
mod cache;
mod cached_filter;
mod cached_queries;
mod cached_query;
mod deliveries;
mod entries;
mod indexing;
mod lines;
mod planned_query;
mod start_fault;
mod sums;
mod text;
mod votes;

pub use asked::given_at;
pub use cache::{cache_delivered, cache_filters, owners_of};
pub use cached_filter::CachedFilter;
pub use cached_queries::CachedQueries;
pub use cached_query::CachedQuery;
pub use entries::{copy_entries, copy_run};
pub use indexing::index_rows;
pub use lines::{note_lines, text_lines};
pub use planned_query::PlannedQuery;
pub use start_fault::StartFault;
pub use sums::Sums;
pub use text::{read_source, read_text};
pub use votes::{add_vote, tally_votes};

//! Fronts of posting lists that the boxes of queries hold.

use probe_eval::ListKind;
use tap_base::{DocNum, QueryNum};

/// The front of the posting list of this kind that begins with this document: its first `len`
/// documents are in the box of this query.
#[derive(Clone, Copy, Drop)]
pub struct BoxFront {
    pub query: QueryNum,
    pub kind: ListKind,
    pub first: DocNum,
    pub len: usize,
}

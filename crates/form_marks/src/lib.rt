//! The moments that a run looks for: those of the form of a query are among those of the query as
//! it is written.
#![tactic(auto)]

pub mod laws;

//! One session of the post office protocol, version 3 (RFC 1939), over the box of a store.
#![tactic(auto)]

// For the proofs, `letters_from` owns the engine and makes one call over it: a large value that
// goes out of scope by itself is dropped field by field, and once more for each `?` before that.

pub mod laws;
mod letters;
mod no_box;
mod serving;

pub use serving::serve;

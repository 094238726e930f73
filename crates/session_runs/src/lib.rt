//! What the tests of sessions share: runs over sources, sinks and keepers in memory. No program
//! stands on it.
#![tactic(auto)]

mod runs;

pub use runs::{
    answers, answers_within, edges_of, push_line, push_number, tables_after, words_in, words_over,
    written_over,
};

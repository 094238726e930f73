//! Reads the words of a command line: `[--store PATH] [--sample N]`, or those of a POP3 session.
#![tactic(auto)]

mod clap_words;
mod command_line;
mod command_words;
mod number;
mod option_fault;
mod pop_options;
mod pop_words;
mod strs;
mod words_fault;

pub use command_line::words_of_line;
pub use command_words::{CommandWords, read_words};
pub use option_fault::OptionFault;
pub use pop_words::{PopWords, read_pop_words};
pub use words_fault::WordsFault;

//! Numbers, texts, words, and the counter of steps.
#![tactic(auto)]

mod copied;
mod decimal;
mod first_places;
mod hash_key;
pub mod laws;
mod line_words;
mod memory;
mod message_words;
mod moments;
mod names;
mod numbers;
mod rows;
mod shared_text;
mod short_bytes;
mod steps;
mod text;
mod text_bytes;
mod text_store;
mod texts;
mod word_reader;
mod word_set;
mod words;

pub use copied::Copied;
pub use decimal::put_decimal;
pub use hash_key::HashKey;
pub use line_words::{
    blank_place, has_words, is_blank_byte, is_blank_or_comment, nth_word, skip_blanks, skip_words,
};
pub use memory::Memory;
pub use message_words::MessageWords;
pub use moments::{LAST_MOMENT, all_digits, read_moment, read_number, read_signed, within_moments};
pub use names::is_name;
pub use numbers::{DocNum, MomentFault, NoteNum, Op, QueryNum};
pub use rows::Rows;
pub use shared_text::SharedText;
pub use steps::Steps;
pub use text::Text;
pub use text_bytes::TextBytes;
pub use texts::Texts;
pub use word_reader::WordReader;
pub use word_set::WordSet;
pub use words::{WordAt, after_byte, first_word, lower, words_of};

//! The beginning of a query's source.
ghost use Rattle.std.specs.Prelude.{◌≡◌, ◌≤◌, drop, length};
ghost use Rattle.restart_core.specs.Starts.{is_from_now, condition_text, start_in};

use tap_base::{nth_word, skip_words};

/// How a query's source begins.
#[derive(Clone, Copy, Debug, PartialEq, Eq)]
pub struct Start {
    /// Whether its first two words are FROM and NOW.
    pub from_now: bool,
    /// The byte, from 0, at which the text of its condition begins.
    pub at: usize,
}

// Are the first two words FROM and NOW, in any case?
#[tactic(auto, unfolding(crate::specs::Starts::is_from_now))]
fn is_from_now(source: &[u8]) -> bool
    ensures { result ≡ is_from_now source.now }
{
    nth_word(source, 0).eq_ignore_ascii_case(b"FROM")
        && nth_word(source, 1).eq_ignore_ascii_case(b"NOW")
}

/// Finds where the condition of a query's source begins: behind FROM NOW and the blanks after it,
/// if these are its first two words in any case, else at its first byte. A word is a longest run of
/// bytes other than space and tab. It takes no memory.
#[tactic(auto, unfolding(crate::specs::Starts::condition_text))]
pub fn cut_start(source: &[u8]) -> Start
    ensures value { result ≡ start_in source.now }
    ensures text { drop result.at source.now ≡ condition_text source.now }
    ensures within { result.at ≤ length source.now }
{
    if is_from_now(source) {
        Start {
            from_now: true,
            at: source.len() - skip_words(source, 2).len(),
        }
    } else {
        Start {
            from_now: false,
            at: 0,
        }
    }
}

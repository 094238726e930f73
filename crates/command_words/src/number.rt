//! The number of messages that a word gives.
ghost use Rattle.std.specs.Prelude.{◌≡◌, ◌≤◌, IfSome};
ghost use Rattle.command_words.specs.Words.{number_in};

/// The most messages of a sample, which the option `--sample` takes too.
const COUNT_LIMIT: u32 = 100_000;

/// Returns the number of a text from 1 to 100,000: decimal digits, before which one plus may stand.
/// `None` if the text is no such number.
#[tactic(auto, unfolding(crate::specs::Words::number_in))]
pub fn read_count(text: &str) -> Option<u32>
    ensures value { result ≡ number_in text.now }
    ensures within { IfSome result (λ n. (1 ≤ n) × (n ≤ 100000)) }
{
    let Ok(n) = text.parse::<u32>() else {
        return None;
    };
    if 1 <= n && n <= COUNT_LIMIT {
        Some(n)
    } else {
        None
    }
}

//! What the words of the command line ask for.
ghost use Rattle.std.specs.Prelude.{◌≡◌, ◌≢◌, ◌≤◌, ℕ, List, [], true, Option, IfOk, IfErr, IfSome};
ghost use Rattle.std.specs.Prelude.{OnOk, option_copied, option_and_then};
ghost use Rattle.std.specs.Prelude.{unwrap_or};
ghost use Rattle.std.specs.List.{All};
ghost use Rattle.std.specs.Str.{IsUtf8};
ghost use Rattle.clap.specs.Words.{fault_of, takes};
ghost use Rattle.command_words.specs.Options.{app, default_path};
ghost use Rattle.command_words.specs.Words.{number_in, path_in, sample_in};
ghost use Rattle.command_words.specs.WellWorded.{IsWellWorded, path_or_default};

use crate::clap_words::parse_options;
use crate::number::read_count;
use crate::option_fault::OptionFault;
use crate::strs::as_strs;
use std::alloc::Global;
use tap_base::{Memory, Text, Texts};

/// What the words of the command line ask for.
#[derive(Drop)]
pub struct CommandWords {
    /// The path of the store, `:memory:` if the words name none.
    pub path: Text,
    /// The number of messages of a sample, from 1 to 100,000, if the words ask for one.
    pub sample: Option<u32>,
}

/// Returns the text of a path, `:memory:` if there is none.
pub(crate) fn path_text(alloc: Global, path: Option<&str>) -> Result<Text, Memory>
    ensures value { IfOk result (λ text. text ≡ unwrap_or (option_copied path.entry) default_path) }
    ensures text { IfOk result (λ text. IsUtf8 text) }
{
    let path = path.unwrap_or(":memory:");
    Text::from_slice(alloc, path.as_bytes())
}

// Returns the number of a text, if there is one.
fn sample_number(text: Option<&str>) -> Option<u32>
    ensures value { result ≡ option_and_then number_in (option_copied text.entry) }
    ensures within { IfSome result (λ n. (1 ≤ n) × (n ≤ 100000)) }
{
    match text {
        Some(text) => read_count(text),
        None => None,
    }
}

/// Reads the words after the program's name, by the rules of `clap`. Words in which `clap` finds a
/// fault give `Refused`, or
/// `Memory` if the program runs out of memory first. Words without one, and so all that are well
/// worded, never give
/// `Refused`.
pub fn read_words(alloc: Global, words: &Texts) -> Result<CommandWords, OptionFault>
    requires { All IsUtf8 words.now }
    ensures path { IfOk result (λ asked. asked.path ≡ path_in words.now) }
    ensures text { IfOk result (λ asked. IsUtf8 asked.path) }
    ensures sample { IfOk result (λ asked. asked.sample ≡ sample_in words.now) }
    ensures within { IfOk result (λ asked. IfSome asked.sample (λ n. (1 ≤ n) × (n ≤ 100000))) }
    ensures accepted { OnOk result (fault_of app words.now ≡ []) }
    ensures taken { takes app words.now ≡ true
        → IfErr result (λ fault. fault ≡ OptionFault.Memory) }
    ensures refused { IfErr result (λ fault. fault ≡ OptionFault.Refused
        → fault_of app words.now ≢ []) }
    ensures fine { (path : Option (List ℕ)) (number : Option ℕ) → IsWellWorded words.now path number
        → IfErr result (λ fault. fault ≡ OptionFault.Memory) }
    ensures named { (path : Option (List ℕ)) (number : Option ℕ)
        → IsWellWorded words.now path number
        → IfOk result (λ asked. (asked.path ≡ path_or_default path) × (asked.sample ≡ number)) }
{
    let words = as_strs(alloc, words)?;
    let values = parse_options(alloc, &words)?;
    Ok(CommandWords {
        path: path_text(alloc, values.store)?,
        sample: sample_number(values.sample),
    })
}

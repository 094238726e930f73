//! What the words of a POP3 session's command line ask for.
ghost use Rattle.std.specs.Prelude.{◌≡◌, ◌≢◌, ℕ, List, [], true, Option, IfOk, IfErr, OnOk};
ghost use Rattle.std.specs.Prelude.{option_copied, unwrap_or};
ghost use Rattle.std.specs.List.{All};
ghost use Rattle.std.specs.Str.{IsUtf8};
ghost use Rattle.clap.specs.Words.{fault_of, takes};
ghost use Rattle.command_words.specs.PopOptions.{pop_app};
ghost use Rattle.command_words.specs.PopWords.{pop_path_in, user_in, box_in, secret_in};
ghost use Rattle.command_words.specs.PopWords.{IsPopWorded};
ghost use Rattle.command_words.specs.WellWorded.{path_or_default};

use crate::command_words::path_text;
use crate::option_fault::OptionFault;
use crate::pop_options::parse_pop_options;
use crate::strs::as_strs;
use std::alloc::Global;
use tap_base::{Memory, Text, Texts};

/// What the words of a POP3 session's command line ask for.
#[derive(Drop)]
pub struct PopWords {
    /// The path of the store, `:memory:` if the words name none.
    pub path: Text,
    /// The user that may log in, whose box is served.
    pub user: Text,
    /// The name of the box.
    pub name: Text,
    /// The secret with which the user logs in.
    pub secret: Text,
}

// Returns the text of a value, an empty one if there is none.
fn value_text(alloc: Global, value: Option<&str>) -> Result<Text, Memory>
    ensures { IfOk result (λ text. text ≡ unwrap_or (option_copied value.entry) []) }
{
    Text::from_slice(alloc, value.unwrap_or("").as_bytes())
}

/// Reads the words after the program's name, by the rules of `clap`: `[--store PATH] --user USER
/// --box NAME --pass SECRET`. Words in which `clap` finds a fault give `Refused`, or `Memory` if
/// the program runs out of memory first. Words without one, and so all that are well worded, never
/// give `Refused`.
pub fn read_pop_words(alloc: Global, words: &Texts) -> Result<PopWords, OptionFault>
    requires { All IsUtf8 words.now }
    ensures path { IfOk result (λ asked. asked.path ≡ pop_path_in words.now) }
    ensures text { IfOk result (λ asked. IsUtf8 asked.path) }
    ensures user { IfOk result (λ asked. asked.user ≡ user_in words.now) }
    ensures name { IfOk result (λ asked. asked.name ≡ box_in words.now) }
    ensures secret { IfOk result (λ asked. asked.secret ≡ secret_in words.now) }
    ensures accepted { OnOk result (fault_of pop_app words.now ≡ []) }
    ensures taken { takes pop_app words.now ≡ true
        → IfErr result (λ fault. fault ≡ OptionFault.Memory) }
    ensures refused { IfErr result (λ fault. fault ≡ OptionFault.Refused
        → fault_of pop_app words.now ≢ []) }
    ensures fine { (path : Option (List ℕ)) (user name secret : List ℕ)
        → IsPopWorded words.now path user name secret
        → IfErr result (λ fault. fault ≡ OptionFault.Memory) }
    ensures named { (path : Option (List ℕ)) (user name secret : List ℕ)
        → IsPopWorded words.now path user name secret
        → IfOk result (λ asked. (asked.path ≡ path_or_default path)
        × ((asked.user ≡ user) × ((asked.name ≡ name) × (asked.secret ≡ secret)))) }
{
    let words = as_strs(alloc, words)?;
    let values = parse_pop_options(alloc, &words)?;
    Ok(PopWords {
        path: path_text(alloc, values.store)?,
        user: value_text(alloc, values.user)?,
        name: value_text(alloc, values.name)?,
        secret: value_text(alloc, values.secret)?,
    })
}

//! The two options, as `clap` reads them.
ghost use Rattle.std.specs.Prelude.{◌≡◌, ◌≢◌, [], true, codes, IfOk, OnOk, IfErr, option_copied};
ghost use Rattle.clap.specs.Words.{takes, fault_of, first_of, app_of};
ghost use Rattle.clap.specs.Simple.{matches_of};
ghost use Rattle.command_words.specs.Options.{app};
ghost use Rattle.command_words.specs.Words.{word_bytes};

use crate::option_fault::OptionFault;
use clap::error::ErrorKind;
use clap::{Arg, ArgAction, Command};
use std::alloc::{AllocError, Global};

/// The values of the two options: the word that follows each, if the words have it.
#[derive(Drop)]
pub struct Values<'a> {
    pub store: Option<&'a str>,
    pub sample: Option<&'a str>,
}

// Makes the command with its two options.
fn options<'a>(alloc: Global) -> Result<Command<'a>, AllocError>
    ensures { IfOk result (λ c. app_of c ≡ app) }
{
    let store = Arg::new(alloc, "store")
        .long("store")
        .action(ArgAction::Set)
        .default_value(":memory:");
    let sample = Arg::new(alloc, "sample")
        .long("sample")
        .action(ArgAction::Set)
        .value_parser(clap::value_parser!(u32).range(1..=100000));
    Command::new(alloc, "tapestry")
        .no_binary_name(true)
        .arg(store)?
        .arg(sample)
}

/// Returns the values that the words after the program's name give to the two options. `Refused`
/// comes if and only if
/// `clap` refuses the words and memory suffices.
pub fn parse_options<'a>(alloc: Global, words: &'a [&'a str]) -> Result<Values<'a>, OptionFault>
    ensures store { IfOk result (λ values. option_copied values.store
        ≡ first_of (codes "store") (matches_of app (word_bytes words.now))) }
    ensures sample { IfOk result (λ values. option_copied values.sample
        ≡ first_of (codes "sample") (matches_of app (word_bytes words.now))) }
    ensures accepted { OnOk result (fault_of app (word_bytes words.now) ≡ []) }
    ensures taken { takes app (word_bytes words.now) ≡ true
        → IfErr result (λ fault. fault ≡ OptionFault.Memory) }
    ensures refused { IfErr result (λ fault. fault ≡ OptionFault.Refused
        → fault_of app (word_bytes words.now) ≢ []) }
{
    let Ok(command) = options(alloc) else {
        return Err(OptionFault::Memory);
    };
    match command.try_get_matches_from(words) {
        Ok(matches) => Ok(Values {
            store: matches.get_str("store"),
            sample: matches.get_str("sample"),
        }),
        Err(error) => {
            if error.kind() == ErrorKind::OutOfMemory {
                return Err(OptionFault::Memory);
            }
            Err(OptionFault::Refused)
        }
    }
}

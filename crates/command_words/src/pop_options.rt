//! The four options of a POP3 session, as `clap` reads them.
ghost use Rattle.std.specs.Prelude.{◌≡◌, ◌≢◌, [], true, false, codes, IfOk, OnOk, IfErr};
ghost use Rattle.std.specs.Prelude.{option_copied};
ghost use Rattle.clap.specs.Words.{takes, fault_of, first_of, app_of, rule_of};
ghost use Rattle.clap.specs.Simple.{matches_of};
ghost use Rattle.command_words.specs.PopOptions.{pop_app, required_rule};
ghost use Rattle.command_words.specs.Words.{word_bytes};

use crate::option_fault::OptionFault;
use clap::error::ErrorKind;
use clap::{Arg, ArgAction, Command};
use std::alloc::{AllocError, Global};

/// The values of the four options: the word that follows each, if the words have it.
#[derive(Drop)]
pub struct PopValues<'a> {
    pub store: Option<&'a str>,
    pub user: Option<&'a str>,
    pub name: Option<&'a str>,
    pub secret: Option<&'a str>,
}

// Makes an option that must be given.
fn required<'a>(alloc: Global, name: &'static str) -> Arg<'a>
    ensures rule { rule_of result ≡ required_rule name.now }
    ensures local { result.global ≡ false }
{
    Arg::new(alloc, name)
        .long(name)
        .action(ArgAction::Set)
        .required(true)
}

// Makes the command with its four options.
fn pop_options<'a>(alloc: Global) -> Result<Command<'a>, AllocError>
    ensures { IfOk result (λ c. app_of c ≡ pop_app) }
{
    let store = Arg::new(alloc, "store")
        .long("store")
        .action(ArgAction::Set)
        .default_value(":memory:");
    Command::new(alloc, "tapestry_pop")
        .no_binary_name(true)
        .arg(store)?
        .arg(required(alloc, "user"))?
        .arg(required(alloc, "box"))?
        .arg(required(alloc, "pass"))
}

/// Returns the values that the words after the program's name give to the four options. `Refused`
/// comes if and only if
/// `clap` refuses the words and memory suffices.
pub fn parse_pop_options<'a>(
    alloc: Global,
    words: &'a [&'a str],
) -> Result<PopValues<'a>, OptionFault>
    ensures store { IfOk result (λ values. option_copied values.store
        ≡ first_of (codes "store") (matches_of pop_app (word_bytes words.now))) }
    ensures user { IfOk result (λ values. option_copied values.user
        ≡ first_of (codes "user") (matches_of pop_app (word_bytes words.now))) }
    ensures name { IfOk result (λ values. option_copied values.name
        ≡ first_of (codes "box") (matches_of pop_app (word_bytes words.now))) }
    ensures secret { IfOk result (λ values. option_copied values.secret
        ≡ first_of (codes "pass") (matches_of pop_app (word_bytes words.now))) }
    ensures accepted { OnOk result (fault_of pop_app (word_bytes words.now) ≡ []) }
    ensures taken { takes pop_app (word_bytes words.now) ≡ true
        → IfErr result (λ fault. fault ≡ OptionFault.Memory) }
    ensures refused { IfErr result (λ fault. fault ≡ OptionFault.Refused
        → fault_of pop_app (word_bytes words.now) ≢ []) }
{
    let Ok(command) = pop_options(alloc) else {
        return Err(OptionFault::Memory);
    };
    match command.try_get_matches_from(words) {
        Ok(matches) => Ok(PopValues {
            store: matches.get_str("store"),
            user: matches.get_str("user"),
            name: matches.get_str("box"),
            secret: matches.get_str("pass"),
        }),
        Err(error) => {
            if error.kind() == ErrorKind::OutOfMemory {
                return Err(OptionFault::Memory);
            }
            Err(OptionFault::Refused)
        }
    }
}

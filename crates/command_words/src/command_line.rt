//! The words that the system hands over.
ghost use Rattle.std.specs.Prelude.{◌≡◌, IfOk, OnOk};
ghost use Rattle.std.specs.List.{All};
ghost use Rattle.std.specs.Str.{IsUtf8};

use crate::WordsFault;
use std::alloc::Global;
use std::rt::Env;
use std::{env, io};
use tap_base::{Memory, Text, Texts};

// Appends a word, which is UTF-8.
fn push_word(alloc: Global, words: &mut Texts, word: &str) -> Result<(), Memory>
    requires { All IsUtf8 words.old }
    ensures { OnOk result (All IsUtf8 words.new) }
{
    words.push(Text::from_slice(alloc, word.as_bytes())?)?;
    Ok(())
}

/// Returns the words after the program's name, in order. Each is UTF-8. No clause says which words
/// these are, since none can name what the system hands over. `NotText` comes if one of them isn't
/// UTF-8.
pub fn words_of_line<R: Env + Alloc<A = Global>>(rt: &R, alloc: Global) -> Result<Texts, WordsFault>
    ensures { IfOk result (λ words. All IsUtf8 words) }
{
    let args = match env::args(rt) {
        Ok(args) => args,
        Err(error) if error.kind() == io::ErrorKind::OutOfMemory => return Err(WordsFault::Memory),
        Err(_) => return Err(WordsFault::NotText),
    };
    let mut words = Texts::new(alloc);
    for word in args.skip(1) {
        if push_word(alloc, &mut words, word.as_str()).is_err() {
            return Err(WordsFault::Memory);
        }
    }
    Ok(words)
}

//! Texts as `str`s.
ghost use Rattle.std.specs.Prelude.{◌≡◌, IfOk};
ghost use Rattle.std.specs.List.{All};
ghost use Rattle.std.specs.Str.{IsUtf8};
ghost use Rattle.command_words.specs.Words.{word_bytes};

use std::alloc::Global;
use tap_base::{Memory, Text, Texts};

// Returns a text that is UTF-8 as a `str`.
fn as_str(text: &Text) -> &str
    requires { IsUtf8 text.now }
    ensures { result.now ≡ text.now }
{
    std::str::from_utf8(text.as_slice()).unwrap_or("")
}

/// Returns the texts, which are UTF-8, as `str`s in their order. `Memory` means out of memory.
pub fn as_strs<'a>(alloc: Global, texts: &'a Texts) -> Result<Vec<&'a str>, Memory>
    requires { All IsUtf8 texts.now }
    ensures { IfOk result (λ strs. word_bytes strs.items ≡ texts.now) }
{
    let mut strs = Vec::new(alloc);
    for text in texts.as_slice() {
        strs.push(as_str(text))?;
    }
    Ok(strs)
}

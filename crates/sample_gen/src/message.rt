//! The messages of a sample.
ghost use Rattle.std.specs.Prelude.{◌≡◌, ◌<◌, ◌++◌, true, OnOk, IfOk};
ghost use Rattle.script_lang.specs.Replies.{line};
ghost use Rattle.sample_gen.specs.Samples.{word_of, message_id, is_answer, parent_line};
ghost use Rattle.sample_gen.specs.Samples.{sample_message};

use std::alloc::Global;
use tap_base::{Memory, Text};

// Returns the word of a message for which `drawn` is drawn.
fn word_of(drawn: u32) -> &'static [u8]
    ensures { result.now ≡ word_of drawn }
{
    match drawn % 4 {
        0 => b"alpha",
        1 => b"beta",
        2 => b"gamma",
        _ => b"delta",
    }
}

// Appends a line of a name and a value.
fn push_line(into: &mut Text, name: &[u8], value: &[u8]) -> Result<(), Memory>
    ensures { OnOk result (into.new ≡ into.old ++ line (name.now ++ value.now)) }
{
    into.push_slice(name)?;
    into.push_slice(value)?;
    into.push_slice(b"\n")
}

// Appends the identifier of message `i` (RFC 5322 3.6.4).
#[tactic(auto, unfolding(crate::specs::Samples::message_id))]
fn push_id(alloc: Global, into: &mut Text, i: u32) -> Result<(), Memory>
    ensures { OnOk result (into.new ≡ into.old ++ message_id i) }
{
    let digits = i.to_string(alloc)?;
    into.push_slice(b"<m")?;
    into.push_slice(digits.as_bytes())?;
    into.push_slice(b"@parc>")
}

// Appends a line of a name and the identifier of message `i`.
fn push_id_line(alloc: Global, into: &mut Text, name: &[u8], i: u32) -> Result<(), Memory>
    ensures { OnOk result (into.new ≡ into.old ++ line (name.now ++ message_id i)) }
{
    into.push_slice(name)?;
    push_id(alloc, into, i)?;
    into.push_slice(b"\n")
}

// Does message `i` answer an earlier one?
#[tactic(auto, unfolding(crate::specs::Samples::is_answer))]
fn is_answer(i: u32, drawn: u32) -> bool
    ensures value { result ≡ is_answer i drawn }
    ensures later { result ≡ true → 1 < i }
{
    i > 1 && drawn % 3 == 0
}

// Appends the line that names the message that is answered, if one is.
fn push_parent(alloc: Global, into: &mut Text, i: u32, drawn: u32) -> Result<(), Memory>
    ensures { OnOk result (into.new ≡ into.old ++ parent_line i drawn) }
{
    if !is_answer(i, drawn) {
        return Ok(());
    }
    push_id_line(alloc, into, b"In-Reply-To: ", drawn % (i - 1) + 1)
}

/// Returns the text of message `i`, for which `drawn` is drawn. `Memory` means out of memory.
#[tactic(auto, unfolding(crate::specs::Samples::sample_message))]
pub fn sample_message(alloc: Global, i: u32, drawn: u32) -> Result<Text, Memory>
    ensures { IfOk result (λ text. text ≡ sample_message i drawn) }
{
    let word = word_of(drawn);
    let mut text = Text::from_slice(alloc, b"From: user@parc\n")?;
    push_id_line(alloc, &mut text, b"Message-ID: ", i)?;
    push_parent(alloc, &mut text, i, drawn)?;
    push_line(&mut text, b"Subject: ", word)?;
    push_line(&mut text, b"", b"")?;
    push_line(&mut text, b"about ", word)?;
    Ok(text)
}

//! The texts of queries: their conditions, and the form in which they are stored.

ghost use Rattle.std.specs.Prelude.{◌≡◌, ◌≤◌, ◌⊎◌, ◌++◌, drop, length, codes, None, Some, Ok, true};
ghost use Rattle.std.specs.Prelude.{OnOk, IfOk, IfErr};
ghost use Rattle.script_lang.specs.declared.refusal.Refusal.{Refusal};
ghost use Rattle.restart_core.specs.Starts.{condition_text, stored_source};
ghost use Rattle.tql_core.specs.Bounds.{are_bounded};
ghost use Rattle.tql_core.specs.Condition.{condition};
ghost use Rattle.tql_core.specs.Scope.{IsQuery};
ghost use Rattle.tql_text.specs.Texts.{condition_of};
ghost use Rattle.snapshot_meaning.specs.Seen.{exists_in};
ghost use Rattle.tap_model.specs.Queries.{condition_in};
ghost use Rattle.tap_model.specs.Verdicts.{fault_refusal, text_fault};

use restart_core::cut_start;
use script_lang::Refusal;
use std::alloc::Global;
use tap_base::{Memory, Text};
use tql_core::Cond;
use tql_text::{TextFault, read_condition};

// Gives the refusal for a text's fault.
fn refusal_of(fault: TextFault) -> Refusal
    ensures { (fault_refusal fault ≡ Some result) ⊎ (result ≡ Refusal.Memory) }
{
    match fault {
        TextFault::Lex(fault) => Refusal::Lex(fault),
        TextFault::Parse(fault) => Refusal::Parse(fault),
        TextFault::Types(fault) => Refusal::Types(fault),
        TextFault::Memory => Refusal::Memory,
    }
}

/// Reads the condition of a query's text, or refuses its first fault.
pub fn read_text(alloc: Global, source: &[u8]) -> Result<Cond, Refusal>
    ensures cond { IfOk result (λ cond. condition_of source.now ≡ Ok (condition cond)) }
    ensures vars { IfOk result (λ cond. exists_in (condition cond) ≤ 15) }
    ensures scoped { IfOk result (λ cond. IsQuery (condition cond)) }
    ensures bounded { IfOk result (λ cond. are_bounded (condition cond) ≡ true) }
    ensures refusal { IfErr result (λ refusal. (text_fault source.now ≡ Some refusal)
        ⊎ (refusal ≡ Refusal.Memory)) }
{
    match read_condition(alloc, source) {
        Ok(cond) => Ok(cond),
        Err(fault) => Err(refusal_of(fault)),
    }
}

// Reads the condition of a query's text, with the clauses that a text without a fault has.
fn read_fine_text(alloc: Global, source: &[u8]) -> Result<Cond, Refusal>
    ensures fine { OnOk result (text_fault source.now ≡ None) }
    ensures cond { IfOk result (λ cond. condition cond ≡ condition_in source.now) }
    ensures scoped { IfOk result (λ cond. IsQuery (condition cond)) }
    ensures bounded { IfOk result (λ cond. are_bounded (condition cond) ≡ true) }
    ensures refusal { IfErr result (λ refusal. (text_fault source.now ≡ Some refusal)
        ⊎ (refusal ≡ Refusal.Memory)) }
{
    let cond = read_text(alloc, source)?;
    Ok(cond)
}

// Gives the bytes from this place on.
fn bytes_from(bytes: &[u8], at: usize) -> &[u8]
    requires { at ≤ length bytes.now }
    ensures { result.now ≡ drop at bytes.now }
{
    &bytes[at..]
}

// Gives the text of a source's condition: what follows `FROM NOW`, or all of it.
pub(crate) fn text_of(source: &[u8]) -> &[u8]
    ensures { result.now ≡ condition_text source.now }
{
    bytes_from(source, cut_start(source).at)
}

// Makes the source of a query from now: `FROM NOW `, then the text of its condition.
fn from_now(alloc: Global, text: &[u8]) -> Result<Text, Memory>
    ensures { IfOk result (λ source. source ≡ codes "FROM NOW " ++ text.now) }
{
    let mut source = Text::from_slice(alloc, b"FROM NOW ")?;
    source.push_slice(text)?;
    Ok(source)
}

// Gives the form in which a source is stored: `FROM NOW` with one blank after it, and otherwise as
// it is.
#[tactic(auto, unfolding(restart_core::specs::Starts::stored_source))]
fn to_store(alloc: Global, source: Text) -> Result<Text, Memory>
    ensures { IfOk result (λ stored. stored ≡ stored_source source) }
{
    if cut_start(source.as_slice()).from_now {
        from_now(alloc, text_of(source.as_slice()))
    } else {
        Ok(source)
    }
}

/// Gives the form in which a source is stored and the condition of its text, or refuses the text's
/// first fault.
pub fn read_source(alloc: Global, source: Text) -> Result<(Text, Cond), Refusal>
    ensures fine { OnOk result (text_fault (condition_text source) ≡ None) }
    ensures stored { IfOk result (λ made. made.0 ≡ stored_source source) }
    ensures cond { IfOk result (λ made. condition made.1 ≡ condition_in (condition_text source)) }
    ensures scoped { IfOk result (λ made. IsQuery (condition made.1)) }
    ensures bounded { IfOk result (λ made. are_bounded (condition made.1) ≡ true) }
    ensures refusal { IfErr result (λ refusal. (text_fault (condition_text source) ≡ Some refusal)
        ⊎ (refusal ≡ Refusal.Memory)) }
{
    let cond = read_fine_text(alloc, text_of(source.as_slice()))?;
    let stored = to_store(alloc, source)?;
    Ok((stored, cond))
}

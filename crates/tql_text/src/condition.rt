//! Reads the condition of a query's text.
ghost use Rattle.std.specs.Prelude.{Result};
ghost use Rattle.tql_tree.specs.Syntax.{syntax};
ghost use Rattle.tql_parse.specs.Reading.{query_at};
ghost use Rattle.tql_types.specs.Core.{typed};
ghost use Rattle.tql_text.specs.Texts.{of_typing, of_tree, condition_of, AgreesWithText};

use crate::TextFault;
use std::alloc::Global;
use tql_core::Cond;
use tql_lex::{LexFault, Token, lex};
use tql_parse::{ParseFault, parse};
use tql_tree::Tree;
use tql_types::{TypeFault, check};

// Returns the condition of a tree, or the first fault of its types.
fn check_tree(alloc: Global, tree: &Tree) -> Result<Cond, TextFault>
    ensures { AgreesWithText (of_typing (typed (syntax tree.now))) result }
{
    match check(alloc, tree) {
        Ok(cond) => Ok(cond),
        Err(TypeFault::Memory) => Err(TextFault::Memory),
        Err(fault) => Err(TextFault::Types(fault)),
    }
}

/// Returns the condition of some tokens, or the first fault of their syntax, else of their types.
/// `Memory` if out of memory.
pub fn read_tokens(alloc: Global, tokens: &[Token]) -> Result<Cond, TextFault>
    ensures { AgreesWithText (of_tree (query_at 32 tokens.now)) result }
{
    match parse(alloc, tokens) {
        Ok(tree) => check_tree(alloc, &tree),
        Err(ParseFault::Memory) => Err(TextFault::Memory),
        Err(fault) => Err(TextFault::Parse(fault)),
    }
}

/// Returns the condition of a query's text, or its first fault: that of its tokens before that of
/// its syntax, and that before that of its types. Places count the bytes of the text from 0.
/// `Memory` if out of memory.
pub fn read_condition(alloc: Global, text: &[u8]) -> Result<Cond, TextFault>
    ensures { AgreesWithText (condition_of text.now) result }
{
    match lex(alloc, text) {
        Ok(tokens) => read_tokens(alloc, &tokens),
        Err(LexFault::Memory) => Err(TextFault::Memory),
        Err(fault) => Err(TextFault::Lex(fault)),
    }
}

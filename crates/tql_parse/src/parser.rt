//! Reads the tree of a query's tokens from left to right.
ghost use Rattle.std.specs.Prelude.{◌≡◌, drop, IfOk, Ok, Err, ℕ};
ghost use Rattle.tql_tree.specs.Syntax.{Syntax, syntax};
ghost use Rattle.tql_tree.specs.Proper.{IsProper};
ghost use Rattle.tql_parse.specs.declared.fault.ParseFault.{ParseFault};
ghost use Rattle.tql_parse.specs.Grammar.{AreQueryTokens, Begins, DeepAt, UnexpectedAt};
ghost use Rattle.tql_parse.specs.Reading.{ParseGives, unit_at, conj_at, cond_at, group_with};
ghost use Rattle.tql_parse.specs.Reading.{exists_with, not_with, query_at, next_is, deep_at};
ghost use Rattle.tql_parse.specs.Keys.{is_and, is_or};

use crate::comparisons::{compare, expect, head};
use crate::key::{Opening, bytes_of, key_of, opening_at};
use crate::{Key, ParseFault};
use std::alloc::Global;
use tql_lex::{Sign, Token};
use tql_tree::Tree;

// The most levels that are open at a place. They bound how deep the calls below nest.
const LEVEL_LIMIT: u32 = 32;

// Returns whether the next token is an AND.
fn is_and_next(tokens: &[Token]) -> bool
    ensures { result ≡ next_is is_and tokens.now }
{
    match tokens {
        [] => false,
        [token, ..] => key_of(token) == Key::And,
    }
}

// Returns whether the next token is an OR.
fn is_or_next(tokens: &[Token]) -> bool
    ensures { result ≡ next_is is_or tokens.now }
{
    match tokens {
        [] => false,
        [token, ..] => key_of(token) == Key::Or,
    }
}

// Returns what follows the next token.
fn behind(tokens: &[Token]) -> &[Token]
    ensures { result.now ≡ drop 1 tokens.now }
{
    match tokens {
        [] => tokens,
        [_, rest @ ..] => rest,
    }
}

// Returns the fault that the next token opens too many levels.
fn deep(tokens: &[Token]) -> ParseFault
    ensures { result ≡ deep_at tokens.now }
{
    match tokens {
        [] => ParseFault::Ended,
        [token, ..] => ParseFault::Deep { place: token.place },
    }
}

// Returns the NOT of the unit at the front, and the tokens behind it.
#[cycle(parser)]
fn negated(alloc: Global, levels: u32, tokens: &[Token]) -> Result<(Tree, &[Token]), ParseFault>
    ensures { ParseGives (λ x. (syntax x.0, x.1.now)) result
        (not_with (unit_at levels) tokens.now) }
{
    let (tree, rest) = unit(alloc, levels, tokens)?;
    Ok((Tree::Not(Box::new(alloc, tree)?), rest))
}

// Returns the condition behind the `(` of a group, and the tokens behind its `)`.
#[cycle(parser)]
fn group(alloc: Global, levels: u32, tokens: &[Token]) -> Result<(Tree, &[Token]), ParseFault>
    ensures { ParseGives (λ x. (syntax x.0, x.1.now)) result
        (group_with (unit_at levels) tokens.now) }
{
    let (tree, rest) = cond(alloc, levels, tokens)?;
    let (_, rest) = expect(Key::Mark(Sign::Close), rest)?;
    Ok((tree, rest))
}

// Returns the EXISTS whose `(` is at the front, and the tokens behind its `)`.
#[cycle(parser)]
fn exists(alloc: Global, levels: u32, tokens: &[Token]) -> Result<(Tree, &[Token]), ParseFault>
    ensures { ParseGives (λ x. (syntax x.0, x.1.now)) result
        (exists_with (unit_at levels) tokens.now) }
{
    let ((var, table), rest) = head(tokens)?;
    let (tree, rest) = group(alloc, levels, rest)?;
    let tree = Tree::Exists {
        var: bytes_of(alloc, var)?,
        var_place: var.place,
        table,
        body: Box::new(alloc, tree)?,
    };
    Ok((tree, rest))
}

// Returns the unit at the front, with that many levels left, and the tokens behind it.
#[cycle(parser)]
fn unit(alloc: Global, levels: u32, tokens: &[Token]) -> Result<(Tree, &[Token]), ParseFault>
    ensures { ParseGives (λ x. (syntax x.0, x.1.now)) result (unit_at levels tokens.now) }
{
    match opening_at(tokens) {
        Opening::End => Err(ParseFault::Ended),
        Opening::Truth => Ok((Tree::True, behind(tokens))),
        Opening::Falsity => Ok((Tree::False, behind(tokens))),
        Opening::Negation => {
            if levels == 0 {
                return Err(deep(tokens));
            }
            negated(alloc, levels - 1, behind(tokens))
        }
        Opening::Group => {
            if levels == 0 {
                return Err(deep(tokens));
            }
            group(alloc, levels - 1, behind(tokens))
        }
        Opening::Quantifier => {
            if levels == 0 {
                return Err(deep(tokens));
            }
            exists(alloc, levels - 1, behind(tokens))
        }
        Opening::Comparison => compare(alloc, tokens),
    }
}

// Returns the units at the front that AND joins, and the tokens behind them.
#[cycle(parser)]
fn conj(alloc: Global, levels: u32, tokens: &[Token]) -> Result<(Tree, &[Token]), ParseFault>
    ensures { ParseGives (λ x. (syntax x.0, x.1.now)) result (conj_at levels tokens.now) }
{
    let (mut left, mut rest) = unit(alloc, levels, tokens)?;
    while is_and_next(rest) {
        let (right, after) = unit(alloc, levels, behind(rest))?;
        left = Tree::And(Box::new(alloc, left)?, Box::new(alloc, right)?);
        rest = after;
    }
    Ok((left, rest))
}

// Returns the conjunctions at the front that OR joins, and the tokens behind them.
#[cycle(parser)]
fn cond(alloc: Global, levels: u32, tokens: &[Token]) -> Result<(Tree, &[Token]), ParseFault>
    ensures { ParseGives (λ x. (syntax x.0, x.1.now)) result (cond_at levels tokens.now) }
{
    let (mut left, mut rest) = conj(alloc, levels, tokens)?;
    while is_or_next(rest) {
        let (right, after) = conj(alloc, levels, behind(rest))?;
        left = Tree::Or(Box::new(alloc, left)?, Box::new(alloc, right)?);
        rest = after;
    }
    Ok((left, rest))
}

// Returns the query that all tokens are.
fn query(alloc: Global, tokens: &[Token]) -> Result<Tree, ParseFault>
    ensures { ParseGives syntax result (query_at 32 tokens.now) }
{
    let (tree, rest) = cond(alloc, LEVEL_LIMIT, tokens)?;
    match rest {
        [] => Ok(tree),
        [token, ..] => Err(ParseFault::Unexpected { place: token.place }),
    }
}

/// Returns the tree of the query that all tokens are. NOT, the `(` of a group and EXISTS each open
/// a level, and at most 32 are open at a place. Chains of AND and OR are nested on the left and
/// open none: they are read by loops, so that only the levels make calls deeper. Tokens with a
/// number below 0, which `tql_lex::lex` never gives, are no query.
///
/// Faults: take the first token with which the tokens so far begin no query of at most 32 levels.
/// It is `Deep` if they begin one of more levels, and `Unexpected` if they begin none. If there is
/// no such token and the tokens are no query, they have `Ended` too early. `Memory` comes if out of
/// memory.
pub fn parse(alloc: Global, tokens: &[Token]) -> Result<Tree, ParseFault>
    // What is given is in the grammar.
    ensures found { IfOk result (λ tree. AreQueryTokens 32 tokens.now (syntax tree)) }
    // Counts of shifts are at least 0, and the left side of a `Has` is a field without a shift.
    ensures proper { IfOk result (λ tree. IsProper (syntax tree)) }
    // What is in the grammar is given, unless memory runs out.
    ensures only { (x : Syntax) → AreQueryTokens 32 tokens.now x → ParseGives syntax result (Ok x) }
    // A fault is at the first token with which the tokens begin no query of at most 32 levels.
    // At an unexpected one they begin none of more levels either, and at one that is too deep they
    // do.
    ensures unexpected { (p : ℕ) → result ≡ Err (ParseFault.Unexpected p)
        → UnexpectedAt 32 tokens.now p }
    ensures deep { (p : ℕ) → result ≡ Err (ParseFault.Deep p) → DeepAt 32 tokens.now p }
    // The tokens have ended too early if all of them begin a query but aren't one.
    ensures ended { result ≡ Err ParseFault.Ended
        → Begins 32 tokens.now × ((x : Syntax) → AreQueryTokens 32 tokens.now x → ⊥) }
    // Which fault it is.
    ensures exact { ParseGives syntax result (query_at 32 tokens.now) }
{
    query(alloc, tokens)
}

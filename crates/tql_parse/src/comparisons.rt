//! Reads comparisons and what else opens no level.
ghost use Rattle.std.specs.Prelude.{IfOk, ◌≤ℤ◌, pos};
ghost use Rattle.tql_parse.specs.Keys.{key, number_of_kind, bytes, is_word, is_number, is_key};
ghost use Rattle.tql_parse.specs.Reading.{ParseGives, one, unit_name, table_at, shift_after};
ghost use Rattle.tql_parse.specs.Reading.{shift_at, negative_at, now_at};
ghost use Rattle.tql_parse.specs.Reading.{today_at, moment_at, field_at, expr_at, head_at};
ghost use Rattle.tql_parse.specs.Reading.{right_at, compare_at};
ghost use Rattle.tql_tree.specs.Syntax.{syntax};

use crate::key::{bytes_of, is_any_word, is_plain_field, key_of, number_of};
use crate::{Key, ParseFault};
use std::alloc::Global;
use tql_lex::{Sign, Token};
use tql_tree::{Expr, Shift, Table, Tree, Unit};

/// Returns the next token, if it is this one, and the tokens behind it. `Unexpected` is at another
/// token, and `Ended` comes if there is none.
pub fn expect(wanted: Key, tokens: &[Token]) -> Result<(&Token, &[Token]), ParseFault>
    ensures { ParseGives (λ x. (x.0.now, x.1.now)) result
        (one (λ k. is_key wanted (key k)) tokens.now) }
{
    match tokens {
        [] => Err(ParseFault::Ended),
        [token, rest @ ..] => {
            if key_of(token) == wanted {
                Ok((token, rest))
            } else {
                Err(ParseFault::Unexpected { place: token.place })
            }
        }
    }
}

// Returns the number at the front, which is at least 0.
fn number(tokens: &[Token]) -> Result<(&Token, &[Token]), ParseFault>
    ensures value { ParseGives (λ x. (x.0.now, x.1.now)) result
        (one (λ k. is_number (key k)) tokens.now) }
    ensures least { IfOk result (λ x. pos 0 ≤ℤ number_of_kind x.0.now.kind) }
{
    match tokens {
        [] => Err(ParseFault::Ended),
        [token, rest @ ..] => {
            if matches!(key_of(token), Key::Number) {
                Ok((token, rest))
            } else {
                Err(ParseFault::Unexpected { place: token.place })
            }
        }
    }
}

// Returns the word at the front, reserved or not.
fn any_word(tokens: &[Token]) -> Result<(&Token, &[Token]), ParseFault>
    ensures { ParseGives (λ x. (x.0.now, x.1.now)) result (one is_word tokens.now) }
{
    match tokens {
        [] => Err(ParseFault::Ended),
        [token, rest @ ..] => {
            if is_any_word(token) {
                Ok((token, rest))
            } else {
                Err(ParseFault::Unexpected { place: token.place })
            }
        }
    }
}

// Returns the unit of time at the front.
fn unit_of_time(tokens: &[Token]) -> Result<(Unit, &[Token]), ParseFault>
    ensures { ParseGives (λ x. (x.0, x.1.now)) result (unit_name tokens.now) }
{
    match tokens {
        [] => Err(ParseFault::Ended),
        [token, rest @ ..] => match key_of(token) {
            Key::Unit(unit) => Ok((unit, rest)),
            _ => Err(ParseFault::Unexpected { place: token.place }),
        },
    }
}

// Returns the shift whose sign stands before the tokens.
fn shift_behind(
    place: u32,
    back: bool,
    tokens: &[Token],
) -> Result<(Option<Shift>, &[Token]), ParseFault>
    ensures { ParseGives (λ x. (x.0, x.1.now)) result (shift_after place back tokens.now) }
{
    let (count, rest) = number(tokens)?;
    let (unit, rest) = unit_of_time(rest)?;
    let shift = Shift {
        place,
        back,
        count_place: count.place,
        count: number_of(count),
        unit,
    };
    Ok((Some(shift), rest))
}

// Returns the shift at the front, if there is one.
fn shift(tokens: &[Token]) -> Result<(Option<Shift>, &[Token]), ParseFault>
    ensures { ParseGives (λ x. (x.0, x.1.now)) result (shift_at tokens.now) }
{
    match tokens {
        [] => Ok((None, tokens)),
        [token, rest @ ..] => match key_of(token) {
            Key::Mark(Sign::Plus) => shift_behind(token.place, false, rest),
            Key::Mark(Sign::Minus) => shift_behind(token.place, true, rest),
            _ => Ok((None, tokens)),
        },
    }
}

// Returns the field of the variable, from its `.` on.
fn field<'a>(
    alloc: Global,
    var: &Token,
    tokens: &'a [Token],
) -> Result<(Expr, &'a [Token]), ParseFault>
    ensures { ParseGives (λ x. (x.0, x.1.now)) result (field_at var.now tokens.now) }
{
    let (_, rest) = expect(Key::Mark(Sign::Dot), tokens)?;
    let (name, rest) = any_word(rest)?;
    let (shift, rest) = shift(rest)?;
    let expr = Expr::Field {
        var: bytes_of(alloc, var)?,
        var_place: var.place,
        field: bytes_of(alloc, name)?,
        field_place: name.place,
        shift,
    };
    Ok((expr, rest))
}

// Returns the table at the front.
fn table(tokens: &[Token]) -> Result<(Table, &[Token]), ParseFault>
    ensures { ParseGives (λ x. (x.0, x.1.now)) result (table_at tokens.now) }
{
    match tokens {
        [] => Err(ParseFault::Ended),
        [token, rest @ ..] => match key_of(token) {
            Key::Doc => Ok((Table::Docs, rest)),
            Key::Note => Ok((Table::Notes, rest)),
            _ => Err(ParseFault::Unexpected { place: token.place }),
        },
    }
}

// Returns the number below 0 whose `-` stands before the tokens.
fn negative(place: u32, tokens: &[Token]) -> Result<(Expr, &[Token]), ParseFault>
    ensures { ParseGives (λ x. (x.0, x.1.now)) result (negative_at place tokens.now) }
{
    let (token, rest) = number(tokens)?;
    let value = 0 - number_of(token);
    Ok((Expr::Number { place, value }, rest))
}

// Returns NOW, from its shift on.
fn now(place: u32, tokens: &[Token]) -> Result<(Expr, &[Token]), ParseFault>
    ensures { ParseGives (λ x. (x.0, x.1.now)) result (now_at place tokens.now) }
{
    let (shift, rest) = shift(tokens)?;
    Ok((Expr::Now { place, shift }, rest))
}

// Returns TODAY, from its shift on.
fn today(place: u32, tokens: &[Token]) -> Result<(Expr, &[Token]), ParseFault>
    ensures { ParseGives (λ x. (x.0, x.1.now)) result (today_at place tokens.now) }
{
    let (shift, rest) = shift(tokens)?;
    Ok((Expr::Today { place, shift }, rest))
}

// Returns the moment, from the text behind TIME on.
fn moment(alloc: Global, tokens: &[Token]) -> Result<(Expr, &[Token]), ParseFault>
    ensures { ParseGives (λ x. (x.0, x.1.now)) result (moment_at tokens.now) }
{
    let (token, rest) = expect(Key::Str, tokens)?;
    let (shift, rest) = shift(rest)?;
    let expr = Expr::Moment {
        place: token.place,
        text: bytes_of(alloc, token)?,
        shift,
    };
    Ok((expr, rest))
}

/// Returns the expression at the front, and the tokens behind it.
pub fn expr(alloc: Global, tokens: &[Token]) -> Result<(Expr, &[Token]), ParseFault>
    ensures { ParseGives (λ x. (x.0, x.1.now)) result (expr_at tokens.now) }
{
    match tokens {
        [] => Err(ParseFault::Ended),
        [token, rest @ ..] => {
            let place = token.place;
            match key_of(token) {
                Key::Number => Ok((
                    Expr::Number {
                        place,
                        value: number_of(token),
                    },
                    rest,
                )),
                Key::Mark(Sign::Minus) => negative(place, rest),
                Key::Str => {
                    let bytes = bytes_of(alloc, token)?;
                    Ok((Expr::Str { place, bytes }, rest))
                }
                Key::Now => now(place, rest),
                Key::Today => today(place, rest),
                Key::Time => moment(alloc, rest),
                Key::Name => field(alloc, token, rest),
                _ => Err(ParseFault::Unexpected { place }),
            }
        }
    }
}

// Returns the comparison with this left side, whose sign or HAS is at the front.
fn right(alloc: Global, left: Expr, tokens: &[Token]) -> Result<(Tree, &[Token]), ParseFault>
    ensures { ParseGives (λ x. (syntax x.0, x.1.now)) result (right_at left tokens.now) }
{
    match tokens {
        [] => Err(ParseFault::Ended),
        [token, rest @ ..] => {
            let place = token.place;
            match key_of(token) {
                Key::Mark(Sign::Compare(op)) => {
                    let (right, rest) = expr(alloc, rest)?;
                    let tree = Tree::Compare {
                        left,
                        op,
                        place,
                        right,
                    };
                    Ok((tree, rest))
                }
                Key::Has => {
                    if !is_plain_field(&left) {
                        return Err(ParseFault::Unexpected { place });
                    }
                    let (right, rest) = expr(alloc, rest)?;
                    Ok((Tree::Has { left, place, right }, rest))
                }
                _ => Err(ParseFault::Unexpected { place }),
            }
        }
    }
}

/// Returns the comparison at the front, and the tokens behind it.
pub fn compare(alloc: Global, tokens: &[Token]) -> Result<(Tree, &[Token]), ParseFault>
    ensures { ParseGives (λ x. (syntax x.0, x.1.now)) result (compare_at tokens.now) }
{
    let (left, rest) = expr(alloc, tokens)?;
    right(alloc, left, rest)
}

/// Returns the variable and the table of an EXISTS, from its `(` to its WHERE, and the tokens
/// behind that.
pub fn head(tokens: &[Token]) -> Result<((&Token, Table), &[Token]), ParseFault>
    ensures { ParseGives (λ x. ((x.0.0.now, x.0.1), x.1.now)) result (head_at tokens.now) }
{
    let (_, rest) = expect(Key::Mark(Sign::Open), tokens)?;
    let (var, rest) = expect(Key::Name, rest)?;
    let (_, rest) = expect(Key::Mark(Sign::Colon), rest)?;
    let (table, rest) = table(rest)?;
    let (_, rest) = expect(Key::Where, rest)?;
    Ok(((var, table), rest))
}

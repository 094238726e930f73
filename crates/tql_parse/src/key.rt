//! What a token is to the grammar.
ghost use Rattle.std.specs.Prelude.{◌≡◌, IfOk};
ghost use Rattle.tql_parse.specs.Keys.{condition_word, value_word, unit_word, word_key, key};
ghost use Rattle.tql_parse.specs.Keys.{number_of_kind, bytes, is_word, opening_of};
ghost use Rattle.tql_tree.specs.Proper.{is_plain};

use std::alloc::Global;
use tap_base::{Memory, Text};
use tql_lex::{Kind, Sign, Token};
use tql_tree::{Expr, Unit};

/// Says what a token is to the grammar: a reserved word, a name, a number, a text or a sign.
#[derive(Clone, Copy, Debug, PartialEq, Eq)]
pub enum Key {
    And,
    Or,
    Not,
    Exists,
    Where,
    Has,
    Doc,
    Note,
    Now,
    Time,
    Today,
    True,
    False,
    Unit(Unit),
    Name,
    Number,
    /// A number below 0, which no text has.
    Below,
    Str,
    Mark(Sign),
}

/// Says what a unit begins with.
#[derive(Clone, Copy, Debug, PartialEq, Eq)]
pub enum Opening {
    End,
    Truth,
    Falsity,
    Negation,
    Group,
    Quantifier,
    Comparison,
}

/// Returns what the unit at the front begins with.
pub fn opening_at(tokens: &[Token]) -> Opening
    ensures { result ≡ opening_of tokens.now }
{
    match tokens {
        [] => Opening::End,
        [token, ..] => match key_of(token) {
            Key::True => Opening::Truth,
            Key::False => Opening::Falsity,
            Key::Not => Opening::Negation,
            Key::Mark(Sign::Open) => Opening::Group,
            Key::Exists => Opening::Quantifier,
            _ => Opening::Comparison,
        },
    }
}

fn condition_key(word: &[u8]) -> Option<Key>
    ensures { result ≡ condition_word word.now }
{
    if word == b"and".as_slice() {
        Some(Key::And)
    } else if word == b"or".as_slice() {
        Some(Key::Or)
    } else if word == b"not".as_slice() {
        Some(Key::Not)
    } else if word == b"exists".as_slice() {
        Some(Key::Exists)
    } else if word == b"where".as_slice() {
        Some(Key::Where)
    } else if word == b"has".as_slice() {
        Some(Key::Has)
    } else {
        None
    }
}

// Returns the key of a word of tables, times and truths.
fn value_key(word: &[u8]) -> Option<Key>
    ensures { result ≡ value_word word.now }
{
    if word == b"doc".as_slice() {
        Some(Key::Doc)
    } else if word == b"note".as_slice() {
        Some(Key::Note)
    } else if word == b"now".as_slice() {
        Some(Key::Now)
    } else if word == b"time".as_slice() {
        Some(Key::Time)
    } else if word == b"today".as_slice() {
        Some(Key::Today)
    } else if word == b"true".as_slice() {
        Some(Key::True)
    } else if word == b"false".as_slice() {
        Some(Key::False)
    } else {
        None
    }
}

fn unit_key(word: &[u8]) -> Option<Key>
    ensures { result ≡ unit_word word.now }
{
    if word == b"second".as_slice() {
        Some(Key::Unit(Unit::Seconds))
    } else if word == b"seconds".as_slice() {
        Some(Key::Unit(Unit::Seconds))
    } else if word == b"minute".as_slice() {
        Some(Key::Unit(Unit::Minutes))
    } else if word == b"minutes".as_slice() {
        Some(Key::Unit(Unit::Minutes))
    } else if word == b"hour".as_slice() {
        Some(Key::Unit(Unit::Hours))
    } else if word == b"hours".as_slice() {
        Some(Key::Unit(Unit::Hours))
    } else if word == b"day".as_slice() {
        Some(Key::Unit(Unit::Days))
    } else if word == b"days".as_slice() {
        Some(Key::Unit(Unit::Days))
    } else {
        None
    }
}

// Returns the key of a reserved word, or that of a name.
fn key_of_word(word: &[u8]) -> Key
    ensures { result ≡ word_key word.now }
{
    if let Some(key) = condition_key(word) {
        return key;
    }
    if let Some(key) = value_key(word) {
        return key;
    }
    if let Some(key) = unit_key(word) {
        return key;
    }
    Key::Name
}

/// Returns what the token is to the grammar.
pub fn key_of(token: &Token) -> Key
    ensures { result ≡ key token.now.kind }
{
    match &token.kind {
        Kind::Word(word) => key_of_word(word.as_slice()),
        Kind::Number(n) => { if *n < 0 { Key::Below } else { Key::Number } }
        Kind::Str(_) => Key::Str,
        Kind::Mark(sign) => Key::Mark(*sign),
    }
}

/// Returns the number of a number, and 0 of another token.
pub fn number_of(token: &Token) -> i64
    ensures { result ≡ number_of_kind token.now.kind }
{
    match &token.kind {
        Kind::Number(n) => *n,
        _ => 0,
    }
}

/// Returns the bytes of a word or a text, and none of another token. `Memory` if out of memory.
pub fn bytes_of(alloc: Global, token: &Token) -> Result<Text, Memory>
    ensures { IfOk result (λ text. text ≡ bytes token.now.kind) }
{
    match &token.kind {
        Kind::Word(text) => Text::from_slice(alloc, text.as_slice()),
        Kind::Str(text) => Text::from_slice(alloc, text.as_slice()),
        _ => Ok(Text::new(alloc)),
    }
}

/// Returns whether the token is a word, reserved or not.
pub fn is_any_word(token: &Token) -> bool
    ensures { result ≡ is_word token.now.kind }
{
    matches!(&token.kind, Kind::Word(_))
}

/// Returns whether the expression is a field without a shift.
pub fn is_plain_field(expr: &Expr) -> bool
    ensures { result ≡ is_plain expr.now }
{
    matches!(expr, Expr::Field { shift: None, .. })
}

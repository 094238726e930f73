//! Reads the rule of one line.
ghost use Rattle.std.specs.Prelude.{◌≡◌, ◌-◌, length, take, drop};
ghost use Rattle.std.specs.Option.{option_copied};
ghost use Rattle.tql_core.specs.Condition.{Condition};
ghost use Rattle.tql_text.specs.Texts.{of_tree};
ghost use Rattle.tql_parse.specs.Reading.{query_at};
ghost use Rattle.tql_core.specs.Condition.{condition};
ghost use Rattle.filter_rules.specs.Rules.{rule_view};
ghost use Rattle.filter_rules.specs.RuleLines.{lex_place, parse_place, type_place, fault_place};
ghost use Rattle.filter_rules.specs.RuleLines.{is_this_word, number_in_token, text_in_token};
ghost use Rattle.filter_rules.specs.RuleLines.{is_of_now, place_of_now};
ghost use Rattle.filter_rules.specs.RuleLines.{is_priority, rated, timeless_rule, rule_with};
ghost use Rattle.filter_rules.specs.RuleLines.{rule_at, rule_of_tokens, rule_of, ReadsRule};

use crate::KeptRule;
use crate::line_fault::LineFault;
use std::alloc::Global;
use tap_base::{Text, is_name};
use tql_core::Cond;
use tql_lex::{Kind, LexFault, Token, lex};
use tql_parse::ParseFault;
use tql_text::{TextFault, read_tokens};
use tql_types::TypeFault;

// The most bytes of a line of a rule: as many as those of a query's text.
const LINE_LIMIT: u32 = 4096;

// Returns the place of a fault of tokens.
fn lex_place(fault: LexFault) -> u32
    ensures { result ≡ lex_place fault }
{
    match fault {
        LexFault::BadByte { place }
        | LexFault::OpenString { place }
        | LexFault::BigNumber { place } => place,
        LexFault::TooLong { .. } => LINE_LIMIT,
        LexFault::Memory => 0,
    }
}

// Returns the place of a fault of syntax, where PRIORITY stands at `ends`.
fn parse_place(ends: u32, fault: ParseFault) -> u32
    ensures { result ≡ parse_place ends fault }
{
    match fault {
        ParseFault::Unexpected { place } | ParseFault::Deep { place } => place,
        ParseFault::Ended => ends,
        ParseFault::Memory => 0,
    }
}

// Returns the place of a fault of types, where WHEN stands at `begins`.
fn type_place(begins: u32, fault: TypeFault) -> u32
    ensures { result ≡ type_place begins fault }
{
    match fault {
        TypeFault::NoVar { place }
        | TypeFault::NoField { place }
        | TypeFault::Clash { place }
        | TypeFault::Shadow { place }
        | TypeFault::BadTime { place }
        | TypeFault::BigSpan { place }
        | TypeFault::ManyVars { place } => place,
        TypeFault::ManyNodes => begins,
        TypeFault::Memory => 0,
    }
}

// Returns the place of a fault of a condition between WHEN and PRIORITY.
fn fault_place(begins: u32, ends: u32, fault: TextFault) -> u32
    ensures { result ≡ fault_place begins ends fault }
{
    match fault {
        TextFault::Lex(fault) => lex_place(fault),
        TextFault::Parse(fault) => parse_place(ends, fault),
        TextFault::Types(fault) => type_place(begins, fault),
        TextFault::Memory => 0,
    }
}

// Is the token this word?
fn is_this_word(kind: &Kind, name: &[u8]) -> bool
    ensures { result ≡ is_this_word name.now kind.now }
{
    match kind {
        Kind::Word(word) => word.as_slice() == name,
        Kind::Number(_) | Kind::Str(_) | Kind::Mark(_) => false,
    }
}

fn number_in_token(kind: &Kind) -> Option<i64>
    ensures { result ≡ number_in_token kind.now }
{
    match kind {
        Kind::Number(n) => Some(*n),
        Kind::Word(_) | Kind::Str(_) | Kind::Mark(_) => None,
    }
}

fn text_in_token(kind: &Kind) -> Option<&Text>
    ensures { option_copied result ≡ text_in_token kind.now }
{
    match kind {
        Kind::Str(text) => Some(text),
        Kind::Word(_) | Kind::Number(_) | Kind::Mark(_) => None,
    }
}

// Does the token name now or other rows?
fn is_of_now(kind: &Kind) -> bool
    ensures { result ≡ is_of_now kind.now }
{
    is_this_word(kind, b"now") || is_this_word(kind, b"today") || is_this_word(kind, b"exists")
}

// Returns the place of the first token that names now or other rows.
fn place_of_now(tokens: &[Token]) -> Option<u32>
    ensures { result ≡ place_of_now tokens.now }
{
    for token in tokens {
        if is_of_now(&token.kind) {
            return Some(token.place);
        }
    }
    None
}

// The greatest priority.
const PRIORITY_LIMIT: i64 = 1000;

// Is the number a priority?
fn is_priority(n: i64) -> bool
    ensures { result ≡ is_priority n }
{
    0 <= n && n <= PRIORITY_LIMIT
}

// Makes the rule, if its priority and its class may stand in one.
fn rated(
    cond: Cond,
    priority: i64,
    priority_place: u32,
    class: &Text,
    class_place: u32,
) -> Result<KeptRule, LineFault>
    ensures { ReadsRule (rated (condition cond) priority priority_place class.now class_place)
        result }
{
    if !is_priority(priority) {
        return Err(LineFault::At(priority_place));
    }
    if !is_name(class.as_slice()) {
        return Err(LineFault::At(class_place));
    }
    Ok(KeptRule {
        cond,
        priority: priority as u32,
        class: class.copy()?,
    })
}

// Makes the rule, if its condition names neither now nor other rows.
fn timeless_rule(
    middle: &[Token],
    cond: Cond,
    priority: i64,
    priority_place: u32,
    class: &Text,
    class_place: u32,
) -> Result<KeptRule, LineFault>
    ensures { ReadsRule (timeless_rule (place_of_now middle.now) (condition cond) priority
        priority_place class.now class_place) result }
{
    match place_of_now(middle) {
        Some(place) => Err(LineFault::At(place)),
        None => rated(cond, priority, priority_place, class, class_place),
    }
}

// Makes the rule of a line whose last four tokens fit: reads the condition first.
fn rule_with(
    alloc: Global,
    begins: u32,
    ends: u32,
    middle: &[Token],
    priority: i64,
    priority_place: u32,
    class: &Text,
    class_place: u32,
) -> Result<KeptRule, LineFault>
    ensures { ReadsRule (rule_with (of_tree (query_at 32 middle.now)) begins ends
        middle.now priority priority_place class.now class_place) result }
{
    match read_tokens(alloc, middle) {
        Ok(cond) => timeless_rule(middle, cond, priority, priority_place, class, class_place),
        Err(TextFault::Memory) => Err(LineFault::Memory),
        Err(fault) => Err(LineFault::At(fault_place(begins, ends, fault))),
    }
}

// Reads the rule of the tokens of a condition and of the four after it.
fn rule_at(
    alloc: Global,
    len: u32,
    begins: u32,
    middle: &[Token],
    last: &[Token],
) -> Result<KeptRule, LineFault>
    requires { length last.now ≡ 4 }
    ensures { ReadsRule (rule_at len begins middle.now last.now) result }
{
    let (Some(n), Some(class)) = (number_in_token(&last[1].kind), text_in_token(&last[3].kind))
    else {
        return Err(LineFault::At(len));
    };
    if !is_this_word(&last[0].kind, b"priority") || !is_this_word(&last[2].kind, b"class") {
        return Err(LineFault::At(len));
    }
    rule_with(
        alloc,
        begins,
        last[0].place,
        middle,
        n,
        last[1].place,
        class,
        last[3].place,
    )
}

// Reads the rule of the tokens after WHEN.
fn rule_after(alloc: Global, len: u32, begins: u32, rest: &[Token]) -> Result<KeptRule, LineFault>
    ensures { ReadsRule (rule_at len begins (take (length rest.now - 4) rest.now)
        (drop (length rest.now - 4) rest.now)) result }
{
    if rest.len() < 4 {
        return Err(LineFault::At(len));
    }
    let (middle, last) = rest.split_at(rest.len() - 4);
    rule_at(alloc, len, begins, middle, last)
}

// Reads the rule of a line's tokens.
fn rule_of_tokens(alloc: Global, len: u32, tokens: &[Token]) -> Result<KeptRule, LineFault>
    ensures { ReadsRule (rule_of_tokens len tokens.now) result }
{
    let Some((first, rest)) = tokens.split_first() else {
        return Err(LineFault::At(0));
    };
    if is_this_word(&first.kind, b"when") {
        rule_after(alloc, len, first.place, rest)
    } else {
        Err(LineFault::At(first.place))
    }
}

/// Reads the rule of a line. `At` gives the place of its first fault, in this order: a fault of its
/// tokens; a first token other than WHEN; the line's end, if the last four tokens aren't PRIORITY,
/// a number, CLASS and a text; a fault of the condition; a word that names now or other rows; a
/// number above 1,000; a text that is no name. `Memory` means out of memory.
#[tactic(auto, unfolding(crate::specs::RuleLines::rule_of))]
pub(crate) fn read_rule(alloc: Global, line: &[u8]) -> Result<KeptRule, LineFault>
    ensures { ReadsRule (rule_of line.now) result }
{
    if line.len() > LINE_LIMIT as usize {
        return Err(LineFault::At(LINE_LIMIT));
    }
    match lex(alloc, line) {
        Ok(tokens) => rule_of_tokens(alloc, line.len() as u32, &tokens),
        Err(LexFault::Memory) => Err(LineFault::Memory),
        Err(fault) => Err(LineFault::At(lex_place(fault))),
    }
}

//! Reads the rules of a filter's text.
ghost use Rattle.std.specs.Prelude.{◌≡◌, ◌⊎◌, ℕ, suc, List, ◌∷◌, map, length, Err, OnOk, IfOk};
ghost use Rattle.std.specs.Prelude.{IfErr, ◌≤◌, if◌then◌else◌};
ghost use Rattle.tap_base.specs.LineWords.{is_skipped};
ghost use Rattle.filter_rules.specs.Rules.{rule_view, rules_in};
ghost use Rattle.filter_rules.specs.RuleTexts.{rule_lines, rule_lines_from, rules_at, rules_of};
ghost use Rattle.filter_rules.specs.RuleTexts.{with_rules_before, IsWithin, ReadsRules};

use crate::line_fault::LineFault;
use crate::rule_line::read_rule;
use crate::{KeptRule, RuleFault, Rules};
use mail_lines::first_line;
use std::alloc::Global;
use tap_base::{Rows, is_blank_or_comment};

/// The most rules of a filter.
pub const RULE_LIMIT: usize = 64;

// Returns how many rules the line has: one, unless it is skipped.
fn is_rule(line: &[u8]) -> usize
    ensures { result ≡ if is_skipped line.now then 0 else 1 }
{
    if is_blank_or_comment(line) { 0 } else { 1 }
}

// Returns how many lines of rules a text has.
#[tactic(auto, using(crate::proofs::Lines::one_more))]
fn count_rules(text: &[u8]) -> usize
    ensures { result ≡ length (rule_lines text.now) }
{
    let mut rest = text;
    let mut count = 0;
    'lines: while !rest.is_empty() {
        let first = first_line(rest);
        count += is_rule(first.line);
        rest = first.rest;
    }
    count
}

// Reads the rule of the line of this number, if it has one, and appends it.
fn read_line(
    alloc: Global,
    number: usize,
    line: &[u8],
    items: &mut Rows<KeptRule>,
) -> Result<(), RuleFault>
    ensures ok { OnOk result ((more : List (List ℕ)) →
        with_rules_before (map rule_view items.old)
        (rules_at (rule_lines_from number (line.now ∷ more)))
        ≡ with_rules_before (map rule_view items.new)
        (rules_at (rule_lines_from (suc number) more))) }
    ensures err { IfErr result (λ fault.
        ((more : List (List ℕ)) → rules_at (rule_lines_from number (line.now ∷ more)) ≡ Err fault)
        ⊎ (fault ≡ RuleFault.Memory)) }
    ensures within { IfErr result (λ fault. IsWithin number fault) }
{
    if is_blank_or_comment(line) {
        return Ok(());
    }
    match read_rule(alloc, line) {
        Ok(rule) => {
            items.push(rule)?;
            Ok(())
        }
        Err(LineFault::At(place)) => Err(RuleFault::Line { number, place }),
        Err(LineFault::Memory) => Err(RuleFault::Memory),
    }
}

fn read_lines(alloc: Global, text: &[u8]) -> Result<Rules, RuleFault>
    ensures rules { ReadsRules (rules_at (rule_lines text.now)) result }
    ensures within { IfErr result (λ fault. IsWithin (length text.now) fault) }
{
    let mut items = Rows::new(alloc);
    let mut rest = text;
    let mut number = 1;
    'lines: while !rest.is_empty() {
        let first = first_line(rest);
        read_line(alloc, number, first.line, &mut items)?;
        rest = first.rest;
        number += 1;
    }
    Ok(Rules { items })
}

/// Reads the rules of a filter's text, one a line. Lines without words and lines whose first word
/// begins with `#` are skipped. `ManyRules` comes if there are more than 64 rules, before any is
/// read, since a count needs no memory. Otherwise
/// `Line` gives the first line that is no rule: its number among all lines, from 1, and the byte of
/// its first fault, from 0.
/// `Memory` means out of memory.
pub fn read_rules(alloc: Global, text: &[u8]) -> Result<Rules, RuleFault>
    ensures rules { ReadsRules (rules_of text.now) result }
    ensures few { IfOk result (λ rules. length (rules_in rules) ≤ 64) }
    ensures within { IfErr result (λ fault. IsWithin (length text.now) fault) }
{
    if count_rules(text) > RULE_LIMIT {
        return Err(RuleFault::ManyRules);
    }
    let rules = read_lines(alloc, text)?;
    Ok(rules)
}

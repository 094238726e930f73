//! The command that sets a user's filter.

ghost use Rattle.std.specs.Prelude.{◌≡◌, ◌⊎◌, ◌≤◌, ◌<◌, ◌+◌, ◌^◌, ◌++◌, [], ◌∷◌};
ghost use Rattle.std.specs.Prelude.{length, Some, None, OnOk, OnErr, IfOk, IfErr};
ghost use Rattle.std.specs.Result.{result_err};
ghost use Rattle.tap_rows.specs.declared.change.Change.{Change as RowChange};
ghost use Rattle.script_lang.specs.declared.command.Command.{Command};
ghost use Rattle.script_lang.specs.declared.refusal.Refusal.{Refusal};
ghost use Rattle.filter_rules.specs.Rules.{rules_in};
ghost use Rattle.filter_rules.specs.RuleTexts.{IsWithin};
ghost use Rattle.tap_model.specs.Filters.{rules_in_text};
ghost use Rattle.tap_model.specs.Sessions.{moment_or_zero, user_of};
ghost use Rattle.tap_model.specs.Verdicts.{first_refusal, rule_refusal, filter_fault, long_filter};
ghost use Rattle.tap_model.specs.Verdicts.{block_text};
ghost use Rattle.tap_kept.specs.Keeping.{with_owner};

use crate::define::push_owner;
use crate::engine::Engine;
use crate::limits::refuse_more;
use crate::prepared::Prepared;
use crate::undo::Undo;
use filter_rules::{RULE_LIMIT, RuleFault, Rules, read_rules};
use mail_lines::Block;
use script_lang::{FILTER_LIMIT, LimitName, Refusal, Reply};
use std::alloc::Global;
use tap_base::{Copied, Memory, Rows, Text, Texts};
use tap_kept::CachedFilter;
use tap_model::{FILTER_ROW_LIMIT, STORE_LIMIT, USER_LIMIT};
use tap_rows::{Change, FilterRow};

// Gives the text of a block, or refuses one that is too long.
fn text_in(block: Block) -> Result<Text, Refusal>
    ensures err { result_err result ≡ long_filter block }
    ensures ok { IfOk result (λ text. text ≡ block_text block) }
    ensures within { IfOk result (λ text. length text ≤ FILTER_LIMIT) }
{
    match block {
        Block::Whole(text) if text.len() <= FILTER_LIMIT as usize => Ok(text),
        _ => Err(Refusal::Limit(LimitName::Block)),
    }
}

// Gives the refusal for a fault of a filter's text.
fn refusal_of(fault: RuleFault) -> Refusal
    requires { IsWithin FILTER_LIMIT fault }
    ensures { (rule_refusal fault ≡ Some result) ⊎ (result ≡ Refusal.Memory) }
{
    match fault {
        RuleFault::Line { number, place } => Refusal::Rule {
            line: number as u32,
            place,
        },
        RuleFault::ManyRules => Refusal::ManyRules,
        RuleFault::Memory => Refusal::Memory,
    }
}

// Reads the rules of a filter's text, or refuses its first fault.
#[tactic(auto, unfolding(tap_model::specs::Verdicts::filter_fault, tap_model::specs::Filters::rules_in_text))]
fn read_fine_rules(alloc: Global, source: &[u8]) -> Result<Rules, Refusal>
    requires { length source.now ≤ FILTER_LIMIT }
    ensures fine { OnOk result (filter_fault source.now ≡ None) }
    ensures rules { IfOk result (λ rules. rules_in rules ≡ rules_in_text source.now) }
    ensures few { IfOk result (λ rules. length (rules_in rules) ≤ RULE_LIMIT) }
    ensures refusal { IfErr result (λ refusal. (filter_fault source.now ≡ Some refusal)
        ⊎ (refusal ≡ Refusal.Memory)) }
{
    match read_rules(alloc, source) {
        Ok(rules) => Ok(rules),
        Err(fault) => Err(refusal_of(fault)),
    }
}

// Adds a filter and its owner. At Err nothing has changed.
fn push_filter(
    filters: &mut Rows<CachedFilter>,
    owners: &mut Texts,
    kept: CachedFilter,
    owner: Text,
) -> Result<(), Memory>
    ensures filters { OnOk result (filters.new ≡ filters.old ++ kept ∷ []) }
    ensures owners { OnOk result (owners.new ≡ with_owner owners.old owner) }
    ensures err { OnErr result ((filters.new ≡ filters.old) × (owners.new ≡ owners.old)) }
{
    let len = owners.len();
    push_owner(owners, owner)?;
    let done = filters.push(kept);
    if done.is_err() {
        owners.cut(len);
    }
    done
}

impl Engine {
    ghost use Rattle.tap_engine.specs.Answering.{Prepares, RefusesAsModel};
    ghost use Rattle.tap_engine.specs.Standing.{RefusedAfter};
    ghost use Rattle.tap_engine.specs.Ready.{IsReady};
    ghost use Rattle.tap_engine.specs.FilterChecks.{filter_limits, early_filter, filter_refusal};

    // Refuses a filter of this user and length that would pass a limit.
    #[tactic(auto, unfolding(crate::specs::FilterChecks::filter_limits))]
    fn refuse_filter(&self, user: &[u8], len: usize) -> Result<(), Refusal>
        ensures value { result_err result ≡ first_refusal (filter_limits self.now user.now len) }
        ensures few { OnOk result (length self.now.filters < FILTER_ROW_LIMIT) }
        ensures bytes { OnOk result (self.now.bytes + len < 2 ^ 64) }
    {
        refuse_more(
            LimitName::Users,
            USER_LIMIT,
            self.owners.len(),
            self.new_users(user),
        )?;
        refuse_more(LimitName::Filters, FILTER_ROW_LIMIT, self.filters.len(), 1)?;
        refuse_more(LimitName::Store, STORE_LIMIT, self.bytes, len)
    }

    // Makes the row of a new filter and its rules, or gives the first refusal.
    fn new_filter(&self, alloc: Global, block: Block) -> Result<(FilterRow, Rules), Refusal>
        ensures checks { OnOk result (filter_refusal self.now block ≡ None) }
        ensures row { IfOk result (λ made. made.0 ≡ record {
          num = length self.now.filters + 1;
          owner = user_of self.now.session;
          source = block_text block;
          arrival = moment_or_zero self.now.session;
        }) }
        ensures rules { IfOk result (λ made. rules_in made.1 ≡ rules_in_text (block_text block)) }
        ensures few { IfOk result (λ made. length (rules_in made.1) ≤ RULE_LIMIT) }
        ensures refusal { IfErr result (λ refusal.
            RefusedAfter (early_filter self.now block) (filter_refusal self.now block) refusal) }
        ensures bytes { OnOk result (self.now.bytes + length (block_text block) < 2 ^ 64) }
    {
        let Some(moment) = self.session.moment else {
            return Err(Refusal::NoMoment);
        };
        let Some(user) = &self.session.user else {
            return Err(Refusal::NoUser);
        };
        let source = text_in(block)?;
        self.refuse_filter(user.as_slice(), source.len())?;
        let rules = read_fine_rules(alloc, source.as_slice())?;
        let row = FilterRow {
            num: self.filters.len() as u32 + 1,
            owner: user.copy()?,
            source,
            arrival: moment,
        };
        Ok((row, rules))
    }

    // Adds a filter, and gives its row as a change. At Err nothing has changed.
    fn add_filter(&mut self, row: FilterRow, rules: Rules) -> Result<Change, Memory>
        requires rules { rules_in rules ≡ rules_in_text row.source }
        requires bytes { self.old.bytes + length row.source < 2 ^ 64 }
        ensures change { IfOk result (λ change. change ≡ RowChange.OneFilter row) }
        ensures engine { OnOk result (self.new ≡ record self.old {
          filters = self.old.filters ++ row ∷ [];
          owners = with_owner self.old.owners row.owner;
          bytes = self.old.bytes + length row.source;
        }) }
        ensures err { OnErr result (self.new ≡ self.old) }
    {
        let len = row.source.len();
        let owner = row.owner.copy()?;
        let kept = CachedFilter::new(row.copied()?, rules);
        push_filter(&mut self.filters, &mut self.owners, kept, owner)?;
        self.bytes += len;
        Ok(Change::OneFilter(row))
    }

    // Sets the user's filter: the user's last filter rates the boxes.
    pub(crate) fn filter(&mut self, alloc: Global, block: Block) -> Result<Prepared, Refusal>
        requires ready { IsReady self.old }
        ensures ok { IfOk result (Prepares self.old (Command.Filter block) self.new) }
        ensures refusal { IfErr result (RefusesAsModel self.old (Command.Filter block)) }
        ensures err { OnErr result (self.new ≡ self.old) }
    {
        let undo = Undo::Filter {
            len: self.filters.len(),
            owners: self.owners.len(),
            bytes: self.bytes,
        };
        let (row, rules) = self.new_filter(alloc, block)?;
        let count = rules.len() as u32;
        let change = self.add_filter(row, rules)?;
        Ok(Prepared {
            reply: Reply::Filter(count),
            change: Some(change),
            undo,
        })
    }
}

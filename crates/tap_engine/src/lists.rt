//! What a query has delivered, rated by the user's last filter.

ghost use Rattle.std.specs.Prelude.{◌≡◌, ◌≤◌, ◌+◌, Some, None, true, length, IfOk, IfErr, OnOk};
ghost use Rattle.std.specs.List.{All};
ghost use Rattle.std.specs.Option.{option_copied};
ghost use Rattle.tap_base.specs.Names.{is_name};
ghost use Rattle.script_lang.specs.declared.command.Command.{Command};
ghost use Rattle.filter_rules.specs.Listings.{listing_of};
ghost use Rattle.tap_model.specs.Filters.{last_filter, filter_rules};
ghost use Rattle.tap_model.specs.Sessions.{user_of};

use crate::engine::Engine;
use appraiser::listing;
use filter_rules::Rules;
use row_index::RowIndex;
use script_lang::{Refusal, Reply};
use std::alloc::Global;
use std::sync::ledger::Ledger;
use tap_base::{Memory, Rows, Steps, Text};
use tap_kept::{CachedFilter, copy_entries};
use tap_rows::{Entry, Listed};

// Finds the last of the user's filters.
pub(crate) fn last_filter<'a>(filters: &'a [CachedFilter], user: &[u8]) -> Option<&'a CachedFilter>
    ensures { option_copied result ≡ last_filter user.now filters.now }
{
    let mut end = filters.len();
    'filters: while end > 0 {
        end -= 1;
        if filters[end].row().owner.as_slice() == user {
            return Some(&filters[end]);
        }
    }
    None
}

// Rates the entries of a box by a filter, or by no rules if there is no filter.
pub(crate) fn rate<'a, L: Ledger>(
    alloc: Global,
    filter: Option<&'a CachedFilter>,
    entries: &'a [Entry],
    index: &'a RowIndex,
    steps: &mut Steps<L>,
) -> Result<Rows<Listed>, Memory>
    ensures rows { IfOk result (λ rows.
        rows ≡ listing_of (filter_rules (option_copied filter.entry)) index.now.docs entries.now) }
    ensures steps { steps.new ≤ steps.old + length entries.now }
{
    match filter {
        Some(kept) => listing(alloc, kept.rules(), entries, index, steps),
        None => listing(alloc, &Rules::none(alloc), entries, index, steps),
    }
}

impl Engine {
    ghost use Rattle.tap_engine.specs.Answering.{IsReplyTo, RefusesAsModel};
    ghost use Rattle.tap_engine.specs.Standing.{look_refusal, cached_named, RefusedBy};
    ghost use Rattle.tap_engine.specs.Lists.{cached_rows};
    ghost use Rattle.tap_engine.specs.Costs.{TakesAtMost, cached_list_work};

    // Gives the session's user, or an empty text if it has none.
    fn user_name(&self) -> &[u8]
        ensures { result.now ≡ user_of self.now.session }
    {
        match &self.session.user {
            Some(user) => user.as_slice(),
            None => &[],
        }
    }

    // Rates what the user's query of this name has delivered by the user's last filter.
    fn rows_named<L: Ledger>(
        &self,
        alloc: Global,
        name: &[u8],
        steps: &mut Steps<L>,
    ) -> Result<Rows<Listed>, Refusal>
        ensures look { OnOk result (look_refusal self.now name.now ≡ None) }
        ensures rows { IfOk result (λ rows.
            Some rows ≡ cached_rows self.now (cached_named self.now name.now)) }
        ensures short { IfOk result (λ rows. All (λ row. length row.class ≤ 32) rows) }
        ensures refusal { IfErr result (λ refusal.
            RefusedBy (look_refusal self.now name.now) refusal) }
        ensures name { OnOk result (is_name name.now ≡ true) }
        ensures steps { steps.new ≤ steps.old + cached_list_work (cached_named self.now name.now) }
    {
        let kept = self.look(name)?;
        let filter = last_filter(self.filters.as_slice(), self.user_name());
        let entries = copy_entries(alloc, &kept.entries)?;
        let rows = rate(alloc, filter, entries.as_slice(), &self.index, steps)?;
        Ok(rows)
    }

    // Lists what the user's query of this name has delivered in the order of the ratings.
    pub(crate) fn show_list<L: Ledger>(
        &self,
        alloc: Global,
        name: Text,
        steps: &mut Steps<L>,
    ) -> Result<Reply, Refusal>
        ensures ok { IfOk result (IsReplyTo self.now (Command.ListOf name)) }
        ensures refusal { IfErr result (RefusesAsModel self.now (Command.ListOf name)) }
        ensures most { TakesAtMost self.now (Command.ListOf name) steps.old steps.new }
    {
        let rows = self.rows_named(alloc, name.as_slice(), steps)?;
        Ok(Reply::ListOf { name, rows })
    }
}

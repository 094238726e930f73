//! A filter in memory.

ghost use Rattle.std.specs.Prelude.{◌≡◌};
ghost use Rattle.tap_rows.specs.declared.rows.FilterRow.{FilterRow};
ghost use Rattle.filter_rules.specs.Rules.{rules_in};
ghost use Rattle.tap_model.specs.Filters.{rules_in_text};

use filter_rules::Rules;
use std::marker::Model;
use tap_rows::FilterRow;

/// A filter in memory: its row, and the rules that its text says. Contracts see it as its row.
#[derive(Drop)]
pub struct CachedFilter {
    row: FilterRow,
    rules: Rules,
}

impl Model for CachedFilter {
    ghost Value = { FilterRow };

    ghost view = { λ kept. kept.row };

    ghost invariant = { λ kept. rules_in kept.rules ≡ rules_in_text kept.row.source };
}

impl CachedFilter {
    /// Joins a row and the rules of its text.
    pub fn new(row: FilterRow, rules: Rules) -> CachedFilter
        requires { rules_in rules ≡ rules_in_text row.source }
        ensures { result ≡ row }
    {
        CachedFilter { row, rules }
    }

    pub fn row(&self) -> &FilterRow
        ensures { result.now ≡ self.now }
    {
        &self.row
    }

    pub fn rules(&self) -> &Rules
        ensures { rules_in result.now ≡ rules_in_text self.now.source }
    {
        &self.rules
    }
}

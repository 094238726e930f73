//! A user's box and the texts of its documents, whoever the session's user is.

ghost use Rattle.std.specs.Prelude.{◌≡◌, ◌+◌, length, option_to_list, IfOk};
ghost use Rattle.std.specs.Option.{option_copied};

use crate::engine::Engine;
use crate::lists::{last_filter, rate};
use std::alloc::Global;
use std::sync::ledger::Ledger;
use tap_base::{DocNum, Memory, Rows, Steps, is_name};
use tap_kept::{CachedQuery, copy_entries};
use tap_rows::Listed;

impl Engine {
    ghost use Rattle.tap_engine.specs.Lists.{cached_of, rated_by, listing_in, text_in};
    ghost use Rattle.tap_engine.specs.Standing.{OverTables, OverSound};

    // Finds a user's query of this name. There is none if one of the two isn't a valid name.
    fn query_of_user(&self, user: &[u8], name: &[u8]) -> Option<&CachedQuery>
        ensures { option_copied result ≡ cached_of user.now name.now self.now }
    {
        if is_name(user) && is_name(name) {
            self.queries.named(user, name)
        } else {
            None
        }
    }

    // Rates what a query has delivered by a user's last filter.
    fn rated<L: Ledger>(
        &self,
        alloc: Global,
        user: &[u8],
        kept: &CachedQuery,
        steps: &mut Steps<L>,
    ) -> Result<Rows<Listed>, Memory>
        ensures { IfOk result (λ rows. rows ≡ rated_by user.now self.now kept.now) }
    {
        let filter = last_filter(self.filters.as_slice(), user);
        let entries = copy_entries(alloc, &kept.entries)?;
        let rows = rate(alloc, filter, entries.as_slice(), &self.index, steps)?;
        Ok(rows)
    }

    /// Lists the user's box of this name in the order of the ratings by the user's last filter, as
    /// the command `list` does for the session's user. `None` comes if and only if one of the two
    /// is no name or the user has no query of this name. Fails with `Memory` when out of memory.
    pub fn listing<L: Ledger>(
        &self,
        alloc: Global,
        user: &[u8],
        name: &[u8],
        steps: &mut Steps<L>,
    ) -> Result<Option<Rows<Listed>>, Memory>
        ensures { IfOk result (λ rows. OverSound self.now (λ t.
            rows ≡ listing_in user.now name.now t)) }
    {
        match self.query_of_user(user, name) {
            Some(kept) => Ok(Some(self.rated(alloc, user, kept, steps)?)),
            None => Ok(None),
        }
    }

    /// Returns the text of the document of this number, at the cost of a step. `None` comes if and
    /// only if there is no such document, and then no step. It takes no memory.
    pub fn text_of<L: Ledger>(&self, doc: DocNum, steps: &mut Steps<L>) -> Option<&[u8]>
        ensures text { option_copied result ≡ text_in doc.0 self.now.index.docs }
        ensures tables { OverTables self.now (λ t. option_copied result ≡ text_in doc.0 t.docs) }
        ensures steps { steps.new ≡ steps.old + length (option_to_list (option_copied result)) }
    {
        match self.index.doc(doc, steps) {
            Some(row) => Some(row.doc().text.as_slice()),
            None => None,
        }
    }
}

//! The rules of a filter.
ghost use Rattle.std.specs.Prelude.{◌≡◌, [], length};
ghost use Rattle.filter_rules.specs.Rules.{rules_in};

use crate::KeptRule;
use std::alloc::Global;
use tap_base::Rows;

/// The rules of a filter, in the order of their lines.
#[derive(Drop)]
pub struct Rules {
    pub(crate) items: Rows<KeptRule>,
}

impl Rules {
    /// Returns a filter without rules.
    pub fn none(alloc: Global) -> Rules
        ensures { rules_in result ≡ [] }
    {
        Rules {
            items: Rows::new(alloc),
        }
    }

    /// Returns how many rules there are.
    pub fn len(&self) -> usize
        ensures { result ≡ length (rules_in self.now) }
    {
        self.items.len()
    }
}

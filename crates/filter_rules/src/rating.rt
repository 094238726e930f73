//! Rates documents by rules.
ghost use Rattle.std.specs.Prelude.{◌≡◌, max, map};
ghost use Rattle.filter_rules.specs.Rules.{rules_in, rule_view};
ghost use Rattle.filter_rules.specs.Ratings.{priority_of, class_of};

use crate::{KeptRule, Rules};
use tap_rows::KeptDoc;

/// The rating of a document.
#[derive(Clone, Copy)]
pub struct Rating<'a> {
    /// From 0 to 1,000.
    pub priority: u32,
    /// A name.
    pub class: &'a [u8],
}

// Returns the greater number.
fn greater(a: u32, b: u32) -> u32
    ensures { result ≡ max a b }
{
    if a < b { b } else { a }
}

// Rates a document by some rules, from the last to the first.
fn rate<'a>(rules: &'a [KeptRule], doc: &'a KeptDoc) -> Rating<'a>
    ensures priority { result.priority ≡ priority_of (map rule_view rules.now) doc.now }
    ensures class { result.class.now ≡ class_of (map rule_view rules.now) doc.now }
{
    let Some((rule, rest)) = rules.split_first() else {
        return Rating {
            priority: 0,
            class: b"other",
        };
    };
    let rating = rate(rest, doc);
    if rule.holds_for(doc) {
        Rating {
            priority: greater(rule.priority, rating.priority),
            class: rule.class.as_slice(),
        }
    } else {
        rating
    }
}

/// Rates a document: its priority is the greatest of the rules that hold for it, 0 if none does;
/// its class is that of the first of them, `other` if none does. It takes no memory.
pub fn appraise<'a>(rules: &'a Rules, doc: &'a KeptDoc) -> Rating<'a>
    ensures priority { result.priority ≡ priority_of (rules_in rules.now) doc.now }
    ensures class { result.class.now ≡ class_of (rules_in rules.now) doc.now }
{
    rate(rules.items.as_slice(), doc)
}

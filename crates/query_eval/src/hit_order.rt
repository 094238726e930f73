//! Hits in order of their second, then of their document.

ghost use Rattle.std.specs.Prelude.{◌≡◌};
ghost use Rattle.std.specs.Ordering.{is_lt};
ghost use Rattle.tap_rows.specs.Results.{is_before};
ghost use Rattle.tap_rows.specs.declared.results.Hit.{Hit};
ghost use Rattle.query_eval.specs.HitLists.{HitsAreApart, InOrder, HaveSame};

use std::cmp::Ordering;
use tap_rows::Hit;

// Compares hits by second, then by document.
fn compare(a: &Hit, b: &Hit) -> Ordering
    ensures { is_lt result ≡ is_before a.now b.now }
{
    a.first.cmp(&b.first).then(a.doc.0.cmp(&b.doc.0))
}

/// Puts hits of distinct documents in order. It takes no memory.
pub(crate) fn put_in_order(hits: &mut [Hit])
    requires { HitsAreApart hits.old }
    ensures order { InOrder hits.new }
    ensures same { HaveSame hits.old hits.new }
{
    hits.sort_unstable_by(|a, b| compare(a, b));
}

//! The hits of a probe that compares one text of the query's document with a literal and asks for
//! nothing else.

ghost use Rattle.std.specs.Prelude.{◌≡◌, ◌+◌, ◌≤◌, length};
ghost use Rattle.std.specs.List.{flat_map};
ghost use Rattle.tql_core.specs.Bindings.{row_of};
ghost use Rattle.tql_core.specs.Row.{OfDoc};
ghost use Rattle.time_marks.specs.Seeks.{CanSeek};
ghost use Rattle.probe_eval.specs.Drivers.{walked};
ghost use Rattle.probe_eval.specs.Listed.{listed_hit, marked_hit, listed_hits};
ghost use Rattle.probe_eval.specs.Searches.{searched};
ghost use Rattle.query_eval.specs.Placed.{CanStoreHits, Stores};

use crate::least_hits::LeastHits;
use probe_eval::{Search, mark_in, new_doc, walked};
use std::sync::ledger::Ledger;
use tap_base::Steps;
use tap_rows::{Hit, KeptDoc};
use time_marks::{Seek, Window};
use tql_core::{Env, RowRef, Var, value};

// Stores the hit of the document with the mark, if the mark isn't before it and it isn't in the
// box.
fn collect_doc(search: &Search, doc: &KeptDoc, mark: i64, into: &mut LeastHits)
    requires { CanStoreHits into.old }
    ensures hits { Stores into.old into.new (listed_hit search.now.seen.now mark (OfDoc doc.now)) }
    ensures ready { CanStoreHits into.new }
    ensures places { length into.new.places.items ≡ length into.old.places.items }
{
    if doc.doc().arrival <= mark {
        if let Some(num) = new_doc(search.seen, doc) {
            into.keep(Hit {
                doc: num,
                first: mark,
            });
        }
    }
}

// Stores the hit of the row with the mark, if there is one, it isn't before the row, and the row is
// a document that isn't in the box.
fn collect_marked(search: &Search, row: RowRef<'_>, mark: Option<i64>, into: &mut LeastHits)
    requires { CanStoreHits into.old }
    ensures hits { Stores into.old into.new
        (marked_hit search.now.seen.now (row_of row.entry) mark) }
    ensures ready { CanStoreHits into.new }
    ensures places { length into.new.places.items ≡ length into.old.places.items }
{
    match (mark, row) {
        (Some(mark), RowRef::OfDoc(doc)) => collect_doc(search, doc, mark, into),
        _ => {}
    }
}

// Stores the hits of the rows that are walked, each of which is found at each mark that isn't
// before it.
pub(crate) fn collect_listed<'a, L: Ledger>(
    search: &Search<'a>,
    seek: Seek,
    var: Var,
    w: Window,
    into: &mut LeastHits,
    steps: &mut Steps<L>,
)
    requires window { CanSeek seek w }
    requires ready { CanStoreHits into.old }
    ensures hits { Stores into.old into.new
        (flat_map (listed_hits search.now.seen.now w (searched search.now) var)
        (walked search.now.index.now w (searched search.now) seek var)) }
    ensures ready { CanStoreHits into.new }
    ensures places { length into.new.places.items ≡ length into.old.places.items }
    ensures steps { steps.new
        ≤ steps.old + length (walked search.now.index.now w (searched search.now) seek var) }
    ensures more { steps.old ≤ steps.new }
{
    let mut rows = walked(search, seek, var, w);
    let free = Env::new();
    while let Some(row) = rows.next(steps) {
        let mark = mark_in(w, value(search.probe.at, &free.bind(var, row)));
        collect_marked(search, row, mark, into);
    }
}

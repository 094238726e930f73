//! Lists a box in the order of its ratings.
ghost use Rattle.std.specs.Prelude.{◌≡◌, ◌≤◌, ◌+◌, ◌++◌, ◌∷◌, [], map, length, IfOk, OnOk};
ghost use Rattle.std.specs.Option.{option_copied};
ghost use Rattle.tap_rows.specs.WellFormed.{row_at};
ghost use Rattle.filter_rules.specs.Rules.{rules_in};
ghost use Rattle.appraiser.specs.Ranks.{rank_of};
ghost use Rattle.filter_rules.specs.Listings.{listed_of, rated_entry, is_above, sorted_by};
ghost use Rattle.filter_rules.specs.Listings.{listing_of};

use filter_rules::{Rules, appraise};
use row_index::RowIndex;
use std::alloc::Global;
use std::cmp::Reverse;
use std::sync::ledger::Ledger;
use tap_base::{DocNum, Memory, Rows, Steps, Text};
use tap_rows::{Entry, KeptDoc, Listed};

/// What rows are put in order by: the priority from the greatest, the first second, the document.
#[derive(Clone, Copy, PartialEq, Eq, PartialOrd, Ord)]
struct Rank {
    priority: Reverse<u32>,
    first: i64,
    doc: u32,
}

fn rank_of(row: &Listed) -> Rank
    ensures { result ≡ rank_of row.now }
{
    Rank {
        priority: Reverse(row.priority),
        first: row.entry.first,
        doc: row.entry.doc.0,
    }
}

// Returns the document of a number, at the cost of a step if there is one.
fn doc_of<'a, L: Ledger>(
    index: &'a RowIndex,
    num: DocNum,
    steps: &mut Steps<L>,
) -> Option<&'a KeptDoc>
    ensures doc { option_copied result ≡ row_at num.0 index.now.docs }
    ensures steps { steps.new ≤ steps.old + 1 }
{
    // The call gives the clause that the index's documents are those of its tables; its value is
    // not needed.
    let _docs = index.docs();
    index.doc(num, steps)
}

// Rates an entry by its document; without one, as no rules do.
fn rate_entry<'a>(
    alloc: Global,
    rules: &'a Rules,
    entry: Entry,
    doc: Option<&'a KeptDoc>,
) -> Result<Listed, Memory>
    ensures { IfOk result (λ row.
        row ≡ listed_of (rules_in rules.now) entry (option_copied doc.entry)) }
{
    match doc {
        None => Ok(Listed {
            entry,
            priority: 0,
            class: Text::from_slice(alloc, b"other")?,
        }),
        Some(doc) => {
            let rating = appraise(rules, doc);
            Ok(Listed {
                entry,
                priority: rating.priority,
                class: Text::from_slice(alloc, rating.class)?,
            })
        }
    }
}

// Rates each entry by its document.
fn rate_entries<'a, L: Ledger>(
    alloc: Global,
    rules: &'a Rules,
    entries: &'a [Entry],
    index: &'a RowIndex,
    steps: &mut Steps<L>,
) -> Result<Vec<Listed>, Memory>
    ensures rows { IfOk result (λ rows.
        rows.items ≡ map (rated_entry (rules_in rules.now) index.now.docs) entries.now) }
    ensures steps { steps.new ≤ steps.old + length entries.now }
{
    let mut rows = Vec::new(alloc);
    for entry in entries {
        let doc = doc_of(index, entry.doc, steps);
        rows.push(rate_entry(alloc, rules, *entry, doc)?)?;
    }
    Ok(rows)
}

// Sorts rows by priority from the greatest, then first second, then document.
fn sort_rows(rows: &mut Vec<Listed>) -> Result<(), Memory>
    ensures { OnOk result (rows.new.items ≡ sorted_by is_above rows.old.items) }
{
    rows.sort_by_key(|row| rank_of(row))?;
    Ok(())
}

/// Returns the entries of a box, each with the rating of its document, sorted by priority from the
/// greatest, then by first second, then by document number. Each entry costs at most one step, for
/// the look-up of its document. An entry without a document in the index is rated as no rules rate
/// it. `Memory` means out of memory.
pub fn listing<'a, L: Ledger>(
    alloc: Global,
    rules: &'a Rules,
    entries: &'a [Entry],
    index: &'a RowIndex,
    steps: &mut Steps<L>,
) -> Result<Rows<Listed>, Memory>
    ensures rows { IfOk result (λ rows.
        rows ≡ listing_of (rules_in rules.now) index.now.docs entries.now) }
    ensures steps { steps.new ≤ steps.old + length entries.now }
{
    let mut rows = rate_entries(alloc, rules, entries, index, steps)?;
    sort_rows(&mut rows)?;
    Ok(Rows::from_vec(rows))
}

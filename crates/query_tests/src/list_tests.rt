//! Tests of what is shown of two documents: a box by priority, and a digest.

ghost use Rattle.std.specs.Prelude.{◌≡◌, ◌<◌};
ghost use Rattle.tap_base.specs.Ledgers.{IsBlankOf};

use crate::documents::two_docs;
use appraiser::listing;
use digest_mail::digest;
use filter_rules::{Rules, read_rules};
use row_index::RowIndex;
use std::alloc::Global;
use std::marker::Brand;
use std::sync::ledger::{Blank, Ledger};
use tap_base::{DocNum, Memory, Steps, Texts};
use tap_rows::Entry;

// Returns a delivery of the first run.
fn entry(doc: u32, first: i64) -> Entry {
    Entry {
        doc: DocNum(doc),
        first,
        run: 1,
    }
}

// Returns the numbers and priorities of a box of two documents.
fn listed_in<L: Ledger>(
    alloc: Global,
    rules: &Rules,
    index: &RowIndex,
    steps: &mut Steps<L>,
) -> Result<Option<[(u32, u32); 2]>, Memory> {
    let entries = [entry(1, 100), entry(2, 101)];
    let rows = listing(alloc, rules, &entries, index, steps)?;
    let found = match rows.as_slice() {
        [a, b] => Some([(a.entry.doc.0, a.priority), (b.entry.doc.0, b.priority)]),
        _ => None,
    };
    drop(rows);
    Ok(found)
}

// Returns the numbers and priorities of a box of two documents, rated by these rules.
fn listed_by<L: Ledger>(
    alloc: Global,
    blank: Blank,
    rules: &Rules,
) -> Result<Option<[(u32, u32); 2]>, Memory>
    requires blank { IsBlankOf L.name L.parts blank }
{
    let index = two_docs(alloc)?;
    let mut steps = Steps::<L>::start(blank);
    let found = listed_in(alloc, rules, &index, &mut steps);
    drop(index);
    found
}

// Returns the numbers and priorities of a box of two documents, rated by a rule for the second.
fn listed<L: Ledger>(alloc: Global, blank: Blank) -> Result<Option<[(u32, u32); 2]>, Memory>
    requires blank { IsBlankOf L.name L.parts blank }
{
    match read_rules(alloc, b"WHEN m.id = 2 PRIORITY 5 CLASS 'a'\n") {
        Ok(rules) => {
            let found = listed_by::<L>(alloc, blank, &rules);
            drop(rules);
            found
        }
        Err(_) => Ok(None),
    }
}

#[test]
fn a_box_is_listed_by_priority(rt: HostRuntime) -> Result<(), Memory> {
    let rows = listed::<Brand>(rt.alloc(), Blank::new(1))?;
    assert!(rt; rows == Some([(2, 5), (1, 0)]));
    Ok(())
}

// Returns the lines of the digest of a run over two documents without texts, which an entry without
// a document comes between.
fn digested<L: Ledger>(alloc: Global, blank: Blank) -> Result<Texts, Memory>
    requires blank { IsBlankOf L.name L.parts blank }
{
    let index = two_docs(alloc)?;
    let mut steps = Steps::<L>::start(blank);
    let entries = [entry(2, 100), entry(3, 100), entry(1, 100)];
    let lines = digest(alloc, b"all", 4294967295, &entries, &index, &mut steps);
    drop(index);
    lines
}

// Returns whether a text has these lines.
fn are_lines(lines: &Texts, want: &[&[u8]]) -> bool {
    for (line, wanted) in lines.as_slice().iter().zip(want) {
        if line.as_slice() != *wanted {
            return false;
        }
    }
    lines.len() == want.len()
}

#[test]
fn a_digest_has_its_documents_in_the_order_of_the_entries(rt: HostRuntime) -> Result<(), Memory> {
    let lines = digested::<Brand>(rt.alloc(), Blank::new(1))?;
    let want: [&[u8]; 7] = [
        b"From: tapestry",
        b"Subject: digest all 4294967295",
        b"",
        b"From doc 2 first 100",
        b"",
        b"From doc 1 first 100",
        b"",
    ];
    assert!(rt; are_lines(&lines, &want));
    drop(lines);
    Ok(())
}

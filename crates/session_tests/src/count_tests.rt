//! Each limit of how much is stored, and one past it, over tables that are just below it. Those of
//! documents, notes and deliveries take up to three seconds once they are proved, and more than a
//! minute in the checked build.

ghost use Rattle.keeper_core.specs.States.{IsFreeInMemory};

use keeper_core::MemKeeper;
use session_runs::{edges_of, push_number, written_over};
use std::alloc::Global;
use tap_base::{DocNum, Memory, NoteNum, QueryNum, Rows, SharedText, Text};
use tap_rows::{Doc, FilterRow, Note, Pick, QueryRow, RunRow, Tables};

// How many rows each table has, and how many bytes each note.
#[derive(Clone, Copy)]
struct Counts {
    docs: u32,
    notes: u32,
    note_bytes: usize,
    queries: u32,
    runs: u32,
    picks: u32,
    filters: u32,
}

// No rows.
const EMPTY: Counts = Counts {
    docs: 0,
    notes: 0,
    note_bytes: 0,
    queries: 0,
    runs: 0,
    picks: 0,
    filters: 0,
};

// Each of 1,999 queries has delivered 2,001 documents, if there are deliveries: together 3,999,999.
const RUN_QUERIES: u32 = 1999;

const RUN_DOCS: u32 = 2001;

// Adds documents that share a text.
fn push_docs(docs: &mut Rows<Doc>, count: u32, text: &SharedText) -> Result<(), Memory> {
    for k in 0..count {
        docs.push(Doc {
            num: DocNum(k.saturating_add(1)),
            arrival: 1,
            text: text.copy()?,
        })?;
    }
    Ok(())
}

// Adds documents without bytes.
fn add_docs(alloc: Global, docs: &mut Rows<Doc>, count: u32) -> Result<(), Memory> {
    let text = SharedText::of(alloc, Text::new(alloc))?;
    let pushed = push_docs(docs, count, &text);
    drop(text);
    pushed
}

// Returns a note on the first document.
fn note(alloc: Global, k: u32, text: &Text) -> Result<Note, Memory> {
    let author = Text::from_slice(alloc, b"ann")?;
    let kind = Text::from_slice(alloc, b"k")?;
    let text = text.copy()?;
    Ok(Note {
        num: NoteNum(k.saturating_add(1)),
        doc: DocNum(1),
        author,
        kind,
        value: 1,
        arrival: 1,
        text,
    })
}

// Adds notes of that many bytes.
fn add_notes(
    alloc: Global,
    notes: &mut Rows<Note>,
    count: u32,
    bytes: usize,
) -> Result<(), Memory> {
    let text = Text::from_vec(alloc, vec![in alloc; b'x'; bytes]?);
    for k in 0..count {
        notes.push(note(alloc, k, &text)?)?;
    }
    Ok(())
}

// Returns a letter with a number behind it.
fn numbered(alloc: Global, letter: &[u8], k: u32) -> Result<Text, Memory> {
    let mut text = Text::from_slice(alloc, letter)?;
    push_number(&mut text, k)?;
    Ok(text)
}

// Returns a query. A user has 64.
fn query(alloc: Global, k: u32) -> Result<QueryRow, Memory> {
    let owner = numbered(alloc, b"u", k / 64)?;
    let name = numbered(alloc, b"q", k % 64)?;
    let source = Text::from_slice(alloc, b"TRUE")?;
    Ok(QueryRow {
        num: QueryNum(k.saturating_add(1)),
        owner,
        name,
        source,
        arrival: 1,
    })
}

fn add_queries(alloc: Global, queries: &mut Rows<QueryRow>, count: u32) -> Result<(), Memory> {
    for k in 0..count {
        queries.push(query(alloc, k)?)?;
    }
    Ok(())
}

// Adds runs of the queries in turn.
fn add_runs(runs: &mut Rows<RunRow>, count: u32) -> Result<(), Memory> {
    for k in 0..count {
        runs.push(RunRow {
            num: k.saturating_add(1),
            query: QueryNum((k % RUN_QUERIES).saturating_add(1)),
            moment: 2,
        })?;
    }
    Ok(())
}

// Adds deliveries of the first run of each query.
fn add_picks(picks: &mut Rows<Pick>, count: u32) -> Result<(), Memory> {
    for k in 0..count {
        let run = (k / RUN_DOCS).saturating_add(1);
        picks.push(Pick {
            num: k.saturating_add(1),
            query: QueryNum(run),
            run,
            doc: DocNum((k % RUN_DOCS).saturating_add(1)),
            first: 1,
        })?;
    }
    Ok(())
}

// Returns a filter without rules, of one of 999 users.
fn filter(alloc: Global, k: u32) -> Result<FilterRow, Memory> {
    let owner = numbered(alloc, b"u", k % 999)?;
    Ok(FilterRow {
        num: k.saturating_add(1),
        owner,
        source: Text::new(alloc),
        arrival: 1,
    })
}

fn add_filters(alloc: Global, filters: &mut Rows<FilterRow>, count: u32) -> Result<(), Memory> {
    for k in 0..count {
        filters.push(filter(alloc, k)?)?;
    }
    Ok(())
}

// Adds rows to tables.
fn fill(alloc: Global, tables: &mut Tables, counts: &Counts) -> Result<(), Memory> {
    add_docs(alloc, &mut tables.docs, counts.docs)?;
    add_notes(alloc, &mut tables.notes, counts.notes, counts.note_bytes)?;
    add_queries(alloc, &mut tables.queries, counts.queries)?;
    add_runs(&mut tables.runs, counts.runs)?;
    add_picks(&mut tables.picks, counts.picks)?;
    add_filters(alloc, &mut tables.filters, counts.filters)
}

// Returns tables with that many rows.
fn tables_of(alloc: Global, counts: &Counts) -> Result<Tables, Memory> {
    let mut tables = Tables::empty(alloc);
    match fill(alloc, &mut tables, counts) {
        Ok(()) => Ok(tables),
        Err(Memory) => {
            drop(tables);
            Err(Memory)
        }
    }
}

// Runs a script over a keeper; returns the status and what was written.
fn run_over(alloc: Global, keeper: &mut MemKeeper, script: &[u8]) -> Result<(u8, Text), Memory>
    requires free { IsFreeInMemory keeper.old }
{
    let (source, sink) = edges_of(alloc, script, 4096, Vec::new(alloc), 4096, Vec::new(alloc))?;
    written_over(alloc, keeper, source, sink)
}

// Runs a script over tables with that many rows; returns the status and what was written.
fn answers_over(alloc: Global, counts: &Counts, script: &[u8]) -> Result<(u8, Text), Memory> {
    let tables = tables_of(alloc, counts)?;
    let mut keeper = MemKeeper::new(alloc, tables, 2, Vec::new(alloc));
    let ended = run_over(alloc, &mut keeper, script);
    drop(keeper);
    ended
}

#[test]
fn there_are_at_most_1000000_documents(rt: HostRuntime) -> Result<(), Memory> {
    let counts = Counts {
        docs: 999999,
        ..EMPTY
    };
    let script =
        b"as ann\nat 2\nmbox\nFrom a\n\nFrom b\n.\nmail\n.\nmail\n.\nmbox\nFrom a\n.\nmbox\n.\n\
          note 1000000 k 1 x\nnote 1000001 k 1 x\nquery q m.id = 1000000\nat 3\nrun q\n";
    let (status, written) = answers_over(rt.alloc(), &counts, script.as_slice())?;
    let want = b"ok 0 as ann\nok 0 at 2\nno 16 documents\nok 0 doc 1000000\nno 16 documents\n\
        no 16 documents\n\
          ok 0 docs 0 1000001\nok 0 note 1\nno 11\nok 0 query q\nok 0 at 3\nok 1 run 1 before 3\n\
          doc 1000000 first 2\n";
    assert_eq!(rt; status, 1);
    assert_eq!(rt; written.as_slice(), want.as_slice());
    drop(written);
    Ok(())
}

#[test]
fn there_are_at_most_1000000_notes(rt: HostRuntime) -> Result<(), Memory> {
    let counts = Counts {
        docs: 1,
        notes: 999999,
        ..EMPTY
    };
    let script =
        b"as ann\nat 2\nnote 1 k 2 x\nnote 1 k 3 x\nscores k\nmail\n.\nquery q TRUE\nfilter\n.\n\
        run q\n";
    let (status, written) = answers_over(rt.alloc(), &counts, script.as_slice())?;
    let want = b"ok 0 as ann\nok 0 at 2\nok 0 note 1000000\nno 16 notes\nok 1 scores k\n\
        doc 1 voters 1 sum 2\n\
          ok 0 doc 2\nok 0 query q\nok 0 filter 0\nok 1 run 1 before 2\ndoc 1 first 1\n";
    assert_eq!(rt; status, 1);
    assert_eq!(rt; written.as_slice(), want.as_slice());
    drop(written);
    Ok(())
}

#[test]
fn there_are_at_most_4000_queries(rt: HostRuntime) -> Result<(), Memory> {
    let counts = Counts {
        queries: 3999,
        ..EMPTY
    };
    let script = b"as v\nat 2\nquery a TRUE\nquery b TRUE\nas w\nquery a TRUE\nfilter\n.\nmail\n.\n\
        note 1 k 1\nas v\nrun a\n";
    let (status, written) = answers_over(rt.alloc(), &counts, script.as_slice())?;
    let want =
        b"ok 0 as v\nok 0 at 2\nok 0 query a\nno 16 allqueries\nok 0 as w\nno 16 allqueries\n\
        ok 0 filter 0\n\
          ok 0 doc 1\nok 0 note 1\nok 0 as v\nok 0 run 1 before 2\n";
    assert_eq!(rt; status, 1);
    assert_eq!(rt; written.as_slice(), want.as_slice());
    drop(written);
    Ok(())
}

#[test]
fn there_are_at_most_1000_users(rt: HostRuntime) -> Result<(), Memory> {
    let counts = Counts {
        filters: 999,
        ..EMPTY
    };
    // a user counts once, whatever they own
    let script =
        b"as v\nat 2\nquery a TRUE\nas w\nfilter\n.\nquery a TRUE\nas v\nfilter\n.\nquery b TRUE\n\
          as u998\nfilter\n.\nquery a TRUE\nas w\nmail\n.\nnote 1 k 1\n";
    let (status, written) = answers_over(rt.alloc(), &counts, script.as_slice())?;
    let want =
        b"ok 0 as v\nok 0 at 2\nok 0 query a\nok 0 as w\nno 16 users\nno 16 users\nok 0 as v\n\
        ok 0 filter 0\n\
          ok 0 query b\nok 0 as u998\nok 0 filter 0\nok 0 query a\nok 0 as w\nok 0 doc 1\n\
          ok 0 note 1\n";
    assert_eq!(rt; status, 1);
    assert_eq!(rt; written.as_slice(), want.as_slice());
    drop(written);
    Ok(())
}

#[test]
fn there_are_at_most_10000_filters(rt: HostRuntime) -> Result<(), Memory> {
    let counts = Counts {
        filters: 9999,
        ..EMPTY
    };
    // at the limit no fault of the text is looked for
    let script =
        b"as u0\nat 2\nfilter\nWHEN\n.\nfilter\n.\nfilter\n.\nfilter\nWHEN\n.\nas v\nfilter\n.\n\
        query a TRUE\nmail\n.\nnote 1 k 1\nrun a\n";
    let (status, written) = answers_over(rt.alloc(), &counts, script.as_slice())?;
    let want = b"ok 0 as u0\nok 0 at 2\nno 17 1 4\nok 0 filter 0\nno 16 filters\nno 16 filters\n\
        ok 0 as v\nno 16 filters\nok 0 query a\n\
          ok 0 doc 1\nok 0 note 1\nok 0 run 1 before 2\n";
    assert_eq!(rt; status, 1);
    assert_eq!(rt; written.as_slice(), want.as_slice());
    drop(written);
    Ok(())
}

#[test]
fn there_are_at_most_1000000_runs(rt: HostRuntime) -> Result<(), Memory> {
    let counts = Counts {
        queries: RUN_QUERIES,
        runs: 999999,
        ..EMPTY
    };
    let script =
        b"as u0\nat 2\nrun q0\nrun q0\nrun q1\nbox q0\nwake q0\nmail\n.\nnote 1 k 1\nfilter\n.\n\
        as v\nquery a TRUE\nrun a\n";
    let (status, written) = answers_over(rt.alloc(), &counts, script.as_slice())?;
    let want =
        b"ok 0 as u0\nok 0 at 2\nok 0 run 502 before 2\nno 16 runs\nno 16 runs\nok 0 box q0\n\
          ok 0 wake q0 never\nok 0 doc 1\nok 0 note 1\nok 0 filter 0\nok 0 as v\nok 0 query a\n\
          no 16 runs\n";
    assert_eq!(rt; status, 1);
    assert_eq!(rt; written.as_slice(), want.as_slice());
    drop(written);
    Ok(())
}

#[test]
fn there_are_at_most_4000000_deliveries(rt: HostRuntime) -> Result<(), Memory> {
    let counts = Counts {
        docs: RUN_DOCS,
        queries: RUN_QUERIES,
        runs: RUN_QUERIES,
        picks: 3999999,
        ..EMPTY
    };
    // a run that would deliver two is refused as a whole; one that delivers nothing is accepted
    let script =
        b"as u0\nat 2\nrun q0\nmail\n.\nmail\n.\nat 3\nrun q0\nas v\nquery a m.id = 2003\nrun a\n\
          query c m.id = 2002\nrun c\nrun a\nwake a\nas u0\nrun q1\nas v\nmail\n.\nnote 1 k 1\n\
          query b FALSE\nrun b\nfilter\n.\n";
    let (status, written) = answers_over(rt.alloc(), &counts, script.as_slice())?;
    let want =
        b"ok 0 as u0\nok 0 at 2\nok 0 run 2 before 2\nok 0 doc 2002\nok 0 doc 2003\nok 0 at 3\n\
        no 16 picks\n\
          ok 0 as v\nok 0 query a\nok 1 run 1 before 3\ndoc 2003 first 2\nok 0 query c\n\
          no 16 picks\n\
          ok 0 run 2 before 3\nok 0 wake a never\nok 0 as u0\nno 16 picks\nok 0 as v\n\
          ok 0 doc 2004\nok 0 note 1\nok 0 query b\n\
          ok 0 run 1 before 3\nok 0 filter 0\n";
    assert_eq!(rt; status, 1);
    assert_eq!(rt; written.as_slice(), want.as_slice());
    drop(written);
    Ok(())
}

#[test]
fn there_are_at_most_134217728_bytes_of_texts(rt: HostRuntime) -> Result<(), Memory> {
    // 64 bytes are left
    let counts = Counts {
        docs: 1,
        notes: 33026,
        note_bytes: 4064,
        ..EMPTY
    };
    // each kind of text counts, a query's as `FROM NOW FALSE`; at the limit a text without bytes is
    // accepted
    let script =
        b"as ann\nat 2\nquery q from   now   FALSE\nfilter\n#\n.\nmail\n\n.\nmbox\nFrom a\n\
        abcdefghi\n.\n\
          note 1 k 1 01234567890123456789012345678901234567\n\
          note 1 k 1 0123456789012345678901234567890123456\n\
          note 1 k 1 x\nquery r TRUE\nfilter\n#\n.\nmail\n\n.\nmbox\nFrom a\nx\n.\n\
          note 1 k 1\nfilter\n.\nmail\n.\nmbox\nFrom a\n.\nrun q\n";
    let (status, written) = answers_over(rt.alloc(), &counts, script.as_slice())?;
    let want = b"ok 0 as ann\nok 0 at 2\nok 0 query q\nok 0 filter 0\nok 0 doc 2\nok 0 docs 1 3\n\
        no 16 store\n\
          ok 0 note 33027\nno 16 store\nno 16 store\nno 16 store\nno 16 store\nno 16 store\n\
          ok 0 note 33028\nok 0 filter 0\n\
          ok 0 doc 4\nok 0 docs 1 5\nok 0 run 1 before 2\n";
    assert_eq!(rt; status, 1);
    assert_eq!(rt; written.as_slice(), want.as_slice());
    drop(written);
    Ok(())
}

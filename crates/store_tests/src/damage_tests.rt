//! Stores with one damage each.

use crate::sessions::{Failure, Left, left_by};
use std::alloc::Global;
use tap_base::{DocNum, Memory, NoteNum, QueryNum, SharedText, Text};
use tap_rows::{Doc, FilterRow, MESSAGE_LIMIT, Note, Pick, QueryRow, RunRow, Tables};

// A damage of the store with one row in each table.
#[derive(Clone, Copy, PartialEq, Eq, Debug)]
enum Damage {
    Nothing,
    DocNumber,
    DocText,
    NoteDoc,
    NoteArrival,
    NoteAuthor,
    QueryName,
    QueryTwice,
    QuerySource,
    RunMoment,
    RunBefore,
    PickRun,
    PickLate,
    PickEarly,
    PickOrder,
    PickTwice,
    FilterOwner,
    FilterSource,
}

// Appends that many bytes.
fn push_bytes(text: &mut Text, len: usize) -> Result<(), Memory> {
    for _ in 0..len {
        text.push_slice(b"x")?;
    }
    Ok(())
}

// Gives a document its text.
fn fill_text(text: &mut Text, damage: Damage) -> Result<(), Memory> {
    match damage {
        Damage::DocText => push_bytes(text, MESSAGE_LIMIT.saturating_add(1)),
        _ => text.push_slice(b"Subject: hi\n\n"),
    }
}

// Returns a document.
fn doc(alloc: Global, num: u32, damage: Damage) -> Result<Doc, Memory> {
    let mut text = Text::new(alloc);
    fill_text(&mut text, damage)?;
    Ok(Doc {
        num: DocNum(num),
        arrival: 100,
        text: SharedText::of(alloc, text)?,
    })
}

// Adds the documents: one, or two equal ones.
fn add_docs(alloc: Global, tables: &mut Tables, damage: Damage) -> Result<(), Memory> {
    let num = if damage == Damage::DocNumber { 2 } else { 1 };
    tables.docs.push(doc(alloc, num, damage)?)?;
    if damage == Damage::PickOrder {
        tables.docs.push(doc(alloc, 2, damage)?)?;
    }
    Ok(())
}

// Gives the note its texts.
fn fill_note(note: &mut Note, damage: Damage) -> Result<(), Memory> {
    let author: &[u8] = if damage == Damage::NoteAuthor {
        b"Ann"
    } else {
        b"ann"
    };
    note.author.push_slice(author)?;
    note.kind.push_slice(b"score")?;
    note.text.push_slice(b"x")
}

fn add_note(alloc: Global, tables: &mut Tables, damage: Damage) -> Result<(), Memory> {
    let mut note = Note {
        num: NoteNum(1),
        doc: DocNum(if damage == Damage::NoteDoc { 2 } else { 1 }),
        author: Text::new(alloc),
        kind: Text::new(alloc),
        value: 1,
        arrival: if damage == Damage::NoteArrival {
            99
        } else {
            100
        },
        text: Text::new(alloc),
    };
    match fill_note(&mut note, damage) {
        Ok(()) => tables.notes.push(note),
        Err(Memory) => {
            drop(note);
            Err(Memory)
        }
    }
}

// Gives a query its texts.
fn fill_query(query: &mut QueryRow, damage: Damage) -> Result<(), Memory> {
    let name: &[u8] = if damage == Damage::QueryName {
        b"Q"
    } else {
        b"q"
    };
    let source: &[u8] = if damage == Damage::QuerySource {
        b"m.size ="
    } else {
        b"m.words HAS 'hi'"
    };
    query.owner.push_slice(b"ann")?;
    query.name.push_slice(name)?;
    query.source.push_slice(source)
}

fn add_query(alloc: Global, tables: &mut Tables, num: u32, damage: Damage) -> Result<(), Memory> {
    let mut query = QueryRow {
        num: QueryNum(num),
        owner: Text::new(alloc),
        name: Text::new(alloc),
        source: Text::new(alloc),
        arrival: 100,
    };
    match fill_query(&mut query, damage) {
        Ok(()) => tables.queries.push(query),
        Err(Memory) => {
            drop(query);
            Err(Memory)
        }
    }
}

// Returns the moment of the run.
fn moment(damage: Damage) -> i64 {
    match damage {
        Damage::RunMoment => 250_000_000_001,
        Damage::RunBefore => 99,
        _ => 101,
    }
}

// Returns the first second of the delivery.
fn first(damage: Damage) -> i64 {
    match damage {
        Damage::PickLate => 101,
        Damage::PickEarly => 99,
        _ => 100,
    }
}

// Returns a delivery.
fn pick(num: u32, doc: u32, damage: Damage) -> Pick {
    Pick {
        num,
        query: QueryNum(1),
        run: if damage == Damage::PickRun { 2 } else { 1 },
        doc: DocNum(doc),
        first: first(damage),
    }
}

// Returns a run of the query.
fn run_row(num: u32, moment: i64) -> RunRow {
    RunRow {
        num,
        query: QueryNum(1),
        moment,
    }
}

// Adds the run with its deliveries.
fn add_run(tables: &mut Tables, damage: Damage) -> Result<(), Memory> {
    tables.runs.push(run_row(1, moment(damage)))?;
    if damage == Damage::PickOrder {
        tables.picks.push(pick(1, 2, damage))?;
        tables.picks.push(pick(2, 1, damage))
    } else {
        tables.picks.push(pick(1, 1, damage))
    }
}

// Adds a second run, which delivers what the first did.
fn add_second_run(tables: &mut Tables, damage: Damage) -> Result<(), Memory> {
    tables.runs.push(run_row(2, 102))?;
    let mut pick = pick(2, 1, damage);
    pick.run = 2;
    tables.picks.push(pick)
}

// Gives the filter its texts.
fn fill_filter(filter: &mut FilterRow, damage: Damage) -> Result<(), Memory> {
    let owner: &[u8] = if damage == Damage::FilterOwner {
        b""
    } else {
        b"ann"
    };
    let source: &[u8] = if damage == Damage::FilterSource {
        b"WHEN\n"
    } else {
        b"WHEN TRUE PRIORITY 1 CLASS 'a'\n"
    };
    filter.owner.push_slice(owner)?;
    filter.source.push_slice(source)
}

fn add_filter(alloc: Global, tables: &mut Tables, damage: Damage) -> Result<(), Memory> {
    let mut filter = FilterRow {
        num: 1,
        owner: Text::new(alloc),
        source: Text::new(alloc),
        arrival: 100,
    };
    match fill_filter(&mut filter, damage) {
        Ok(()) => tables.filters.push(filter),
        Err(Memory) => {
            drop(filter);
            Err(Memory)
        }
    }
}

// Adds the queries: one, or two equal ones.
fn add_queries(alloc: Global, tables: &mut Tables, damage: Damage) -> Result<(), Memory> {
    add_query(alloc, tables, 1, damage)?;
    if damage == Damage::QueryTwice {
        add_query(alloc, tables, 2, damage)?;
    }
    Ok(())
}

// Adds the runs: one, or two that deliver the same.
fn add_runs(tables: &mut Tables, damage: Damage) -> Result<(), Memory> {
    add_run(tables, damage)?;
    if damage == Damage::PickTwice {
        add_second_run(tables, damage)?;
    }
    Ok(())
}

// Adds the rows of each table, with this damage.
fn fill(alloc: Global, tables: &mut Tables, damage: Damage) -> Result<(), Memory> {
    add_docs(alloc, tables, damage)?;
    add_note(alloc, tables, damage)?;
    add_queries(alloc, tables, damage)?;
    add_runs(tables, damage)?;
    add_filter(alloc, tables, damage)
}

// Runs an empty script over tables; returns the status and what was written.
fn opened_over(alloc: Global, tables: &Tables) -> Result<(u8, Text), Memory> {
    let Left {
        status,
        written,
        told,
        probe,
    } = left_by(alloc, tables, b"", 7, Failure::Nothing)?;
    drop(told);
    drop(probe);
    Ok((status, written))
}

// Runs an empty script over the tables with this damage; returns the status and what was written.
fn opened(alloc: Global, damage: Damage) -> Result<(u8, Text), Memory> {
    let mut tables = Tables::empty(alloc);
    let ended = match fill(alloc, &mut tables, damage) {
        Ok(()) => opened_over(alloc, &tables),
        Err(Memory) => Err(Memory),
    };
    drop(tables);
    ended
}

#[test]
fn each_damage_has_its_line(rt: HostRuntime) -> Result<(), Memory> {
    let rows: [(Damage, u8, &[u8]); 18] = [
        (Damage::Nothing, 0, b""),
        (Damage::DocNumber, 6, b"stop 6 damaged docs 1 number\n"),
        (Damage::DocText, 6, b"stop 6 damaged docs 1 text\n"),
        (Damage::NoteDoc, 6, b"stop 6 damaged notes 1 reference\n"),
        (
            Damage::NoteArrival,
            6,
            b"stop 6 damaged notes 1 reference\n",
        ),
        (Damage::NoteAuthor, 6, b"stop 6 damaged notes 1 name\n"),
        (Damage::QueryName, 6, b"stop 6 damaged queries 1 name\n"),
        (Damage::QueryTwice, 6, b"stop 6 damaged queries 2 twice\n"),
        (Damage::QuerySource, 6, b"stop 6 damaged queries 1 text\n"),
        (Damage::RunMoment, 6, b"stop 6 damaged runs 1 moment\n"),
        (Damage::RunBefore, 6, b"stop 6 damaged runs 1 reference\n"),
        (Damage::PickRun, 6, b"stop 6 damaged picks 1 reference\n"),
        (Damage::PickLate, 6, b"stop 6 damaged picks 1 second\n"),
        (Damage::PickEarly, 6, b"stop 6 damaged picks 1 second\n"),
        (Damage::PickOrder, 6, b"stop 6 damaged picks 2 order\n"),
        (Damage::PickTwice, 6, b"stop 6 damaged picks 2 twice\n"),
        (Damage::FilterOwner, 6, b"stop 6 damaged filters 1 name\n"),
        (Damage::FilterSource, 6, b"stop 6 damaged filters 1 text\n"),
    ];
    for (damage, want, line) in rows {
        let (status, written) = opened(rt.alloc(), damage)?;
        assert_eq!(rt; status, want);
        assert_eq!(rt; written.as_slice(), line);
        drop(written);
    }
    Ok(())
}

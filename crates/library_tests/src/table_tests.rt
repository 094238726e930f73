//! Tests of starts of queries, and of the tables that a store may hold at a start.

use restart_core::{RestartFault, TableName, Why, check_tables, cut_start};
use std::alloc::Global;
use std::test::Fail;
use tap_base::{DocNum, HashKey, Memory, NoteNum, QueryNum, Rows, SharedText, Text};
use tap_rows::{Doc, FilterRow, Note, Pick, QueryRow, RunRow, Tables};

#[test]
fn starts_are_cut(rt: HostRuntime) -> Result<(), Fail> {
    let rows: [(&[u8], bool, usize); 12] = [
        (b"FROM NOW m.size = 1", true, 9),
        (b"from now m.size = 1", true, 9),
        (b"  fRoM\tnOw \t m.size = 1", true, 13),
        (b"FROM NOW", true, 8),
        (b"FROM NOW ", true, 9),
        (b"FROM  NOW FROM NOW", true, 10),
        (b"FROM NOWm.size = 1", false, 0),
        (b"FROM\nNOW TRUE", false, 0),
        (b"FROM", false, 0),
        (b"FROMNOW TRUE", false, 0),
        (b"NOW FROM TRUE", false, 0),
        (b"", false, 0),
    ];
    for (source, from_now, at) in rows {
        let start = cut_start(source);
        assert_eq!(rt; start.from_now, from_now);
        assert_eq!(rt; start.at, at);
    }
    Ok(())
}

// What is told apart of some small tables.
#[derive(Clone, Copy)]
struct Stored {
    doc_num: u32,
    long: bool,
    docs: u32,
    note_doc: u32,
    note_arrival: i64,
    author: &'static [u8],
    query_name: &'static [u8],
    source: &'static [u8],
    queries: u32,
    run_moment: i64,
    pick_run: u32,
    first_doc: u32,
    first: i64,
    picks: u32,
    owner: &'static [u8],
}

// One document, one note on it, one query, one run of it that delivered the document, and one
// filter.
const SOUND: Stored = Stored {
    doc_num: 1,
    long: false,
    docs: 1,
    note_doc: 1,
    note_arrival: 100,
    author: b"ann",
    query_name: b"q",
    source: b"m.words HAS 'hi'",
    queries: 1,
    run_moment: 101,
    pick_run: 1,
    first_doc: 1,
    first: 100,
    picks: 1,
    owner: b"ann",
};

// Returns a document, which may be longer than a message may be.
fn doc(alloc: Global, num: u32, long: bool) -> Result<Doc, Memory> {
    let bytes = if long {
        vec![in alloc; 0; 1048577]?
    } else {
        Vec::from_slice(alloc, b"Subject: hi\n\n")?
    };
    Ok(Doc {
        num: DocNum(num),
        arrival: 100,
        text: SharedText::of(alloc, Text::from_vec(alloc, bytes))?,
    })
}

// Adds the documents.
fn push_docs(alloc: Global, docs: &mut Rows<Doc>, stored: &Stored) -> Result<(), Memory> {
    docs.push(doc(alloc, stored.doc_num, stored.long)?)?;
    if stored.docs == 2 {
        docs.push(doc(alloc, 2, false)?)?;
    }
    Ok(())
}

// Gives a note its texts.
fn fill_note(note: &mut Note, author: &[u8]) -> Result<(), Memory> {
    note.author.push_slice(author)?;
    note.kind.push_slice(b"score")?;
    note.text.push_slice(b"x")
}

// Adds the note.
fn push_note(alloc: Global, notes: &mut Rows<Note>, stored: &Stored) -> Result<(), Memory> {
    let mut note = Note {
        num: NoteNum(1),
        doc: DocNum(stored.note_doc),
        author: Text::new(alloc),
        kind: Text::new(alloc),
        value: 1,
        arrival: stored.note_arrival,
        text: Text::new(alloc),
    };
    match fill_note(&mut note, stored.author) {
        Ok(()) => notes.push(note),
        Err(Memory) => {
            drop(note);
            Err(Memory)
        }
    }
}

// Gives a query its texts.
fn fill_query(query: &mut QueryRow, stored: &Stored) -> Result<(), Memory> {
    query.owner.push_slice(b"ann")?;
    query.name.push_slice(stored.query_name)?;
    query.source.push_slice(stored.source)
}

// Adds a query.
fn push_query(
    alloc: Global,
    queries: &mut Rows<QueryRow>,
    num: u32,
    stored: &Stored,
) -> Result<(), Memory> {
    let mut query = QueryRow {
        num: QueryNum(num),
        owner: Text::new(alloc),
        name: Text::new(alloc),
        source: Text::new(alloc),
        arrival: 100,
    };
    match fill_query(&mut query, stored) {
        Ok(()) => queries.push(query),
        Err(Memory) => {
            drop(query);
            Err(Memory)
        }
    }
}

// Adds the queries.
fn push_queries(
    alloc: Global,
    queries: &mut Rows<QueryRow>,
    stored: &Stored,
) -> Result<(), Memory> {
    push_query(alloc, queries, 1, stored)?;
    if stored.queries == 2 {
        push_query(alloc, queries, 2, stored)?;
    }
    Ok(())
}

// Returns a delivery.
fn pick(num: u32, doc: u32, stored: &Stored) -> Pick {
    Pick {
        num,
        query: QueryNum(1),
        run: stored.pick_run,
        doc: DocNum(doc),
        first: stored.first,
    }
}

// Adds the deliveries.
fn push_picks(picks: &mut Rows<Pick>, stored: &Stored) -> Result<(), Memory> {
    picks.push(pick(1, stored.first_doc, stored))?;
    if stored.picks == 2 {
        picks.push(pick(2, 1, stored))?;
    }
    Ok(())
}

// Gives a filter its texts.
fn fill_filter(filter: &mut FilterRow, owner: &[u8]) -> Result<(), Memory> {
    filter.owner.push_slice(owner)?;
    filter
        .source
        .push_slice(b"WHEN TRUE PRIORITY 1 CLASS 'a'\n")
}

// Adds the filter.
fn push_filter(
    alloc: Global,
    filters: &mut Rows<FilterRow>,
    stored: &Stored,
) -> Result<(), Memory> {
    let mut filter = FilterRow {
        num: 1,
        owner: Text::new(alloc),
        source: Text::new(alloc),
        arrival: 100,
    };
    match fill_filter(&mut filter, stored.owner) {
        Ok(()) => filters.push(filter),
        Err(Memory) => {
            drop(filter);
            Err(Memory)
        }
    }
}

// Fills the tables with what is stored.
fn fill(alloc: Global, tables: &mut Tables, stored: &Stored) -> Result<(), Memory> {
    push_docs(alloc, &mut tables.docs, stored)?;
    push_note(alloc, &mut tables.notes, stored)?;
    push_queries(alloc, &mut tables.queries, stored)?;
    tables.runs.push(RunRow {
        num: 1,
        query: QueryNum(1),
        moment: stored.run_moment,
    })?;
    push_picks(&mut tables.picks, stored)?;
    push_filter(alloc, &mut tables.filters, stored)
}

// Returns the tables of what is stored.
fn tables_of(alloc: Global, stored: &Stored) -> Result<Tables, Memory> {
    let mut tables = Tables::empty(alloc);
    match fill(alloc, &mut tables, stored) {
        Ok(()) => Ok(tables),
        Err(Memory) => {
            drop(tables);
            Err(Memory)
        }
    }
}

// Returns the fault of the tables, or nothing if they are sound.
fn fault_of(alloc: Global, stored: &Stored) -> Result<Option<RestartFault>, Memory> {
    let tables = tables_of(alloc, stored)?;
    match check_tables(alloc, HashKey::fixed(), tables) {
        Ok(sound) => {
            drop(sound);
            Ok(None)
        }
        Err(fault) => Ok(Some(fault)),
    }
}

// One change to sound tables.
#[derive(Clone, Copy)]
enum Edit {
    DocNumber,
    LongDoc,
    NoteDoc,
    EarlyNote,
    Author,
    QueryName,
    SecondQuery,
    Source,
    LineEnd,
    LateRun,
    EarlyRun,
    PickRun,
    LatePick,
    EarlyPick,
    SecondPick,
    PickOrder,
    Owner,
}

// Makes the change.
fn change(stored: &mut Stored, edit: Edit) {
    match edit {
        Edit::DocNumber => stored.doc_num = 2,
        Edit::LongDoc => stored.long = true,
        Edit::NoteDoc => stored.note_doc = 2,
        Edit::EarlyNote => stored.note_arrival = 99,
        Edit::Author => stored.author = b"Ann",
        Edit::QueryName => stored.query_name = b"Q",
        Edit::SecondQuery => stored.queries = 2,
        Edit::Source => stored.source = b"m.size =",
        Edit::LineEnd => stored.source = b"FROM NOW\nTRUE",
        Edit::LateRun => stored.run_moment = 250000000001,
        Edit::EarlyRun => stored.run_moment = 99,
        Edit::PickRun => stored.pick_run = 2,
        Edit::LatePick => stored.first = 101,
        Edit::EarlyPick => stored.first = 99,
        Edit::SecondPick => stored.picks = 2,
        Edit::PickOrder => {
            stored.docs = 2;
            stored.picks = 2;
            stored.first_doc = 2;
        }
        Edit::Owner => stored.owner = b"",
    }
}

// Returns what is stored after the change.
fn edited(edit: Edit) -> Stored {
    let mut stored = SOUND;
    change(&mut stored, edit);
    stored
}

// Returns whether this is the first damage after the change.
fn has_damage(
    alloc: Global,
    edit: Edit,
    table: TableName,
    num: u32,
    why: Why,
) -> Result<bool, Memory> {
    let fault = fault_of(alloc, &edited(edit))?;
    Ok(fault == Some(RestartFault::Damaged { table, num, why }))
}

// Returns how many deliveries and conditions sound tables give, or nothing if they are damaged.
fn sound_parts(alloc: Global, stored: &Stored) -> Result<Option<(usize, usize)>, Memory> {
    let tables = tables_of(alloc, stored)?;
    match check_tables(alloc, HashKey::fixed(), tables) {
        Ok(sound) => {
            let (tables, conds) = sound.into_parts();
            let lens = (tables.picks.len(), conds.len());
            drop(tables);
            drop(conds);
            Ok(Some(lens))
        }
        Err(_) => Ok(None),
    }
}

#[test]
fn sound_tables_give_their_rows_and_conditions(rt: HostRuntime) -> Result<(), Memory> {
    let parts = sound_parts(rt.alloc(), &SOUND)?;
    assert_eq!(rt; parts, Some((1, 1)));
    Ok(())
}

#[test]
fn the_first_damage_is_found(rt: HostRuntime) -> Result<(), Memory> {
    let alloc = rt.alloc();
    let rows = [
        (Edit::DocNumber, TableName::Docs, 1, Why::Number),
        (Edit::LongDoc, TableName::Docs, 1, Why::Text),
        (Edit::NoteDoc, TableName::Notes, 1, Why::Reference),
        (Edit::EarlyNote, TableName::Notes, 1, Why::Reference),
        (Edit::Author, TableName::Notes, 1, Why::Name),
        (Edit::QueryName, TableName::Queries, 1, Why::Name),
        (Edit::SecondQuery, TableName::Queries, 2, Why::Twice),
        (Edit::Source, TableName::Queries, 1, Why::Text),
        (Edit::LineEnd, TableName::Queries, 1, Why::Text),
        (Edit::LateRun, TableName::Runs, 1, Why::Moment),
        (Edit::EarlyRun, TableName::Runs, 1, Why::Reference),
        (Edit::PickRun, TableName::Picks, 1, Why::Reference),
        (Edit::LatePick, TableName::Picks, 1, Why::Second),
        (Edit::EarlyPick, TableName::Picks, 1, Why::Second),
        (Edit::SecondPick, TableName::Picks, 2, Why::Twice),
        (Edit::PickOrder, TableName::Picks, 2, Why::Order),
        (Edit::Owner, TableName::Filters, 1, Why::Name),
    ];
    for (edit, table, num, why) in rows {
        assert!(rt; has_damage(alloc, edit, table, num, why)?);
    }
    Ok(())
}

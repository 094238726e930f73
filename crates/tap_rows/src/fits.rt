//! Whether the rows of a change stand in order behind those of the tables.
ghost use Rattle.std.specs.Prelude.{◌≡◌, ◌≤◌, ◌<◌, ◌+◌, ◌^◌, ◌++◌, ◌∷◌, ◌&&◌, ◌||◌, ◌==◌, true};
ghost use Rattle.std.specs.Prelude.{int_lt, int_le, nat_lt, take, [], List, ℕ, length, Option};
ghost use Rattle.std.specs.List.{list_any};
ghost use Rattle.std.specs.Option.{option_copied};
ghost use Rattle.tap_rows.specs.WellFormed.{row_at, may_follow, doc_stands, docs_stand};
ghost use Rattle.tap_rows.specs.WellFormed.{has_arrived, note_stands, is_query_of};
ghost use Rattle.tap_rows.specs.WellFormed.{query_stands, was_defined, run_stands, is_picked};
ghost use Rattle.tap_rows.specs.WellFormed.{comes_after, pick_stands, picks_stand};
ghost use Rattle.tap_rows.specs.WellFormed.{filter_stands, is_well_formed, picks_same};
ghost use Rattle.tap_rows.specs.Tables.{after};
ghost use Rattle.tap_rows.specs.Fits.{low_of, last_row, fits};

use crate::{Change, Doc, FilterRow, MESSAGE_LIMIT, Note, Pick, QueryRow, RunRow, Tables};
use tap_base::{LAST_MOMENT, is_name};

// Returns the row of a number, counted from 1.
fn row<T>(rows: &[T], num: usize) -> Option<&T>
    ensures { option_copied result ≡ row_at num rows.now }
{
    if num == 0 { None } else { rows.get(num - 1) }
}

// Returns whether a row of this moment may follow one of the moment `low`.
fn follows(low: i64, moment: i64) -> bool
    ensures { result ≡ may_follow low moment }
{
    low <= moment && moment <= LAST_MOMENT as i64
}

// Returns whether the document may stand at this place, counted from 1, behind a moment `low`.
fn doc_fits(place: usize, low: i64, doc: &Doc) -> bool
    ensures { result ≡ doc_stands place low doc.now }
{
    doc.num.0 as usize == place && follows(low, doc.arrival) && doc.text.len() <= MESSAGE_LIMIT
}

// Returns whether the documents may stand from this place on.
fn docs_fit(place: usize, low: i64, docs: &[Doc]) -> bool
    requires { place + length docs.now < 2 ^ 64 }
    ensures { result ≡ docs_stand place low docs.now }
{
    let mut last = low;
    for (i, doc) in docs.iter().enumerate() {
        if !doc_fits(place + i, last, doc) {
            return false;
        }
        last = doc.arrival;
    }
    true
}

// Returns whether the document of this number had arrived by this moment.
fn has_come(docs: &[Doc], num: u32, moment: i64) -> bool
    ensures { result ≡ has_arrived docs.now num moment }
{
    match row(docs, num as usize) {
        Some(doc) => doc.arrival <= moment,
        None => false,
    }
}

// Returns whether the note may stand at this place.
fn note_fits(docs: &[Doc], place: usize, low: i64, note: &Note) -> bool
    ensures { result ≡ note_stands docs.now place low note.now }
{
    note.num.0 as usize == place
        && follows(low, note.arrival)
        && has_come(docs, note.doc.0, note.arrival)
        && is_name(note.author.as_slice())
        && is_name(note.kind.as_slice())
}

// Returns whether it is this user's query of this name.
fn is_query_of(owner: &[u8], name: &[u8], query: &QueryRow) -> bool
    ensures { result ≡ is_query_of owner.now name.now query.now }
{
    query.owner.as_slice() == owner && query.name.as_slice() == name
}

// Returns whether this user has a query of this name.
fn has_query(queries: &[QueryRow], owner: &[u8], name: &[u8]) -> bool
    ensures { result ≡ list_any (is_query_of owner.now name.now) queries.now }
{
    queries.iter().any(|query| is_query_of(owner, name, query))
}

// Returns whether the query may stand at this place.
fn query_fits(earlier: &[QueryRow], place: usize, low: i64, query: &QueryRow) -> bool
    ensures { result ≡ query_stands earlier.now place low query.now }
{
    query.num.0 as usize == place
        && follows(low, query.arrival)
        && is_name(query.owner.as_slice())
        && is_name(query.name.as_slice())
        && !has_query(earlier, query.owner.as_slice(), query.name.as_slice())
}

// Returns whether the query of this number was defined by this moment.
fn is_defined(queries: &[QueryRow], num: u32, moment: i64) -> bool
    ensures { result ≡ was_defined queries.now num moment }
{
    match row(queries, num as usize) {
        Some(query) => query.arrival <= moment,
        None => false,
    }
}

// Returns whether the run may stand at this place.
fn run_fits(queries: &[QueryRow], place: usize, low: i64, run: &RunRow) -> bool
    ensures { result ≡ run_stands queries.now place low run.now }
{
    run.num as usize == place
        && follows(low, run.moment)
        && is_defined(queries, run.query.0, run.moment)
}

// Returns whether the filter may stand at this place.
fn filter_fits(place: usize, low: i64, filter: &FilterRow) -> bool
    ensures { result ≡ filter_stands place low filter.now }
{
    filter.num as usize == place && follows(low, filter.arrival) && is_name(filter.owner.as_slice())
}

// Returns the run of a number, counted from 1, among those stored and this one behind them.
fn run_at<'a>(runs: &'a [RunRow], run: &'a RunRow, num: usize) -> Option<&'a RunRow>
    ensures { option_copied result ≡ row_at num (runs.now ++ run.now ∷ []) }
{
    if num == runs.len() + 1 {
        Some(run)
    } else {
        row(runs, num)
    }
}

// Returns whether the pick may be one of this run and this document.
fn is_pick_of(pick: &Pick, run: Option<&RunRow>, doc: Option<&Doc>) -> bool
    ensures { result ≡ is_picked pick.now (option_copied run.entry) (option_copied doc.entry) }
{
    match (run, doc) {
        (Some(run), Some(doc)) => {
            run.query == pick.query && pick.first < run.moment && doc.arrival <= pick.first
        }
        _ => false,
    }
}

// Returns whether both picks pick the same document for the same query.
fn is_same_pick(pick: &Pick, other: &Pick) -> bool
    ensures { result ≡ picks_same pick.now other.now }
{
    other.query == pick.query && other.doc == pick.doc
}

// Returns whether one of these earlier picks picks the same document for the same query.
fn is_repeated(pick: &Pick, earlier: &[Pick]) -> bool
    ensures { result ≡ list_any (picks_same pick.now) earlier.now }
{
    earlier.iter().any(|other| is_same_pick(pick, other))
}

// Returns whether the pick comes after the one before, by first second and document.
fn is_later(before: &Pick, pick: &Pick) -> bool
    ensures { result ≡ (int_lt before.now.first pick.now.first
        || (int_le before.now.first pick.now.first && nat_lt before.now.doc.0 pick.now.doc.0)) }
{
    before.first < pick.first || (before.first <= pick.first && before.doc.0 < pick.doc.0)
}

// Returns whether the pick comes after the one before, by run, first second and document.
fn is_after(before: Option<&Pick>, pick: &Pick) -> bool
    ensures { result ≡ comes_after (option_copied before.entry) pick.now }
{
    match before {
        None => true,
        Some(before) => {
            before.run < pick.run || (before.run == pick.run && is_later(before, pick))
        }
    }
}

// Returns whether the pick may stand behind all earlier ones, which come in two parts: those stored
// and those of its run.
fn pick_fits(
    runs: &[RunRow],
    run: &RunRow,
    docs: &[Doc],
    stored: &[Pick],
    picks: &[Pick],
    place: usize,
    before: Option<&Pick>,
    pick: &Pick,
) -> bool
    ensures { result ≡ pick_stands (runs.now ++ run.now ∷ []) docs.now (stored.now ++ picks.now)
        place (option_copied before.entry) pick.now }
{
    pick.num as usize == place
        && is_pick_of(
            pick,
            run_at(runs, run, pick.run as usize),
            row(docs, pick.doc.0 as usize),
        )
        && !is_repeated(pick, stored)
        && !is_repeated(pick, picks)
        && is_after(before, pick)
}

// Returns whether the picks may stand behind those stored. Each is compared with all before it.
fn picks_fit(runs: &[RunRow], run: &RunRow, docs: &[Doc], stored: &[Pick], picks: &[Pick]) -> bool
    ensures { result ≡ picks_stand (runs.now ++ run.now ∷ [])
        docs.now stored.now (length stored.now + 1) (last_row stored.now) picks.now }
{
    let mut before = row(stored, stored.len());
    for (i, pick) in picks.iter().enumerate() {
        if !pick_fits(
            runs,
            run,
            docs,
            stored,
            &picks[..i],
            stored.len() + 1 + i,
            before,
            pick,
        ) {
            return false;
        }
        before = Some(pick);
    }
    true
}

// Returns the moment of the last document; 0 if there is none.
fn last_doc(docs: &[Doc]) -> i64
    ensures { result ≡ low_of (λ doc. doc.arrival) docs.now }
{
    match row(docs, docs.len()) {
        Some(doc) => doc.arrival,
        None => 0,
    }
}

// Returns the moment of the last note; 0 if there is none.
fn last_note(notes: &[Note]) -> i64
    ensures { result ≡ low_of (λ note. note.arrival) notes.now }
{
    match row(notes, notes.len()) {
        Some(note) => note.arrival,
        None => 0,
    }
}

// Returns the moment of the last query; 0 if there is none.
fn last_query(queries: &[QueryRow]) -> i64
    ensures { result ≡ low_of (λ query. query.arrival) queries.now }
{
    match row(queries, queries.len()) {
        Some(query) => query.arrival,
        None => 0,
    }
}

// Returns the moment of the last run; 0 if there is none.
fn last_run(runs: &[RunRow]) -> i64
    ensures { result ≡ low_of (λ run. run.moment) runs.now }
{
    match row(runs, runs.len()) {
        Some(run) => run.moment,
        None => 0,
    }
}

// Returns the moment of the last filter; 0 if there is none.
fn last_filter(filters: &[FilterRow]) -> i64
    ensures { result ≡ low_of (λ filter. filter.arrival) filters.now }
{
    match row(filters, filters.len()) {
        Some(filter) => filter.arrival,
        None => 0,
    }
}

impl Tables {
    // Returns whether the rows of the change stand in order behind those of the tables.
    fn rows_fit(&self, change: &Change) -> bool
        ensures { result ≡ fits self.now change.now }
    {
        match change {
            Change::Docs(docs) => docs_fit(
                self.docs.as_slice().len() + 1,
                last_doc(self.docs.as_slice()),
                docs.as_slice(),
            ),
            Change::OneNote(note) => note_fits(
                self.docs.as_slice(),
                self.notes.as_slice().len() + 1,
                last_note(self.notes.as_slice()),
                note,
            ),
            Change::OneQuery(query) => query_fits(
                self.queries.as_slice(),
                self.queries.as_slice().len() + 1,
                last_query(self.queries.as_slice()),
                query,
            ),
            Change::RunDone(run, picks) => {
                run_fits(
                    self.queries.as_slice(),
                    self.runs.as_slice().len() + 1,
                    last_run(self.runs.as_slice()),
                    run,
                ) && picks_fit(
                    self.runs.as_slice(),
                    run,
                    self.docs.as_slice(),
                    self.picks.as_slice(),
                    picks.as_slice(),
                )
            }
            Change::OneFilter(filter) => filter_fits(
                self.filters.as_slice().len() + 1,
                last_filter(self.filters.as_slice()),
                filter,
            ),
        }
    }

    /// Returns whether the rows of the change stand in order behind those of the tables:
    ///
    /// - each row's number is its place, from 1;
    /// - its moment is from 0 to 250,000,000,000 and not below that of the row before;
    /// - its names are names, and its references are to rows that are there.
    ///
    /// The texts of queries and filters are not looked at. Each pick of a run is compared with all
    /// picks before it.
    pub fn fits(&self, change: &Change) -> bool
        ensures rows { result ≡ fits self.now change.now }
        ensures order { is_well_formed self.now ≡ true
            → result ≡ is_well_formed (after self.now change.now) }
    {
        self.rows_fit(change)
    }
}

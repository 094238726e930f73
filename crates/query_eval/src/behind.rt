//! The rows of a level behind the front of their posting list.

ghost use Rattle.std.specs.Prelude.{◌≡◌, ℕ, List, true, length, filter, take, slice_get, Some};
ghost use Rattle.tap_rows.specs.declared.rows.Doc.{Doc};
ghost use Rattle.tap_rows.specs.declared.results.Hit.{Hit};
ghost use Rattle.little_box.specs.Boxes.{is_in};
ghost use Rattle.row_index.specs.Orders.{doc_num};
ghost use Rattle.tql_core.specs.Row.{OfDoc};
ghost use Rattle.access_plan.specs.Views.{option_access, reach_at};
ghost use Rattle.probe_eval.specs.Nexts.{IsSole};
ghost use Rattle.probe_eval.specs.SingleLists.{IsSingleList};
ghost use Rattle.probe_eval.specs.StepRows.{passes_step, next_rows};
ghost use Rattle.query_eval.specs.Placed.{CanStoreHits};
ghost use Rattle.query_eval.specs.Fronts.{IsDone, AreDoneDocs, AreDocsBehind, AreBehind};
ghost use Rattle.query_eval.specs.BoxFronts.{AreInBox, IsBoxedFront};
ghost use Rattle.query_eval.specs.RunFronts.{IsFrontOf, IsFrontPassed, ArePassed, AreDone};

use crate::fronts::{Front, Fronts, LONG};
use crate::least_hits::LeastHits;
use access_plan::{AccessRef, ReachRef};
use probe_eval::{
    RowWalk, Search, SingleList, docs_beside, many_rows, rows_beside, single_list, step_access,
};
use row_index::PostingList;
use tap_base::DocNum;
use tap_rows::Hit;
use tql_core::{Env, Var};

// Returns whether the document of this number is in the box, or a hit of it is stored that is no
// later than this mark.
fn is_done(search: &Search, num: DocNum, mark: i64, into: &LeastHits) -> bool
    requires { CanStoreHits into.now }
    ensures { result ≡ true → (d : Doc) → d.num ≡ num
        → IsDone search.now.seen.now (length into.now.places.items) into.now.hits.items mark d }
{
    if search.seen.has(num) {
        return true;
    }
    into.has_lower(Hit {
        doc: num,
        first: mark,
    })
}

// Returns whether the list has a document at this place, and it is done.
fn is_done_at(
    search: &Search,
    docs: &PostingList,
    place: usize,
    mark: i64,
    into: &LeastHits,
) -> bool
    requires { CanStoreHits into.now }
    ensures { result ≡ true → (d : Doc) → slice_get docs.now place ≡ Some d
        → IsDone search.now.seen.now (length into.now.places.items) into.now.hits.items mark d }
{
    match docs.number(place) {
        None => false,
        Some(num) => is_done(search, num, mark, into),
    }
}

// Returns how many documents at the front of the list are done, of which the first `len` are known
// to be.
fn done_from(search: &Search, docs: &PostingList, len: usize, mark: i64, into: &LeastHits) -> usize
    requires ready { CanStoreHits into.now }
    requires done { AreDoneDocs search.now into.now mark (take len docs.now) }
    ensures { AreDoneDocs search.now into.now mark (take result docs.now) }
{
    let count = docs.len();
    let mut done = len;
    'walk: while done < count {
        if !is_done_at(search, docs, done, mark, into) {
            return done;
        }
        done += 1;
    }
    done
}

// Returns whether the list has a document at this place, and it is in the box.
fn is_boxed_at(search: &Search, docs: &PostingList, place: usize) -> bool
    ensures { result ≡ true → (d : Doc) → slice_get docs.now place ≡ Some d
        → is_in d.num.0 search.now.seen.now ≡ true }
{
    match docs.number(place) {
        None => false,
        Some(num) => search.seen.has(num),
    }
}

// Returns how many documents at the front of the list are in the box, of which the first `len` are
// known to be.
fn boxed_from(search: &Search, docs: &PostingList, len: usize) -> usize
    requires { IsBoxedFront search.now.seen.now len docs.now }
    ensures { IsBoxedFront search.now.seen.now result docs.now }
{
    let count = docs.len();
    let mut boxed = len;
    'walk: while boxed < count {
        if !is_boxed_at(search, docs, boxed) {
            return boxed;
        }
        boxed += 1;
    }
    boxed
}

// Returns the front of the list that begins with this document, as far as the box holds it. What
// earlier runs found of it is passed over.
fn box_front<'a>(
    search: &Search<'a>,
    found: &SingleList<'a>,
    first: DocNum,
    mark: i64,
    fronts: &Fronts,
) -> Front
    requires list { IsSingleList search.now.index.now found.now }
    requires first { Some first ≡ doc_num (slice_get found.now.docs 0) }
    requires boxes { AreInBox fronts.now.boxes.query search.now.seen.now search.now.index.now.docs
        fronts.now.boxes.fronts.items }
    ensures own { IsFrontOf found.now.kind first.0 result }
    ensures passed { (n : ℕ) (kept : List Hit)
        → IsFrontPassed search.now.seen.now search.now.index.now.docs n kept result }
{
    // Brings into scope that the documents' numbers are their places.
    let _docs = search.index.docs();
    let known = fronts.boxes.boxed(found.kind, first);
    let boxed = boxed_from(search, &found.docs, known);
    Front {
        kind: found.kind,
        first,
        mark,
        len: boxed,
        boxed,
    }
}

// Returns what is known of the front of the list that begins with this document: what this run
// found, or what the box holds.
fn known_front<'a>(
    search: &Search<'a>,
    found: &SingleList<'a>,
    first: DocNum,
    mark: i64,
    fronts: &Fronts,
) -> Front
    requires list { IsSingleList search.now.index.now found.now }
    requires first { Some first ≡ doc_num (slice_get found.now.docs 0) }
    requires boxes { AreInBox fronts.now.boxes.query search.now.seen.now search.now.index.now.docs
        fronts.now.boxes.fronts.items }
    ensures own { IsFrontOf found.now.kind first.0 result }
    ensures passed { (n : ℕ) (kept : List Hit)
        → ArePassed search.now.seen.now search.now.index.now.docs n kept fronts.now.fronts.items
        → IsFrontPassed search.now.seen.now search.now.index.now.docs n kept result }
{
    match fronts.known(found.kind, first) {
        Some(front) => front,
        None => box_front(search, found, first, mark, fronts),
    }
}

// Returns how many documents at the front of a long list are done, and stores that. Of a short one
// it says none.
fn done_front<'a>(
    search: &Search<'a>,
    found: &SingleList<'a>,
    mark: i64,
    into: &LeastHits,
    fronts: &mut Fronts,
) -> usize
    requires ready { CanStoreHits into.now }
    requires list { IsSingleList search.now.index.now found.now }
    requires fronts { AreDone search.now into.now fronts.old }
    ensures done { AreDoneDocs search.now into.now mark (take result found.now.docs) }
    ensures fronts { AreDone search.now into.now fronts.new }
    ensures boxes { fronts.new.boxes ≡ fronts.old.boxes }
{
    // Brings into scope that the documents' numbers are their places.
    let _docs = search.index.docs();
    if found.docs.len() < LONG {
        return 0;
    }
    match found.docs.number(0) {
        None => 0,
        Some(first) => {
            let known = known_front(search, found, first, mark, fronts);
            let len = done_from(search, &found.docs, known.done_at(mark), mark, into);
            fronts.put(Front {
                kind: found.kind,
                first,
                mark,
                len,
                boxed: known.boxed,
            });
            len
        }
    }
}

// Returns the documents of the list that are walked: those with which each guard is true that cuts
// the list, and of a long list without those at its front that are done.
fn docs_behind<'a>(
    search: &Search<'a>,
    found: SingleList<'a>,
    var: Var,
    env: &Env,
    mark: i64,
    into: &LeastHits,
    fronts: &mut Fronts,
) -> PostingList<'a>
    requires ready { CanStoreHits into.now }
    requires list { IsSingleList search.now.index.now found }
    requires fronts { AreDone search.now into.now fronts.old }
    ensures rows { AreDocsBehind search.now into.now mark
        (filter (λ d. passes_step var mark env.now search.now.probe.now.path (OfDoc d))
        found.entry.docs) result }
    ensures fronts { AreDone search.now into.now fronts.new }
    ensures boxes { fronts.new.boxes ≡ fronts.old.boxes }
{
    let len = done_front(search, &found, mark, into, fronts);
    let path = search.probe.path.as_slice();
    let docs = found.docs.skip(len);
    docs_beside(path, var, docs, mark, env)
}

/// Returns the rows of the reach that are walked, and may change what is stored, beside those of
/// `env`, with this mark or a later one: of the query's documents on a long posting list without
/// those that are done at its front.
pub(crate) fn open_rows<'a>(
    search: &Search<'a>,
    reach: ReachRef<'a>,
    sole: Option<AccessRef<'a>>,
    env: &Env<'a>,
    mark: i64,
    into: &LeastHits,
    fronts: &mut Fronts,
) -> RowWalk<'a>
    requires sole { IsSole search.now.probe.now.path env.now
        (reach_at reach) (option_access sole) }
    requires ready { CanStoreHits into.now }
    requires fronts { AreDone search.now into.now fronts.old }
    ensures rows { AreBehind search.now into.now mark reach.entry.var
        (next_rows search.now.index.now search.now.probe.now.path mark
        env.now (reach_at reach.entry)) result }
    ensures fronts { AreDone search.now into.now fronts.new }
    ensures boxes { fronts.new.boxes ≡ fronts.old.boxes }
{
    let path = search.probe.path.as_slice();
    if reach.var.0 != 0 {
        return rows_beside(path, reach, sole, mark, env, search.index);
    }
    let access = step_access(path, reach, sole, env, search.index);
    match single_list(access, env, search.index) {
        None => many_rows(path, reach.var, access, mark, env, search.index),
        Some(found) => RowWalk::of_docs(docs_behind(
            search, found, reach.var, env, mark, into, fronts,
        ).walk()),
    }
}

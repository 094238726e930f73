//! The first damaged pick.
ghost use Rattle.std.specs.Prelude.{◌≡◌, ◌++◌, ◌∷◌, ◌||◌, ◌&&◌, int_lt, int_le, nat_lt, List, []};
ghost use Rattle.std.specs.Prelude.{map, None, IfOk};
ghost use Rattle.std.specs.Option.{option_copied};
ghost use Rattle.tap_rows.specs.WellFormed.{comes_after};
ghost use Rattle.tap_rows.specs.declared.rows.Pick.{Pick};
ghost use Rattle.restart_core.specs.Damages.{refers, is_second_possible, pick_reason, picks_damage};
ghost use Rattle.restart_core.specs.Earlier.{pair_of};

use crate::picked::Picked;
use crate::rows::{row, row_damage};
use crate::{RestartFault, TableName, Why};
use std::alloc::Global;
use tap_base::Memory;
use tap_rows::{Doc, Pick, RunRow};

// Do the pick's run and document exist, and is the run one of its query?
fn refers(pick: &Pick, run: Option<&RunRow>, doc: Option<&Doc>) -> bool
    ensures { result ≡ refers pick.now (option_copied run.entry) (option_copied doc.entry) }
{
    match (run, doc) {
        (Some(run), Some(_)) => run.query == pick.query,
        _ => false,
    }
}

// Does its first second lie from the document's arrival on and below the run's moment?
fn is_second_possible(pick: &Pick, run: Option<&RunRow>, doc: Option<&Doc>) -> bool
    ensures { result
        ≡ is_second_possible pick.now (option_copied run.entry) (option_copied doc.entry) }
{
    match (run, doc) {
        (Some(run), Some(doc)) => pick.first < run.moment && doc.arrival <= pick.first,
        _ => false,
    }
}

// Does the pick come after the one before, by first second and document?
fn is_later(before: &Pick, pick: &Pick) -> bool
    ensures { result ≡ (int_lt before.now.first pick.now.first
        || (int_le before.now.first pick.now.first && nat_lt before.now.doc.0 pick.now.doc.0)) }
{
    before.first < pick.first || (before.first <= pick.first && before.doc.0 < pick.doc.0)
}

// Does the pick come after the one before, by run, first second and document?
fn comes_after(before: Option<&Pick>, pick: &Pick) -> bool
    ensures { result ≡ comes_after (option_copied before.entry) pick.now }
{
    match before {
        None => true,
        Some(before) => {
            before.run < pick.run || (before.run == pick.run && is_later(before, pick))
        }
    }
}

// Returns why the pick is damaged at this place, behind the pick before and the keys of all before.
// Its own key joins these in the third check, which so comes to the set only for a pick that refers
// to rows.
fn reason(
    runs: &[RunRow],
    docs: &[Doc],
    picked: &mut Picked,
    place: usize,
    before: Option<&Pick>,
    pick: &Pick,
) -> Result<Option<Why>, Memory>
    ensures why { (earlier : List Pick) → picked.old ≡ map pair_of earlier
        → IfOk result (λ why. why
        ≡ pick_reason runs.now docs.now earlier place (option_copied before.entry) pick.now) }
    ensures pairs { (earlier : List Pick) → picked.old ≡ map pair_of earlier
        → IfOk result (λ why. why ≡ None → picked.new ≡ map pair_of (earlier ++ pick.now ∷ [])) }
{
    let run = row(runs, pick.run);
    let doc = row(docs, pick.doc.0);
    if pick.num as usize != place {
        Ok(Some(Why::Number))
    } else if !refers(pick, run, doc) {
        Ok(Some(Why::Reference))
    } else if !picked.add(pick)? {
        Ok(Some(Why::Twice))
    } else if !is_second_possible(pick, run, doc) {
        Ok(Some(Why::Second))
    } else if !comes_after(before, pick) {
        Ok(Some(Why::Order))
    } else {
        Ok(None)
    }
}

// Returns the first damaged pick of these runs and documents.
pub(crate) fn picks_damage(
    alloc: Global,
    runs: &[RunRow],
    docs: &[Doc],
    picks: &[Pick],
) -> Result<Option<RestartFault>, Memory>
    ensures { IfOk result (λ damage. damage ≡ picks_damage runs.now docs.now [] 1 None picks.now) }
{
    let mut picked = Picked::new(alloc);
    let mut before = None;
    for (i, pick) in picks.iter().enumerate() {
        let why = reason(runs, docs, &mut picked, i + 1, before, pick)?;
        if why.is_some() {
            return Ok(row_damage(TableName::Picks, i + 1, why));
        }
        before = Some(pick);
    }
    Ok(None)
}

//! The command that runs a query.

ghost use Rattle.std.specs.Prelude.{◌≡◌, ◌≤◌, ◌<◌, ◌+◌, ◌-◌, ◌^◌};
ghost use Rattle.std.specs.Prelude.{length, map, max, Some, None, slice_index_or, slice_set};
ghost use Rattle.std.specs.Prelude.{OnOk, OnErr, IfOk, IfErr, IfSome};
ghost use Rattle.tap_rows.specs.declared.change.Change.{Change as RowChange};
ghost use Rattle.tap_rows.specs.Deliveries.{pick_rows};
ghost use Rattle.tap_rows.specs.Results.{entry_at};
ghost use Rattle.script_lang.specs.declared.command.Command.{Command};
ghost use Rattle.tap_kept.specs.declared.cached_query.CachedQuery.{CachedQuery};
ghost use Rattle.tap_kept.specs.Keeping.{after_run, AreNew, HoldsAt};

use crate::engine::Engine;
use crate::limits::refuse_more;
use crate::look::query_of;
use crate::prepared::Prepared;
use crate::undo::Undo;
use script_lang::{LimitName, Refusal, Reply};
use std::alloc::Global;
use std::sync::ledger::Ledger;
use tap_base::{Memory, QueryNum, Rows, Steps};
use tap_model::{PICK_LIMIT, RUN_LIMIT};
use tap_rows::{Change, Hit, Pick, RunRow};

/// What a run is about to deliver: its query, its moment, how many runs the query had, and the
/// hits.
#[derive(Drop)]
pub struct Due {
    pub query: QueryNum,
    pub moment: i64,
    pub runs: usize,
    pub hits: Rows<Hit>,
}

// Makes one pick for each hit, numbered after the `before` picks that there are.
fn picks_after(
    alloc: Global,
    before: usize,
    query: QueryNum,
    run: u32,
    hits: &[Hit],
) -> Result<Rows<Pick>, Memory>
    requires { before + length hits.now ≤ max before PICK_LIMIT }
    ensures { IfOk result (λ picks. picks ≡ pick_rows (before + 1) query run hits.now) }
{
    let mut picks = Rows::from_vec(Vec::with_capacity(alloc, hits.len())?);
    let mut count = before;
    for hit in hits {
        count += 1;
        picks.push(Pick {
            num: count as u32,
            query,
            run,
            doc: hit.doc,
            first: hit.first,
        })?;
    }
    Ok(picks)
}

// Copies hits into a list of their own.
fn copy_hits(alloc: Global, hits: &[Hit]) -> Result<Rows<Hit>, Memory>
    ensures { IfOk result (λ copy. copy ≡ hits.now) }
{
    Ok(Rows::from_vec(Vec::from_slice(alloc, hits)?))
}

impl Engine {
    ghost use Rattle.tap_engine.specs.Costs.{TakesNoStep, TakesRowsDue, TakesFewSteps};
    ghost use Rattle.tap_engine.specs.Costs.{cached_run_work};
    ghost use Rattle.tap_engine.specs.Standing.{run_refusal, cached_named, due_of, RefusedBy};
    ghost use Rattle.tap_engine.specs.Ready.{IsReady};
    ghost use Rattle.tap_engine.specs.Answering.{IsUnchangedButHits, undo_run, Prepares};
    ghost use Rattle.tap_engine.specs.Answering.{RefusesSoundly};

    // Finds what a run of the user's query of this name delivers, or gives the first refusal. The
    // limit of runs is checked before the search and the limit of picks after it, which is the
    // order of the refusals.
    #[tactic(auto, unfolding(crate::specs::Standing::look_refusal))]
    fn due_run<L: Ledger>(
        &mut self,
        alloc: Global,
        name: &[u8],
        steps: &mut Steps<L>,
    ) -> Result<Due, Refusal>
        requires ready { IsReady self.old }
        ensures verdict { OnOk result (run_refusal self.old name.now ≡ None) }
        ensures due { IfOk result (λ due.
            Some due ≡ due_of self.old (cached_named self.old name.now)) }
        ensures refusal { IfErr result (λ refusal.
            RefusedBy (run_refusal self.old name.now) refusal) }
        ensures new { IfOk result (λ due. IfSome (cached_named self.old name.now) (λ kept.
            AreNew kept.entries due.hits)) }
        ensures few { OnOk result (self.old.run_count < RUN_LIMIT) }
        ensures room { IfOk result (λ due.
            self.old.pick_count + length due.hits ≤ max self.old.pick_count PICK_LIMIT) }
        ensures still { IsUnchangedButHits self.new self.old }
        ensures quiet { TakesNoStep self.old (Command.Run name.now) steps.old steps.new }
        ensures rows { TakesRowsDue self.old (Command.Run name.now) steps.old steps.new }
        ensures most { steps.new
            ≤ steps.old + cached_run_work self.old (cached_named self.old name.now) }
    {
        let Some(moment) = self.session.moment else {
            return Err(Refusal::NoMoment);
        };
        let kept = query_of(&self.session, &self.queries, name)?;
        refuse_more(LimitName::Runs, RUN_LIMIT, self.run_count, 1)?;
        kept.find(&self.index, moment, &mut self.hits, steps);
        let hits = self.hits.as_slice();
        refuse_more(LimitName::Picks, PICK_LIMIT, self.pick_count, hits.len())?;
        Ok(Due {
            query: kept.row.row().num,
            moment,
            runs: kept.runs,
            hits: copy_hits(alloc, hits)?,
        })
    }

    // Makes what undoes the next run of the query at this place.
    fn undo_run(&self, place: usize) -> Undo
        requires { place < length self.now.queries }
        ensures { (d : CachedQuery)
            → result ≡ undo_run self.now place (slice_index_or self.now.queries place d) }
    {
        let kept = self.queries.at(place);
        Undo::Run {
            place,
            covered: kept.covered,
            runs: kept.runs,
            entries: kept.entries.len(),
            run_count: self.run_count,
            pick_count: self.pick_count,
        }
    }

    // Adds a run that delivers these hits, and gives its rows as a change. At Err nothing has
    // changed.
    fn deliver(
        &mut self,
        alloc: Global,
        query: QueryNum,
        moment: i64,
        ordinal: u32,
        hits: &[Hit],
    ) -> Result<Change, Memory>
        requires first { 0 < query.0 }
        requires place { query.0 ≤ length self.old.queries }
        requires runs { HoldsAt (query.0 - 1) (λ kept. kept.runs + 1 < 2 ^ 64) self.old.queries }
        requires new { HoldsAt (query.0 - 1) (λ kept. AreNew kept.entries hits.now)
            self.old.queries }
        requires few { self.old.run_count < RUN_LIMIT }
        requires room { self.old.pick_count + length hits.now ≤ max self.old.pick_count PICK_LIMIT }
        ensures change { IfOk result (λ change. change ≡ RowChange.RunDone
            (record { num = self.old.run_count + 1; query = query; moment = moment })
            (pick_rows (self.old.pick_count + 1) query (self.old.run_count + 1) hits.now)) }
        ensures engine { OnOk result ((d : CachedQuery) → self.new ≡ record self.old {
          queries = slice_set self.old.queries (query.0 - 1)
              (after_run moment (map (entry_at ordinal) hits.now)
              (slice_index_or self.old.queries (query.0 - 1) d));
          run_count = self.old.run_count + 1;
          pick_count = self.old.pick_count + length hits.now;
        }) }
        ensures err { OnErr result (self.new ≡ self.old) }
    {
        let run = RunRow {
            num: self.run_count as u32 + 1,
            query,
            moment,
        };
        let picks = picks_after(alloc, self.pick_count, query, run.num, hits)?;
        self.queries
            .add_run(query.0 as usize - 1, moment, ordinal, hits)?;
        self.run_count += 1;
        self.pick_count += hits.len();
        Ok(Change::RunDone(run, picks))
    }

    // Runs the user's query of this name.
    pub(crate) fn run<L: Ledger>(
        &mut self,
        alloc: Global,
        name: &[u8],
        steps: &mut Steps<L>,
    ) -> Result<Prepared, Refusal>
        requires ready { IsReady self.old }
        ensures ok { IfOk result (Prepares self.old (Command.Run name.now) self.new) }
        ensures refusal { IfErr result (RefusesSoundly self.old (Command.Run name.now)) }
        ensures err { OnErr result (IsUnchangedButHits self.new self.old) }
        ensures steps { TakesFewSteps self.old (Command.Run name.now) steps.old steps.new }
    {
        let due = self.due_run(alloc, name, steps)?;
        let ordinal = due.runs as u32 + 1;
        let undo = self.undo_run(due.query.0 as usize - 1);
        let change = self.deliver(alloc, due.query, due.moment, ordinal, due.hits.as_slice())?;
        let reply = Reply::Ran {
            ordinal,
            moment: due.moment,
            hits: due.hits,
        };
        Ok(Prepared {
            reply,
            change: Some(change),
            undo,
        })
    }
}

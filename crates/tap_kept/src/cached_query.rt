//! A standing query in memory.

ghost use Rattle.std.specs.Prelude.{◌≡◌, ◌<◌, ◌≤◌, ◌+◌, ◌^◌, pos, false, length, map, OnOk, OnErr};
ghost use Rattle.std.specs.Prelude.{IfOk};
ghost use Rattle.little_box.specs.Boxes.{is_in};
ghost use Rattle.tap_rows.specs.Results.{entry_at};
ghost use Rattle.tap_base.specs.declared.moments.TheConstants.{LAST_MOMENT};
ghost use Rattle.time_marks.specs.NextWake.{next_wake};
ghost use Rattle.query_eval.specs.BoxFronts.{AreInBox, AddsFronts};
ghost use Rattle.tap_base.specs.Numbers.{IsMoment};

use crate::entries::{add_entry, add_hits};
use crate::planned_query::PlannedQuery;
use little_box::LittleBox;
use query_eval::{Hits, run_into};
use row_index::RowIndex;
use script_lang::QueryState;
use std::alloc::Global;
use std::sync::ledger::Ledger;
use tap_base::{LAST_MOMENT, Memory, Steps};
use tap_rows::{Entry, Hit};
use time_marks::Window;
use wake_plan::wake;

/// A standing query in memory: its row with its plan, the second that its runs have covered up to,
/// how many runs it had, and what they delivered.
#[derive(Drop)]
pub struct CachedQuery {
    pub row: PlannedQuery,
    pub covered: i64,
    pub runs: usize,
    pub entries: LittleBox,
}

impl CachedQuery {
    ghost use Rattle.tap_kept.specs.Keeping.{never_run, after_run, before_run, hits_since, AreNew};
    ghost use Rattle.tap_kept.specs.Starting.{with_entry};
    ghost use Rattle.tap_kept.specs.Lines.{last_run, cached_state};
    ghost use Rattle.tap_kept.specs.Costs.{NoProbeHasMark, AreAlone, ArePlain, query_rows_due};
    ghost use Rattle.tap_kept.specs.Costs.{query_work, work_ahead, marks_ahead, window_since};

    /// Makes a query that was never run: it has covered the seconds up to its start.
    pub fn new(alloc: Global, row: PlannedQuery) -> CachedQuery
        ensures { result ≡ never_run row }
    {
        let covered = row.start();
        CachedQuery {
            row,
            covered,
            runs: 0,
            entries: LittleBox::new(alloc),
        }
    }

    /// Puts what a run at this moment delivers into `hits`: what the window query finds since the
    /// last run, without what was delivered. A step is a row that it looks at. It takes no memory.
    pub fn find<L: Ledger>(
        &self,
        index: &RowIndex,
        moment: i64,
        hits: &mut Hits,
        steps: &mut Steps<L>,
    )
        requires covered { IsMoment self.now.covered }
        requires moment { IsMoment moment }
        requires room { length index.now.docs ≤ hits.old.room }
        requires fronts { AreInBox self.now.row.num self.now.entries index.now.docs
            hits.old.fronts }
        ensures hits { hits.new.hits ≡ hits_since self.now index.now moment }
        ensures new { AreNew self.now.entries hits.new.hits }
        ensures room { hits.new.room ≡ hits.old.room }
        ensures fronts { AddsFronts self.now.row.num self.now.entries index.now.docs
            hits.old.fronts hits.new.fronts }
        ensures steps { steps.new ≤ steps.old
            + query_work self.now.entries index.now (window_since self.now moment) self.now.row }
        ensures quiet { NoProbeHasMark index.now (window_since self.now moment) self.now.row
            → steps.new ≡ steps.old }
        ensures due { AreAlone self.now.row → steps.new
            ≤ steps.old + query_rows_due index.now (window_since self.now moment) self.now.row }
    {
        // This call only brings the order of the documents into scope, for the clause `new`.
        let _docs = index.docs();
        let window = Window {
            low: self.covered,
            high: moment,
        };
        let query = self.row.row().num;
        run_into(
            self.row.plan(),
            index,
            &self.entries,
            query,
            window,
            hits,
            steps,
        );
    }

    /// Returns the earliest moment from now on at which a run delivers, if no row is added: the
    /// second after the first that the window query finds since the last run, without what was
    /// delivered, or now if that is later. `None` comes if and only if it finds nothing. A step is
    /// a row that it looks at: they are at most those of a run up to the first second that is
    /// found, and one for each probe.
    pub fn wake<L: Ledger>(
        &self,
        alloc: Global,
        index: &RowIndex,
        now: i64,
        steps: &mut Steps<L>,
    ) -> Result<Option<i64>, Memory>
        requires covered { IsMoment self.now.covered }
        requires now { IsMoment now }
        ensures moment { IfOk result (λ moment.
            moment ≡ next_wake now (hits_since self.now index.now (pos LAST_MOMENT))) }
        ensures steps { steps.new ≤ steps.old + work_ahead self.now index.now }
        ensures plain { ArePlain self.now.row
            → steps.new ≤ steps.old + marks_ahead self.now index.now }
    {
        wake(
            alloc,
            self.row.plan(),
            index,
            &self.entries,
            self.covered,
            now,
            steps,
        )
    }

    // Gives the moment of the last run, if there was one.
    fn last_run(&self) -> Option<i64>
        ensures { result ≡ last_run self.now.runs self.now.covered }
    {
        if self.runs == 0 {
            None
        } else {
            Some(self.covered)
        }
    }

    /// Gives what a line shows of the query beside its name and its text.
    pub fn state(&self) -> QueryState
        ensures { result ≡ cached_state self.now }
    {
        QueryState {
            arrival: self.row.row().arrival,
            start: self.row.start(),
            runs: self.runs,
            last: self.last_run(),
            boxed: self.entries.len(),
        }
    }

    // Adds a run at this moment, of this ordinal, which delivered these. At Err nothing has
    // changed.
    pub(crate) fn add_run(&mut self, moment: i64, ordinal: u32, hits: &[Hit]) -> Result<(), Memory>
        requires runs { self.old.runs + 1 < 2 ^ 64 }
        requires new { AreNew self.old.entries hits.now }
        ensures kept { OnOk result
            (self.new ≡ after_run moment (map (entry_at ordinal) hits.now) self.old) }
        ensures err { OnErr result (self.new ≡ self.old) }
    {
        add_hits(&mut self.entries, ordinal, hits)?;
        self.covered = moment;
        self.runs += 1;
        Ok(())
    }

    // Undoes the last run. It takes no memory.
    pub(crate) fn undo_run(&mut self, covered: i64, runs: usize, entries: u32)
        ensures { self.new ≡ before_run covered runs entries self.old }
    {
        self.covered = covered;
        self.runs = runs;
        if entries <= self.entries.len() {
            self.entries.cut(entries);
        }
    }

    // Adds an entry, of a document that isn't in the box, to the box.
    pub(crate) fn add_entry(&mut self, entry: Entry) -> Result<(), Memory>
        requires { is_in entry.doc.0 self.old.entries ≡ false }
        ensures kept { OnOk result (self.new ≡ with_entry entry self.old) }
        ensures err { OnErr result (self.new ≡ self.old) }
    {
        add_entry(&mut self.entries, entry)
    }
}

//! The row of a query with the plan of its window query.

ghost use Rattle.std.specs.Prelude.{◌≡◌, true, IfOk};
ghost use Rattle.tql_core.specs.Bounds.{are_bounded};
ghost use Rattle.tql_core.specs.Condition.{condition};
ghost use Rattle.tql_core.specs.Scope.{IsQuery};
ghost use Rattle.time_marks.specs.Views.{ranged_probes};
ghost use Rattle.monotone_rewrite.specs.Query.{CanRewriteFrom};
ghost use Rattle.probe_eval.specs.Runs.{HasValidProbes};
ghost use Rattle.tap_rows.specs.declared.rows.QueryRow.{QueryRow};
ghost use Rattle.tap_model.specs.Queries.{condition_by, start_of, probes_from, probes_of_query};
ghost use Rattle.tap_model.specs.Queries.{lines_of};
ghost use Rattle.tap_base.specs.Numbers.{IsMoment};

use access_plan::{Plan, plan};
use delta_rewrite::delta_from;
use incremental_rewrite::{incremental, render};
use monotone_rewrite::monotone_from;
use query_form::form_of;
use restart_core::cut_start;
use std::alloc::Global;
use std::marker::Model;
use tap_base::{Memory, Texts};
use tap_rows::QueryRow;
use tql_core::Cond;

/// The row of a query, with its start, its condition, and the plan of the delta window of the
/// condition's form. Contracts see it as its row.
#[derive(Drop)]
pub struct PlannedQuery {
    row: QueryRow,
    start: i64,
    cond: Cond,
    plan: Plan,
}

impl Model for PlannedQuery {
    ghost Value = { QueryRow };

    ghost view = { λ kept. kept.row };

    ghost invariant = { λ kept. (kept.start ≡ start_of kept.row)
        × ((ranged_probes kept.plan.query ≡ probes_of_query kept.row)
        × HasValidProbes kept.plan.query)
        × ((condition kept.cond ≡ condition_by kept.row)
        × CanRewriteFrom (condition kept.cond) kept.start) };
}

// Gives the first second that a query covers: its arrival if its text is `FROM NOW`, otherwise 0.
#[tactic(auto, unfolding(tap_model::specs::Queries::start_of))]
fn start_of(row: &QueryRow) -> i64
    ensures { result ≡ start_of row.now }
{
    if cut_start(row.source.as_slice()).from_now {
        row.arrival
    } else {
        0
    }
}

// Plans the delta window of a condition's form from a start on. The plan has no probe twice, and
// its marks are solved.
pub(crate) fn make_plan(alloc: Global, cond: &Cond, start: i64) -> Result<Plan, Memory>
    requires scoped { IsQuery (condition cond.now) }
    requires bounded { are_bounded (condition cond.now) ≡ true }
    requires start { IsMoment start }
    ensures probes { IfOk result (λ made.
        ranged_probes made.query ≡ probes_from (condition cond.now) start) }
    ensures scopes { IfOk result (λ made. HasValidProbes made.query) }
    ensures written { CanRewriteFrom (condition cond.now) start }
{
    let form = form_of(alloc, cond)?;
    let query = delta_from(alloc, &form, start)?;
    let ranged = incremental(alloc, query)?;
    let made = plan(alloc, ranged)?;
    Ok(made)
}

impl PlannedQuery {
    /// Joins a row and the plan of its delta window, which is made here once for all runs of the
    /// query.
    pub fn new(alloc: Global, row: QueryRow, cond: Cond) -> Result<PlannedQuery, Memory>
        requires cond { condition cond ≡ condition_by row }
        requires scoped { IsQuery (condition cond) }
        requires bounded { are_bounded (condition cond) ≡ true }
        requires arrival { IsMoment row.arrival }
        ensures { IfOk result (λ kept. kept ≡ row) }
    {
        let start = start_of(&row);
        let plan = make_plan(alloc, &cond, start)?;
        Ok(PlannedQuery {
            row,
            start,
            cond,
            plan,
        })
    }

    pub fn row(&self) -> &QueryRow
        ensures { result.now ≡ self.now }
    {
        &self.row
    }

    /// Gives the plan of its delta window.
    pub fn plan(&self) -> &Plan
        ensures query { ranged_probes result.now.query ≡ probes_of_query self.now }
        ensures probes { HasValidProbes result.now.query }
    {
        &self.plan
    }

    /// Makes the lines that explain the query: those of the window query of its condition as it
    /// is written.
    pub fn lines(&self, alloc: Global) -> Result<Texts, Memory>
        ensures { IfOk result (λ lines. lines ≡ lines_of self.now) }
    {
        let query = monotone_from(alloc, &self.cond, self.start)?;
        let ranged = incremental(alloc, query)?;
        render(alloc, &ranged)
    }

    // Gives the first second that the query covers.
    pub(crate) fn start(&self) -> i64
        ensures { result ≡ start_of self.now }
    {
        self.start
    }
}

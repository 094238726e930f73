//! One probe's turn: its driving rows, with the next one read ahead.

ghost use Rattle.std.specs.Prelude.{◌≡◌, ◌+◌, ◌≤◌};
ghost use Rattle.wake_plan.specs.Turns.{due_mark, due_hits, due_cost, passed, gone_on, IsTurn};
ghost use Rattle.time_marks.specs.NextWake.{least_mark};

use crate::delivers::delivers;
use crate::due::{DrivingRow, read_ahead};
use access_plan::Reach;
use probe_eval::{RowWalk, Search};
use std::sync::ledger::Ledger;
use tap_base::Steps;
use time_marks::Window;
use tql_core::Var;

/// A probe with what is left of its driving rows, in order of their marks. One row is read ahead.
#[derive(Drop)]
pub(crate) struct Turn<'a> {
    pub(crate) search: Search<'a>,
    pub(crate) order: &'a [Reach],
    pub(crate) var: Var,
    pub(crate) rows: RowWalk<'a>,
    pub(crate) next: Option<DrivingRow<'a>>,
}

impl<'a> Turn<'a> {
    /// Returns the mark of the row that was read ahead.
    pub(crate) fn mark(&self) -> Option<i64>
        ensures { result ≡ due_mark self.now.next }
    {
        match &self.next {
            None => None,
            Some(due) => Some(due.mark),
        }
    }

    // Returns the mark of the row that was read ahead, if an unseen document is found beside it.
    fn delivery<L: Ledger>(&self, w: Window, steps: &mut Steps<L>) -> Option<i64>
        requires { IsTurn w self.now }
        ensures mark { result ≡ least_mark (due_hits self.now self.now.next) }
        ensures steps { steps.new ≤ steps.old + due_cost self.now self.now.next }
        ensures more { steps.old ≤ steps.new }
    {
        match &self.next {
            None => None,
            Some(due) => {
                if delivers(&self.search, self.order, false, &due.env, due.mark, steps) {
                    Some(due.mark)
                } else {
                    None
                }
            }
        }
    }

    // Reads the next row ahead.
    fn pass<L: Ledger>(&mut self, w: Window, steps: &mut Steps<L>)
        ensures turn { self.new ≡ passed w self.old }
        ensures steps { steps.new ≤ steps.old + 1 }
        ensures more { steps.old ≤ steps.new }
    {
        self.next = read_ahead(&self.search, w, self.var, &mut self.rows, steps);
    }

    /// Returns the mark of the row that was read ahead, if an unseen document is found beside it.
    /// Else the next row is read ahead.
    pub(crate) fn advance<L: Ledger>(&mut self, w: Window, steps: &mut Steps<L>) -> Option<i64>
        requires { IsTurn w self.old }
        ensures mark { result ≡ least_mark (due_hits self.old self.old.next) }
        ensures turn { self.new ≡ gone_on w self.old result }
        ensures steps { steps.new ≤ steps.old + (1 + due_cost self.old self.old.next) }
        ensures more { steps.old ≤ steps.new }
    {
        let mark = self.delivery(w, steps);
        if mark.is_none() {
            self.pass(w, steps);
        }
        mark
    }
}

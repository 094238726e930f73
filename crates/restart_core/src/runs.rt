//! The first damaged run.
ghost use Rattle.std.specs.Prelude.{◌≡◌, pos};
ghost use Rattle.tap_rows.specs.WellFormed.{was_defined};
ghost use Rattle.restart_core.specs.Damages.{run_reason, runs_damage};

use crate::rows::{follows, row, row_damage};
use crate::{RestartFault, TableName, Why};
use tap_rows::{QueryRow, RunRow};

// Was the query of this number defined by this moment?
fn was_defined(queries: &[QueryRow], num: u32, moment: i64) -> bool
    ensures { result ≡ was_defined queries.now num moment }
{
    match row(queries, num) {
        Some(query) => query.arrival <= moment,
        None => false,
    }
}

// Returns why the run is damaged at this place, if it is.
fn reason(queries: &[QueryRow], place: usize, low: i64, run: &RunRow) -> Option<Why>
    ensures { result ≡ run_reason queries.now place low run.now }
{
    if run.num as usize != place {
        Some(Why::Number)
    } else if !follows(low, run.moment) {
        Some(Why::Moment)
    } else if !was_defined(queries, run.query.0, run.moment) {
        Some(Why::Reference)
    } else {
        None
    }
}

// Returns the first damaged run of these queries.
pub(crate) fn runs_damage(queries: &[QueryRow], runs: &[RunRow]) -> Option<RestartFault>
    ensures { result ≡ runs_damage queries.now 1 (pos 0) runs.now }
{
    let mut low = 0;
    for (i, run) in runs.iter().enumerate() {
        let damage = row_damage(TableName::Runs, i + 1, reason(queries, i + 1, low, run));
        if damage.is_some() {
            return damage;
        }
        low = run.moment;
    }
    None
}

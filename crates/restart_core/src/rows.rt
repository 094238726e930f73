//! What the rows of all tables share.
ghost use Rattle.std.specs.Prelude.{◌≡◌, Option};
ghost use Rattle.std.specs.Option.{option_copied};
ghost use Rattle.tap_rows.specs.WellFormed.{may_follow, row_at};
ghost use Rattle.restart_core.specs.declared.fault.RestartFault.{RestartFault};
ghost use Rattle.restart_core.specs.Damages.{damaged_number, row_damage};

use crate::{RestartFault, TableName, Why};
use tap_base::LAST_MOMENT;

// Returns the row of a number, counted from 1.
pub(crate) fn row<T>(rows: &[T], num: u32) -> Option<&T>
    ensures { option_copied result ≡ row_at num rows.now }
{
    if num == 0 {
        None
    } else {
        rows.get(num as usize - 1)
    }
}

// May a row of this moment follow one of the moment `low`?
pub(crate) fn follows(low: i64, moment: i64) -> bool
    ensures { result ≡ may_follow low moment }
{
    low <= moment && moment <= LAST_MOMENT as i64
}

// The greatest place that a damage can name: it is given as a number of 32 bits.
const PLACE_LIMIT: usize = 4294967295;

// Returns a row's place as a number of 32 bits, 0 if it is above them.
fn damaged_number(place: usize) -> u32
    ensures { result ≡ damaged_number place }
{
    if place <= PLACE_LIMIT {
        place as u32
    } else {
        0
    }
}

// Returns the damage of the row at this place for a reason.
pub(crate) fn damaged(table: TableName, place: usize, why: Why) -> RestartFault
    ensures { result ≡ RestartFault.Damaged table (damaged_number place) why }
{
    RestartFault::Damaged {
        table,
        num: damaged_number(place),
        why,
    }
}

// Returns the damage of the row at this place, if there is a reason.
pub(crate) fn row_damage(table: TableName, place: usize, why: Option<Why>) -> Option<RestartFault>
    ensures { result ≡ row_damage table place why }
{
    match why {
        None => None,
        Some(why) => Some(damaged(table, place, why)),
    }
}

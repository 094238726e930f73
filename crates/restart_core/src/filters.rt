//! The first damaged filter.
ghost use Rattle.std.specs.Prelude.{◌≡◌, pos};
ghost use Rattle.restart_core.specs.Damages.{filter_reason, filters_damage};

use crate::rows::{follows, row_damage};
use crate::{RestartFault, TableName, Why};
use tap_base::is_name;
use tap_rows::FilterRow;

// Returns why the filter is damaged at this place, if it is.
fn reason(place: usize, low: i64, filter: &FilterRow) -> Option<Why>
    ensures { result ≡ filter_reason place low filter.now }
{
    if filter.num as usize != place {
        Some(Why::Number)
    } else if !follows(low, filter.arrival) {
        Some(Why::Moment)
    } else if !is_name(filter.owner.as_slice()) {
        Some(Why::Name)
    } else {
        None
    }
}

// Returns the first damaged filter. The texts of filters are not read here.
pub(crate) fn filters_damage(filters: &[FilterRow]) -> Option<RestartFault>
    ensures { result ≡ filters_damage 1 (pos 0) filters.now }
{
    let mut low = 0;
    for (i, filter) in filters.iter().enumerate() {
        let damage = row_damage(TableName::Filters, i + 1, reason(i + 1, low, filter));
        if damage.is_some() {
            return damage;
        }
        low = filter.arrival;
    }
    None
}

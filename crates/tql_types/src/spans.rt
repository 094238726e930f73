//! Durations.
ghost use Rattle.std.specs.Prelude.{◌≡◌, ◌≤ℤ◌, ℤ, pos, negsuc};
ghost use Rattle.tql_types.specs.Spans.{seconds_of, span_of, span_fault, shift_fault, kept_span};
ghost use Rattle.tql_types.specs.Spans.{amount_of};

use crate::TypeFault;
use tql_tree::{Shift, Unit};

/// Limits the seconds of a duration.
pub const SPAN_LIMIT: i64 = 100_000_000_000;

// Returns how many seconds a unit has.
fn unit_seconds(unit: Unit) -> i128
    ensures { result ≡ pos (seconds_of unit) }
{
    match unit {
        Unit::Seconds => 1,
        Unit::Minutes => 60,
        Unit::Hours => 3600,
        Unit::Days => 86400,
    }
}

// Returns how many seconds a shift counts.
fn seconds(shift: Shift) -> i128
    ensures { result ≡ span_of shift }
{
    shift.count as i128 * unit_seconds(shift.unit)
}

/// Returns the fault of a duration that is too long.
pub fn long_span(shift: Option<Shift>) -> Option<TypeFault>
    ensures { result ≡ span_fault shift }
{
    match shift {
        Some(shift) if seconds(shift) > SPAN_LIMIT as i128 => Some(TypeFault::BigSpan {
            place: shift.count_place,
        }),
        _ => None,
    }
}

/// Returns the fault of a shift that may not stand here.
pub fn needless_shift(shift: Option<Shift>) -> Option<TypeFault>
    ensures { result ≡ shift_fault shift }
{
    match shift {
        Some(shift) => Some(TypeFault::Clash { place: shift.place }),
        None => None,
    }
}

// Returns that many seconds if a duration may have them, and else 0.
fn keep_span(n: i128) -> i64
    ensures value { result ≡ kept_span n }
    ensures low { pos 0 ≤ℤ result }
    ensures high { result ≤ℤ pos 100000000000 }
{
    if 0 <= n && n <= SPAN_LIMIT as i128 {
        n as i64
    } else {
        0
    }
}

/// Returns how far a shift moves a time, in seconds: backwards below 0. A duration that is too long
/// moves nothing.
pub fn shift_amount(shift: Option<Shift>) -> i64
    ensures value { result ≡ amount_of shift }
    ensures low { negsuc 99999999999 ≤ℤ result }
    ensures high { result ≤ℤ pos 100000000000 }
{
    match shift {
        None => 0,
        Some(shift) => {
            let n = keep_span(seconds(shift));
            if shift.back { -n } else { n }
        }
    }
}

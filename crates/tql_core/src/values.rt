//! The seconds of times, for some bound rows.
ghost use Rattle.std.specs.Prelude.{◌≡◌, ◌≤ℤ◌, ◌+ℤ◌, ℤ, pos, negsuc, IfSome, Option, Some, None};
ghost use Rattle.tql_core.specs.Bounds.{IsWide};
ghost use Rattle.tql_core.specs.Row.{arrival, date};
ghost use Rattle.tql_core.specs.Values.{round_up_to_day, base_value, value, day_of};
ghost use Rattle.tql_core.specs.Bindings.{row_of};

use crate::row_ref::{arrival, date};
use crate::{Base, Env, RowRef, Term};

// The seconds of a UTC day.
const DAY: i128 = 86_400;

// Returns the start of the first UTC day that is not before the second.
fn round_up_to_day(x: i128) -> i128
    requires low { negsuc 18446744073709551615 ≤ℤ x }
    requires high { x ≤ℤ pos 18446744073709551615 }
    ensures value { result ≡ round_up_to_day x }
    ensures range { IsWide result }
{
    x + (-x).rem_euclid(DAY)
}

// Returns the start of the first day from a row's arrival plus that many seconds on.
fn start_of_day(row: RowRef<'_>, plus: i64) -> i128
    ensures range { IsWide result }
    ensures value { result ≡ round_up_to_day (arrival (row_of row.entry) +ℤ plus) }
{
    round_up_to_day(i128::from(arrival(row)) + i128::from(plus))
}

// Returns the start of the first day from a date plus that many seconds on, if there is a date.
fn day_of(plus: i64, date: Option<i64>) -> Option<i128>
    ensures range { IfSome result IsWide }
    ensures value { result ≡ day_of plus date }
{
    match date {
        None => None,
        Some(x) => Some(round_up_to_day(i128::from(x) + i128::from(plus))),
    }
}

// Returns a second that may be absent as a number of 128 bits.
fn wide(x: Option<i64>) -> Option<i128>
    ensures range { IfSome result IsWide }
    ensures value { result ≡ x }
{
    match x {
        None => None,
        Some(x) => Some(i128::from(x)),
    }
}

// Returns the second that a time is counted from, if its row is bound and has it.
fn base_value(base: Base, env: &Env) -> Option<i128>
    ensures value { result ≡ base_value base env.now }
    ensures range { IfSome result IsWide }
{
    match base {
        Base::Fixed => Some(0),
        Base::Arrival(v) => match env.get(v) {
            None => None,
            Some(row) => Some(i128::from(arrival(row))),
        },
        Base::Date(v) => match env.get(v) {
            None => None,
            Some(row) => wide(date(row)),
        },
        Base::ArrivalDay(v, n) => match env.get(v) {
            None => None,
            Some(row) => Some(start_of_day(row, n)),
        },
        Base::DateDay(v, n) => match env.get(v) {
            None => None,
            Some(row) => day_of(n, date(row)),
        },
    }
}

/// Returns the second of a time, since 1970-01-01T00:00:00Z, or `None` if and only if its base is
/// absent. A sum of any two numbers of 64 bits fits, so nothing is required of the row or of the
/// term.
pub fn value(term: Term, env: &Env) -> Option<i128>
    ensures { result ≡ value term env.now }
{
    match base_value(term.base, env) {
        None => None,
        Some(x) => Some(x + i128::from(term.plus)),
    }
}

//! Reads times, and compares them with each other, with now and with today.
ghost use Rattle.std.specs.Prelude.{◌≡◌, ◌≤ℤ◌, ℤ, pos, negsuc, neg_ℤ, ◌+ℤ◌, IfOk, unwrap_or};
ghost use Rattle.std.specs.Option.{option_copied};
ghost use Rattle.tap_base.specs.Numbers.{moment_of};
ghost use Rattle.tql_core.specs.Condition.{condition};
ghost use Rattle.tql_core.specs.Values.{round_up_to_day};
ghost use Rattle.tql_types.specs.Clocks.{base_of, base_in, clock_of, later, day, turned, half_line};
ghost use Rattle.tql_types.specs.Clocks.{now_core, today_core, compared_numbers, times_core};
ghost use Rattle.tql_types.specs.Bounds.{IsNearClock};
ghost use Rattle.tql_types.specs.declared.clock.Clock.{Clock};

use crate::field::Field;
use crate::scope::{Variable, find_variable};
use crate::sort::variable_field;
use crate::spans::shift_amount;
use std::alloc::Global;
use tap_base::{Memory, Op, read_moment};
use tql_core::{Atom, Base, Cond, Term, Var, compares};
use tql_tree::{Expr, Shift};

// The seconds of a UTC day.
const DAY: i64 = 86_400;

/// Holds a time, or now or today with the seconds by which it is shifted.
#[derive(Clone, Copy, Debug, PartialEq, Eq)]
pub enum Clock {
    At(Term),
    Now(i64),
    Today(i64),
}

// Returns the base of a field of this variable; of a field that is no time it is fixed.
fn base_of_field(var: Var, field: Option<Field>) -> Base
    ensures { result ≡ base_of var field }
{
    match field {
        Some(Field::Arrival) => Base::Arrival(var),
        Some(Field::Date) => Base::Date(var),
        _ => Base::Fixed,
    }
}

// Returns the base of a field of a variable that may be out of scope.
fn base_of_variable(variable: Option<&Variable>, name: &[u8]) -> Base
    ensures { result ≡ base_in (option_copied variable.entry) name.now }
{
    match variable {
        Some(found) => base_of_field(found.var, variable_field(Some(found), name)),
        None => Base::Fixed,
    }
}

// Returns the second of a moment text, or 0 if it isn't valid.
fn second_of(text: &[u8]) -> i64
    ensures value { result ≡ unwrap_or (moment_of text.now) (pos 0) }
    ensures low { pos 0 ≤ℤ result }
    ensures high { result ≤ℤ pos 250000000000 }
{
    read_moment(text).ok().unwrap_or(0)
}

// Returns the sum of a second and a shift.
fn shifted(second: i64, amount: i64) -> i64
    requires low { pos 0 ≤ℤ second }
    requires high { second ≤ℤ pos 250000000000 }
    requires back { negsuc 99999999999 ≤ℤ amount }
    requires forward { amount ≤ℤ pos 100000000000 }
    ensures value { result ≡ second +ℤ amount }
    ensures low { negsuc 99999999999 ≤ℤ result }
    ensures high { result ≤ℤ pos 350000000000 }
{
    second + amount
}

/// Returns the time of an expression, or now or today with the seconds by which it is shifted.
pub fn read_clock(scope: &[Variable], expr: &Expr) -> Clock
    ensures value { result ≡ clock_of scope.now expr.now }
    ensures near { IsNearClock result }
{
    match expr {
        Expr::Now { shift, .. } => Clock::Now(shift_amount(*shift)),
        Expr::Today { shift, .. } => Clock::Today(shift_amount(*shift)),
        Expr::Moment { text, shift, .. } => Clock::At(Term {
            base: Base::Fixed,
            plus: shifted(second_of(text.as_slice()), shift_amount(*shift)),
        }),
        Expr::Field {
            var,
            field,
            shift,
            ..
        } => Clock::At(Term {
            base: base_of_variable(find_variable(var.as_slice(), scope), field.as_slice()),
            plus: shift_amount(*shift),
        }),
        Expr::Number { .. } | Expr::Str { .. } => Clock::At(Term {
            base: Base::Fixed,
            plus: 0,
        }),
    }
}

// Returns a time that many seconds earlier.
fn earlier_by(term: Term, n: i64) -> Term
    requires low { negsuc 99999999999 ≤ℤ term.plus }
    requires high { term.plus ≤ℤ pos 350000000000 }
    requires back { negsuc 99999999999 ≤ℤ n }
    requires forward { n ≤ℤ pos 100000000000 }
    ensures value { result ≡ later term (neg_ℤ n) }
    ensures low { negsuc 299999999999 ≤ℤ result.plus }
    ensures high { result.plus ≤ℤ pos 450000000000 }
{
    Term {
        base: term.base,
        plus: term.plus - n,
    }
}

// Returns a time one second later.
fn next_second(term: Term) -> Term
    requires low { negsuc 299999999999 ≤ℤ term.plus }
    requires high { term.plus ≤ℤ pos 450000000000 }
    ensures value { result ≡ later term (pos 1) }
    ensures low { negsuc 299999999999 ≤ℤ result.plus }
    ensures high { result.plus ≤ℤ pos 450000000001 }
{
    Term {
        base: term.base,
        plus: term.plus + 1,
    }
}

// Returns the start of the first UTC day that is not before the second.
fn up_to_day(x: i64) -> i64
    requires low { negsuc 599999999999 ≤ℤ x }
    requires high { x ≤ℤ pos 600000000000 }
    ensures { result ≡ round_up_to_day x }
{
    x + (-x).rem_euclid(DAY)
}

// Returns the start of the first UTC day that is not before a time.
fn first_day(term: Term) -> Term
    requires low { negsuc 599999999999 ≤ℤ term.plus }
    requires high { term.plus ≤ℤ pos 600000000000 }
    ensures { result ≡ day term }
{
    match term.base {
        Base::Arrival(var) => Term {
            base: Base::ArrivalDay(var, term.plus),
            plus: 0,
        },
        Base::Date(var) => Term {
            base: Base::DateDay(var, term.plus),
            plus: 0,
        },
        Base::Fixed => Term {
            base: Base::Fixed,
            plus: up_to_day(term.plus),
        },
        Base::ArrivalDay(..) | Base::DateDay(..) => term,
    }
}

// Returns the comparison with its sides exchanged.
fn turn(op: Op) -> Op
    ensures { result ≡ turned op }
{
    match op {
        Op::Eq => Op::Eq,
        Op::Ne => Op::Ne,
        Op::Lt => Op::Gt,
        Op::Le => Op::Ge,
        Op::Gt => Op::Lt,
        Op::Ge => Op::Le,
    }
}

// Returns the condition that compares now with a time; `next` is a second later.
fn compare_now(alloc: Global, op: Op, at: Term, next: Term) -> Result<Cond, Memory>
    ensures { IfOk result (λ cond. condition cond ≡ half_line op at next) }
{
    match op {
        Op::Ge => Ok(Cond::NowAtLeast(at)),
        Op::Gt => Ok(Cond::NowAtLeast(next)),
        Op::Lt => Ok(Cond::NowBefore(at)),
        Op::Le => Ok(Cond::NowBefore(next)),
        Op::Eq => Ok(Cond::All(
            Box::new(alloc, Cond::NowAtLeast(at))?,
            Box::new(alloc, Cond::NowBefore(next))?,
        )),
        Op::Ne => Ok(Cond::Either(
            Box::new(alloc, Cond::NowBefore(at))?,
            Box::new(alloc, Cond::NowAtLeast(next))?,
        )),
    }
}

// Returns the condition that compares now, shifted by `a` seconds, with a time.
fn now_condition(alloc: Global, op: Op, a: i64, term: Term) -> Result<Cond, Memory>
    requires shift { IsNearClock (Clock.Now a) }
    requires term { IsNearClock (Clock.At term) }
    ensures { IfOk result (λ cond. condition cond ≡ now_core op a term) }
{
    let at = earlier_by(term, a);
    compare_now(alloc, op, at, next_second(at))
}

// Returns the condition that compares today, shifted by `a` seconds, with a time.
fn today_condition(alloc: Global, op: Op, a: i64, term: Term) -> Result<Cond, Memory>
    requires shift { IsNearClock (Clock.Today a) }
    requires term { IsNearClock (Clock.At term) }
    ensures { IfOk result (λ cond. condition cond ≡ today_core op a term) }
{
    let at = earlier_by(term, a);
    compare_now(alloc, op, first_day(at), first_day(next_second(at)))
}

// Returns the condition that compares two numbers, which is true or false.
fn constant_condition(op: Op, a: i64, b: i64) -> Cond
    ensures { condition result ≡ compared_numbers op a b }
{
    if compares(op, i128::from(a), i128::from(b)) {
        Cond::True
    } else {
        Cond::False
    }
}

/// Returns the condition that compares two times. Now with today is false. `Memory` if out of
/// memory.
pub fn compare_times(alloc: Global, op: Op, left: Clock, right: Clock) -> Result<Cond, Memory>
    requires left { IsNearClock left }
    requires right { IsNearClock right }
    ensures { IfOk result (λ cond. condition cond ≡ times_core op left right) }
{
    match (left, right) {
        (Clock::At(x), Clock::At(y)) => Ok(Cond::Plain(Atom::Times(x, op, y))),
        (Clock::Now(a), Clock::At(y)) => now_condition(alloc, op, a, y),
        (Clock::At(x), Clock::Now(b)) => now_condition(alloc, turn(op), b, x),
        (Clock::Today(a), Clock::At(y)) => today_condition(alloc, op, a, y),
        (Clock::At(x), Clock::Today(b)) => today_condition(alloc, turn(op), b, x),
        (Clock::Now(a), Clock::Now(b)) | (Clock::Today(a), Clock::Today(b)) => {
            Ok(constant_condition(op, a, b))
        }
        (Clock::Now(_), Clock::Today(_)) | (Clock::Today(_), Clock::Now(_)) => Ok(Cond::False),
    }
}

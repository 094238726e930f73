//! Windows of seconds.
ghost use Rattle.std.specs.Prelude.{◌≡◌, ℤ, pos, ◌+ℤ◌, ◌-ℤ◌, ◌&&◌, int_le, int_lt};
ghost use Rattle.jiff_core.specs.Calendar.{IsWithin};
ghost use Rattle.tql_core.specs.Values.{round_up_to_day};
ghost use Rattle.time_marks.specs.Windows.{is_within, moved, days_window};

// The seconds of a UTC day.
const DAY: i64 = 86_400;

// The last second of a UTC day, counted from its start.
const LAST_OF_DAY: i64 = 86_399;

/// Holds the seconds from `low` up to but not with `high`, since 1970-01-01T00:00:00Z.
#[derive(Clone, Copy, Debug, PartialEq, Eq)]
pub struct Window {
    pub low: i64,
    pub high: i64,
}

// Returns the start of the first UTC day that is not before the second.
fn round_up_to_day(x: i64) -> i64
    requires { IsWithin 900000000000 x }
    ensures { result ≡ round_up_to_day x }
{
    x + (-x).rem_euclid(DAY)
}

// Returns the later of two seconds.
fn later(a: i64, b: i64) -> i64
    ensures { (x : ℤ) → int_le result x ≡ (int_le a x && int_le b x) }
{
    if a < b { b } else { a }
}

// Returns the earlier of two seconds.
fn earlier(a: i64, b: i64) -> i64
    ensures { (x : ℤ) → int_lt x result ≡ (int_lt x a && int_lt x b) }
{
    if a < b { a } else { b }
}

// Returns an end moved by that many seconds.
fn moved_end(end: i64, by: i64) -> i64
    requires end { IsWithin 1000000000000 end }
    requires by { IsWithin 1000000000000 by }
    ensures { result ≡ end +ℤ by }
{
    end + by
}

// Returns the end of the window of days: the first second whose next start of a day is not before
// this end.
fn day_end(end: i64) -> i64
    requires { IsWithin 900000000000 end }
    ensures { result ≡ round_up_to_day end -ℤ pos 86399 }
{
    round_up_to_day(end) - LAST_OF_DAY
}

impl Window {
    /// Returns whether the second is in the window. It takes no memory, and neither do the other
    /// calls.
    pub fn contains(&self, x: i64) -> bool
        ensures { result ≡ is_within self.now x }
    {
        self.low <= x && x < self.high
    }

    /// Returns the window of the seconds that are in both windows.
    pub fn meet(self, other: Window) -> Window
        ensures { (x : ℤ) → is_within result x ≡ (is_within self x && is_within other x) }
    {
        Window {
            low: later(self.low, other.low),
            high: earlier(self.high, other.high),
        }
    }

    /// Returns the window with both ends moved by that many seconds.
    pub fn shift(self, by: i64) -> Window
        requires low { IsWithin 1000000000000 self.low }
        requires high { IsWithin 1000000000000 self.high }
        requires by { IsWithin 1000000000000 by }
        ensures ends { result ≡ moved self by }
        ensures seconds { (x : ℤ) → is_within result x ≡ is_within self (x -ℤ by) }
    {
        Window {
            low: moved_end(self.low, by),
            high: moved_end(self.high, by),
        }
    }

    /// Returns the window that has a second if and only if this one has the start of the first UTC
    /// day that is not before it.
    pub fn to_days(self) -> Window
        requires low { IsWithin 900000000000 self.low }
        requires high { IsWithin 900000000000 self.high }
        ensures ends { result ≡ days_window self }
        ensures seconds { (x : ℤ) → is_within result x ≡ is_within self (round_up_to_day x) }
    {
        Window {
            low: day_end(self.low),
            high: day_end(self.high),
        }
    }
}

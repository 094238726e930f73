//! Durations by which a time is moved.

/// Names a unit of time.
#[derive(Clone, Copy, Debug, PartialEq, Eq)]
pub enum Unit {
    Seconds,
    Minutes,
    Hours,
    Days,
}

/// Says how far a time is moved: `count` units, which is at least 0, and backwards if `back`.
/// `place` is that of the sign, and `count_place` that of the count.
#[derive(Clone, Copy, Debug, PartialEq, Eq)]
pub struct Shift {
    pub place: u32,
    pub back: bool,
    pub count_place: u32,
    pub count: i64,
    pub unit: Unit,
}

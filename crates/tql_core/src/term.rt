//! Variables and times.

/// Numbers a variable. 0 is `m`, the document that is asked about, 1 to 5 are those of EXISTS in
/// the order of the text, and k + 8 is the copy of k in a path.
#[derive(Clone, Copy, Debug, PartialEq, Eq, Hash)]
pub struct Var(pub u8);

/// Says what a time is counted from: the arrival or the date of a variable's row, second 0 for a
/// fixed moment, or a day. A day is the start of the first UTC day that is not before the arrival
/// or the date plus a number of seconds.
#[derive(Clone, Copy, Debug, PartialEq, Eq, Hash)]
pub enum Base {
    Arrival(Var),
    Date(Var),
    Fixed,
    ArrivalDay(Var, i64),
    DateDay(Var, i64),
}

/// Holds a time: a base, and a number of seconds that is added to it.
#[derive(Clone, Copy, Debug, PartialEq, Eq, Hash)]
pub struct Term {
    pub base: Base,
    pub plus: i64,
}

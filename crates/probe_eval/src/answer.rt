//! The answer of a condition.

/// Whether a condition is true of some rows, and if it isn't, whether it is never true: then it is
/// false beside every other row of a variable too.
#[derive(Clone, Copy)]
pub enum TruthOfRows {
    True,
    False,
    Never,
}

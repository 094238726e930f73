//! The signs among the tokens.
use tap_base::Op;

/// Names a sign of one or two bytes: `(`, `)`, `.`, `:`, `+`, `-`, or that of a comparison.
#[derive(Clone, Copy, Debug, PartialEq, Eq)]
pub enum Sign {
    Open,
    Close,
    Dot,
    Colon,
    Plus,
    Minus,
    Compare(Op),
}

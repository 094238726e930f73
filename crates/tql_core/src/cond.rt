//! Conditions.
use crate::{Atom, Term, Var};
use tql_tree::Table;

/// Holds a condition, which may speak of now: now is at a term's second or later (`NowAtLeast`), or
/// before it (`NowBefore`). `All` and `Either` join two conditions.
#[derive(Drop)]
pub enum Cond {
    True,
    False,
    Plain(Atom),
    NowAtLeast(Term),
    NowBefore(Term),
    All(Box<Cond>, Box<Cond>),
    Either(Box<Cond>, Box<Cond>),
    Not(Box<Cond>),
    Exists(Var, Table, Box<Cond>),
}

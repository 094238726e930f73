//! Which variables a condition names.

ghost use Rattle.std.specs.Prelude.{◌≡◌};
ghost use Rattle.tql_core.specs.Condition.{condition};
ghost use Rattle.query_form.specs.Form.{base_names, number_names, text_names, atom_names};
ghost use Rattle.query_form.specs.Form.{names, has_exists};

use tql_core::{Atom, Base, Cond, NumExpr, TextExpr, Var};

// Returns whether a time counts from the variable's row.
fn base_names(var: Var, base: Base) -> bool
    ensures { result ≡ base_names var base }
{
    match base {
        Base::Arrival(of) | Base::Date(of) => of.0 == var.0,
        Base::Fixed => false,
        Base::ArrivalDay(of, _) | Base::DateDay(of, _) => of.0 == var.0,
    }
}

// Returns whether a number is a field of the variable's row.
pub(crate) fn number_names(var: Var, x: NumExpr) -> bool
    ensures { result ≡ number_names var x }
{
    match x {
        NumExpr::Literal(_) => false,
        NumExpr::Field(of, _) => of.0 == var.0,
    }
}

// Returns whether a text is a field of the variable's row.
pub(crate) fn text_names(var: Var, x: &TextExpr) -> bool
    ensures { result ≡ text_names var x.now }
{
    match x {
        TextExpr::Literal(_) => false,
        TextExpr::Field(of, _) => of.0 == var.0,
    }
}

// Returns whether an atom names the variable.
fn atom_names(var: Var, atom: &Atom) -> bool
    ensures { result ≡ atom_names var atom.now }
{
    match atom {
        Atom::Numbers(x, _, y) => number_names(var, *x) || number_names(var, *y),
        Atom::Texts(x, _, y) => text_names(var, x) || text_names(var, y),
        Atom::Times(x, _, y) => base_names(var, x.base) || base_names(var, y.base),
        Atom::Has(of, _, y) => of.0 == var.0 || text_names(var, y),
    }
}

// Returns whether a condition names the variable.
pub(crate) fn names(var: Var, cond: &Cond) -> bool
    ensures { result ≡ names var (condition cond.now) }
{
    match cond {
        Cond::True | Cond::False => false,
        Cond::Plain(atom) => atom_names(var, atom),
        Cond::NowAtLeast(term) | Cond::NowBefore(term) => base_names(var, term.base),
        Cond::All(l, r) | Cond::Either(l, r) => names(var, l) || names(var, r),
        Cond::Not(x) => names(var, x),
        Cond::Exists(_, _, x) => names(var, x),
    }
}

// Returns whether an EXISTS stands in a condition.
pub(crate) fn has_exists(cond: &Cond) -> bool
    ensures { result ≡ has_exists (condition cond.now) }
{
    match cond {
        Cond::All(l, r) | Cond::Either(l, r) => has_exists(l) || has_exists(r),
        Cond::Not(x) => has_exists(x),
        Cond::Exists(_, _, _) => true,
        _ => false,
    }
}

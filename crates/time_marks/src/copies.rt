//! Copies of terms and atoms for a path.
ghost use Rattle.std.specs.Prelude.{◌≡◌, ◌≤◌, IfOk};
ghost use Rattle.time_marks.specs.Marks.{copy, copy_base, copy_term, copy_number, copy_text};
ghost use Rattle.time_marks.specs.Marks.{copy_atom, arrival_term};
ghost use Rattle.tql_core.specs.Scope.{BaseFits, NumFits, TextFits, AtomFits};

use tap_base::Memory;
use tql_core::{Atom, Base, NumExpr, Term, TextExpr, Var};

// What is added to a variable's number for its copy in a path.
const COPY_OFFSET: u8 = 8;

/// Returns the copy in a path of a variable of a query; `m` is its own copy.
pub fn copy(var: Var) -> Var
    requires { var.0 ≤ 5 }
    ensures { result ≡ copy var }
{
    if var.0 == 0 {
        Var(0)
    } else {
        // A path's copies come behind all variables of a query, which are at most 5.
        Var(var.0 + COPY_OFFSET)
    }
}

/// Returns the arrival of a variable's row as a time.
pub fn arrival_term(var: Var) -> Term
    ensures { result ≡ arrival_term var }
{
    Term {
        base: Base::Arrival(var),
        plus: 0,
    }
}

// Returns the base with the copy of its variable.
fn copy_base(base: Base) -> Base
    requires { BaseFits base }
    ensures { result ≡ copy_base base }
{
    match base {
        Base::Arrival(v) => Base::Arrival(copy(v)),
        Base::Date(v) => Base::Date(copy(v)),
        Base::Fixed => Base::Fixed,
        Base::ArrivalDay(v, n) => Base::ArrivalDay(copy(v), n),
        Base::DateDay(v, n) => Base::DateDay(copy(v), n),
    }
}

/// Returns the term with the copy of its variable.
pub fn copy_term(term: &Term) -> Term
    requires { BaseFits term.now.base }
    ensures { result ≡ copy_term term.now }
{
    Term {
        base: copy_base(term.base),
        plus: term.plus,
    }
}

// Returns the number with the copy of its variable.
fn copy_number(x: NumExpr) -> NumExpr
    requires { NumFits x }
    ensures { result ≡ copy_number x }
{
    match x {
        NumExpr::Literal(n) => NumExpr::Literal(n),
        NumExpr::Field(v, f) => NumExpr::Field(copy(v), f),
    }
}

// Returns the text with the copy of its variable. `Memory` if out of memory.
fn copy_text(x: &TextExpr) -> Result<TextExpr, Memory>
    requires { TextFits x.now }
    ensures { IfOk result (λ r. r ≡ copy_text x.now) }
{
    match x {
        TextExpr::Literal(t) => Ok(TextExpr::Literal(t.copy()?)),
        TextExpr::Field(v, f) => Ok(TextExpr::Field(copy(*v), *f)),
    }
}

// Returns the atom with the copies of its variables. `Memory` if out of memory.
pub(crate) fn copy_atom(atom: &Atom) -> Result<Atom, Memory>
    requires { AtomFits atom.now }
    ensures { IfOk result (λ r. r ≡ copy_atom atom.now) }
{
    match atom {
        Atom::Numbers(x, op, y) => Ok(Atom::Numbers(copy_number(*x), *op, copy_number(*y))),
        Atom::Texts(x, op, y) => Ok(Atom::Texts(copy_text(x)?, *op, copy_text(y)?)),
        Atom::Times(x, op, y) => Ok(Atom::Times(copy_term(x), *op, copy_term(y))),
        Atom::Has(v, f, y) => Ok(Atom::Has(copy(*v), *f, copy_text(y)?)),
    }
}

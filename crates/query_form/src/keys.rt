//! Which conditions have a key: a value by which the index finds the rows of a variable.

ghost use Rattle.std.specs.Prelude.{◌≡◌};
ghost use Rattle.tql_core.specs.Condition.{condition};
ghost use Rattle.query_form.specs.Form.{is_of_one, is_each_key, is_index_key, has_key};

use crate::names::{number_names, text_names};
use tap_base::Op;
use tql_core::{Atom, Cond, ListField, TextExpr, Var};

// Returns whether one side names the variable, and the other not.
fn is_of_one(x: bool, y: bool) -> bool
    ensures { result ≡ is_of_one x y }
{
    (x && !y) || (y && !x)
}

// Returns whether a text is the variable's, looked for in a list of another row that isn't its
// words.
fn is_each_key(var: Var, list: ListField, y: &TextExpr) -> bool
    ensures { result ≡ is_each_key var list y.now }
{
    match list {
        ListField::Words => false,
        _ => text_names(var, y),
    }
}

// Returns whether the index finds the variable's rows by an atom.
fn is_index_key(var: Var, atom: &Atom) -> bool
    ensures { result ≡ is_index_key var atom.now }
{
    match atom {
        Atom::Numbers(x, Op::Eq, y) => is_of_one(number_names(var, *x), number_names(var, *y)),
        Atom::Texts(x, Op::Eq, y) => is_of_one(text_names(var, x), text_names(var, y)),
        Atom::Has(of, list, y) => {
            if of.0 == var.0 {
                !text_names(var, y)
            } else {
                is_each_key(var, *list, y)
            }
        }
        _ => false,
    }
}

// Returns whether each alternative of a condition has a key of the variable.
pub(crate) fn has_key(var: Var, cond: &Cond) -> bool
    ensures { result ≡ has_key var (condition cond.now) }
{
    match cond {
        Cond::Plain(atom) => is_index_key(var, atom),
        Cond::All(l, r) => has_key(var, l) || has_key(var, r),
        Cond::Either(l, r) => has_key(var, l) && has_key(var, r),
        _ => false,
    }
}

//! Guards that can be evaluated already, while rows of a path are still looked for.

ghost use Rattle.std.specs.Prelude.{◌≡◌};
ghost use Rattle.access_plan.specs.Accesses.{is_held};
ghost use Rattle.access_plan.specs.Views.{is_known};
ghost use Rattle.probe_eval.specs.Open.{base_known, number_known, text_known, atom_known};
ghost use Rattle.probe_eval.specs.Open.{atom_held, may_hold};
ghost use Rattle.probe_eval.specs.Open.{are_open, path_open, may_go};
ghost use Rattle.probe_eval.specs.Open.{is_apart, are_apart, path_apart};

use access_plan::{Known, is_held};
use time_marks::Step;
use tql_core::{Atom, Base, Env, NumExpr, TextExpr, Var, true_atom};

/// Returns whether the variable of the time is known.
pub(crate) fn base_known(known: Known, base: Base) -> bool
    ensures { result ≡ base_known (is_known known.entry) base }
{
    match base {
        Base::Arrival(var) => known.has(var),
        Base::Date(var) => known.has(var),
        Base::Fixed => true,
        Base::ArrivalDay(var, _) => known.has(var),
        Base::DateDay(var, _) => known.has(var),
    }
}

/// Returns whether the variable of the number is known.
pub(crate) fn number_known(known: Known, e: NumExpr) -> bool
    ensures { result ≡ number_known (is_known known.entry) e }
{
    match e {
        NumExpr::Literal(_) => true,
        NumExpr::Field(var, _) => known.has(var),
    }
}

// Returns whether the variable of the text is known.
fn text_known(known: Known, e: &TextExpr) -> bool
    ensures { result ≡ text_known (is_known known.entry) e.now }
{
    match e {
        TextExpr::Literal(_) => true,
        TextExpr::Field(var, _) => known.has(*var),
    }
}

/// Returns whether each variable of the guard is known.
pub(crate) fn atom_known(known: Known, guard: &Atom) -> bool
    ensures { result ≡ atom_known (is_known known.entry) guard.now }
{
    match guard {
        Atom::Numbers(x, _, y) => number_known(known, *x) && number_known(known, *y),
        Atom::Texts(x, _, y) => text_known(known, x) && text_known(known, y),
        Atom::Has(var, _, y) => known.has(*var) && text_known(known, y),
        Atom::Times(x, _, y) => base_known(known, x.base) && base_known(known, y.base),
    }
}

// Returns whether the variable of the time has a row.
fn base_held(env: &Env, base: Base) -> bool
    ensures { result ≡ base_known (is_held env.now) base }
{
    match base {
        Base::Arrival(var) => is_held(env, var),
        Base::Date(var) => is_held(env, var),
        Base::Fixed => true,
        Base::ArrivalDay(var, _) => is_held(env, var),
        Base::DateDay(var, _) => is_held(env, var),
    }
}

// Returns whether the variable of the number has a row.
fn number_held(env: &Env, e: NumExpr) -> bool
    ensures { result ≡ number_known (is_held env.now) e }
{
    match e {
        NumExpr::Literal(_) => true,
        NumExpr::Field(var, _) => is_held(env, var),
    }
}

// Returns whether the variable of the text has a row.
fn text_held(env: &Env, e: &TextExpr) -> bool
    ensures { result ≡ text_known (is_held env.now) e.now }
{
    match e {
        TextExpr::Literal(_) => true,
        TextExpr::Field(var, _) => is_held(env, *var),
    }
}

// Returns whether each variable of the guard has a row.
fn atom_held(env: &Env, guard: &Atom) -> bool
    ensures { result ≡ atom_held env.now guard.now }
{
    match guard {
        Atom::Numbers(x, _, y) => number_held(env, *x) && number_held(env, *y),
        Atom::Texts(x, _, y) => text_held(env, x) && text_held(env, y),
        Atom::Has(var, _, y) => is_held(env, *var) && text_held(env, y),
        Atom::Times(x, _, y) => base_held(env, x.base) && base_held(env, y.base),
    }
}

// Returns whether the guard is true, or can't be evaluated yet. Most guards that can be evaluated
// are true, so that is asked first.
fn may_hold<'a>(env: &Env<'a>, guard: &'a Atom) -> bool
    ensures { result ≡ may_hold env.now guard.now }
{
    true_atom(guard, env) || !atom_held(env, guard)
}

// Returns whether each guard is true, or can't be evaluated yet.
fn are_open<'a>(env: &Env<'a>, guards: &'a [Atom]) -> bool
    ensures { result ≡ are_open env.now guards.now }
{
    for guard in guards {
        if !may_hold(env, guard) {
            return false;
        }
    }
    true
}

// Returns whether each guard of the path is true, or can't be evaluated yet.
fn path_open<'a>(path: &'a [Step], env: &Env<'a>) -> bool
    ensures { result ≡ path_open path.now env.now }
{
    for step in path {
        if !are_open(env, step.guards.as_slice()) {
            return false;
        }
    }
    true
}

// Returns whether the guard doesn't name the variable, or names besides it only variables that have
// a row.
fn is_apart(env: &Env, var: Var, guard: &Atom) -> bool
    ensures { result ≡ is_apart env.now var guard.now }
{
    atom_known(Known::AllBut(var), guard) || atom_known(Known::HeldOr(env, var), guard)
}

// Returns whether this is so of each guard.
fn are_apart(env: &Env, var: Var, guards: &[Atom]) -> bool
    ensures { result ≡ are_apart env.now var guards.now }
{
    for guard in guards {
        if !is_apart(env, var, guard) {
            return false;
        }
    }
    true
}

/// Returns whether no guard of the path names the variable and another one that has no row yet.
pub(crate) fn path_apart(path: &[Step], env: &Env, var: Var) -> bool
    ensures { result ≡ path_apart path.now env.now var }
{
    for step in path {
        if !are_apart(env, var, step.guards.as_slice()) {
            return false;
        }
    }
    true
}

/// Returns whether the rows so far have arrived by the mark and no guard that can be evaluated is
/// false.
pub(crate) fn may_go<'a>(path: &'a [Step], mark: i64, env: &Env<'a>) -> bool
    ensures { result ≡ may_go path.now mark env.now }
{
    env.come_by(mark) && path_open(path, env)
}

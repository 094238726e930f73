//! The marks at which a document can begin to be given.
ghost use Rattle.std.specs.Prelude.{◌≡◌, ◌≤◌, [], ◌∷◌, ◌++◌, pos, map, IfOk, OnOk};
ghost use Rattle.tql_core.specs.Condition.{condition};
ghost use Rattle.time_marks.specs.Marks.{copy, copy_atom, guards_of, arrival_term, step_of};
ghost use Rattle.time_marks.specs.Marks.{mark_if, marks, rising, rising_from, below};
ghost use Rattle.tql_core.specs.Scope.{CondFits, IsQuery};

use crate::copies::{arrival_term, copy, copy_atom, copy_term};
use crate::{Mark, Step};
use std::alloc::Global;
use tap_base::{Memory, Rows};
use tql_core::{Atom, Base, Cond, Term, Var};
use tql_tree::Table;

// Appends the guards of the condition, with the copies of their variables.
fn add_guards(cond: &Cond, guards: &mut Rows<Atom>) -> Result<(), Memory>
    requires { CondFits (condition cond.now) }
    ensures { OnOk result
        (guards.new ≡ guards.old ++ map copy_atom (guards_of (condition cond.now))) }
{
    match cond {
        Cond::Plain(atom) => {
            guards.push(copy_atom(atom)?)?;
            Ok(())
        }
        Cond::All(l, r) => {
            add_guards(l, guards)?;
            add_guards(r, guards)
        }
        _ => Ok(()),
    }
}

/// Returns the path with one more step at its end: it binds the variable's copy to a row of the
/// table, with the guards of the condition. `Memory` if out of memory.
pub fn longer_path(
    alloc: Global,
    path: &Rows<Step>,
    var: Var,
    table: Table,
    cond: &Cond,
) -> Result<Rows<Step>, Memory>
    requires { (var.0 ≤ 5) × CondFits (condition cond.now) }
    ensures { IfOk result (λ steps.
        steps ≡ path.now ++ step_of var table (condition cond.now) ∷ []) }
{
    let mut steps = path.copy()?;
    let mut guards = Rows::new(alloc);
    add_guards(cond, &mut guards)?;
    steps.push(Step {
        var: copy(var),
        table,
        guards,
    })?;
    Ok(steps)
}

// Appends the term as a mark with this path, if the flag is set.
fn add_mark_if(up: bool, path: &Rows<Step>, at: Term, out: &mut Rows<Mark>) -> Result<(), Memory>
    ensures { OnOk result (out.new ≡ out.old ++ map (below path.now) (mark_if up at)) }
{
    if up {
        let path = path.copy()?;
        out.push(Mark { path, at })?;
    }
    Ok(())
}

// Appends the marks of the sign, each with the path before its own.
fn add_marks(
    alloc: Global,
    cond: &Cond,
    up: bool,
    path: &Rows<Step>,
    out: &mut Rows<Mark>,
) -> Result<(), Memory>
    requires { CondFits (condition cond.now) }
    ensures { OnOk result
        (out.new ≡ out.old ++ map (below path.now) (marks (condition cond.now) up)) }
{
    match cond {
        Cond::True => Ok(()),
        Cond::False => Ok(()),
        Cond::Plain(_) => Ok(()),
        Cond::NowAtLeast(term) => add_mark_if(up, path, copy_term(term), out),
        Cond::NowBefore(term) => add_mark_if(!up, path, copy_term(term), out),
        Cond::All(l, r) => {
            add_marks(alloc, l, up, path, out)?;
            add_marks(alloc, r, up, path, out)
        }
        Cond::Either(l, r) => {
            add_marks(alloc, l, up, path, out)?;
            add_marks(alloc, r, up, path, out)
        }
        Cond::Not(x) => add_marks(alloc, x, !up, path, out),
        Cond::Exists(var, table, x) => {
            let steps = longer_path(alloc, path, *var, *table, x)?;
            let at = arrival_term(copy(*var));
            add_mark_if(up, &steps, at, out)?;
            add_marks(alloc, x, up, &steps, out)?;
            Ok(())
        }
    }
}

// Returns the arrival of the document and the marks of the sign plus.
fn rising_of(alloc: Global, cond: &Cond) -> Result<Rows<Mark>, Memory>
    requires { CondFits (condition cond.now) }
    ensures { IfOk result (λ found. found ≡ rising (condition cond.now)) }
{
    let mut found = Rows::new(alloc);
    let none = Rows::new(alloc);
    let steps = longer_path(alloc, &none, Var(0), Table::Docs, cond)?;
    let at = arrival_term(Var(0));
    add_mark_if(true, &steps, at, &mut found)?;
    add_marks(alloc, cond, true, &steps, &mut found)?;
    Ok(found)
}

// Returns the rising marks, and the start if it is above 0.
fn marks_from(alloc: Global, cond: &Cond, start: i64) -> Result<Rows<Mark>, Memory>
    requires { CondFits (condition cond.now) }
    ensures { IfOk result (λ found. found ≡ rising_from (condition cond.now) start) }
{
    let mut found = rising_of(alloc, cond)?;
    let none = Rows::new(alloc);
    let steps = longer_path(alloc, &none, Var(0), Table::Docs, cond)?;
    let at = Term {
        base: Base::Fixed,
        plus: start,
    };
    add_mark_if(0 < start, &steps, at, &mut found)?;
    Ok(found)
}

/// Returns the marks at which a document can begin to be given from the start on, each with the
/// path of its rows: the document's arrival first, then the marks of the condition in their order,
/// and the start if it is above 0. `start` is in seconds since 1970-01-01T00:00:00Z. `Memory` if
/// out of memory. The condition names no variable but `m` and those that its EXISTS bind.
pub fn rising_from(alloc: Global, cond: &Cond, start: i64) -> Result<Rows<Mark>, Memory>
    requires { IsQuery (condition cond.now) }
    ensures { IfOk result (λ found. found ≡ rising_from (condition cond.now) start) }
{
    let found = marks_from(alloc, cond, start)?;
    Ok(found)
}

/// Returns the rising marks of a condition that is asked for all seconds from 0. `Memory` if out of
/// memory.
pub fn rising(alloc: Global, cond: &Cond) -> Result<Rows<Mark>, Memory>
    requires { IsQuery (condition cond.now) }
    ensures { IfOk result (λ found. found ≡ rising_from (condition cond.now) (pos 0)) }
{
    rising_from(alloc, cond, 0)
}

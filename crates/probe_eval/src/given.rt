//! Which accesses the guards of a path give to rows of a variable: where they give one alone, there
//! is no choice beside any rows of the same variables, and none is looked for.

ghost use Rattle.std.specs.Prelude.{List, ◌∷◌, ◌++◌, option_to_list};
ghost use Rattle.access_plan.specs.declared.access.Access.{Access};
ghost use Rattle.access_plan.specs.Accesses.{is_held, access_by, accesses_by};
ghost use Rattle.access_plan.specs.Views.{access_at, option_access, reach_at};
ghost use Rattle.probe_eval.specs.Given.{IsGiven};
ghost use Rattle.probe_eval.specs.Nexts.{IsSole};
ghost use Rattle.probe_eval.specs.StepRows.{step_accesses};

use access_plan::{AccessRef, Known, ReachRef, access_by};
use time_marks::Step;
use tql_core::{Atom, Env, Var};
use tql_tree::Table;

/// Which accesses some guards give: none, one, or several.
#[derive(Clone, Copy)]
pub(crate) enum Given<'a> {
    None,
    One(AccessRef<'a>),
    Several,
}

// Returns the access and some more.
fn one_and<'a>(access: AccessRef<'a>, more: Given<'a>) -> Given<'a>
    ensures { (ys : List Access) → IsGiven more.entry ys
        → IsGiven result (access_at access.entry ∷ ys) }
{
    match more {
        Given::None => Given::One(access),
        Given::One(_other) => Given::Several,
        Given::Several => Given::Several,
    }
}

// Returns some accesses and some more.
fn both<'a>(some: Given<'a>, more: Given<'a>) -> Given<'a>
    ensures { (xs ys : List Access) → IsGiven some.entry xs → IsGiven more.entry ys
        → IsGiven result (xs ++ ys) }
{
    match some {
        Given::None => more,
        Given::One(access) => one_and(access, more),
        Given::Several => Given::Several,
    }
}

// Returns the access to the variable's rows that the guard gives.
fn given_by<'a>(guard: &'a Atom, var: Var, table: Table, env: &Env) -> Given<'a>
    ensures { IsGiven result (option_to_list (access_by (is_held env.now) var table guard.now)) }
{
    match access_by(Known::Held(env), var, table, guard) {
        None => Given::None,
        Some(access) => Given::One(access),
    }
}

// Returns the accesses to the variable's rows that the guards give.
fn given_of<'a>(guards: &'a [Atom], var: Var, table: Table, env: &Env) -> Given<'a>
    ensures { IsGiven result (accesses_by (is_held env.now) var table guards.now) }
{
    match guards.split_first() {
        None => Given::None,
        Some((guard, rest)) => {
            let first = given_by(guard, var, table, env);
            let more = given_of(rest, var, table, env);
            both(first, more)
        }
    }
}

// Returns the accesses to the variable's rows that guards of the path give.
fn given_on<'a>(path: &'a [Step], var: Var, table: Table, env: &Env) -> Given<'a>
    ensures { IsGiven result (step_accesses path.now env.now var table) }
{
    match path.split_first() {
        None => Given::None,
        Some((step, rest)) => {
            let first = given_of(step.guards.as_slice(), var, table, env);
            let more = given_on(rest, var, table, env);
            both(first, more)
        }
    }
}

/// Returns the access by which the rows of the reach are walked beside rows of the same variables,
/// whichever they are. `None` comes if and only if guards of the path give several.
pub(crate) fn sole_access<'a>(
    path: &'a [Step],
    reach: ReachRef<'a>,
    env: &Env,
) -> Option<AccessRef<'a>>
    ensures { IsSole path.now env.now (reach_at reach.entry) (option_access result) }
{
    match given_on(path, reach.var, reach.table, env) {
        Given::None => Some(reach.access),
        Given::One(access) => Some(access),
        Given::Several => None,
    }
}

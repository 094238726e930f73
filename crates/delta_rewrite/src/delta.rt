//! The marks of a condition, each with what has to hold there for the condition to change by it.

ghost use Rattle.std.specs.Prelude.{◌≡◌, ◌≤◌, [], ◌∷◌, ◌++◌, map, true, IfOk, OnOk};
ghost use Rattle.tql_core.specs.Bounds.{is_bounded, are_bounded};
ghost use Rattle.tql_core.specs.Condition.{condition, Always};
ghost use Rattle.tql_core.specs.Scope.{CondFits};
ghost use Rattle.tql_core.specs.Trees.{KeepsTrees};
ghost use Rattle.time_marks.specs.Kept.{are_kept};
ghost use Rattle.time_marks.specs.Marks.{body};
ghost use Rattle.time_marks.specs.Views.{probes_in};
ghost use Rattle.delta_rewrite.specs.Asking.{AskFits, asked_if, own_probe, exists_inside};
ghost use Rattle.delta_rewrite.specs.Asking.{below_step};
ghost use Rattle.delta_rewrite.specs.Delta.{probe_if, delta};

use crate::asked::{Ask, ask_all};
use crate::bodies::body_at;
use crate::renamed::renamed_body;
use node_pool::{NodeId, Pool};
use std::alloc::Global;
use tap_base::{Memory, Rows};
use time_marks::{Probe, Step, arrival_term, copy, copy_term, longer_path};
use tql_core::{Cond, TNode, Term, Var, intern_node};
use tql_tree::Table;

// Returns the probe of a mark with no path yet.
fn one_probe(alloc: Global, at: Term, body: NodeId) -> Result<Rows<Probe>, Memory>
    ensures { IfOk result (λ out.
        out ≡ record { path = []; at = at; body = body } ∷ []) }
{
    let mut out = Rows::new(alloc);
    out.push(Probe {
        path: Rows::new(alloc),
        at,
        body,
    })?;
    Ok(out)
}

// Returns the probe of a mark with no path yet whose body is True, if the flag is set.
fn bare_if(alloc: Global, pool: &mut Pool<TNode>, up: bool, at: Term) -> Result<Rows<Probe>, Memory>
    requires { is_bounded at ≡ true }
    ensures nodes { OnOk result (KeepsTrees pool.old pool.new) }
    ensures kept { IfOk result (λ out. are_kept pool.new out ≡ true) }
    ensures probes { IfOk result (λ out. probes_in pool.new out ≡ probe_if up at Always) }
{
    if up {
        let body = intern_node(pool, TNode::True)?;
        let out = one_probe(alloc, at, body)?;
        Ok(out)
    } else {
        Ok(Rows::new(alloc))
    }
}

/// Returns the probe of a mark with no path yet that asks for the condition, if the flag is set.
/// `Memory` comes if memory runs out or the pool is full.
pub(crate) fn asking_if(
    alloc: Global,
    pool: &mut Pool<TNode>,
    up: bool,
    cond: &Cond,
    at: Term,
) -> Result<Rows<Probe>, Memory>
    requires { is_bounded at ≡ true }
    ensures nodes { OnOk result (KeepsTrees pool.old pool.new) }
    ensures kept { IfOk result (λ out. are_kept pool.new out ≡ true) }
    ensures probes { IfOk result (λ out.
        probes_in pool.new out ≡ probe_if up at (body (condition cond.now) at)) }
{
    if up {
        let body = body_at(pool, cond, &at)?;
        let out = one_probe(alloc, at, body)?;
        Ok(out)
    } else {
        Ok(Rows::new(alloc))
    }
}

// Returns the probe of a bound variable's arrival with no path yet.
fn own_probe(
    alloc: Global,
    pool: &mut Pool<TNode>,
    var: Var,
    cond: &Cond,
) -> Result<Rows<Probe>, Memory>
    requires { var.0 ≤ 5 }
    ensures nodes { OnOk result (KeepsTrees pool.old pool.new) }
    ensures kept { IfOk result (λ out. are_kept pool.new out ≡ true) }
    ensures probes { IfOk result (λ out.
        probes_in pool.new out ≡ own_probe var (condition cond.now)) }
{
    let at = arrival_term(copy(var));
    let here = body_at(pool, cond, &at)?;
    let body = renamed_body(pool, here, var, copy(var))?;
    let out = one_probe(alloc, at, body)?;
    Ok(out)
}

// Returns the probe with these steps before its path.
fn below_step(steps: &Rows<Step>, probe: Probe) -> Result<Probe, Memory>
    ensures { IfOk result (λ lower. lower ≡ below_step steps.now probe) }
{
    let Probe { path, at, body } = probe;
    let mut longer = steps.copy()?;
    longer.append(path)?;
    Ok(Probe {
        path: longer,
        at,
        body,
    })
}

/// Returns the probes with these steps before each path. `Memory` if out of memory.
pub(crate) fn all_below(
    alloc: Global,
    steps: &Rows<Step>,
    probes: Rows<Probe>,
) -> Result<Rows<Probe>, Memory>
    ensures { IfOk result (λ lower. lower ≡ map (below_step steps.now) probes) }
{
    let mut lower = Rows::new(alloc);
    for probe in probes.into_vec() {
        lower.push(below_step(steps, probe)?)?;
    }
    Ok(lower)
}

/// Returns the probes of both lists. `Memory` if out of memory.
pub(crate) fn joined(left: Rows<Probe>, right: Rows<Probe>) -> Result<Rows<Probe>, Memory>
    ensures { IfOk result (λ out. out ≡ left ++ right) }
{
    let mut out = left;
    out.append(right)?;
    Ok(out)
}

// Returns the probes of a part, each with what is asked at its mark if the flag is set.
fn ask_if(
    alloc: Global,
    pool: &mut Pool<TNode>,
    flag: bool,
    ask: Ask,
    cond: &Cond,
    probes: Rows<Probe>,
) -> Result<Rows<Probe>, Memory>
    requires fits { AskFits ask }
    requires kept { are_kept pool.old probes ≡ true }
    ensures nodes { OnOk result (KeepsTrees pool.old pool.new) }
    ensures kept { IfOk result (λ out. are_kept pool.new out ≡ true) }
    ensures probes { IfOk result (λ out. probes_in pool.new out
        ≡ asked_if flag ask (condition cond.now) (probes_in pool.old probes)) }
{
    if flag {
        ask_all(alloc, pool, ask, cond, probes)
    } else {
        Ok(probes)
    }
}

// Returns the probes of an EXISTS below its step, from those of its inner condition.
fn exists_inside(
    alloc: Global,
    pool: &mut Pool<TNode>,
    var: Var,
    table: Table,
    cond: &Cond,
    up: bool,
    inner: Rows<Probe>,
) -> Result<Rows<Probe>, Memory>
    requires fits { var.0 ≤ 5 }
    requires kept { are_kept pool.old inner ≡ true }
    ensures nodes { OnOk result (KeepsTrees pool.old pool.new) }
    ensures kept { IfOk result (λ out. are_kept pool.new out ≡ true) }
    ensures probes { IfOk result (λ out. probes_in pool.new out
        ≡ exists_inside var table (condition cond.now) up (probes_in pool.old inner)) }
{
    if up {
        let own = own_probe(alloc, pool, var, cond)?;
        let asked = ask_all(alloc, pool, Ask::SomeRow(var, table), cond, inner)?;
        let all = joined(own, asked)?;
        Ok(all)
    } else {
        ask_all(alloc, pool, Ask::NoneCome(var, table), cond, inner)
    }
}

/// Returns the probes at which the condition can become true (sign plus) or false (sign minus),
/// each with what has to hold there. `Memory` comes if memory runs out or the pool is full.
pub(crate) fn delta(
    alloc: Global,
    pool: &mut Pool<TNode>,
    cond: &Cond,
    up: bool,
) -> Result<Rows<Probe>, Memory>
    requires fits { CondFits (condition cond.now) }
    requires bounded { are_bounded (condition cond.now) ≡ true }
    ensures nodes { OnOk result (KeepsTrees pool.old pool.new) }
    ensures kept { IfOk result (λ out. are_kept pool.new out ≡ true) }
    ensures probes { IfOk result (λ out.
        probes_in pool.new out ≡ delta (condition cond.now) up) }
{
    match cond {
        Cond::True => Ok(Rows::new(alloc)),
        Cond::False => Ok(Rows::new(alloc)),
        Cond::Plain(_) => Ok(Rows::new(alloc)),
        Cond::NowAtLeast(term) => bare_if(alloc, pool, up, copy_term(term)),
        Cond::NowBefore(term) => bare_if(alloc, pool, !up, copy_term(term)),
        Cond::All(l, r) => {
            let first = delta(alloc, pool, l, up)?;
            let left = ask_if(alloc, pool, up, Ask::Right, r, first)?;
            let second = delta(alloc, pool, r, up)?;
            let right = ask_if(alloc, pool, up, Ask::Left, l, second)?;
            let all = joined(left, right)?;
            Ok(all)
        }
        Cond::Either(l, r) => {
            let first = delta(alloc, pool, l, up)?;
            let left = ask_if(alloc, pool, !up, Ask::NotRight, r, first)?;
            let second = delta(alloc, pool, r, up)?;
            let right = ask_if(alloc, pool, !up, Ask::NotLeft, l, second)?;
            let all = joined(left, right)?;
            Ok(all)
        }
        Cond::Not(x) => delta(alloc, pool, x, !up),
        Cond::Exists(var, table, x) => {
            let inner = delta(alloc, pool, x, up)?;
            let inside = exists_inside(alloc, pool, *var, *table, x, up, inner)?;
            let none = Rows::new(alloc);
            let steps = longer_path(alloc, &none, *var, *table, x)?;
            let all = all_below(alloc, &steps, inside)?;
            Ok(all)
        }
    }
}

//! The delta window of a condition: a probe for each rising mark, which asks what its row makes
//! true.

ghost use Rattle.std.specs.Prelude.{◌≡◌, ◌≤ℤ◌, ◌++◌, [], ◌∷◌, pos, true, IfOk, OnOk};
ghost use Rattle.std.specs.List.{filter};
ghost use Rattle.tql_core.specs.Bounds.{are_bounded};
ghost use Rattle.tql_core.specs.Condition.{condition};
ghost use Rattle.tql_core.specs.Scope.{CondFits};
ghost use Rattle.tql_core.specs.Trees.{KeepsTrees};
ghost use Rattle.time_marks.specs.Kept.{is_kept, are_kept};
ghost use Rattle.time_marks.specs.Views.{probe_in, probes_in, probes_of};
ghost use Rattle.monotone_rewrite.specs.Query.{can_find, CanRewriteFrom};
ghost use Rattle.monotone_rewrite.specs.Laws.{IsUnionOf, AreProbes};
ghost use Rattle.delta_rewrite.specs.Delta.{unsettled, delta_window};
ghost use Rattle.delta_rewrite.specs.Asking.{probes_below, settled_probes};

use crate::delta::{all_below, asking_if, delta, joined};
use crate::settled::{folded_body, settled_body};
use monotone_rewrite::can_find;
use node_pool::Pool;
use std::alloc::Global;
use tap_base::{Memory, Rows};
use time_marks::{Probe, WindowQuery, arrival_term, longer_path};
use tql_core::{Base, Cond, TNode, Term, Var};
use tql_tree::Table;

// Returns the probes below the step of the document: that of its arrival, those that make the
// condition true, and that of the start if it is above 0.
fn probes_below(
    alloc: Global,
    pool: &mut Pool<TNode>,
    cond: &Cond,
    start: i64,
) -> Result<Rows<Probe>, Memory>
    requires fits { CondFits (condition cond.now) }
    requires bounded { are_bounded (condition cond.now) ≡ true }
    requires from_zero { pos 0 ≤ℤ start }
    requires to_last { start ≤ℤ pos 250000000000 }
    ensures kept { IfOk result (λ out. are_kept pool.new out ≡ true) }
    ensures probes { IfOk result (λ out.
        probes_in pool.new out ≡ probes_below (condition cond.now) start) }
{
    let own = asking_if(alloc, pool, true, cond, arrival_term(Var(0)))?;
    let rising = delta(alloc, pool, cond, true)?;
    let both = joined(own, rising)?;
    let at = Term {
        base: Base::Fixed,
        plus: start,
    };
    let first = asking_if(alloc, pool, 0 < start, cond, at)?;
    let all = joined(both, first)?;
    Ok(all)
}

// Returns the probes for the seconds from the start on, before they are settled.
fn unsettled(
    alloc: Global,
    pool: &mut Pool<TNode>,
    cond: &Cond,
    start: i64,
) -> Result<Rows<Probe>, Memory>
    requires fits { CondFits (condition cond.now) }
    requires bounded { are_bounded (condition cond.now) ≡ true }
    requires from_zero { pos 0 ≤ℤ start }
    requires to_last { start ≤ℤ pos 250000000000 }
    ensures kept { IfOk result (λ out. are_kept pool.new out ≡ true) }
    ensures probes { IfOk result (λ out.
        probes_in pool.new out ≡ unsettled (condition cond.now) start) }
{
    let below = probes_below(alloc, pool, cond, start)?;
    let none = Rows::new(alloc);
    let steps = longer_path(alloc, &none, Var(0), Table::Docs, cond)?;
    let out = all_below(alloc, &steps, below)?;
    Ok(out)
}

// Appends the probe, unless its body is False.
fn push_found(pool: &Pool<TNode>, probe: Probe, out: &mut Rows<Probe>) -> Result<(), Memory>
    requires one { is_kept pool.now probe ≡ true }
    requires kept { are_kept pool.now out.old ≡ true }
    ensures kept { OnOk result (are_kept pool.now out.new ≡ true) }
    ensures probes { OnOk result (probes_in pool.now out.new ≡ probes_in pool.now out.old
        ++ filter can_find (probe_in pool.now probe ∷ [])) }
{
    if can_find(pool, probe.body) {
        out.push(probe)?;
    }
    Ok(())
}

// Appends the probe, folded, settled and folded again, unless its body is False then.
fn add_settled(pool: &mut Pool<TNode>, probe: Probe, out: &mut Rows<Probe>) -> Result<(), Memory>
    requires one { is_kept pool.old probe ≡ true }
    requires kept { are_kept pool.old out.old ≡ true }
    ensures nodes { OnOk result (KeepsTrees pool.old pool.new) }
    ensures kept { OnOk result (are_kept pool.new out.new ≡ true) }
    ensures probes { OnOk result (probes_in pool.new out.new ≡ probes_in pool.old out.old
        ++ settled_probes (probe_in pool.old probe ∷ [])) }
{
    let Probe { path, at, body } = probe;
    let folded = folded_body(pool, &at, body)?;
    let settled = settled_body(pool, path.as_slice(), &at, folded)?;
    let found = Probe {
        path,
        at,
        body: settled,
    };
    push_found(pool, found, out)?;
    Ok(())
}

// Returns the probes, settled and folded, without those whose body is False then.
fn settled_probes(
    alloc: Global,
    pool: &mut Pool<TNode>,
    probes: Rows<Probe>,
) -> Result<Rows<Probe>, Memory>
    requires { are_kept pool.old probes ≡ true }
    ensures kept { IfOk result (λ out. are_kept pool.new out ≡ true) }
    ensures probes { IfOk result (λ out.
        probes_in pool.new out ≡ settled_probes (probes_in pool.old probes)) }
{
    let mut out = Rows::new(alloc);
    for probe in probes.into_vec() {
        add_settled(pool, probe, &mut out)?;
    }
    Ok(out)
}

// Returns the delta window of the condition.
fn delta_window(alloc: Global, cond: &Cond, start: i64) -> Result<WindowQuery, Memory>
    requires { CanRewriteFrom (condition cond.now) start }
    ensures { IfOk result (λ query.
        probes_of query ≡ delta_window (condition cond.now) start) }
{
    let mut pool = Pool::new(alloc);
    let found = unsettled(alloc, &mut pool, cond, start)?;
    let probes = settled_probes(alloc, &mut pool, found)?;
    Ok(WindowQuery { pool, probes })
}

/// Returns the delta window of a condition for the seconds from the start on. It has a probe for
/// each rising mark, which asks for what the row that drives the mark makes true: a condition that
/// was true before was found before. A probe's body is folded, the guards of its path are True in
/// it, it is folded again, and probes whose body is False then are left out. The condition names no
/// variable but `m` and those that its EXISTS bind, and its times are in the range that typing
/// gives them. Times are in seconds since 1970-01-01T00:00:00Z. `Memory` comes if memory runs out
/// or the bodies have more than 4,294,967,295 nodes.
pub fn delta_from(alloc: Global, cond: &Cond, start: i64) -> Result<WindowQuery, Memory>
    requires { CanRewriteFrom (condition cond.now) start }
    ensures is_window { IfOk result (λ query.
        probes_of query ≡ delta_window (condition cond.now) start) }
    ensures is_union { IfOk result (λ query.
        IsUnionOf (condition cond.now) start (probes_of query)) }
    ensures scopes { IfOk result (λ query. AreProbes (probes_of query)) }
{
    let query = delta_window(alloc, cond, start)?;
    Ok(query)
}

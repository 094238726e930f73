//! The window query of a condition: a probe for each rising mark.

ghost use Rattle.std.specs.Prelude.{◌≡◌, pos, [], ◌∷◌, ◌++◌, IfOk, OnOk, not, true};
ghost use Rattle.std.specs.List.{filter};
ghost use Rattle.tap_base.specs.Bytes.{IsPlaceOf};
ghost use Rattle.tql_core.specs.Bounds.{is_bounded};
ghost use Rattle.tql_core.specs.Condition.{condition};
ghost use Rattle.tql_core.specs.Trees.{tree_at};
ghost use Rattle.time_marks.specs.Kept.{are_kept};
ghost use Rattle.time_marks.specs.Views.{probes_in, probes_of};
ghost use Rattle.monotone_rewrite.specs.Folding.{known, is_no};
ghost use Rattle.monotone_rewrite.specs.Query.{can_find, fold_probe, probe_of, window, CanRewrite};
ghost use Rattle.monotone_rewrite.specs.Query.{CanRewriteFrom};
ghost use Rattle.monotone_rewrite.specs.Laws.{IsUnionOf, AreProbes};

use crate::folded::folded_body;
use crate::shared::{FoldedNode, kind_of};
use node_pool::{NodeId, Pool};
use std::alloc::Global;
use tap_base::{Memory, Rows};
use time_marks::{Mark, Probe, WindowQuery, rising_from};
use tql_core::{Cond, TNode};

/// Returns whether the body is anything but False.
pub fn can_find(pool: &Pool<TNode>, body: NodeId) -> bool
    requires { IsPlaceOf pool.now body.0 }
    ensures { result ≡ not (is_no (known (tree_at pool.now body.0))) }
{
    match kind_of(pool, body) {
        FoldedNode::No => false,
        _ => true,
    }
}

// Appends the probe of a mark with this body, unless the body is False.
fn push_probe(
    pool: &Pool<TNode>,
    mark: &Mark,
    body: NodeId,
    probes: &mut Rows<Probe>,
) -> Result<(), Memory>
    requires within { IsPlaceOf pool.now body.0 }
    requires bounded { is_bounded mark.now.at ≡ true }
    requires kept { are_kept pool.now probes.old ≡ true }
    ensures kept { OnOk result (are_kept pool.now probes.new ≡ true) }
    ensures probes { OnOk result (probes_in pool.now probes.new ≡ probes_in pool.now probes.old
        ++ filter can_find (record {
          path = mark.now.path;
          at = mark.now.at;
          body = tree_at pool.now body.0;
        } ∷ [])) }
{
    if can_find(pool, body) {
        let path = mark.path.copy()?;
        probes.push(Probe {
            path,
            at: mark.at,
            body,
        })?;
    }
    Ok(())
}

// Appends the mark's probe, unless its body is False.
fn add_probe(
    pool: &mut Pool<TNode>,
    cond: &Cond,
    mark: &Mark,
    probes: &mut Rows<Probe>,
) -> Result<(), Memory>
    requires bounded { is_bounded mark.now.at ≡ true }
    requires kept { are_kept pool.old probes.old ≡ true }
    ensures kept { OnOk result (are_kept pool.new probes.new ≡ true) }
    ensures probes { OnOk result (probes_in pool.new probes.new ≡ probes_in pool.old probes.old
        ++ filter can_find (fold_probe (probe_of (condition cond.now) mark.now) ∷ [])) }
{
    let body = folded_body(pool, cond, &mark.at)?;
    push_probe(pool, mark, body, probes)?;
    Ok(())
}

// Returns the window query of the condition.
fn window_query(alloc: Global, cond: &Cond, start: i64) -> Result<WindowQuery, Memory>
    requires { CanRewriteFrom (condition cond.now) start }
    ensures { IfOk result (λ query. probes_of query ≡ window (condition cond.now) start) }
{
    let marks = rising_from(alloc, cond, start)?;
    let mut pool = Pool::new(alloc);
    let mut probes = Rows::new(alloc);
    for mark in marks.as_slice() {
        add_probe(&mut pool, cond, mark, &mut probes)?;
    }
    Ok(WindowQuery { pool, probes })
}

/// Returns the window query of a condition for the seconds from the start on. It has a probe for
/// each rising mark, with its body folded, without those whose body is False. Over the window from
/// the start to t it finds each document that some second below t gives, with the first such
/// second, and no other: it is the minimum bounding monotone query. The condition names no variable
/// but `m` and those that its EXISTS bind, and its times are in the range that typing gives them.
/// Times are in seconds since 1970-01-01T00:00:00Z. `Memory` comes if memory runs out or the bodies
/// have more than 4,294,967,295 nodes.
pub fn monotone_from(alloc: Global, cond: &Cond, start: i64) -> Result<WindowQuery, Memory>
    requires { CanRewriteFrom (condition cond.now) start }
    ensures is_window { IfOk result (λ query. probes_of query ≡ window (condition cond.now) start) }
    ensures is_union { IfOk result (λ query.
        IsUnionOf (condition cond.now) start (probes_of query)) }
    ensures scopes { IfOk result (λ query. AreProbes (probes_of query)) }
{
    let query = window_query(alloc, cond, start)?;
    Ok(query)
}

/// Returns the window query of a condition for all seconds from 0. `Memory` comes as in
/// `monotone_from`.
pub fn monotone(alloc: Global, cond: &Cond) -> Result<WindowQuery, Memory>
    requires { CanRewrite (condition cond.now) }
    ensures is_window { IfOk result (λ query.
        probes_of query ≡ window (condition cond.now) (pos 0)) }
    ensures is_union { IfOk result (λ query.
        IsUnionOf (condition cond.now) (pos 0) (probes_of query)) }
    ensures scopes { IfOk result (λ query. AreProbes (probes_of query)) }
{
    monotone_from(alloc, cond, 0)
}

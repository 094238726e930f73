//! What the probes of a part of a condition ask of the rest of it.

ghost use Rattle.std.specs.Prelude.{◌≡◌, ◌≤◌, ◌++◌, [], ◌∷◌, map, true, IfOk, OnOk};
ghost use Rattle.tap_base.specs.Bytes.{IsPlaceOf};
ghost use Rattle.tql_core.specs.Condition.{condition, Not};
ghost use Rattle.tql_core.specs.Trees.{tree_at, IsTreeAt, KeepsTrees};
ghost use Rattle.time_marks.specs.Marks.{body};
ghost use Rattle.time_marks.specs.Kept.{is_kept, are_kept};
ghost use Rattle.time_marks.specs.Views.{probe_in, probes_in};
ghost use Rattle.delta_rewrite.specs.Delta.{is_driver, some_row};
ghost use Rattle.delta_rewrite.specs.Asking.{some_come, AskFits, asked_body, asked};

use crate::bodies::body_at;
use crate::nodes::{all_node, exists_node, not_node};
use crate::renamed::renamed_body;
use node_pool::{NodeId, Pool};
use std::alloc::Global;
use tap_base::{Memory, Op, Rows};
use time_marks::{Probe, arrival_term, copy};
use tql_core::{Atom, Base, Cond, TNode, Term, Var, intern_node};
use tql_tree::Table;

// Says what is asked at a mark of a part of a condition: what the part asks there, and that the
// part on its right or left holds there too, or doesn't hold; of an EXISTS, that no row that has
// come by then makes its condition true, or that the driving row does, or if there is none, some
// row that has come by then.
#[derive(Clone, Copy)]
pub(crate) enum Ask {
    Right,
    Left,
    NotRight,
    NotLeft,
    NoneCome(Var, Table),
    SomeRow(Var, Table),
}

// Returns whether the mark speaks of the row of the variable's copy.
fn is_driver(var: Var, at: &Term) -> bool
    requires { var.0 ≤ 5 }
    ensures { result ≡ is_driver var at.now }
{
    match at.base {
        Base::Arrival(v) => v.0 == copy(var).0,
        Base::Date(v) => v.0 == copy(var).0,
        Base::Fixed => false,
        Base::ArrivalDay(v, _) => v.0 == copy(var).0,
        Base::DateDay(v, _) => v.0 == copy(var).0,
    }
}

// Interns an EXISTS of the condition at the number, of the rows that have come by the mark.
fn some_come(
    pool: &mut Pool<TNode>,
    var: Var,
    table: Table,
    at: &Term,
    own: NodeId,
) -> Result<NodeId, Memory>
    requires { IsPlaceOf pool.old own.0 }
    ensures kept { OnOk result (KeepsTrees pool.old pool.new) }
    ensures tree { IfOk result (λ id.
        IsTreeAt pool.new id.0 (some_come var table at.now (tree_at pool.old own.0))) }
{
    let come = Atom::Times(arrival_term(var), Op::Le, *at);
    let here = intern_node(pool, TNode::Plain(come))?;
    let both = all_node(pool, here, own)?;
    let some = exists_node(pool, var, table, both)?;
    Ok(some)
}

// Interns what an EXISTS asks at a mark of its inner condition.
fn some_row(
    pool: &mut Pool<TNode>,
    var: Var,
    table: Table,
    at: &Term,
    own: NodeId,
) -> Result<NodeId, Memory>
    requires fits { var.0 ≤ 5 }
    requires within { IsPlaceOf pool.old own.0 }
    ensures kept { OnOk result (KeepsTrees pool.old pool.new) }
    ensures tree { IfOk result (λ id.
        IsTreeAt pool.new id.0 (some_row var table at.now (tree_at pool.old own.0))) }
{
    if is_driver(var, at) {
        renamed_body(pool, own, var, copy(var))
    } else {
        some_come(pool, var, table, at, own)
    }
}

// Interns the negation of the condition's body at the mark.
fn not_body(pool: &mut Pool<TNode>, cond: &Cond, at: &Term) -> Result<NodeId, Memory>
    ensures kept { OnOk result (KeepsTrees pool.old pool.new) }
    ensures tree { IfOk result (λ id.
        IsTreeAt pool.new id.0 (Not (body (condition cond.now) at.now))) }
{
    let other = body_at(pool, cond, at)?;
    let opposite = not_node(pool, other)?;
    Ok(opposite)
}

// Interns what is asked at a mark, from what the part asks there, the condition at the number.
fn asked_body(
    pool: &mut Pool<TNode>,
    ask: Ask,
    cond: &Cond,
    at: &Term,
    own: NodeId,
) -> Result<NodeId, Memory>
    requires fits { AskFits ask }
    requires within { IsPlaceOf pool.old own.0 }
    ensures kept { OnOk result (KeepsTrees pool.old pool.new) }
    ensures tree { IfOk result (λ id. IsTreeAt pool.new id.0
        (asked_body ask (condition cond.now) at.now (tree_at pool.old own.0))) }
{
    match ask {
        Ask::Right => {
            let other = body_at(pool, cond, at)?;
            let both = all_node(pool, own, other)?;
            Ok(both)
        }
        Ask::Left => {
            let other = body_at(pool, cond, at)?;
            let both = all_node(pool, other, own)?;
            Ok(both)
        }
        Ask::NotRight => {
            let other = not_body(pool, cond, at)?;
            let both = all_node(pool, own, other)?;
            Ok(both)
        }
        Ask::NotLeft => {
            let other = not_body(pool, cond, at)?;
            let both = all_node(pool, other, own)?;
            Ok(both)
        }
        Ask::NoneCome(var, table) => {
            let other = body_at(pool, cond, at)?;
            let some = some_come(pool, var, table, at, other)?;
            let none = not_node(pool, some)?;
            Ok(none)
        }
        Ask::SomeRow(var, table) => some_row(pool, var, table, at, own),
    }
}

// Appends the probe of a part with what is asked at its mark.
fn add_asked(
    pool: &mut Pool<TNode>,
    ask: Ask,
    cond: &Cond,
    probe: Probe,
    out: &mut Rows<Probe>,
) -> Result<(), Memory>
    requires fits { AskFits ask }
    requires one { is_kept pool.old probe ≡ true }
    requires kept { are_kept pool.old out.old ≡ true }
    ensures nodes { OnOk result (KeepsTrees pool.old pool.new) }
    ensures kept { OnOk result (are_kept pool.new out.new ≡ true) }
    ensures probes { OnOk result (probes_in pool.new out.new ≡ probes_in pool.old out.old
        ++ asked ask (condition cond.now) (probe_in pool.old probe) ∷ []) }
{
    let Probe { path, at, body } = probe;
    let body = asked_body(pool, ask, cond, &at, body)?;
    out.push(Probe { path, at, body })?;
    Ok(())
}

/// Returns the probes of a part, each with what is asked at its mark. `Memory` comes if memory runs
/// out or the pool is full.
pub(crate) fn ask_all(
    alloc: Global,
    pool: &mut Pool<TNode>,
    ask: Ask,
    cond: &Cond,
    probes: Rows<Probe>,
) -> Result<Rows<Probe>, Memory>
    requires fits { AskFits ask }
    requires kept { are_kept pool.old probes ≡ true }
    ensures nodes { OnOk result (KeepsTrees pool.old pool.new) }
    ensures kept { IfOk result (λ out. are_kept pool.new out ≡ true) }
    ensures probes { IfOk result (λ out. probes_in pool.new out
        ≡ map (asked ask (condition cond.now)) (probes_in pool.old probes)) }
{
    let mut out = Rows::new(alloc);
    for probe in probes.into_vec() {
        add_asked(pool, ask, cond, probe, &mut out)?;
    }
    Ok(out)
}

//! Tests of window queries.

ghost use Rattle.std.specs.Prelude.{◌≡◌, IfOk, pos};
ghost use Rattle.tap_base.specs.declared.numbers.Op.TheVariants.{Eq};
ghost use Rattle.tql_tree.specs.declared.table.Table.TheVariants.{Docs, Notes};
ghost use Rattle.tql_core.specs.declared.atom.TextField.TheVariants.{MsgId, InReplyTo};
ghost use Rattle.tql_core.specs.declared.atom.TextExpr.TheVariants.{Field};
ghost use Rattle.tql_core.specs.declared.atom.Atom.TheVariants.{Texts};
ghost use Rattle.tql_core.specs.declared.term.Base.TheVariants.{Arrival};
ghost use Rattle.tql_core.specs.Condition.{condition, Not, Exists, Plain, NowBefore, Always, Never};
ghost use Rattle.tql_core.specs.Condition.{All};
ghost use Rattle.monotone_rewrite.specs.Query.{CanRewrite};

use crate::conditions::{arrival, both, for_no_note, not};
use monotone_rewrite::monotone;
use std::alloc::Global;
use tap_base::{Memory, Op};
use time_marks::{Probe, Step, WindowQuery};
use tql_core::{Atom, Cond, TextExpr, TextField, Var};
use tql_tree::Table;

// Returns the condition that no note arrived less than 5 seconds ago.
fn unnoted(alloc: Global) -> Result<Cond, Memory>
    ensures { IfOk result (λ cond. condition cond ≡ Not
        (Exists (record { 0 = 1 }) Notes
        (NowBefore (record { base = Arrival (record { 0 = 1 }); plus = pos 5 })))) }
{
    for_no_note(alloc, Cond::NowBefore(arrival(1, 5)))
}

// Returns a condition that never holds.
fn never(alloc: Global) -> Result<Cond, Memory>
    ensures { IfOk result (λ cond. condition cond ≡ All (Not Always) Never) }
{
    let not_always = not(alloc, Cond::True)?;
    both(alloc, not_always, Cond::False)
}

// Returns the window query of a condition.
fn rewritten(alloc: Global, cond: Cond) -> Result<WindowQuery, Memory>
    requires { CanRewrite (condition cond) }
{
    let query = monotone(alloc, &cond);
    drop(cond);
    query
}

#[test]
fn a_condition_has_its_probes(rt: HostRuntime) -> Result<(), Memory> {
    let alloc = rt.alloc();
    let cond = unnoted(alloc)?;
    let query = rewritten(alloc, cond)?;
    let probes = query.probes.as_slice();
    assert_eq!(rt; probes.len(), 2);
    assert_eq!(rt; probes[0].at, arrival(0, 0));
    assert_eq!(rt; probes[1].at, arrival(9, 5));
    assert_ne!(rt; probes[0].body, probes[1].body);
    drop(query);
    Ok(())
}

#[test]
fn what_is_never_true_has_no_probe(rt: HostRuntime) -> Result<(), Memory> {
    let alloc = rt.alloc();
    let cond = never(alloc)?;
    let query = rewritten(alloc, cond)?;
    assert_eq!(rt; query.probes.len(), 0);
    drop(query);
    Ok(())
}

// Returns the guard that a variable's document replies to the message.
fn replies(var: u8) -> Atom
    ensures { result
        ≡ Texts (Field (record { 0 = var }) InReplyTo) Eq (Field (record { 0 = 0 }) MsgId) }
{
    Atom::Texts(
        TextExpr::Field(Var(var), TextField::InReplyTo),
        Op::Eq,
        TextExpr::Field(Var(0), TextField::MsgId),
    )
}

// Returns the condition that the message has a reply.
fn replied(alloc: Global) -> Result<Cond, Memory>
    ensures { IfOk result (λ cond. condition cond ≡ Exists (record { 0 = 1 }) Docs
        (Plain (Texts (Field (record { 0 = 1 }) InReplyTo) Eq (Field (record { 0 = 0 }) MsgId)))) }
{
    let replies = Box::new(alloc, Cond::Plain(replies(1)))?;
    Ok(Cond::Exists(Var(1), Table::Docs, replies))
}

// Returns whether the step is to a document of this variable with these guards.
fn is_step(step: &Step, var: u8, guards: &[Atom]) -> bool {
    step.var == Var(var) && step.table == Table::Docs && step.guards.as_slice() == guards
}

// Returns whether the probe is that of new replies, for which the law of linear bounds has its
// example.
fn is_of_replies(probe: &Probe) -> bool {
    match probe.path.as_slice() {
        [m, r] => is_step(m, 0, &[]) && is_step(r, 9, &[replies(9)]) && probe.at == arrival(9, 0),
        _ => false,
    }
}

#[test]
fn a_new_reply_has_its_probe(rt: HostRuntime) -> Result<(), Memory> {
    let alloc = rt.alloc();
    let cond = replied(alloc)?;
    let query = rewritten(alloc, cond)?;
    let found = match query.probes.as_slice() {
        [_, last] => is_of_replies(last),
        _ => false,
    };
    drop(query);
    assert!(rt; found);
    Ok(())
}

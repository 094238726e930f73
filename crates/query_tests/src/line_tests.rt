//! Tests of the lines of window queries.

ghost use Rattle.std.specs.Prelude.{◌≡◌, IfOk, pos, codes};
ghost use Rattle.tap_base.specs.declared.numbers.Op.TheVariants.{Eq};
ghost use Rattle.tql_tree.specs.declared.table.Table.TheVariants.{Notes};
ghost use Rattle.tql_core.specs.declared.term.Base.TheVariants as B;
ghost use Rattle.tql_core.specs.declared.atom.NumField.TheVariants.{Id, DocOf};
ghost use Rattle.tql_core.specs.declared.atom.NumExpr.TheVariants.{Field};
ghost use Rattle.tql_core.specs.declared.atom.ListField.TheVariants.{Words};
ghost use Rattle.tql_core.specs.declared.atom.TextExpr.TheVariants as X;
ghost use Rattle.tql_core.specs.declared.atom.Atom.TheVariants.{Numbers, Has};
ghost use Rattle.tql_core.specs.Condition.{condition, Plain, All, Not, Exists, NowAtLeast};
ghost use Rattle.tql_core.specs.Condition.{NowBefore};
ghost use Rattle.monotone_rewrite.specs.Query.{CanRewriteFrom};

use crate::conditions::{arrival, both, for_no_note, not};
use delta_rewrite::delta_from;
use incremental_rewrite::{incremental, render};
use monotone_rewrite::monotone_from;
use std::alloc::Global;
use tap_base::{Memory, Op, Text, Texts};
use time_marks::RangedQuery;
use tql_core::{Atom, Base, Cond, ListField, NumExpr, NumField, Term, TextExpr, Var};
use tql_tree::Table;

// Returns the window query of a condition for the seconds from the start on.
fn rewritten(alloc: Global, cond: &Cond, start: i64) -> Result<RangedQuery, Memory>
    requires { CanRewriteFrom (condition cond.now) start }
{
    incremental(alloc, monotone_from(alloc, cond, start)?)
}

// Returns the lines of a condition for the seconds from the start on.
fn explained(alloc: Global, cond: Cond, start: i64) -> Result<Texts, Memory>
    requires { CanRewriteFrom (condition cond) start }
{
    let ranged = rewritten(alloc, &cond, start);
    drop(cond);
    let ranged = ranged?;
    let lines = render(alloc, &ranged);
    drop(ranged);
    lines
}

// Returns the lines of the delta window of a condition.
fn delta_lines(alloc: Global, cond: Cond) -> Result<Texts, Memory>
    requires { CanRewriteFrom (condition cond) (pos 0) }
{
    let query = delta_from(alloc, &cond, 0);
    drop(cond);
    let ranged = incremental(alloc, query?)?;
    let lines = render(alloc, &ranged);
    drop(ranged);
    lines
}

// Returns the condition that the message came at least 3 and less than 6 seconds ago.
fn between(alloc: Global) -> Result<Cond, Memory>
    ensures { IfOk result (λ cond. condition cond
        ≡ All (NowAtLeast (record { base = B.Arrival (record { 0 = 0 }); plus = pos 3 }))
        (NowBefore (record { base = B.Arrival (record { 0 = 0 }); plus = pos 6 }))) }
{
    let since = Cond::NowAtLeast(arrival(0, 3));
    let until = Cond::NowBefore(arrival(0, 6));
    both(alloc, since, until)
}

// Returns the condition that no note on the message came less than 5 seconds ago.
fn unnoted(alloc: Global) -> Result<Cond, Memory>
    ensures { IfOk result (λ cond. condition cond ≡ Not
        (Exists (record { 0 = 1 }) Notes
        (All (Plain (Numbers (Field (record { 0 = 1 }) DocOf) Eq (Field (record { 0 = 0 }) Id)))
        (NowBefore (record { base = B.Arrival (record { 0 = 1 }); plus = pos 5 }))))) }
{
    let on = Cond::Plain(Atom::Numbers(
        NumExpr::Field(Var(1), NumField::DocOf),
        Op::Eq,
        NumExpr::Field(Var(0), NumField::Id),
    ));
    let young = Cond::NowBefore(arrival(1, 5));
    let noted = both(alloc, on, young)?;
    for_no_note(alloc, noted)
}

// Returns the condition that there is a note on the message.
fn noted(alloc: Global) -> Result<Cond, Memory>
    ensures { IfOk result (λ cond. condition cond ≡ Exists (record { 0 = 1 }) Notes
        (Plain (Numbers (Field (record { 0 = 1 }) DocOf) Eq (Field (record { 0 = 0 }) Id)))) }
{
    let on = Cond::Plain(Atom::Numbers(
        NumExpr::Field(Var(1), NumField::DocOf),
        Op::Eq,
        NumExpr::Field(Var(0), NumField::Id),
    ));
    Ok(Cond::Exists(Var(1), Table::Notes, Box::new(alloc, on)?))
}

// Returns the condition that there is a note on the message that hasn't the message's number.
fn noted_apart(alloc: Global) -> Result<Cond, Memory>
    ensures { IfOk result (λ cond. condition cond ≡ Exists (record { 0 = 1 }) Notes
        (All (Plain (Numbers (Field (record { 0 = 1 }) DocOf) Eq (Field (record { 0 = 0 }) Id)))
        (Not (Plain (Numbers (Field (record { 0 = 1 }) Id) Eq (Field (record { 0 = 0 }) Id)))))) }
{
    let message = NumExpr::Field(Var(0), NumField::Id);
    let on = Atom::Numbers(NumExpr::Field(Var(1), NumField::DocOf), Op::Eq, message);
    let same = Atom::Numbers(NumExpr::Field(Var(1), NumField::Id), Op::Eq, message);
    let apart = not(alloc, Cond::Plain(same))?;
    let note = both(alloc, Cond::Plain(on), apart)?;
    Ok(Cond::Exists(Var(1), Table::Notes, Box::new(alloc, note)?))
}

// Returns the condition that the day of now began after the message came.
fn next_day() -> Cond
    ensures { condition result
        ≡ NowAtLeast (record { base = B.ArrivalDay (record { 0 = 0 }) (pos 1); plus = pos 0 }) }
{
    Cond::NowAtLeast(Term {
        base: Base::ArrivalDay(Var(0), 1),
        plus: 0,
    })
}

// Returns the condition that hi is a word of the message.
fn says_hi(alloc: Global) -> Result<Cond, Memory>
    ensures { IfOk result (λ cond.
        condition cond ≡ Plain (Has (record { 0 = 0 }) Words (X.Literal (codes "hi")))) }
{
    let word = Text::from_slice(alloc, b"hi")?;
    Ok(Cond::Plain(Atom::Has(Var(0), ListField::Words, TextExpr::Literal(word))))
}

#[test]
fn a_window_of_seconds_has_one_line(rt: HostRuntime) -> Result<(), Memory> {
    let alloc = rt.alloc();
    let cond = between(alloc)?;
    let lines = explained(alloc, cond, 0)?;
    assert_eq!(rt; lines.len(), 1);
    assert!(rt; lines.holds(b"OVER m: DOC AT m.ts + 3 WHERE TRUE"));
    drop(lines);
    Ok(())
}

#[test]
fn a_row_that_is_missing_has_its_own_line(rt: HostRuntime) -> Result<(), Memory> {
    let alloc = rt.alloc();
    let cond = unnoted(alloc)?;
    let lines = explained(alloc, cond, 0)?;
    assert_eq!(rt; lines.len(), 2);
    assert_eq!(rt;
        lines.as_slice()[0].as_slice(),
        b"OVER m: DOC AT m.ts WHERE NOT EXISTS (v1: NOTE WHERE v1.ts <= m.ts AND (v1.doc = m.id \
        AND m.ts < v1.ts + 5))"
            .as_slice()
    );
    assert_eq!(rt;
        lines.as_slice()[1].as_slice(),
        b"OVER m: DOC, p1: NOTE [p1.doc = m.id] AT p1.ts + 5 WHERE NOT EXISTS (v1: NOTE WHERE \
        v1.ts <= p1.ts + 5 AND \
          (v1.doc = m.id AND p1.ts + 5 < v1.ts + 5))"
            .as_slice()
    );
    drop(lines);
    Ok(())
}

#[test]
fn days_have_their_lines(rt: HostRuntime) -> Result<(), Memory> {
    let alloc = rt.alloc();
    let cond = next_day();
    let lines = explained(alloc, cond, 0)?;
    assert_eq!(rt; lines.len(), 2);
    assert_eq!(rt;
        lines.as_slice()[0].as_slice(),
        b"OVER m: DOC AT m.ts WHERE m.ts >= DAY(m.ts + 1)".as_slice()
    );
    assert_eq!(rt;
        lines.as_slice()[1].as_slice(),
        b"OVER m: DOC AT DAY(m.ts + 1) WHERE TRUE".as_slice()
    );
    drop(lines);
    Ok(())
}

#[test]
fn a_start_has_its_line(rt: HostRuntime) -> Result<(), Memory> {
    let alloc = rt.alloc();
    let cond = says_hi(alloc)?;
    let lines = explained(alloc, cond, 110)?;
    assert_eq!(rt; lines.len(), 2);
    assert_eq!(rt;
        lines.as_slice()[0].as_slice(),
        b"OVER m: DOC [m.words HAS 'hi'] AT m.ts WHERE m.words HAS 'hi'".as_slice()
    );
    assert_eq!(rt;
        lines.as_slice()[1].as_slice(),
        b"OVER m: DOC [m.words HAS 'hi'] AT TIME 110 WHERE m.words HAS 'hi'".as_slice()
    );
    drop(lines);
    Ok(())
}

#[test]
fn a_body_that_its_path_makes_true_is_true(rt: HostRuntime) -> Result<(), Memory> {
    let alloc = rt.alloc();
    let cond = noted(alloc)?;
    let lines = delta_lines(alloc, cond)?;
    assert_eq!(rt; lines.len(), 2);
    let asked: &[u8] = b"OVER m: DOC AT m.ts WHERE \
        EXISTS (v1: NOTE WHERE v1.ts <= m.ts AND v1.doc = m.id)";
    let driven: &[u8] = b"OVER m: DOC, p1: NOTE [p1.doc = m.id] AT p1.ts WHERE TRUE";
    assert_eq!(rt; lines.as_slice()[0].as_slice(), asked);
    assert_eq!(rt; lines.as_slice()[1].as_slice(), driven);
    drop(lines);
    Ok(())
}

#[test]
fn a_probe_asks_of_its_own_row(rt: HostRuntime) -> Result<(), Memory> {
    let alloc = rt.alloc();
    let cond = noted_apart(alloc)?;
    let lines = delta_lines(alloc, cond)?;
    assert_eq!(rt; lines.len(), 2);
    let asked: &[u8] = b"OVER m: DOC AT m.ts WHERE \
        EXISTS (v1: NOTE WHERE v1.ts <= m.ts AND (v1.doc = m.id AND NOT v1.id = m.id))";
    let driven: &[u8] = b"OVER m: DOC, p1: NOTE [p1.doc = m.id] AT p1.ts WHERE NOT p1.id = m.id";
    assert_eq!(rt; lines.as_slice()[0].as_slice(), asked);
    assert_eq!(rt; lines.as_slice()[1].as_slice(), driven);
    drop(lines);
    Ok(())
}

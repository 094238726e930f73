//! Tests of the orders of paths.

use access_plan::{Access, Plan, Reach, plan};
use node_pool::Pool;
use std::alloc::Global;
use tap_base::{Memory, Op, Rows, Text};
use time_marks::{Probe, Ranged, RangedQuery, Seek, Step};
use tql_core::{Atom, Base, ListField, NumExpr, NumField, TNode, Term, TextExpr, TextField, Var};
use tql_tree::Table;

// Returns a number field of a variable.
fn number(var: u8, of: NumField) -> NumExpr {
    NumExpr::Field(Var(var), of)
}

// Returns a text field of a variable.
fn text(var: u8, of: TextField) -> TextExpr {
    TextExpr::Field(Var(var), of)
}

// Returns a word as a literal.
fn word(alloc: Global) -> Result<TextExpr, Memory> {
    Ok(TextExpr::Literal(Text::from_slice(alloc, b"lunch")?))
}

// Returns a step to a document with these guards.
fn step(var: u8, guards: Rows<Atom>) -> Step {
    Step {
        var: Var(var),
        table: Table::Docs,
        guards,
    }
}

// Returns a path of m and two further documents with these guards.
fn path(alloc: Global, ninth: Rows<Atom>, tenth: Rows<Atom>) -> Result<Rows<Step>, Memory> {
    let steps = vec![in alloc; step(0, Rows::new(alloc)), step(9, ninth), step(10, tenth)]?;
    Ok(Rows::from_vec(steps))
}

// Returns the reach of a document.
fn reach(var: u8, access: Access) -> Reach {
    Reach {
        var: Var(var),
        table: Table::Docs,
        access,
    }
}

// Returns a query of one probe with this path, whose driver is this document.
fn asked(alloc: Global, path: Rows<Step>, driver: u8) -> Result<RangedQuery, Memory> {
    let mut pool = Pool::new(alloc);
    let Ok(body) = pool.intern(TNode::True) else {
        drop(pool);
        drop(path);
        return Err(Memory);
    };
    let at = Term {
        base: Base::Arrival(Var(driver)),
        plus: 0,
    };
    let seek = Seek::of(at);
    let part = Ranged {
        probe: Probe { path, at, body },
        seek,
    };
    match vec![in alloc; part] {
        Ok(parts) => Ok(RangedQuery {
            pool,
            parts: Rows::from_vec(parts),
        }),
        Err(_) => {
            drop(pool);
            Err(Memory)
        }
    }
}

// Returns whether the plan of a query of one probe has this order.
fn plans(alloc: Global, query: RangedQuery, order: &[Reach]) -> Result<bool, Memory> {
    let planned = plan(alloc, query)?;
    let same = match planned.orders.as_slice() {
        [found] => found.as_slice() == order,
        _ => false,
    };
    drop(planned);
    Ok(same)
}

// Returns the guards that the tenth document has a word, and that its number is that of m.
fn word_and_number(alloc: Global) -> Result<Rows<Atom>, Memory> {
    let word = Atom::Has(Var(10), ListField::Words, word(alloc)?);
    let same = Atom::Numbers(number(0, NumField::Id), Op::Eq, number(10, NumField::Id));
    Ok(Rows::from_vec(vec![in alloc; word, same]?))
}

// Returns the guard that the ninth document is the parent of the tenth.
fn parent(alloc: Global) -> Result<Rows<Atom>, Memory> {
    let guard = Atom::Texts(
        text(9, TextField::MsgId),
        Op::Eq,
        text(10, TextField::InReplyTo),
    );
    Ok(Rows::from_vec(vec![in alloc; guard]?))
}

// Returns the guards that the tenth document doesn't come from the sender of m, and that it does.
fn senders(alloc: Global) -> Result<Rows<Atom>, Memory> {
    let other = Atom::Texts(text(10, TextField::From), Op::Ne, text(0, TextField::From));
    let same = Atom::Texts(text(0, TextField::From), Op::Eq, text(10, TextField::From));
    Ok(Rows::from_vec(vec![in alloc; other, same]?))
}

// Returns whether this is the order of two documents, the tenth with these guards, with m as the
// driver.
fn has_order(alloc: Global, tenth: Rows<Atom>, order: &[Reach]) -> Result<bool, Memory> {
    let path = path(alloc, Rows::new(alloc), tenth)?;
    plans(alloc, asked(alloc, path, 0)?, order)
}

// Returns whether a number goes before a word, and a step with an access of the index before an
// earlier one without.
fn numbers_before_words(alloc: Global) -> Result<bool, Memory> {
    let tenth = word_and_number(alloc)?;
    let order = [
        reach(10, Access::ByNumber(NumField::Id, number(0, NumField::Id))),
        reach(9, Access::Whole(Table::Docs)),
    ];
    let same = has_order(alloc, tenth, &order);
    drop(order);
    same
}

// Returns the path on which the ninth document is the parent of the tenth, which has these guards.
fn parent_path(alloc: Global, tenth: Rows<Atom>) -> Result<Rows<Step>, Memory> {
    match parent(alloc) {
        Ok(ninth) => path(alloc, ninth, tenth),
        Err(Memory) => {
            drop(tenth);
            Err(Memory)
        }
    }
}

// Returns whether this is the order of those documents, with m as the driver.
fn has_parent_order(alloc: Global, tenth: Rows<Atom>, order: &[Reach]) -> Result<bool, Memory> {
    let path = parent_path(alloc, tenth)?;
    plans(alloc, asked(alloc, path, 0)?, order)
}

// Returns whether a guard serves once the other document is bound.
fn bound_before(alloc: Global) -> Result<bool, Memory> {
    let tenth = senders(alloc)?;
    let order = [
        reach(
            10,
            Access::ByText(TextField::From, text(0, TextField::From)),
        ),
        reach(
            9,
            Access::ByText(TextField::MsgId, text(10, TextField::InReplyTo)),
        ),
    ];
    let same = has_parent_order(alloc, tenth, &order);
    drop(order);
    same
}

// Returns whether the first step comes first if no guard serves, and then a guard of the other one
// serves.
fn tables_in_order(alloc: Global) -> Result<bool, Memory> {
    let tenth = parent(alloc)?;
    let order = [
        reach(9, Access::Whole(Table::Docs)),
        reach(
            10,
            Access::ByText(TextField::InReplyTo, text(9, TextField::MsgId)),
        ),
    ];
    let same = has_parent_order(alloc, tenth, &order);
    drop(order);
    same
}

// Returns the guards that the tenth document has a word, and that it is to the sender of m.
fn word_and_addressee(alloc: Global) -> Result<Rows<Atom>, Memory> {
    let word = Atom::Has(Var(10), ListField::Words, word(alloc)?);
    let to = Atom::Has(Var(10), ListField::To, text(0, TextField::From));
    Ok(Rows::from_vec(vec![in alloc; word, to]?))
}

// Returns the guard that m is to the sender of the tenth document.
fn addressed_by(alloc: Global) -> Result<Rows<Atom>, Memory> {
    let guard = Atom::Has(Var(0), ListField::To, text(10, TextField::From));
    Ok(Rows::from_vec(vec![in alloc; guard]?))
}

// Returns whether the tenth document with these guards is found by this access.
fn is_found_by(alloc: Global, tenth: Rows<Atom>, access: Access) -> Result<bool, Memory> {
    let order = [reach(10, access), reach(9, Access::Whole(Table::Docs))];
    let same = has_order(alloc, tenth, &order);
    drop(order);
    same
}

#[test]
fn lists_serve_both_ways(rt: HostRuntime) -> Result<(), Memory> {
    let alloc = rt.alloc();
    let to = word_and_addressee(alloc)?;
    let entry = Access::ByEntry(ListField::To, text(0, TextField::From));
    assert!(rt; is_found_by(alloc, to, entry)?);
    let from = addressed_by(alloc)?;
    let each = Access::ByEach(Var(0), ListField::To, TextField::From);
    assert!(rt; is_found_by(alloc, from, each)?);
    Ok(())
}

#[test]
fn paths_have_their_orders(rt: HostRuntime) -> Result<(), Memory> {
    let alloc = rt.alloc();
    assert!(rt; numbers_before_words(alloc)?);
    assert!(rt; bound_before(alloc)?);
    assert!(rt; tables_in_order(alloc)?);
    Ok(())
}

// Returns the plan of a query of one probe whose driver is the ninth document, without guards.
fn planned(alloc: Global) -> Result<Plan, Memory> {
    let path = path(alloc, Rows::new(alloc), Rows::new(alloc))?;
    plan(alloc, asked(alloc, path, 9)?)
}

#[test]
fn each_probe_has_its_order(rt: HostRuntime) -> Result<(), Memory> {
    let planned = planned(rt.alloc())?;
    assert_eq!(rt; planned.query.parts.len(), 1);
    assert_eq!(rt; planned.orders.len(), 1);
    let order = [
        reach(0, Access::Whole(Table::Docs)),
        reach(10, Access::Whole(Table::Docs)),
    ];
    assert!(rt; planned.orders.as_slice()[0].as_slice() == order.as_slice());
    drop(order);
    drop(planned);
    Ok(())
}

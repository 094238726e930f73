//! One variable in the place of another, in the nodes of a pool.

ghost use Rattle.std.specs.Prelude.{◌≡◌, IfOk, OnOk};
ghost use Rattle.tap_base.specs.Bytes.{IsPlaceOf};
ghost use Rattle.tql_core.specs.Trees.{tree_at, IsTreeAt, KeepsTrees};
ghost use Rattle.delta_rewrite.specs.Delta.{renamed_var, renamed_base, renamed_term};
ghost use Rattle.delta_rewrite.specs.Delta.{renamed_number, renamed_text, renamed_atom, renamed};

use crate::nodes::{all_node, either_node, exists_node, not_node};
use node_pool::{NodeId, Pool};
use tap_base::Memory;
use tql_core::{Atom, Base, NumExpr, TNode, Term, TextExpr, Var, intern_node, node_at};

// Returns `to` if this is `from`, and else the variable.
fn renamed_var(var: Var, from: Var, to: Var) -> Var
    ensures { result ≡ renamed_var from to var }
{
    if var.0 == from.0 { to } else { var }
}

// Returns the base with `to` in the place of `from`.
fn renamed_base(base: Base, from: Var, to: Var) -> Base
    ensures { result ≡ renamed_base from to base }
{
    match base {
        Base::Arrival(v) => Base::Arrival(renamed_var(v, from, to)),
        Base::Date(v) => Base::Date(renamed_var(v, from, to)),
        Base::Fixed => Base::Fixed,
        Base::ArrivalDay(v, n) => Base::ArrivalDay(renamed_var(v, from, to), n),
        Base::DateDay(v, n) => Base::DateDay(renamed_var(v, from, to), n),
    }
}

// Returns the term with `to` in the place of `from`.
fn renamed_term(term: Term, from: Var, to: Var) -> Term
    ensures { result ≡ renamed_term from to term }
{
    Term {
        base: renamed_base(term.base, from, to),
        plus: term.plus,
    }
}

// Returns the number with `to` in the place of `from`.
fn renamed_number(x: NumExpr, from: Var, to: Var) -> NumExpr
    ensures { result ≡ renamed_number from to x }
{
    match x {
        NumExpr::Literal(n) => NumExpr::Literal(n),
        NumExpr::Field(v, f) => NumExpr::Field(renamed_var(v, from, to), f),
    }
}

// Returns the text with `to` in the place of `from`. `Memory` if out of memory.
fn renamed_text(x: &TextExpr, from: Var, to: Var) -> Result<TextExpr, Memory>
    ensures { IfOk result (λ r. r ≡ renamed_text from to x.now) }
{
    match x {
        TextExpr::Literal(t) => Ok(TextExpr::Literal(t.copy()?)),
        TextExpr::Field(v, f) => Ok(TextExpr::Field(renamed_var(*v, from, to), *f)),
    }
}

// Returns the atom with `to` in the place of `from`. `Memory` if out of memory.
fn renamed_atom(atom: &Atom, from: Var, to: Var) -> Result<Atom, Memory>
    ensures { IfOk result (λ r. r ≡ renamed_atom from to atom.now) }
{
    match atom {
        Atom::Numbers(x, op, y) => Ok(Atom::Numbers(
            renamed_number(*x, from, to),
            *op,
            renamed_number(*y, from, to),
        )),
        Atom::Texts(x, op, y) => Ok(Atom::Texts(
            renamed_text(x, from, to)?,
            *op,
            renamed_text(y, from, to)?,
        )),
        Atom::Times(x, op, y) => Ok(Atom::Times(
            renamed_term(*x, from, to),
            *op,
            renamed_term(*y, from, to),
        )),
        Atom::Has(v, f, y) => Ok(Atom::Has(
            renamed_var(*v, from, to),
            *f,
            renamed_text(y, from, to)?,
        )),
    }
}

/// Interns the condition at the number with `to` in the place of `from` where `from` is free, and
/// returns its node. `Memory` comes if memory runs out or the pool is full.
pub(crate) fn renamed_body(
    pool: &mut Pool<TNode>,
    id: NodeId,
    from: Var,
    to: Var,
) -> Result<NodeId, Memory>
    requires { IsPlaceOf pool.old id.0 }
    ensures kept { OnOk result (KeepsTrees pool.old pool.new) }
    ensures tree { IfOk result (λ other.
        IsTreeAt pool.new other.0 (renamed from to (tree_at pool.old id.0))) }
{
    match node_at(pool, id) {
        TNode::True => Ok(id),
        TNode::False => Ok(id),
        TNode::Plain(atom) => {
            let atom = renamed_atom(atom, from, to)?;
            intern_node(pool, TNode::Plain(atom))
        }
        TNode::All(l, r) => {
            let (l, r) = (*l, *r);
            let left = renamed_body(pool, l, from, to)?;
            let right = renamed_body(pool, r, from, to)?;
            let both = all_node(pool, left, right)?;
            Ok(both)
        }
        TNode::Either(l, r) => {
            let (l, r) = (*l, *r);
            let left = renamed_body(pool, l, from, to)?;
            let right = renamed_body(pool, r, from, to)?;
            let either = either_node(pool, left, right)?;
            Ok(either)
        }
        TNode::Not(x) => {
            let x = *x;
            let inner = renamed_body(pool, x, from, to)?;
            let opposite = not_node(pool, inner)?;
            Ok(opposite)
        }
        TNode::Exists(var, table, x) => {
            let (var, table, x) = (*var, *table, *x);
            if var.0 == from.0 {
                return Ok(id);
            }
            let inner = renamed_body(pool, x, from, to)?;
            let some = exists_node(pool, var, table, inner)?;
            Ok(some)
        }
    }
}

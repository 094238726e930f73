//! Builds the condition of a tree without a fault.
ghost use Rattle.std.specs.Prelude.{◌≡◌, IfOk};
ghost use Rattle.std.specs.Option.{option_copied};
ghost use Rattle.tql_tree.specs.Syntax.{syntax};
ghost use Rattle.tql_core.specs.Condition.{condition};
ghost use Rattle.tql_types.specs.Scopes.{variables_after};
ghost use Rattle.tql_types.specs.Core.{binder_fault, inner_scope, num_field, num_of};
ghost use Rattle.tql_types.specs.Core.{text_field_or_empty, text_or_empty, lowered, has_field};
ghost use Rattle.tql_types.specs.Core.{has_core, compare_core, core};

use crate::TypeFault;
use crate::clock::{compare_times, read_clock};
use crate::field::Field;
use crate::scope::{VARIABLE_LIMIT, Variable, enter, find_variable, one_more};
use crate::sort::{Sort, expr_sort, variable_field};
use std::alloc::Global;
use tap_base::{Memory, Op, Rows, Text, lower};
use tql_core::{Atom, Cond, NumExpr, TextExpr, Var};
use tql_tree::{Expr, Table, Tree};

/// Returns the fault of the variable of an EXISTS, behind `count` variables.
pub fn fault_of_binder(scope: &[Variable], count: u8, name: &[u8], place: u32) -> Option<TypeFault>
    ensures { result ≡ binder_fault scope.now count name.now place }
{
    if find_variable(name, scope).is_some() {
        Some(TypeFault::Shadow { place })
    } else if count < VARIABLE_LIMIT {
        None
    } else {
        Some(TypeFault::ManyVars { place })
    }
}

/// Returns the scope of the condition of an EXISTS; a variable at fault isn't in it. `Memory` if
/// out of memory.
pub fn scope_within(
    scope: &Rows<Variable>,
    count: u8,
    name: &Text,
    place: u32,
    table: Table,
) -> Result<Rows<Variable>, Memory>
    ensures { IfOk result (λ inner. inner ≡ inner_scope scope.now count name.now place table) }
{
    if fault_of_binder(scope.as_slice(), count, name.as_slice(), place).is_some() {
        scope.copy()
    } else {
        enter(scope, count, name, table)
    }
}

// Returns a number field of a variable, or 0 if it isn't one.
fn number_field(variable: Option<&Variable>, field: Option<Field>) -> NumExpr
    ensures { result ≡ num_field (option_copied variable.entry) field }
{
    match (variable, field) {
        (Some(variable), Some(Field::Number(field))) => NumExpr::Field(variable.var, field),
        _ => NumExpr::Literal(0),
    }
}

// Returns a side that is a number, or 0 if it isn't one.
fn number_side(scope: &[Variable], expr: &Expr) -> NumExpr
    ensures { result ≡ num_of scope.now expr.now }
{
    match expr {
        Expr::Number { value, .. } => NumExpr::Literal(*value),
        Expr::Field { var, field, .. } => {
            let variable = find_variable(var.as_slice(), scope);
            number_field(variable, variable_field(variable, field.as_slice()))
        }
        Expr::Str { .. } | Expr::Now { .. } | Expr::Today { .. } | Expr::Moment { .. } => {
            NumExpr::Literal(0)
        }
    }
}

// Returns a text field of a variable, or an empty text if it isn't one.
fn variable_text(alloc: Global, variable: Option<&Variable>, field: Option<Field>) -> TextExpr
    ensures { result ≡ text_field_or_empty (option_copied variable.entry) field }
{
    match (variable, field) {
        (Some(variable), Some(Field::Text(field))) => TextExpr::Field(variable.var, field),
        _ => TextExpr::Literal(Text::new(alloc)),
    }
}

// Returns a side that is a text, or an empty text if it isn't one.
fn text_side(alloc: Global, scope: &[Variable], expr: &Expr) -> Result<TextExpr, Memory>
    ensures { IfOk result (λ side. side ≡ text_or_empty scope.now expr.now) }
{
    match expr {
        Expr::Str { bytes, .. } => Ok(TextExpr::Literal(bytes.copy()?)),
        Expr::Field { var, field, .. } => {
            let variable = find_variable(var.as_slice(), scope);
            Ok(variable_text(alloc, variable, variable_field(variable, field.as_slice())))
        }
        Expr::Number { .. } | Expr::Now { .. } | Expr::Today { .. } | Expr::Moment { .. } => {
            Ok(TextExpr::Literal(Text::new(alloc)))
        }
    }
}

// Returns a text that a list may have: A to Z of a literal are lowered.
fn lowered_side(alloc: Global, side: TextExpr) -> Result<TextExpr, Memory>
    ensures { IfOk result (λ made. made ≡ lowered side) }
{
    match side {
        TextExpr::Literal(bytes) => Ok(TextExpr::Literal(lower(alloc, bytes.as_slice())?)),
        TextExpr::Field(var, field) => Ok(TextExpr::Field(var, field)),
    }
}

// Returns the condition that a list of a variable has a text.
fn variable_has(variable: Option<&Variable>, field: Option<Field>, text: TextExpr) -> Cond
    ensures { condition result ≡ has_field (option_copied variable.entry) field text }
{
    match (variable, field) {
        (Some(variable), Some(Field::List(field))) => {
            Cond::Plain(Atom::Has(variable.var, field, text))
        }
        _ => Cond::False,
    }
}

// Returns the condition that a list has a text.
fn has_condition(scope: &[Variable], left: &Expr, text: TextExpr) -> Cond
    ensures { condition result ≡ has_core scope.now left.now text }
{
    match left {
        Expr::Field { var, field, .. } => {
            let variable = find_variable(var.as_slice(), scope);
            variable_has(variable, variable_field(variable, field.as_slice()), text)
        }
        _ => Cond::False,
    }
}

// Returns the condition of a comparison, by what its left side is.
fn comparison(
    alloc: Global,
    sort: Option<Sort>,
    scope: &[Variable],
    left: &Expr,
    op: Op,
    right: &Expr,
) -> Result<Cond, Memory>
    ensures { IfOk result (λ cond.
        condition cond ≡ compare_core sort scope.now left.now op right.now) }
{
    match sort {
        Some(Sort::Number) => Ok(Cond::Plain(Atom::Numbers(
            number_side(scope, left),
            op,
            number_side(scope, right),
        ))),
        Some(Sort::Text) => Ok(Cond::Plain(Atom::Texts(
            text_side(alloc, scope, left)?,
            op,
            text_side(alloc, scope, right)?,
        ))),
        _ => compare_times(alloc, op, read_clock(scope, left), read_clock(scope, right)),
    }
}

/// Returns the condition of a query without a fault, and how many variables there are after it.
/// `Memory` if out of memory.
pub fn build(
    alloc: Global,
    scope: &Rows<Variable>,
    count: u8,
    tree: &Tree,
) -> Result<(Cond, u8), Memory>
    ensures cond { IfOk result (λ built.
        condition built.0 ≡ core scope.now count (syntax tree.now)) }
    ensures count { IfOk result (λ built. built.1 ≡ variables_after count (syntax tree.now)) }
{
    match tree {
        Tree::True => Ok((Cond::True, count)),
        Tree::False => Ok((Cond::False, count)),
        Tree::Or(left, right) => {
            let (left, count) = build(alloc, scope, count, left)?;
            let (right, count) = build(alloc, scope, count, right)?;
            Ok((
                Cond::Either(Box::new(alloc, left)?, Box::new(alloc, right)?),
                count,
            ))
        }
        Tree::And(left, right) => {
            let (left, count) = build(alloc, scope, count, left)?;
            let (right, count) = build(alloc, scope, count, right)?;
            Ok((
                Cond::All(Box::new(alloc, left)?, Box::new(alloc, right)?),
                count,
            ))
        }
        Tree::Not(tree) => {
            let (inner, count) = build(alloc, scope, count, tree)?;
            Ok((Cond::Not(Box::new(alloc, inner)?), count))
        }
        Tree::Exists {
            var,
            var_place,
            table,
            body,
        } => {
            let within = scope_within(scope, count, var, *var_place, *table)?;
            let (inner, after) = build(alloc, &within, one_more(count), body)?;
            Ok((
                Cond::Exists(Var(count), *table, Box::new(alloc, inner)?),
                after,
            ))
        }
        Tree::Compare {
            left,
            op,
            right,
            ..
        } => {
            let sort = expr_sort(scope.as_slice(), left);
            Ok((
                comparison(alloc, sort, scope.as_slice(), left, *op, right)?,
                count,
            ))
        }
        Tree::Has { left, right, .. } => {
            let text = lowered_side(alloc, text_side(alloc, scope.as_slice(), right)?)?;
            Ok((has_condition(scope.as_slice(), left, text), count))
        }
    }
}

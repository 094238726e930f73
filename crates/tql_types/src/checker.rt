//! Checks the types of a query's tree.
ghost use Rattle.std.specs.Prelude.{◌≡◌, ◌^◌, ◌-◌, IfOk, min, not, nat_le};
ghost use Rattle.tql_tree.specs.Syntax.{syntax};
ghost use Rattle.tql_core.specs.Condition.{condition};
ghost use Rattle.tql_types.specs.Core.{first_fault, nodes, typed};
ghost use Rattle.tql_types.specs.Answers.{AgreesWithTyping};
ghost use Rattle.tql_types.specs.Scopes.{variables_after};

use crate::TypeFault;
use crate::conditions::{build, fault_of_binder, scope_within};
use crate::scope::{Variable, one_more, query_scope};
use crate::sort::{can_compare, can_hold, expr_sort, fault_of_expr, fault_of_sides, sooner_of};
use std::alloc::Global;
use tap_base::{Memory, Rows};
use tql_core::Cond;
use tql_tree::Tree;

/// Limits the nodes of a condition.
pub const NODE_LIMIT: u64 = 128;

// Returns the fault at the least place, and how many variables there are after the tree.
fn find_fault(
    scope: &Rows<Variable>,
    count: u8,
    tree: &Tree,
) -> Result<(Option<TypeFault>, u8), Memory>
    ensures fault { IfOk result (λ found. found.0 ≡ first_fault scope.now count (syntax tree.now)) }
    ensures count { IfOk result (λ found. found.1 ≡ variables_after count (syntax tree.now)) }
{
    match tree {
        Tree::True | Tree::False => Ok((None, count)),
        Tree::Or(left, right) | Tree::And(left, right) => {
            let (fault, count) = find_fault(scope, count, left)?;
            let (other, count) = find_fault(scope, count, right)?;
            Ok((sooner_of(fault, other), count))
        }
        Tree::Not(tree) => find_fault(scope, count, tree),
        Tree::Exists {
            var,
            var_place,
            table,
            body,
        } => {
            let fault = fault_of_binder(scope.as_slice(), count, var.as_slice(), *var_place);
            let within = scope_within(scope, count, var, *var_place, *table)?;
            let (other, after) = find_fault(&within, one_more(count), body)?;
            Ok((sooner_of(fault, other), after))
        }
        Tree::Compare {
            left,
            place,
            right,
            ..
        } => {
            let scope = scope.as_slice();
            let fits = can_compare(expr_sort(scope, left), expr_sort(scope, right));
            let fault = fault_of_sides(
                fault_of_expr(scope, left),
                fault_of_expr(scope, right),
                fits,
                *place,
            );
            Ok((fault, count))
        }
        Tree::Has { left, place, right } => {
            let scope = scope.as_slice();
            let fits = can_hold(expr_sort(scope, left), expr_sort(scope, right));
            let fault = fault_of_sides(
                fault_of_expr(scope, left),
                fault_of_expr(scope, right),
                fits,
                *place,
            );
            Ok((fault, count))
        }
    }
}

// Returns how many nodes a condition has, or the greatest number of 64 bits if there are more.
fn count_nodes(cond: &Cond) -> u64
    ensures { result ≡ min (nodes (condition cond.now)) (2 ^ 64 - 1) }
{
    match cond {
        Cond::All(left, right) | Cond::Either(left, right) => count_nodes(left)
            .saturating_add(count_nodes(right))
            .saturating_add(1),
        Cond::Not(inner) | Cond::Exists(_, _, inner) => count_nodes(inner).saturating_add(1),
        Cond::True | Cond::False | Cond::Plain(_) | Cond::NowAtLeast(_) | Cond::NowBefore(_) => 1,
    }
}

// Returns whether the condition has more nodes than it may.
fn is_too_large(cond: &Cond) -> bool
    ensures { result ≡ not (nat_le (nodes (condition cond.now)) 128) }
{
    count_nodes(cond) > NODE_LIMIT
}

/// Returns the condition that a query's tree is, or the first fault of its types: the one at the
/// least place, and at one place a shadowed variable before a seventh. `ManyNodes` comes if there
/// is no other fault and the condition has more than 128 nodes. `Memory` may come at any tree, if
/// out of memory.
pub fn check(alloc: Global, tree: &Tree) -> Result<Cond, TypeFault>
    ensures { AgreesWithTyping (typed (syntax tree.now)) result }
{
    let scope = query_scope(alloc)?;
    let (fault, _count) = find_fault(&scope, 1, tree)?;
    if let Some(fault) = fault {
        return Err(fault);
    }
    let (cond, _count) = build(alloc, &scope, 1, tree)?;
    if is_too_large(&cond) {
        return Err(TypeFault::ManyNodes);
    }
    Ok(cond)
}

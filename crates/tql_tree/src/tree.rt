//! Query trees.
ghost use Rattle.std.specs.Prelude.{◌≡◌, IfOk};
ghost use Rattle.tql_tree.specs.Syntax.{syntax};

use crate::{Expr, Table};
use std::alloc::Global;
use tap_base::{Memory, Op, Text};

/// Holds a query. The left side of a `Has` is a field without a shift.
///
/// A chain of ORs or ANDs is nested on the left. `print`, `copy` and dropping a tree recurse once
/// for each part of a chain: a query's text of 4,096 bytes has fewer than 700 of them.
#[derive(Drop)]
pub enum Tree {
    True,
    False,
    Or(Box<Tree>, Box<Tree>),
    And(Box<Tree>, Box<Tree>),
    Not(Box<Tree>),
    Exists {
        var: Text,
        var_place: u32,
        table: Table,
        body: Box<Tree>,
    },
    Compare {
        left: Expr,
        op: Op,
        place: u32,
        right: Expr,
    },
    Has {
        left: Expr,
        place: u32,
        right: Expr,
    },
}

impl Tree {
    /// Returns an equal query. `Memory` if out of memory.
    pub fn copy(&self, alloc: Global) -> Result<Tree, Memory>
        ensures { IfOk result (λ tree. syntax tree ≡ syntax self.now) }
    {
        match self {
            Tree::True => Ok(Tree::True),
            Tree::False => Ok(Tree::False),
            Tree::Or(left, right) => Ok(Tree::Or(
                Box::new(alloc, left.copy(alloc)?)?,
                Box::new(alloc, right.copy(alloc)?)?,
            )),
            Tree::And(left, right) => Ok(Tree::And(
                Box::new(alloc, left.copy(alloc)?)?,
                Box::new(alloc, right.copy(alloc)?)?,
            )),
            Tree::Not(tree) => Ok(Tree::Not(Box::new(alloc, tree.copy(alloc)?)?)),
            Tree::Exists {
                var,
                var_place,
                table,
                body,
            } => Ok(Tree::Exists {
                var: var.copy()?,
                var_place: *var_place,
                table: *table,
                body: Box::new(alloc, body.copy(alloc)?)?,
            }),
            Tree::Compare {
                left,
                op,
                place,
                right,
            } => Ok(Tree::Compare {
                left: left.copy()?,
                op: *op,
                place: *place,
                right: right.copy()?,
            }),
            Tree::Has { left, place, right } => Ok(Tree::Has {
                left: left.copy()?,
                place: *place,
                right: right.copy()?,
            }),
        }
    }
}

//! Bodies of a pool in the syntax of a query.

ghost use Rattle.std.specs.Prelude.{◌≡◌, ◌++◌, codes, OnOk, nat_lt, Some};
ghost use Rattle.tap_base.specs.Bytes.{IsPlaceOf};
ghost use Rattle.tql_core.specs.Trees.{node_tree, tree_at};
ghost use Rattle.tql_tree.specs.Canonical.{text_of_table, parenthesized};
ghost use Rattle.incremental_rewrite.specs.Lines.{var_text, condition_strength, body_text};

use crate::texts::{put_atom, put_var};
use node_pool::{NodeId, Pool};
use std::alloc::Global;
use tap_base::{Memory, Text};
use tql_core::{TNode, Var, node_at};
use tql_tree::{Table, name_of_table, put_if};

// Returns the strength of the node's operator.
fn strength_of(pool: &Pool<TNode>, node: &TNode) -> u8
    ensures { result ≡ condition_strength (node_tree (Some node.now) (tree_at pool.now)) }
{
    let _pool = pool;
    match node {
        TNode::Either(_, _) => 0,
        TNode::All(_, _) => 1,
        _ => 2,
    }
}

// Appends the head of an EXISTS.
fn put_binder(alloc: Global, var: Var, table: Table, into: &mut Text) -> Result<(), Memory>
    ensures { OnOk result (into.new ≡ into.old ++ codes "EXISTS (" ++ var_text var ++ codes ": "
        ++ text_of_table table ++ codes " WHERE ") }
{
    into.push_slice(b"EXISTS (")?;
    put_var(alloc, var, into)?;
    into.push_slice(b": ")?;
    into.push_slice(name_of_table(table))?;
    into.push_slice(b" WHERE ")
}

/// Appends the condition at the number, in parentheses if it is weaker than `least`.
pub(crate) fn put_body(
    alloc: Global,
    pool: &Pool<TNode>,
    id: NodeId,
    least: u8,
    into: &mut Text,
) -> Result<(), Memory>
    requires { IsPlaceOf pool.now id.0 }
    ensures { OnOk result (into.new
        ≡ into.old ++ parenthesized (nat_lt (condition_strength (tree_at pool.now id.0)) least)
        (body_text (tree_at pool.now id.0))) }
{
    let node = node_at(pool, id);
    let weak = strength_of(pool, node) < least;
    put_if(weak, b"(", into)?;
    match node {
        TNode::True => {
            into.push_slice(b"TRUE")?;
            put_if(weak, b")", into)
        }
        TNode::False => {
            into.push_slice(b"FALSE")?;
            put_if(weak, b")", into)
        }
        TNode::Plain(atom) => {
            put_atom(alloc, atom, into)?;
            put_if(weak, b")", into)
        }
        TNode::All(l, r) => {
            put_body(alloc, pool, *l, 1, into)?;
            into.push_slice(b" AND ")?;
            put_body(alloc, pool, *r, 2, into)?;
            put_if(weak, b")", into)
        }
        TNode::Either(l, r) => {
            put_body(alloc, pool, *l, 0, into)?;
            into.push_slice(b" OR ")?;
            put_body(alloc, pool, *r, 1, into)?;
            put_if(weak, b")", into)
        }
        TNode::Not(x) => {
            into.push_slice(b"NOT ")?;
            put_body(alloc, pool, *x, 2, into)?;
            put_if(weak, b")", into)
        }
        TNode::Exists(var, table, x) => {
            put_binder(alloc, *var, *table, into)?;
            put_body(alloc, pool, *x, 0, into)?;
            into.push_slice(b")")?;
            put_if(weak, b")", into)
        }
    }
}

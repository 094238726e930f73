//! Probes that compare one text of the query's document with a literal and ask for nothing else.

ghost use Rattle.std.specs.Prelude.{◌≡◌, true};
ghost use Rattle.tap_base.specs.Bytes.{IsPlaceOf};
ghost use Rattle.tql_core.specs.Trees.{tree_at};
ghost use Rattle.probe_eval.specs.Listed.{is_by_arrival, is_docs, is_implied, asks_literal};
ghost use Rattle.probe_eval.specs.Listed.{guard_goes_by_list, path_goes_by_list, goes_by_list};
ghost use Rattle.probe_eval.specs.Searches.{searched, HasBody};

use crate::literals::literal_kind;
use crate::search::Search;
use node_pool::{NodeId, Pool};
use time_marks::{Seek, Step};
use tql_core::{Atom, TNode, Var, node_at};
use tql_tree::Table;

// Returns whether rows drive a probe by their arrival.
fn is_by_arrival(seek: Seek) -> bool
    ensures { result ≡ is_by_arrival seek }
{
    match seek {
        Seek::Arrived { .. } => true,
        Seek::ArrivedDay { .. } => true,
        _ => false,
    }
}

// Returns whether the rows are documents.
fn is_docs(table: Table) -> bool
    ensures { result ≡ is_docs table }
{
    match table {
        Table::Docs => true,
        Table::Notes => false,
    }
}

// Returns whether a body is the guard itself, or always true.
fn is_implied(pool: &Pool<TNode>, guard: &Atom, body: NodeId) -> bool
    requires { IsPlaceOf pool.now body.0 }
    ensures { result ≡ is_implied guard.now (tree_at pool.now body.0) }
{
    match node_at(pool, body) {
        TNode::True => true,
        TNode::Plain(atom) => guard == atom,
        _ => false,
    }
}

// Returns whether the variable is the query's document, and the guard a comparison of a text of it
// with a literal.
fn asks_literal(var: Var, step: &Step, guard: &Atom) -> bool
    ensures { result ≡ asks_literal var step.now guard.now }
{
    is_docs(step.table) && step.var.0 == 0 && var.0 == 0 && literal_kind(var, guard).is_some()
}

// Returns whether the step has one guard, which is such a comparison and implies the body.
fn guard_goes_by_list(search: &Search, var: Var, step: &Step) -> bool
    requires { HasBody search.now }
    ensures { result ≡ guard_goes_by_list var (searched search.now).body step.now step.now.guards }
{
    match step.guards.as_slice() {
        [guard] => {
            asks_literal(var, step, guard)
                && is_implied(&search.plan.query.pool, guard, search.probe.body)
        }
        _ => false,
    }
}

// Returns whether the path is such a step alone.
fn path_goes_by_list(search: &Search, var: Var) -> bool
    requires { HasBody search.now }
    ensures { result ≡ path_goes_by_list var (searched search.now).body search.now.probe.now.path }
{
    match search.probe.path.as_slice() {
        [step] => guard_goes_by_list(search, var, step),
        _ => false,
    }
}

/// Returns whether the probe is about the query's document alone, driven by its arrival, and has
/// one guard, which compares a text of it with a literal by which the index finds documents, and
/// beside which nothing is asked for. It then finds each row that is walked, at each mark that
/// isn't before the row.
pub fn goes_by_list(search: &Search, seek: Seek, var: Var) -> bool
    requires { HasBody search.now }
    ensures { result ≡ goes_by_list (searched search.now) seek var }
{
    is_by_arrival(seek) && path_goes_by_list(search, var)
}

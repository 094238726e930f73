//! Window queries as lines of text.

ghost use Rattle.std.specs.Prelude.{◌≡◌, ◌++◌, codes, map, IfOk, OnOk, true};
ghost use Rattle.std.specs.List.{flat_map};
ghost use Rattle.tap_base.specs.Bytes.{IsPlaceOf};
ghost use Rattle.time_marks.specs.KeptParts.{parts_kept};
ghost use Rattle.time_marks.specs.Views.{probe_in, ranged_probes};
ghost use Rattle.incremental_rewrite.specs.Lines.{joined, atom_text, guards_text, step_text};
ghost use Rattle.incremental_rewrite.specs.Lines.{probe_line, explain_lines};

use crate::bodies::put_body;
use crate::texts::{put_atom, put_term, put_var};
use node_pool::Pool;
use std::alloc::Global;
use tap_base::{Memory, Text, Texts};
use time_marks::{Probe, Ranged, RangedQuery, Step};
use tql_core::{Atom, TNode};
use tql_tree::name_of_table;

// Appends these atoms, each behind an AND.
fn put_further(alloc: Global, atoms: &[Atom], into: &mut Text) -> Result<(), Memory>
    ensures { OnOk result
        (into.new ≡ into.old ++ flat_map (λ a. codes " AND " ++ atom_text a) atoms.now) }
{
    for atom in atoms {
        into.push_slice(b" AND ")?;
        put_atom(alloc, atom, into)?;
    }
    Ok(())
}

// Appends the guards of a step in brackets, or nothing if it has none.
fn put_guards(alloc: Global, guards: &[Atom], into: &mut Text) -> Result<(), Memory>
    ensures { OnOk result (into.new ≡ into.old ++ guards_text guards.now) }
{
    match guards.split_first() {
        None => Ok(()),
        Some((first, rest)) => {
            into.push_slice(b" [")?;
            put_atom(alloc, first, into)?;
            put_further(alloc, rest, into)?;
            into.push_slice(b"]")
        }
    }
}

// Appends a step of a path.
fn put_step(alloc: Global, step: &Step, into: &mut Text) -> Result<(), Memory>
    ensures { OnOk result (into.new ≡ into.old ++ step_text step.now) }
{
    put_var(alloc, step.var, into)?;
    into.push_slice(b": ")?;
    into.push_slice(name_of_table(step.table))?;
    put_guards(alloc, step.guards.as_slice(), into)
}

// Appends these steps, each behind a comma.
fn put_steps(alloc: Global, steps: &[Step], into: &mut Text) -> Result<(), Memory>
    ensures { OnOk result
        (into.new ≡ into.old ++ flat_map (λ step. codes ", " ++ step_text step) steps.now) }
{
    for step in steps {
        into.push_slice(b", ")?;
        put_step(alloc, step, into)?;
    }
    Ok(())
}

// Appends a path.
fn put_path(alloc: Global, path: &[Step], into: &mut Text) -> Result<(), Memory>
    ensures { OnOk result (into.new ≡ into.old ++ joined (codes ", ") step_text path.now) }
{
    match path.split_first() {
        None => Ok(()),
        Some((first, rest)) => {
            put_step(alloc, first, into)?;
            put_steps(alloc, rest, into)
        }
    }
}

fn probe_line(alloc: Global, pool: &Pool<TNode>, probe: &Probe) -> Result<Text, Memory>
    requires { IsPlaceOf pool.now probe.now.body.0 }
    ensures { IfOk result (λ line. line ≡ probe_line (probe_in pool.now probe.now)) }
{
    let mut line = Text::new(alloc);
    line.push_slice(b"OVER ")?;
    put_path(alloc, probe.path.as_slice(), &mut line)?;
    line.push_slice(b" AT ")?;
    put_term(alloc, probe.at, &mut line)?;
    line.push_slice(b" WHERE ")?;
    put_body(alloc, pool, probe.body, 0, &mut line)?;
    Ok(line)
}

// Returns the lines of some parts.
fn lines_of(alloc: Global, pool: &Pool<TNode>, parts: &[Ranged]) -> Result<Texts, Memory>
    requires { parts_kept pool.now parts.now ≡ true }
    ensures { IfOk result (λ lines.
        lines ≡ map (λ part. probe_line (probe_in pool.now part.probe)) parts.now) }
{
    let mut lines = Texts::new(alloc);
    for part in parts {
        lines.push(probe_line(alloc, pool, &part.probe)?)?;
    }
    Ok(lines)
}

/// Returns a line for each probe: the steps of its path with their guards, the time of its mark,
/// and its body in the syntax of a query. A variable k of an EXISTS is `vk`, its copy in a path
/// `pk`. `Memory` comes if memory runs out.
pub fn render(alloc: Global, query: &RangedQuery) -> Result<Texts, Memory>
    ensures { IfOk result (λ lines. lines ≡ explain_lines (ranged_probes query.now)) }
{
    let lines = lines_of(alloc, &query.pool, query.parts.as_slice())?;
    Ok(lines)
}

//! Probes without repeats, each with its seek.

ghost use Rattle.std.specs.Prelude.{◌≡◌, IfOk, OnOk};
ghost use Rattle.std.specs.List.{list_any};
ghost use Rattle.time_marks.specs.Distinct.{kept_with, distinct, distinct_probes, HasSameMeaning};
ghost use Rattle.time_marks.specs.Views.{probes_of, ranged_probes};
ghost use Rattle.incremental_rewrite.specs.Solved.{same_numbers, part_probes};

use std::alloc::Global;
use tap_base::{Memory, Rows};
use time_marks::{Probe, Ranged, RangedQuery, Seek, WindowQuery};

// Returns whether the probes are equal. Bodies are equal if and only if their numbers are: the pool
// shares equal nodes.
fn is_same(a: &Probe, b: &Probe) -> bool
    ensures { result ≡ same_numbers a.now b.now }
{
    a.path == b.path && (a.at == b.at && a.body == b.body)
}

// Returns whether the probe equals one of these.
fn has_equal(parts: &Rows<Ranged>, probe: &Probe) -> bool
    ensures { result ≡ list_any (λ part. same_numbers probe.now part.probe) parts.now }
{
    parts
        .as_slice()
        .iter()
        .any(|part| is_same(probe, &part.probe))
}

// Appends the probe with its seek, unless it equals an earlier one.
fn keep(parts: &mut Rows<Ranged>, probe: Probe) -> Result<(), Memory>
    ensures { OnOk result
        (part_probes parts.new ≡ kept_with same_numbers (part_probes parts.old) probe) }
{
    if has_equal(parts, &probe) {
        return Ok(());
    }
    let seek = Seek::of(probe.at);
    parts.push(Ranged { probe, seek })?;
    Ok(())
}

// Returns the probes without repeats, each with its seek.
fn solved(alloc: Global, probes: Rows<Probe>) -> Result<Rows<Ranged>, Memory>
    ensures { IfOk result (λ parts. part_probes parts ≡ distinct same_numbers probes) }
{
    let mut parts = Rows::new(alloc);
    for probe in probes.into_vec() {
        keep(&mut parts, probe)?;
    }
    Ok(parts)
}

/// Returns the query without each probe that equals an earlier one, with each mark solved for the
/// stored second of its driving row. It finds what the given query finds, over all tables and
/// windows. `Memory` comes if memory runs out.
pub fn incremental(alloc: Global, query: WindowQuery) -> Result<RangedQuery, Memory>
    ensures distinct { IfOk result (λ ranged.
        ranged_probes ranged ≡ distinct_probes (probes_of query)) }
    ensures meaning { IfOk result (λ ranged.
        HasSameMeaning (ranged_probes ranged) (probes_of query)) }
{
    let WindowQuery { pool, probes } = query;
    let parts = solved(alloc, probes)?;
    // Brings the pool's invariant into scope: equal bodies have one number.
    let _nodes = pool.len();
    Ok(RangedQuery { pool, parts })
}

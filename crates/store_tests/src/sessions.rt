//! Sessions over keepers in memory, with a call that fails.

ghost use Rattle.keeper_core.specs.States.{IsFreeInMemory};

use crate::scripts::PROBE;
use keeper_core::{KeepPlan, MemKeeper};
use session_runs::{edges_of, written_over};
use std::alloc::Global;
use tap_base::{Memory, Text};
use tap_edges::PutPlan;
use tap_rows::Tables;

/// What a run ended with: its status, what it wrote, what a session over the keeper's tables shows,
/// and what one over the tables that a crash leaves shows.
#[derive(Drop)]
pub struct Left {
    pub status: u8,
    pub written: Text,
    pub told: Text,
    pub probe: Text,
}

/// The call of a run that fails.
#[derive(Clone, Copy)]
pub enum Failure {
    /// No call fails.
    Nothing,
    /// The read of this number fails.
    Read(u64),
    Put(PutPlan),
    Keep(KeepPlan),
}

// Returns the reads that fail.
fn reads_of(alloc: Global, failure: Failure) -> Result<Vec<u64>, Memory> {
    match failure {
        Failure::Read(call) => Ok(vec![in alloc; call]?),
        _ => Ok(Vec::new(alloc)),
    }
}

// Returns the puts that fail.
fn puts_of(alloc: Global, failure: Failure) -> Result<Vec<PutPlan>, Memory> {
    match failure {
        Failure::Put(plan) => Ok(vec![in alloc; plan]?),
        _ => Ok(Vec::new(alloc)),
    }
}

// Returns the calls of the keeper that fail.
fn keeps_of(alloc: Global, failure: Failure) -> Result<Vec<KeepPlan>, Memory> {
    match failure {
        Failure::Keep(plan) => Ok(vec![in alloc; plan]?),
        _ => Ok(Vec::new(alloc)),
    }
}

// Runs a script in pieces of this many bytes over a keeper; returns the status and what was
// written.
fn run_over(
    alloc: Global,
    keeper: &mut MemKeeper,
    script: &[u8],
    size: usize,
    failure: Failure,
) -> Result<(u8, Text), Memory>
    requires free { IsFreeInMemory keeper.old }
{
    let reads = reads_of(alloc, failure)?;
    let puts = puts_of(alloc, failure)?;
    let (source, sink) = edges_of(alloc, script, size, reads, 4096, puts)?;
    written_over(alloc, keeper, source, sink)
}

// Returns what a session over these tables shows.
fn probe_of(alloc: Global, tables: Tables) -> Result<Text, Memory> {
    let mut keeper = MemKeeper::new(alloc, tables, 2, Vec::new(alloc));
    let ended = run_over(alloc, &mut keeper, PROBE, 100, Failure::Nothing);
    drop(keeper);
    let (_status, written) = ended?;
    Ok(written)
}

// Returns what sessions over the tables of a keeper show, and over those that a crash leaves.
fn probes_of(alloc: Global, keeper: MemKeeper) -> Result<(Text, Text), Memory> {
    let tables = keeper.tables().copy();
    let left = keeper.after_crash();
    let probe = probe_of(alloc, left)?;
    let told = probe_of(alloc, tables?)?;
    Ok((told, probe))
}

// Joins what a run ended with and what sessions over the tables of its keeper show.
fn with_probes(
    alloc: Global,
    status: u8,
    written: Text,
    keeper: MemKeeper,
) -> Result<Left, Memory> {
    match probes_of(alloc, keeper) {
        Ok((told, probe)) => Ok(Left {
            status,
            written,
            told,
            probe,
        }),
        Err(Memory) => {
            drop(written);
            Err(Memory)
        }
    }
}

/// Runs a script over these tables, in pieces of this many bytes, with this failure.
pub fn left_by(
    alloc: Global,
    base: &Tables,
    script: &[u8],
    size: usize,
    failure: Failure,
) -> Result<Left, Memory> {
    let keeps = keeps_of(alloc, failure)?;
    let mut keeper = MemKeeper::new(alloc, base.copy()?, 2, keeps);
    let ended = run_over(alloc, &mut keeper, script, size, failure);
    match ended {
        Ok((status, written)) => with_probes(alloc, status, written, keeper),
        Err(Memory) => {
            drop(keeper);
            Err(Memory)
        }
    }
}

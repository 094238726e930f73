//! What the first commands of a script give, for each number of them.

use crate::scripts::text_of;
use crate::sessions::{Failure, Left, left_by};
use std::alloc::Global;
use tap_base::{Memory, Text, Texts};
use tap_rows::Tables;

/// What the first commands of a script write, and what a session after them shows: item `n` of each
/// is of the first `n`.
#[derive(Drop)]
pub struct Prefixes {
    pub written: Texts,
    pub probes: Texts,
}

// Appends what a run ended with.
fn push_left(into: &mut Prefixes, left: Left) -> Result<(), Memory> {
    let Left {
        status: _,
        written,
        told,
        probe,
    } = left;
    drop(told);
    match into.written.push(written) {
        Ok(()) => into.probes.push(probe),
        Err(Memory) => {
            drop(probe);
            Err(Memory)
        }
    }
}

// Appends what these commands give.
fn push_prefix(
    alloc: Global,
    base: &Tables,
    commands: &[&[u8]],
    into: &mut Prefixes,
) -> Result<(), Memory> {
    let script = text_of(alloc, commands)?;
    let left = left_by(alloc, base, script.as_slice(), 100, Failure::Nothing);
    drop(script);
    push_left(into, left?)
}

// Appends what each number of first commands gives.
fn push_all(
    alloc: Global,
    base: &Tables,
    commands: &[&[u8]],
    into: &mut Prefixes,
) -> Result<(), Memory> {
    for n in 0..commands.len() {
        push_prefix(alloc, base, &commands[..n], into)?;
    }
    push_prefix(alloc, base, commands, into)
}

impl Prefixes {
    /// Runs each number of first commands over these tables.
    pub fn of(alloc: Global, base: &Tables, commands: &[&[u8]]) -> Result<Prefixes, Memory> {
        let mut all = Prefixes {
            written: Texts::new(alloc),
            probes: Texts::new(alloc),
        };
        match push_all(alloc, base, commands, &mut all) {
            Ok(()) => Ok(all),
            Err(Memory) => {
                drop(all);
                Err(Memory)
            }
        }
    }

    /// Runs each number of first commands over no rows.
    pub fn over_none(alloc: Global, commands: &[&[u8]]) -> Result<Prefixes, Memory> {
        let none = Tables::empty(alloc);
        let prefixes = Prefixes::of(alloc, &none, commands);
        drop(none);
        prefixes
    }

    /// Returns whether a session shows what it shows after the first `n` commands.
    pub fn shows(&self, n: usize, probe: &Text) -> bool {
        match self.probes.as_slice().get(n) {
            Some(want) => want == probe,
            None => false,
        }
    }

    /// Returns whether this is what the first `n` commands write.
    pub fn are_replies(&self, n: usize, written: &Text) -> bool {
        match self.written.as_slice().get(n) {
            Some(want) => want == written,
            None => false,
        }
    }

    /// Returns whether a run wrote what the first `n` commands write, and shows what it shows after
    /// `then` of them.
    pub fn is_after(&self, n: usize, then: usize, written: &Text, probe: &Text) -> bool {
        self.are_replies(n, written) && self.shows(then, probe)
    }

    /// Returns whether a run wrote what the first `n` commands write, and of the next reply the
    /// first `out` bytes.
    pub fn is_cut(&self, n: usize, out: usize, written: &Text) -> bool {
        let replies = self.written.as_slice();
        match (replies.get(n), replies.get(n.saturating_add(1))) {
            (Some(whole), Some(next)) => {
                let end = whole.as_slice().len().saturating_add(out);
                let cut = end.min(next.as_slice().len());
                written.as_slice() == &next.as_slice()[..cut]
            }
            _ => false,
        }
    }
}

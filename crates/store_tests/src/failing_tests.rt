//! Each call of the source, the sink and the keeper fails once: which commands are then done, and
//! what is left.

use crate::prefixes::Prefixes;
use crate::scripts::{FIRST, SECOND, TWO_USERS, adds_rows, complete_in, text_of};
use crate::sessions::{Failure, Left, left_by};
use keeper_core::KeepPlan;
use session_runs::tables_after;
use std::alloc::Global;
use tap_base::{Memory, Text};
use tap_edges::PutPlan;
use tap_rows::Tables;

// How a run ended whose call was to fail.
#[derive(Clone, Copy, PartialEq, Eq, Debug)]
enum Ended {
    // The call failed, and what was written and left is right.
    Right,
    // The call failed, and something is wrong.
    Wrong,
    // The run has no such call.
    NoCall,
}

// A script, the tables it runs over, and what its first commands give.
#[derive(Drop)]
struct Case {
    base: Tables,
    script: Text,
    prefixes: Prefixes,
}

// Returns a script, and what its first commands give over these tables.
fn parts_of(alloc: Global, base: &Tables, commands: &[&[u8]]) -> Result<(Text, Prefixes), Memory> {
    let prefixes = Prefixes::of(alloc, base, commands)?;
    match text_of(alloc, commands) {
        Ok(script) => Ok((script, prefixes)),
        Err(Memory) => {
            drop(prefixes);
            Err(Memory)
        }
    }
}

// Returns the case of a script over these tables.
fn case_of(alloc: Global, base: Tables, commands: &[&[u8]]) -> Result<Case, Memory> {
    match parts_of(alloc, &base, commands) {
        Ok((script, prefixes)) => Ok(Case {
            base,
            script,
            prefixes,
        }),
        Err(Memory) => {
            drop(base);
            Err(Memory)
        }
    }
}

// Returns the tables that the first session leaves.
fn first_left(alloc: Global) -> Result<Tables, Memory> {
    let first = text_of(alloc, &FIRST)?;
    let tables = tables_after(alloc, first.as_slice());
    drop(first);
    tables
}

// Which calls fail.
#[derive(Clone, Copy)]
enum Calls {
    Reads,
    Puts(usize),
    Keeps(bool),
}

// Returns the failure of the call of this number.
fn failure_at(calls: Calls, call: u64) -> Failure {
    match calls {
        Calls::Reads => Failure::Read(call),
        Calls::Puts(out) => Failure::Put(PutPlan { call, out }),
        Calls::Keeps(kept) => Failure::Keep(KeepPlan { call, kept }),
    }
}

// Returns how many commands stand before the one that makes this call of the keeper. The first call
// attaches.
fn before_commit(commands: &[&[u8]], call: u64) -> usize {
    let mut commits = 0u64;
    for (n, command) in commands.iter().enumerate() {
        if adds_rows(command) {
            commits = commits.saturating_add(1);
        }
        if commits == call {
            return n;
        }
    }
    commands.len()
}

impl Case {
    // Returns whether a run wrote the replies of the first `n` commands, its keeper tells their
    // tables, and a crash leaves those of the first `then`.
    fn is_after(&self, left: &Left, n: usize, then: usize) -> bool {
        self.prefixes.is_after(n, then, &left.written, &left.probe)
            && self.prefixes.shows(n, &left.told)
    }

    // Returns whether a run wrote the replies of the first `n` commands and this many bytes of the
    // next, and its keeper tells the tables of all these, which a crash leaves.
    fn is_cut(&self, left: &Left, n: usize, out: usize) -> bool {
        let done = n.saturating_add(1);
        self.prefixes.is_cut(n, out, &left.written)
            && self.prefixes.shows(done, &left.told)
            && self.prefixes.shows(done, &left.probe)
    }

    // Returns whether a run is right that one of these calls stopped. A read: the commands that are
    // complete in the bytes of the reads before are done. A put, of which there is one a command:
    // that command is done too. A call of the keeper: the commands before the one that made it are
    // done, and a crash leaves its rows too if they were stored.
    fn is_right(&self, commands: &[&[u8]], left: &Left, calls: Calls, call: u64) -> bool {
        match calls {
            Calls::Reads => {
                let n = complete_in(commands, call.saturating_mul(7));
                left.status == 3 && self.is_after(left, n, n)
            }
            Calls::Puts(out) => left.status == 4 && self.is_cut(left, call as usize, out),
            Calls::Keeps(kept) => {
                let n = before_commit(commands, call);
                let more = if kept && call > 0 { 1 } else { 0 };
                left.status == 5 && self.is_after(left, n, n.saturating_add(more))
            }
        }
    }

    // Runs in pieces of seven bytes, where the call of this number fails; returns how the run
    // ended.
    fn ended(
        &self,
        alloc: Global,
        commands: &[&[u8]],
        calls: Calls,
        call: u64,
    ) -> Result<Ended, Memory> {
        let failure = failure_at(calls, call);
        let left = left_by(alloc, &self.base, self.script.as_slice(), 7, failure)?;
        let ended = if left.status < 2 {
            Ended::NoCall
        } else if self.is_right(commands, &left, calls, call) {
            Ended::Right
        } else {
            Ended::Wrong
        };
        drop(left);
        Ok(ended)
    }

    // Returns the number of calls that failed, each rightly, until a run ended without a failure; 0
    // if something is wrong.
    fn right_ends(&self, alloc: Global, commands: &[&[u8]], calls: Calls) -> Result<u64, Memory> {
        for call in 0..100u64 {
            let got = self.ended(alloc, commands, calls, call)?;
            if got == Ended::NoCall {
                return Ok(call);
            }
            if got == Ended::Wrong {
                return Ok(0);
            }
        }
        Ok(0)
    }
}

// Returns that number for a script over these tables.
fn ends_over(alloc: Global, base: Tables, commands: &[&[u8]], calls: Calls) -> Result<u64, Memory> {
    let case = case_of(alloc, base, commands)?;
    let ends = case.right_ends(alloc, commands, calls);
    drop(case);
    ends
}

// Returns that number for the script of this number.
fn right_ends(alloc: Global, number: u8, calls: Calls) -> Result<u64, Memory> {
    match number {
        0 => ends_over(alloc, Tables::empty(alloc), &FIRST, calls),
        1 => ends_over(alloc, first_left(alloc)?, &SECOND, calls),
        _ => ends_over(alloc, Tables::empty(alloc), &TWO_USERS, calls),
    }
}

#[test]
fn each_failing_read_leaves_the_commands_before(rt: HostRuntime) -> Result<(), Memory> {
    let alloc = rt.alloc();
    let rows: [(u8, u64); 3] = [(0, 17), (1, 10), (2, 23)];
    for (number, want) in rows {
        assert_eq!(rt; right_ends(alloc, number, Calls::Reads)?, want);
    }
    Ok(())
}

#[test]
fn each_failing_put_leaves_what_was_answered(rt: HostRuntime) -> Result<(), Memory> {
    let alloc = rt.alloc();
    let rows: [(u8, u64); 3] = [(0, 10), (1, 7), (2, 15)];
    for (number, want) in rows {
        assert_eq!(rt; right_ends(alloc, number, Calls::Puts(0))?, want);
        assert_eq!(rt; right_ends(alloc, number, Calls::Puts(1))?, want);
        assert_eq!(rt; right_ends(alloc, number, Calls::Puts(4096))?, want);
    }
    Ok(())
}

#[test]
fn each_failing_commit_leaves_its_rows_or_none(rt: HostRuntime) -> Result<(), Memory> {
    let alloc = rt.alloc();
    let rows: [(u8, u64); 3] = [(0, 6), (1, 3), (2, 6)];
    for (number, want) in rows {
        assert_eq!(rt; right_ends(alloc, number, Calls::Keeps(false))?, want);
        assert_eq!(rt; right_ends(alloc, number, Calls::Keeps(true))?, want);
    }
    Ok(())
}

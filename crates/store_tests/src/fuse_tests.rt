//! A session over a store whose machine stops at each call of a file in turn. The next session
//! finds the rows of all commands whose replies were whole, or those of the next command too.

ghost use Rattle.std.specs.Prelude.{◌≡◌, false};
ghost use Rattle.store_tests.specs.Usable.{AreBothUsable};

use crate::file_sessions::{Ran, new_files, run_over, session};
use crate::three_scripts::{FIRST, SECOND};
use sqlite::{Connection, FileStore, Files, Options};
use sqlite_disk::{Crash, Disk, Fuse, Memory as MemoryFile};
use std::alloc::Global;
use tap_base::Text;

// The reply to each command of the second session.
const REPLIES: [&[u8]; 10] = [
    b"ok 0 as ann\n",
    b"ok 0 at 111\n",
    b"ok 0 at 120\n",
    b"ok 0 doc 3\n",
    b"ok 0 at 121\n",
    b"ok 1 run 3 before 121\ndoc 3 first 120\n",
    b"ok 0 note 1\n",
    b"ok 0 query r\n",
    b"ok 0 filter 1\n",
    b"ok 3 box q\ndoc 1 first 100 run 1\ndoc 2 first 110 run 2\ndoc 3 first 120 run 3\n",
];

// Shows rows of each kind, the number of the next run, and what that delivers.
const PROBE: &[u8] = b"counts\nas ann\nnotes 1\nqueries\nlist q\nat 200\nrun q\n";

// What the probe writes over the rows of the first session,
const WITHOUT_MAIL: &[u8] =
    b"ok 0 counts documents 2 notes 0 moment 111\nok 0 as ann\nok 0 notes 1\n\
      ok 1 queries\nquery q ts 100 from 0 runs 2 last 111 boxed 2 text m.words HAS 'hi'\n\
      ok 2 list q\ndoc 1 first 100 run 1 priority 0 class other\n\
      doc 2 first 110 run 2 priority 0 class other\n\
      ok 0 at 200\nok 0 run 3 before 200\n";

// with the mail of the second,
const WITH_MAIL: &[u8] = b"ok 0 counts documents 3 notes 0 moment 120\nok 0 as ann\nok 0 notes 1\n\
      ok 1 queries\nquery q ts 100 from 0 runs 2 last 111 boxed 2 text m.words HAS 'hi'\n\
      ok 2 list q\ndoc 1 first 100 run 1 priority 0 class other\n\
      doc 2 first 110 run 2 priority 0 class other\n\
      ok 0 at 200\nok 1 run 3 before 200\ndoc 3 first 120\n";

// with its run too,
const WITH_RUN: &[u8] = b"ok 0 counts documents 3 notes 0 moment 121\nok 0 as ann\nok 0 notes 1\n\
      ok 1 queries\nquery q ts 100 from 0 runs 3 last 121 boxed 3 text m.words HAS 'hi'\n\
      ok 3 list q\ndoc 1 first 100 run 1 priority 0 class other\n\
      doc 2 first 110 run 2 priority 0 class other\n\
      doc 3 first 120 run 3 priority 0 class other\nok 0 at 200\nok 0 run 4 before 200\n";

// with its note too,
const WITH_NOTE: &[u8] = b"ok 0 counts documents 3 notes 1 moment 121\nok 0 as ann\n\
      ok 1 notes 1\nnote 1 ts 121 author ann kind score value -7 text x\n\
      ok 1 queries\nquery q ts 100 from 0 runs 3 last 121 boxed 3 text m.words HAS 'hi'\n\
      ok 3 list q\ndoc 1 first 100 run 1 priority 0 class other\n\
      doc 2 first 110 run 2 priority 0 class other\n\
      doc 3 first 120 run 3 priority 0 class other\nok 0 at 200\nok 0 run 4 before 200\n";

// with its query too,
const WITH_QUERY: &[u8] = b"ok 0 counts documents 3 notes 1 moment 121\nok 0 as ann\n\
      ok 1 notes 1\nnote 1 ts 121 author ann kind score value -7 text x\n\
      ok 2 queries\nquery q ts 100 from 0 runs 3 last 121 boxed 3 text m.words HAS 'hi'\n\
      query r ts 121 from 0 runs 0 last never boxed 0 text TRUE\n\
      ok 3 list q\ndoc 1 first 100 run 1 priority 0 class other\n\
      doc 2 first 110 run 2 priority 0 class other\n\
      doc 3 first 120 run 3 priority 0 class other\nok 0 at 200\nok 0 run 4 before 200\n";

// and with its filter too.
const WITH_FILTER: &[u8] = b"ok 0 counts documents 3 notes 1 moment 121\nok 0 as ann\n\
      ok 1 notes 1\nnote 1 ts 121 author ann kind score value -7 text x\n\
      ok 2 queries\nquery q ts 100 from 0 runs 3 last 121 boxed 3 text m.words HAS 'hi'\n\
      query r ts 121 from 0 runs 0 last never boxed 0 text TRUE\n\
      ok 3 list q\ndoc 1 first 100 run 1 priority 1 class a\n\
      doc 2 first 110 run 2 priority 1 class a\n\
      doc 3 first 120 run 3 priority 1 class a\nok 0 at 200\nok 0 run 4 before 200\n";

// Returns what the probe writes after the first `n` commands of the second session.
fn probe_after(n: usize) -> &'static [u8] {
    match n {
        0..=3 => WITHOUT_MAIL,
        4..=5 => WITH_MAIL,
        6 => WITH_RUN,
        7 => WITH_NOTE,
        8 => WITH_QUERY,
        _ => WITH_FILTER,
    }
}

// Returns how many replies of the second session these are, if all are whole.
fn whole_replies(written: &[u8]) -> Option<usize> {
    let mut rest = written;
    for (n, reply) in REPLIES.iter().enumerate() {
        if rest.is_empty() {
            return Some(n);
        }
        if !rest.starts_with(reply) {
            return None;
        }
        rest = &rest[reply.len()..];
    }
    if rest.is_empty() { Some(10) } else { None }
}

// Returns the files behind fuses that pass this many calls.
fn fused<D: Disk>(files: Files<D>, log: u64, db: u64) -> Files<Fuse<D>> {
    Files {
        log: Fuse::new(files.log, log),
        db: Fuse::new(files.db, db),
    }
}

// Runs the second session over an open store: what it ended with, whether its files were closed in
// order, and the files then.
fn stopped_over<D: Disk + Drop>(
    alloc: Global,
    connection: Connection<FileStore<D>>,
) -> (Ran, bool, Files<D>)
    requires idle { connection.in_transaction ≡ false }
{
    let (ran, connection) = run_over(alloc, connection, SECOND);
    match connection.close_files() {
        Ok(files) => (ran, true, files),
        Err((_, store)) => (ran, false, store.close()),
    }
}

// Runs the second session over the files. If they don't open, it stopped before its first reply.
fn stopped<D: Disk + Drop>(alloc: Global, files: Files<D>) -> Option<(Ran, bool, Files<D>)> {
    if !files.may_be_used() {
        drop(files);
        return None;
    }
    match Connection::open_files(alloc, files, Options::new(1)) {
        Err((_, left)) => Some((Ok((5, Text::new(alloc))), false, left.into_files())),
        Ok(connection) => Some(stopped_over(alloc, connection)),
    }
}

// Starts the machine again after a crash; returns what the probe then writes, if it ends with
// status 0.
fn found_again<D: Crash + Drop>(alloc: Global, mut files: Files<D>) -> Option<Text> {
    files.log.crash();
    files.db.crash();
    let (status, written, files) = session(alloc, files, PROBE)?;
    drop(files);
    if status == 0 {
        Some(written)
    } else {
        drop(written);
        None
    }
}

// Runs the first session over new files, and returns them as it closed them.
fn first_files(alloc: Global) -> Option<Files<MemoryFile>> {
    let (_status, written, files) = session(alloc, new_files(alloc), FIRST)?;
    drop(written);
    Some(files)
}

// Stops the second session after this many calls of each file: what it ended with, whether its
// files were closed in order, and what the probe then writes.
fn stopped_at(alloc: Global, log: u64, db: u64) -> Option<(Ran, bool, Text)> {
    let files = first_files(alloc)?;
    let (ran, is_closed, files) = stopped(alloc, fused(files, log, db))?;
    match found_again(alloc, files) {
        Some(found) => Some((ran, is_closed, found)),
        None => {
            drop(ran);
            None
        }
    }
}

// How a session ended.
#[derive(Clone, Copy, PartialEq, Eq, Debug)]
enum Ended {
    // Something was lost, or the files didn't open again.
    Wrong,
    // It stopped, and what was found again is right.
    Right,
    // It ended without a stop.
    Whole,
}

// Returns how a session ended that had this status, wrote and left this.
fn outcome_of(status: u8, written: &[u8], is_closed: bool, found: &[u8]) -> Ended {
    let Some(whole) = whole_replies(written) else {
        return Ended::Wrong;
    };
    let is_left = found == probe_after(whole);
    let is_next = found == probe_after(whole.saturating_add(1));
    match (status, whole) {
        (0, 10) if is_left && is_closed => Ended::Whole,
        (0, 10) if is_left => Ended::Right,
        (5, 0..=9) if is_left || is_next => Ended::Right,
        _ => Ended::Wrong,
    }
}

// Returns how the session ended that was stopped after this many calls of each file.
fn outcome(alloc: Global, log: u64, db: u64) -> Ended {
    let Some((ran, is_closed, found)) = stopped_at(alloc, log, db) else {
        return Ended::Wrong;
    };
    let ended = match &ran {
        Ok((status, written)) => {
            outcome_of(*status, written.as_slice(), is_closed, found.as_slice())
        }
        Err(_) => Ended::Wrong,
    };
    drop(ran);
    drop(found);
    ended
}

// Returns the number of calls at which the session was stopped, until it ended without a stop; 0 if
// something is wrong.
fn right_stops(alloc: Global, in_log: bool) -> u64 {
    for calls in 0..1000u64 {
        let ended = if in_log {
            outcome(alloc, calls, u64::MAX)
        } else {
            outcome(alloc, u64::MAX, calls)
        };
        if ended == Ended::Whole {
            return calls;
        }
        if ended == Ended::Wrong {
            return 0;
        }
    }
    0
}

#[test]
fn a_stop_at_each_call_loses_no_whole_reply(rt: HostRuntime) {
    assert!(rt; right_stops(rt.alloc(), true) > 10);
    assert!(rt; right_stops(rt.alloc(), false) > 2);
}

//! What is out each time that a run asks for more: the replies to the commands that are complete in
//! the bytes taken, and no others.

ghost use Rattle.std.specs.Prelude.{◌<◌};
ghost use Rattle.tap_base.specs.Ledgers.{IsBlankOf};
ghost use Rattle.keeper_core.specs.States.{IsFreeInMemory};

use crate::prefixes::Prefixes;
use crate::scripts::{TWO_USERS, complete_in, text_of};
use keeper_core::MemKeeper;
use peer_edges::{Seen, WatchedSource};
use std::alloc::Global;
use std::marker::Brand;
use std::sync::ledger::{Blank, Ledger};
use tap_base::{HashKey, Memory, Steps, Texts};
use tap_edges::MemSink;
use tap_rows::Tables;
use tap_top::tapestry;

// Runs with the counter of a blank; returns the status.
fn run<L: Ledger>(
    alloc: Global,
    blank: Blank,
    source: &mut WatchedSource,
    sink: &mut MemSink,
    keeper: &mut MemKeeper,
) -> u8
    requires blank { IsBlankOf L.name L.parts blank }
    requires free { IsFreeInMemory keeper.old }
{
    let mut steps = Steps::<L>::start(blank);
    let words = Texts::new(alloc);
    let status = tapestry(
        alloc,
        HashKey::fixed(),
        &words,
        source,
        sink,
        keeper,
        &mut steps,
    );
    drop(words);
    status
}

// Runs over no rows; returns the status.
fn status_of(alloc: Global, source: &mut WatchedSource, sink: &mut MemSink) -> u8 {
    let mut keeper = MemKeeper::new(alloc, Tables::empty(alloc), 2, Vec::new(alloc));
    let status = run::<Brand>(alloc, Blank::new(1), source, sink, &mut keeper);
    drop(keeper);
    status
}

// Runs the script in pieces of this many bytes; returns the status, and the source after.
fn watched(alloc: Global, size: usize) -> Result<(u8, WatchedSource), Memory>
    requires { 0 < size }
{
    let mut sink = MemSink::new(alloc, 4096, Vec::new(alloc))?;
    match text_of(alloc, &TWO_USERS) {
        Ok(script) => {
            let mut source = WatchedSource::new(alloc, script, size);
            let status = status_of(alloc, &mut source, &mut sink);
            drop(sink);
            Ok((status, source))
        }
        Err(Memory) => {
            drop(sink);
            Err(Memory)
        }
    }
}

// Returns how often more was asked for while exactly the right replies were out, up to the first
// time that they weren't.
fn prompt_asks(prefixes: &Prefixes, seen: &[Seen]) -> usize {
    for (n, ask) in seen.iter().enumerate() {
        let complete = complete_in(&TWO_USERS, ask.at as u64);
        if !prefixes.are_replies(complete, &ask.out) {
            return n;
        }
    }
    seen.len()
}

// Runs the script in pieces of this many bytes: the status, how often more was asked for, and how
// often rightly.
fn asked(alloc: Global, prefixes: &Prefixes, size: usize) -> Result<(u8, usize, usize), Memory>
    requires { 0 < size }
{
    let (status, source) = watched(alloc, size)?;
    let asks = source.seen().len();
    let prompt = prompt_asks(prefixes, source.seen());
    drop(source);
    Ok((status, asks, prompt))
}

#[test]
fn each_reply_is_out_before_the_next_read(rt: HostRuntime) -> Result<(), Memory> {
    let prefixes = Prefixes::over_none(rt.alloc(), &TWO_USERS)?;
    let one = asked(rt.alloc(), &prefixes, 1);
    let seven = asked(rt.alloc(), &prefixes, 7);
    let whole = asked(rt.alloc(), &prefixes, 200);
    drop(prefixes);
    // Two commands are refused, and the last time the source is at its end.
    assert_eq!(rt; one?, (1, 150, 150));
    assert_eq!(rt; seven?, (1, 23, 23));
    assert_eq!(rt; whole?, (1, 2, 2));
    Ok(())
}

//! Runs over sources, sinks and keepers in memory.

ghost use Rattle.std.specs.Prelude.{◌<◌, IfOk};
ghost use Rattle.std.specs.List.{All};
ghost use Rattle.std.specs.Str.{IsUtf8};
ghost use Rattle.tap_base.specs.Ledgers.{IsBlankOf};
ghost use Rattle.keeper_core.specs.States.{IsFreeInMemory};

use itoa::Buffer;
use keeper_core::MemKeeper;
use std::alloc::Global;
use std::marker::Brand;
use std::sync::ledger::{Blank, Ledger};
use tap_base::{HashKey, Memory, Steps, Text, Texts};
use tap_edges::{MemSink, MemSource, PutPlan};
use tap_rows::Tables;
use tap_top::tapestry;

// Runs with the counter of a blank; returns the status.
fn run<L: Ledger>(
    alloc: Global,
    blank: Blank,
    words: &Texts,
    source: &mut MemSource,
    sink: &mut MemSink,
    keeper: &mut MemKeeper,
) -> u8
    requires blank { IsBlankOf L.name L.parts blank }
    requires texts { All IsUtf8 words.now }
    requires free { IsFreeInMemory keeper.old }
{
    let mut steps = Steps::<L>::start(blank);
    tapestry(
        alloc,
        HashKey::fixed(),
        words,
        source,
        sink,
        keeper,
        &mut steps,
    )
}

// Runs with a counter of its own; returns the status.
fn status_of(
    alloc: Global,
    words: &Texts,
    source: &mut MemSource,
    sink: &mut MemSink,
    keeper: &mut MemKeeper,
) -> u8
    requires texts { All IsUtf8 words.now }
    requires free { IsFreeInMemory keeper.old }
{
    run::<Brand>(alloc, Blank::new(1), words, source, sink, keeper)
}

// Returns 1 for 0, and other numbers unchanged.
fn at_least_one(size: usize) -> usize
    ensures { 0 < result }
{
    if size == 0 { 1 } else { size }
}

// Returns a source of a script in pieces of `size` bytes, of which these reads fail.
fn source_of(
    alloc: Global,
    script: &[u8],
    size: usize,
    fails: Vec<u64>,
) -> Result<MemSource, Memory> {
    let sizes = vec![in alloc; at_least_one(size)]?;
    Ok(MemSource::new(Text::from_slice(alloc, script)?, sizes, fails))
}

/// Returns a source of a script in pieces of `size` bytes, of which these reads fail, and a sink
/// with so much room, of which these puts fail.
pub fn edges_of(
    alloc: Global,
    script: &[u8],
    size: usize,
    reads: Vec<u64>,
    room: usize,
    puts: Vec<PutPlan>,
) -> Result<(MemSource, MemSink), Memory> {
    let source = source_of(alloc, script, size, reads)?;
    match MemSink::new(alloc, room, puts) {
        Ok(sink) => Ok((source, sink)),
        Err(Memory) => {
            drop(source);
            Err(Memory)
        }
    }
}

/// Returns the words of a line, one blank between them.
pub fn words_in(alloc: Global, line: &str) -> Result<Texts, Memory>
    ensures { IfOk result (λ words. All IsUtf8 words) }
{
    let mut words = Texts::new(alloc);
    for word in line.split(' ') {
        words.push(Text::from_slice(alloc, word.as_bytes())?)?;
    }
    Ok(words)
}

/// Runs with words over a keeper; returns the status and what was written.
pub fn words_over(
    alloc: Global,
    words: &Texts,
    keeper: &mut MemKeeper,
    mut source: MemSource,
    mut sink: MemSink,
) -> Result<(u8, Text), Memory>
    requires texts { All IsUtf8 words.now }
    requires free { IsFreeInMemory keeper.old }
{
    let status = status_of(alloc, words, &mut source, &mut sink, keeper);
    let written = Text::from_slice(alloc, sink.written());
    drop(source);
    drop(sink);
    Ok((status, written?))
}

/// Runs over a keeper, without words; returns the status and what was written.
pub fn written_over(
    alloc: Global,
    keeper: &mut MemKeeper,
    source: MemSource,
    sink: MemSink,
) -> Result<(u8, Text), Memory>
    requires free { IsFreeInMemory keeper.old }
{
    let words = Texts::new(alloc);
    let ended = words_over(alloc, &words, keeper, source, sink);
    drop(words);
    ended
}

/// Runs a script over no rows; returns the tables that a crash then leaves.
pub fn tables_after(alloc: Global, script: &[u8]) -> Result<Tables, Memory> {
    let (source, sink) = edges_of(alloc, script, 4096, Vec::new(alloc), 4096, Vec::new(alloc))?;
    let mut keeper = MemKeeper::new(alloc, Tables::empty(alloc), 2, Vec::new(alloc));
    let ended = written_over(alloc, &mut keeper, source, sink);
    let left = keeper.after_crash();
    match ended {
        Ok((_, written)) => {
            drop(written);
            Ok(left)
        }
        Err(Memory) => {
            drop(left);
            Err(Memory)
        }
    }
}

/// Runs a script over no rows, in pieces of `size` bytes and with so much room for what is written;
/// the status, and what was written.
pub fn answers_within(
    alloc: Global,
    script: &[u8],
    size: usize,
    room: usize,
) -> Result<(u8, Text), Memory> {
    let (source, sink) = edges_of(alloc, script, size, Vec::new(alloc), room, Vec::new(alloc))?;
    let mut keeper = MemKeeper::new(alloc, Tables::empty(alloc), 2, Vec::new(alloc));
    let ended = written_over(alloc, &mut keeper, source, sink);
    drop(keeper);
    ended
}

/// Runs a script over no rows with room for 4,096 bytes of replies; returns the status and what was
/// written.
pub fn answers(alloc: Global, script: &[u8], size: usize) -> Result<(u8, Text), Memory> {
    answers_within(alloc, script, size, 4096)
}

/// Appends a line with a part that is repeated.
pub fn push_line(
    script: &mut Text,
    head: &[u8],
    part: &[u8],
    times: usize,
    end: &[u8],
) -> Result<(), Memory> {
    script.push_slice(head)?;
    for _ in 0..times {
        script.push_slice(part)?;
    }
    script.push_slice(end)
}

/// Appends the digits of a number.
pub fn push_number(script: &mut Text, n: u32) -> Result<(), Memory> {
    let mut digits = Buffer::new();
    script.push_slice(digits.format(n).as_bytes())
}

//! A source in memory that keeps what was out each time that it was asked for more.
ghost use Rattle.std.specs.Prelude.{◌≡◌, ◌<◌, ◌≤◌, ℕ, List, [], Option, Some, length, take, drop};
ghost use Rattle.std.specs.Prelude.{IfOk, OnOk};
ghost use Rattle.std.specs.Io.{ReadsAtMost};
ghost use Rattle.std.specs.Io.KnownBytes.{ReadConsumes};
ghost use Rattle.tap_edges.specs.Edges.{HasCause};
ghost use Rattle.peer_edges.specs.Asks.{AskedOnlyWhen};
ghost use Rattle.peer_edges.specs.Watched.{WasSeen};

use crate::peer::Peer;
use std::alloc::Global;
use tap_base::Text;
use tap_edges::{MemSink, ReadFailed, Sink};

/// What a source saw when it was asked for more: how many of its bytes were taken, and the bytes
/// that were out.
#[derive(Drop)]
pub struct Seen {
    pub at: usize,
    pub out: Text,
}

/// A source over a text in memory that keeps what it saw each time that it was asked for more. A
/// read fails if there is no memory to keep it in.
#[derive(Drop)]
pub struct WatchedSource {
    alloc: Global,
    bytes: Text,
    at: usize,
    most: usize,
    seen: Vec<Seen>,
    faults: u64,
    ghost within: { at ≤ length bytes },
    ghost some: { 0 < most },
}

impl WatchedSource {
    /// Returns a source over these bytes, which gives at most that many a read.
    pub fn new(alloc: Global, bytes: Text, most: usize) -> WatchedSource
        requires { 0 < most }
        ensures left { drop result.at result.bytes ≡ bytes }
        ensures none { result.seen.items ≡ [] }
    {
        WatchedSource {
            alloc,
            bytes,
            at: 0,
            most,
            seen: Vec::new(alloc),
            faults: 0,
        }
    }

    /// Returns what it saw, first to last.
    pub fn seen(&self) -> &[Seen]
        ensures { result.now ≡ self.now.seen.items }
    {
        &self.seen
    }
}

// Returns how many bytes a call gives.
fn size_of_call(left: usize, most: usize, room: usize) -> usize
    ensures left { result ≤ left }
    ensures room { result ≤ room }
    ensures some { 0 < left → 0 < most → 0 < room → 0 < result }
{
    let size = if left < most { left } else { most };
    if size < room { size } else { room }
}

// Copies the first `n` bytes that are left to the front of `into`.
fn give(left: &[u8], n: usize, into: &mut [u8])
    requires from { n ≤ length left.now }
    requires to { n ≤ length into.old }
    ensures { take n into.new ≡ take n left.now }
{
    into[..n].copy_from_slice(&left[..n]);
}

impl Peer<MemSink> for WatchedSource {
    ghost left = { λ s. Some (drop s.at s.bytes) };

    ghost faults = { λ s. s.faults };

    ghost was_asked = { λ s l o. WasSeen s.bytes s.seen.items l o };

    fn ask(&mut self, sink: &MemSink, into: &mut [u8]) -> Result<usize, ReadFailed>
        requires { 0 < length into.old }
        ensures bound { ReadsAtMost result into.new }
        ensures bytes { ReadConsumes (Some (drop self.old.at self.old.bytes))
            (Some (drop self.new.at self.new.bytes)) result into.new }
        ensures cause { HasCause self.old.faults self.new.faults result }
        ensures asked { AskedOnlyWhen (λ l o. (l ≡ Some (drop self.old.at self.old.bytes))
            × (o ≡ Some sink.now.taken))
            (WasSeen self.old.bytes self.old.seen.items)
            (WasSeen self.new.bytes self.new.seen.items) }

        // It keeps what it saw.
        ensures told { OnOk result (WasSeen self.new.bytes self.new.seen.items
            (Some (drop self.old.at self.old.bytes)) (Some sink.now.taken)) }
    {
        let Ok(out) = Text::from_slice(self.alloc, sink.written()) else {
            self.faults = self.faults.saturating_add(1);
            return Err(ReadFailed);
        };
        match self.seen.push(Seen { at: self.at, out }) {
            Ok(()) => {}
            Err(_) => {
                self.faults = self.faults.saturating_add(1);
                return Err(ReadFailed);
            }
        }
        let left = &self.bytes.as_slice()[self.at..];
        let n = size_of_call(left.len(), self.most, into.len());
        give(left, n, into);
        self.at += n;
        Ok(n)
    }
}

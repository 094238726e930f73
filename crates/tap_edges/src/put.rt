//! Puts the bytes of a reply piece by piece.
ghost use Rattle.tap_edges.specs.Puts.{PutBehind};

use crate::edges::{PutFailed, Sink};

/// Puts bytes behind the first `start` bytes of a reply, and returns how many bytes of the reply
/// are put then. An error gives the same number, of those that were put. It takes no memory.
pub fn put_next<K: Sink>(sink: &mut K, start: usize, bytes: &[u8]) -> Result<usize, PutFailed>
    ensures { PutBehind K.Sink start bytes.now sink.old sink.new result }
{
    match sink.put(bytes) {
        Ok(()) => Ok(start.saturating_add(bytes.len())),
        Err(failed) => Err(PutFailed {
            out: start.saturating_add(failed.out),
        }),
    }
}

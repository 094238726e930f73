//! Tests of the adapters over readers and writers that fail, take nothing, are interrupted, or take
//! one byte a call, and of a source in memory.

use std::io;
use std::io::ErrorKind;
use std::test::Fail;
use tap_base::{Memory, Text};
use tap_edges::{PutFailed, ReadFailed, Sink, Source, StdSink, StdSource, SureSource, put_next};

// What a call of the fake reader or writer does.
#[derive(Clone, Copy, Debug, PartialEq, Eq)]
enum Call {
    OneByte,
    Nothing,
    Interrupted,
    Broken,
}

// The call of this number, of a plan that ends with broken calls.
fn planned(plan: &[Call], at: usize) -> Call {
    match plan.get(at) {
        Some(call) => *call,
        None => Call::Broken,
    }
}

// A reader of `x` over and over, whose calls go by a plan.
#[derive(Drop)]
struct PlannedReader {
    plan: Vec<Call>,
    calls: usize,
}

impl io::Read for PlannedReader {
    fn read(&mut self, into: &mut [u8]) -> io::Result<usize> {
        let call = planned(&self.plan, self.calls);
        self.calls = self.calls.saturating_add(1);
        match call {
            Call::Interrupted => Err(io::Error::from(ErrorKind::Interrupted)),
            Call::Broken => Err(io::Error::from(ErrorKind::BrokenPipe)),
            Call::Nothing => Ok(0),
            Call::OneByte => {
                if into.is_empty() {
                    return Ok(0);
                }
                into[0] = b'x';
                Ok(1)
            }
        }
    }
}

// A writer whose calls go by a plan.
#[derive(Drop)]
struct PlannedWriter {
    plan: Vec<Call>,
    calls: usize,
}

impl io::Write for PlannedWriter {
    fn write(&mut self, from: &[u8]) -> io::Result<usize> {
        let call = planned(&self.plan, self.calls);
        self.calls = self.calls.saturating_add(1);
        match call {
            Call::Interrupted => Err(io::Error::from(ErrorKind::Interrupted)),
            Call::Broken => Err(io::Error::from(ErrorKind::BrokenPipe)),
            Call::Nothing => Ok(0),
            Call::OneByte => Ok(from.len().min(1)),
        }
    }

    fn flush(&mut self) -> io::Result<()> {
        let call = planned(&self.plan, self.calls);
        self.calls = self.calls.saturating_add(1);
        match call {
            Call::Interrupted => Err(io::Error::from(ErrorKind::Interrupted)),
            Call::Broken => Err(io::Error::from(ErrorKind::BrokenPipe)),
            Call::Nothing | Call::OneByte => Ok(()),
        }
    }
}

#[test]
fn an_interrupted_read_is_tried_again(rt: HostRuntime) -> Result<(), Fail> {
    let plan = Vec::from_slice(
        rt.alloc(),
        &[
            Call::OneByte,
            Call::Interrupted,
            Call::Interrupted,
            Call::OneByte,
            Call::Nothing,
            Call::Interrupted,
        ],
    )?;
    let mut source = StdSource::new(PlannedReader { plan, calls: 0 });
    let mut into = [0u8; 2];
    assert_eq!(rt; source.piece(into.as_mut_slice()), Ok(1));
    assert_eq!(rt; source.piece(into.as_mut_slice()), Ok(1));
    assert_eq!(rt; into[0], b'x');
    // the end of the input
    assert_eq!(rt; source.piece(into.as_mut_slice()), Ok(0));
    // an interrupted call, and then a broken one
    assert_eq!(rt; source.piece(into.as_mut_slice()), Err(ReadFailed));
    Ok(())
}

#[test]
fn an_interrupted_write_is_tried_again(rt: HostRuntime) -> Result<(), Fail> {
    let plan = Vec::from_slice(
        rt.alloc(),
        &[
            // two bytes, one a call, and a flush
            Call::OneByte,
            Call::Interrupted,
            Call::OneByte,
            Call::Interrupted,
            Call::Nothing,
            // one byte, and a writer that takes nothing
            Call::OneByte,
            Call::Nothing,
            // two bytes, and a flush that fails
            Call::OneByte,
            Call::OneByte,
            Call::Broken,
            // a write that fails
            Call::Interrupted,
            Call::Broken,
        ],
    )?;
    let mut sink = StdSink::new(PlannedWriter { plan, calls: 0 });
    assert_eq!(rt; sink.put(b"ab"), Ok(()));
    assert_eq!(rt; sink.put(b"ab"), Err(PutFailed { out: 1 }));
    assert_eq!(rt; sink.put(b"ab"), Err(PutFailed { out: 2 }));
    assert_eq!(rt; sink.put(b"ab"), Err(PutFailed { out: 0 }));
    Ok(())
}

#[test]
fn the_next_put_counts_the_bytes_before(rt: HostRuntime) -> Result<(), Fail> {
    let plan = Vec::from_slice(
        rt.alloc(),
        &[
            // two bytes, one a call, and a flush
            Call::OneByte,
            Call::OneByte,
            Call::Nothing,
            // one byte, and a write that fails
            Call::OneByte,
            Call::Broken,
        ],
    )?;
    let mut sink = StdSink::new(PlannedWriter { plan, calls: 0 });
    assert_eq!(rt; put_next(&mut sink, 7, b"ab"), Ok(9));
    assert_eq!(rt; put_next(&mut sink, 9, b"ab"), Err(PutFailed { out: 10 }));
    Ok(())
}

#[test]
fn a_sure_source_gives_what_fits(rt: HostRuntime) -> Result<(), Memory> {
    let mut source = SureSource::new(Text::from_slice(rt.alloc(), b"abc")?);
    let mut into = [0u8; 2];
    assert_eq!(rt; source.piece(into.as_mut_slice()), Ok(2));
    assert_eq!(rt; into.as_slice(), b"ab".as_slice());
    assert_eq!(rt; source.piece(into.as_mut_slice()), Ok(1));
    assert_eq!(rt; into[0], b'c');
    assert_eq!(rt; source.piece(into.as_mut_slice()), Ok(0));
    Ok(())
}

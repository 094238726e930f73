//! POP3 sessions over a store in memory: the worked session, in pieces of each size, and each way
//! in which none begins.

ghost use Rattle.std.specs.List.{All};
ghost use Rattle.std.specs.Str.{IsUtf8};
ghost use Rattle.tap_base.specs.Ledgers.{IsBlankOf};
ghost use Rattle.keeper_core.specs.States.{IsFreeInMemory};

use keeper_core::MemKeeper;
use pop_box::serve;
use session_runs::{edges_of, tables_after, words_in};
use std::alloc::Global;
use std::marker::Brand;
use std::sync::ledger::{Blank, Ledger};
use tap_base::{HashKey, Memory, Steps, Text, Texts};
use tap_edges::{MemSink, MemSource};

// The commands that leave the store of the worked session: two letters, of which the second has a
// line that begins with a dot.
const STORE: &[u8] =
    b"as ann\nat 100\nquery all TRUE\nmail\nSubject: hi\n\n.\nat 101\nmail\nSubject: dots\n\n..a\n\
    .\nat 200\nrun all\n";

const REQUESTS: &[u8] =
    b"USER ann\r\nPASS no\r\nSTAT\r\nuser ann\r\nPASS pw\r\nSTAT\r\nLIST 2\r\nUIDL\r\nRETR 2\r\n\
    DELE 1\r\nRETR 3\r\nTOP 1 0\r\nQUIT\r\n";

const REPLIES: &[u8] =
    b"+OK tapestry\r\n+OK\r\n-ERR denied\r\n-ERR state\r\n+OK\r\n+OK\r\n+OK 2 36\r\n+OK 2 21\r\n\
    +OK\r\n1 d1\r\n2 d2\r\n\
      .\r\n+OK 21\r\nSubject: dots\r\n\r\n..a\r\n.\r\n-ERR kept\r\n-ERR message\r\n\
      -ERR unknown\r\n+OK\r\n";

// Serves with the counter of a blank; returns the status.
fn serve_with<L: Ledger>(
    alloc: Global,
    blank: Blank,
    words: &Texts,
    source: &mut MemSource,
    sink: &mut MemSink,
    keeper: &mut MemKeeper,
) -> u8
    requires blank { IsBlankOf L.name L.parts blank }
    requires texts { All IsUtf8 words.now }
    requires free { IsFreeInMemory keeper.old }
{
    let mut steps = Steps::<L>::start(blank);
    serve(
        alloc,
        HashKey::fixed(),
        words,
        source,
        sink,
        keeper,
        &mut steps,
    )
}

// Serves over a keeper; returns the status and what was written.
fn serve_over(
    alloc: Global,
    words: &Texts,
    mut source: MemSource,
    mut sink: MemSink,
    keeper: &mut MemKeeper,
) -> Result<(u8, Text), Memory>
    requires texts { All IsUtf8 words.now }
    requires free { IsFreeInMemory keeper.old }
{
    let status = serve_with::<Brand>(alloc, Blank::new(1), words, &mut source, &mut sink, keeper);
    let written = Text::from_slice(alloc, sink.written());
    drop(source);
    drop(sink);
    Ok((status, written?))
}

// Serves the requests in pieces of `size` bytes over a keeper; returns the status and what was
// written.
fn serve_requests(
    alloc: Global,
    words: &Texts,
    requests: &[u8],
    size: usize,
    keeper: &mut MemKeeper,
) -> Result<(u8, Text), Memory>
    requires texts { All IsUtf8 words.now }
    requires free { IsFreeInMemory keeper.old }
{
    let (source, sink) = edges_of(
        alloc,
        requests,
        size,
        Vec::new(alloc),
        4096,
        Vec::new(alloc),
    )?;
    serve_over(alloc, words, source, sink, keeper)
}

// Serves the requests in pieces of `size` bytes over the store; returns the status and what was
// written.
fn serve_store(
    alloc: Global,
    words: &Texts,
    requests: &[u8],
    size: usize,
) -> Result<(u8, Text), Memory>
    requires texts { All IsUtf8 words.now }
{
    let mut keeper = MemKeeper::new(alloc, tables_after(alloc, STORE)?, 2, Vec::new(alloc));
    let ended = serve_requests(alloc, words, requests, size, &mut keeper);
    drop(keeper);
    ended
}

// Serves with the words of a line.
fn served(alloc: Global, line: &str, requests: &[u8], size: usize) -> Result<(u8, Text), Memory> {
    let words = words_in(alloc, line)?;
    let ended = serve_store(alloc, &words, requests, size);
    drop(words);
    ended
}

#[test]
fn a_session_is_answered_in_pieces_of_any_size(rt: HostRuntime) -> Result<(), Memory> {
    let sizes: [usize; 3] = [4096, 1, 7];
    for size in sizes {
        let line = "--user ann --box all --pass pw";
        let (status, written) = served(rt.alloc(), line, REQUESTS, size)?;
        assert_eq!(rt; status, 0);
        assert_eq!(rt; written.as_slice(), REPLIES);
        drop(written);
    }
    Ok(())
}

#[test]
fn each_end_has_its_status(rt: HostRuntime) -> Result<(), Memory> {
    let rows: [(&str, u8, &[u8]); 5] = [
        ("--user ann --box all --pass pw", 1, b"+OK tapestry\r\n"),
        ("--pass pw --box none --user ann", 9, b"-ERR box\r\n"),
        ("--user Ann --box all --pass pw", 9, b"-ERR box\r\n"),
        ("--user ann --box all", 2, b""),
        ("--user ann --box all --pass pw --user bob", 2, b""),
    ];
    for (line, want, bytes) in rows {
        let (status, written) = served(rt.alloc(), line, b"", 4096)?;
        assert_eq!(rt; status, want);
        assert_eq!(rt; written.as_slice(), bytes);
        drop(written);
    }
    Ok(())
}

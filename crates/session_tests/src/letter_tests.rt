//! POP3 sessions over letters.

ghost use Rattle.std.specs.Prelude.{◌≡◌, ◌<◌, ◌≤◌, length, IfOk};
ghost use Rattle.pop_session.specs.Sessions.{AreShort, CanTakeBytes};

use pop_session::{Letter, PopSession};
use std::alloc::Global;
use tap_base::{DocNum, Memory, Text};
use tap_edges::{MemSink, PutPlan};

fn letter(doc: u32, text: Text) -> Letter
    ensures { result.text ≡ text }
{
    Letter {
        doc: DocNum(doc),
        text,
    }
}

// Returns two letters, of the documents 1 and 20. A line of the second begins with a dot.
fn letters(alloc: Global) -> Result<Vec<Letter>, Memory>
    ensures { IfOk result (λ letters. AreShort letters.items) }
{
    let first = Text::from_slice(alloc, b"Subject: hi\n\n")?;
    let second = Text::from_slice(alloc, b"Subject: dots\n\n.a\n")?;
    Ok(vec![in alloc; letter(1, first), letter(20, second)]?)
}

// Gives the bytes to the session in pieces of this size. Returns whether it accepted a QUIT, or how
// many bytes a put that failed, and the puts of its call before it, put.
fn give(
    session: &mut PopSession,
    bytes: &[u8],
    size: usize,
    sink: &mut MemSink,
) -> Result<bool, usize>
    requires ready { CanTakeBytes session.old }
    requires some { 0 < size }
{
    let mut rest = bytes;
    'pieces: while !rest.is_empty() {
        let len = if size < rest.len() { size } else { rest.len() };
        match session.take(&rest[..len], sink) {
            Ok(false) => rest = &rest[len..],
            Ok(true) => return Ok(true),
            Err(failed) => return Err(failed.out),
        }
    }
    Ok(false)
}

// Greets, and gives the bytes to a session over these letters; returns what `give` does, or nothing
// if the greeting failed.
fn serve(
    letters: &[Letter],
    bytes: &[u8],
    size: usize,
    sink: &mut MemSink,
) -> Option<Result<bool, usize>>
    requires letters { AreShort letters.now }
    requires some { 0 < size }
{
    let mut session = PopSession::new(b"ann", b"pw", letters);
    match session.greet(sink) {
        Ok(()) => Some(give(&mut session, bytes, size, sink)),
        Err(_) => None,
    }
}

// Serves the two letters.
fn serve_letters(
    alloc: Global,
    bytes: &[u8],
    size: usize,
    sink: &mut MemSink,
) -> Result<Option<Result<bool, usize>>, Memory>
    requires some { 0 < size }
{
    let letters = letters(alloc)?;
    let end = serve(&letters, bytes, size, sink);
    drop(letters);
    Ok(end)
}

// Returns what was put, and then how the session ended.
fn with_end(alloc: Global, put: &[u8], end: &[u8]) -> Result<Text, Memory> {
    let mut text = Text::from_slice(alloc, put)?;
    match text.push_slice(end) {
        Ok(()) => Ok(text),
        Err(Memory) => {
            drop(text);
            Err(Memory)
        }
    }
}

// Returns what a session over the two letters puts for these bytes in pieces of this size. `quit`
// follows if it accepted a QUIT, and `failed` if a put failed.
fn run(alloc: Global, bytes: &[u8], size: usize, fails: Vec<PutPlan>) -> Result<Text, Memory>
    requires some { 0 < size }
{
    let mut sink = MemSink::new(alloc, 4096, fails)?;
    let text = match serve_letters(alloc, bytes, size, &mut sink) {
        Ok(None) => Text::from_slice(alloc, b"no greeting"),
        Ok(Some(Ok(true))) => with_end(alloc, sink.written(), b"quit"),
        Ok(Some(Ok(false))) => with_end(alloc, sink.written(), b""),
        Ok(Some(Err(_))) => with_end(alloc, sink.written(), b"failed"),
        Err(Memory) => Err(Memory),
    };
    drop(sink);
    text
}

// Returns what a session over the two letters puts.
fn shown(alloc: Global, bytes: &[u8], size: usize) -> Result<Text, Memory>
    requires some { 0 < size }
{
    run(alloc, bytes, size, Vec::new(alloc))
}

#[test]
fn a_session_is_served(rt: HostRuntime) -> Result<(), Memory> {
    let bytes: &[u8] =
        b"USER ann\r\nPASS no\r\nSTAT\r\nuser ann\r\nPASS pw\r\nSTAT\r\nLIST 2\r\nUIDL\r\n\
        RETR 2\r\nDELE 1\r\nRETR 3\r\nTOP 1 0\r\nQUIT\r\nSTAT\r\n";
    let want: &[u8] =
        b"+OK tapestry\r\n+OK\r\n-ERR denied\r\n-ERR state\r\n+OK\r\n+OK\r\n+OK 2 36\r\n\
        +OK 2 21\r\n+OK\r\n1 d1\r\n\
          2 d20\r\n.\r\n+OK 21\r\nSubject: dots\r\n\r\n..a\r\n.\r\n-ERR kept\r\n-ERR message\r\n\
          -ERR unknown\r\n+OK\r\n\
          quit";
    let sizes: [usize; 4] = [1, 2, 7, 4096];
    for size in sizes {
        if size > 0 {
            let text = shown(rt.alloc(), bytes, size)?;
            assert_eq!(rt; text.as_slice(), want);
            drop(text);
        }
    }
    Ok(())
}

#[test]
fn requests_are_checked_in_order(rt: HostRuntime) -> Result<(), Memory> {
    let rows: [(&[u8], &[u8]); 14] = [
        // no request; a last line without an LF isn't one
        (b"", b""),
        (b"QUIT", b""),
        (b"QUIT\n", b"+OK\r\nquit"),
        // no keyword, an unknown one, one that isn't allowed, a wrong form
        (
            b"\r\n \nHELO\n",
            b"-ERR unknown\r\n-ERR unknown\r\n-ERR unknown\r\n",
        ),
        (
            b"PASS pw\nRETR\nNOOP 1\n",
            b"-ERR state\r\n-ERR state\r\n-ERR state\r\n",
        ),
        (
            b"USER\nUSER a b\nQUIT now\n",
            b"-ERR form\r\n-ERR form\r\n-ERR form\r\n",
        ),
        // PASS comes directly after an accepted USER
        (
            b"USER ann\nUSER a b\nPASS pw\n",
            b"+OK\r\n-ERR form\r\n-ERR state\r\n",
        ),
        (
            b"USER bob\nPASS pw\nPASS pw\n",
            b"+OK\r\n-ERR denied\r\n-ERR state\r\n",
        ),
        // the secret is all bytes after one blank
        (
            b"USER ann\nPASS  pw\nUSER ann\nPASS pw \n",
            b"+OK\r\n-ERR denied\r\n+OK\r\n-ERR denied\r\n",
        ),
        (b"USER ann\nPASS \n", b"+OK\r\n-ERR form\r\n"),
        (
            b" \tUSER\tann \nPASS\tpw\nUSER ann\n",
            b"+OK\r\n+OK\r\n-ERR state\r\n",
        ),
        // numbers have 1 to 10 digits; no letter is deleted
        (
            b"USER ann\nPASS pw\nRETR 9999999999\nLIST 00000000001\nDELE 0\nDELE x\n",
            b"+OK\r\n+OK\r\n-ERR message\r\n-ERR form\r\n-ERR kept\r\n-ERR form\r\n",
        ),
        (
            b"USER ann\nPASS pw\nlist\nLIST 1 2\nuidl 2\nUIDL 0\n",
            b"+OK\r\n+OK\r\n+OK 2\r\n1 15\r\n2 21\r\n.\r\n-ERR form\r\n+OK 2 d20\r\n\
            -ERR message\r\n",
        ),
        (
            b"USER ann\nPASS pw\nRSET\nnoop\nSTAT 1\n",
            b"+OK\r\n+OK\r\n+OK\r\n+OK\r\n-ERR form\r\n",
        ),
    ];
    for (bytes, want) in rows {
        let text = shown(rt.alloc(), bytes, 3)?;
        assert_eq!(rt;
            text.as_slice().strip_prefix(b"+OK tapestry\r\n".as_slice()),
            Some(want)
        );
        drop(text);
    }
    Ok(())
}

// Appends a request of QUIT, as many blanks as make it this long, and an end.
fn push_request(request: &mut Text, len: usize, end: &[u8]) -> Result<(), Memory> {
    request.push_slice(b"QUIT")?;
    for _ in 4..len {
        request.push_slice(b" ")?;
    }
    request.push_slice(end)
}

// Returns what a session puts for such a request.
fn of_length(alloc: Global, len: usize, end: &[u8]) -> Result<Text, Memory> {
    let mut request = Text::new(alloc);
    let text = match push_request(&mut request, len, end) {
        Ok(()) => shown(alloc, request.as_slice(), 100),
        Err(Memory) => Err(Memory),
    };
    drop(request);
    text
}

#[test]
fn a_request_has_at_most_512_bytes(rt: HostRuntime) -> Result<(), Memory> {
    let rows: [(usize, &[u8], &[u8]); 5] = [
        (512, b"\n", b"+OK tapestry\r\n+OK\r\nquit"),
        (511, b"\r\n", b"+OK tapestry\r\n+OK\r\nquit"),
        (512, b"\r\n", b"+OK tapestry\r\n-ERR long\r\n"),
        (513, b"\n", b"+OK tapestry\r\n-ERR long\r\n"),
        (
            2000,
            b"\nQUIT\n",
            b"+OK tapestry\r\n-ERR long\r\n+OK\r\nquit",
        ),
    ];
    for (len, end, want) in rows {
        let text = of_length(rt.alloc(), len, end)?;
        assert_eq!(rt; text.as_slice(), want);
        drop(text);
    }
    Ok(())
}

// Returns what a session puts where the put of this number fails after two bytes.
fn shown_until(alloc: Global, call: u64) -> Result<Text, Memory> {
    let fails = vec![in alloc; PutPlan { call, out: 2 }]?;
    run(alloc, b"USER ann\nPASS pw\nUIDL\n", 100, fails)
}

#[test]
fn a_failed_put_ends_the_session(rt: HostRuntime) -> Result<(), Memory> {
    let rows: [(u64, &[u8]); 4] = [
        (0, b"no greeting"),
        (1, b"+OK tapestry\r\n+Ofailed"),
        (4, b"+OK tapestry\r\n+OK\r\n+OK\r\n+OK\r\n1 failed"),
        (
            50,
            b"+OK tapestry\r\n+OK\r\n+OK\r\n+OK\r\n1 d1\r\n2 d20\r\n.\r\n",
        ),
    ];
    for (call, want) in rows {
        let text = shown_until(rt.alloc(), call)?;
        assert_eq!(rt; text.as_slice(), want);
        drop(text);
    }
    Ok(())
}

// Returns how a session ends whose fifth put fails after two bytes.
fn end_at_fifth(alloc: Global) -> Result<Option<Result<bool, usize>>, Memory> {
    let fails = vec![in alloc; PutPlan { call: 4, out: 2 }]?;
    let mut sink = MemSink::new(alloc, 4096, fails)?;
    let end = serve_letters(alloc, b"USER ann\nPASS pw\nUIDL\n", 100, &mut sink);
    drop(sink);
    end
}

#[test]
fn a_failed_put_counts_the_bytes_of_its_call(rt: HostRuntime) -> Result<(), Memory> {
    assert_eq!(rt; end_at_fifth(rt.alloc())?, Some(Err(17)));
    Ok(())
}

//! Each limit of a size, of a name, of a moment and of a user's queries, and one past it.

use session_runs::{answers, push_number};
use std::alloc::Global;
use tap_base::{Memory, Text};

// Appends a head, a byte so often, and an end.
fn push_part(
    alloc: Global,
    script: &mut Text,
    head: &[u8],
    byte: u8,
    times: usize,
    end: &[u8],
) -> Result<(), Memory> {
    let bytes = vec![in alloc; byte; times]?;
    script.push_slice(head)?;
    script.push_slice(bytes.as_slice())?;
    script.push_slice(end)
}

// Appends such parts.
fn push_parts(
    alloc: Global,
    script: &mut Text,
    parts: &[(&[u8], u8, usize, &[u8])],
) -> Result<(), Memory> {
    for (head, byte, times, end) in parts {
        push_part(alloc, script, head, *byte, *times, end)?;
    }
    Ok(())
}

// Runs a script of such parts; returns the status and what was written.
fn answers_to(alloc: Global, parts: &[(&[u8], u8, usize, &[u8])]) -> Result<(u8, Text), Memory> {
    let mut script = Text::new(alloc);
    let ended = match push_parts(alloc, &mut script, parts) {
        Ok(()) => answers(alloc, script.as_slice(), 65536),
        Err(Memory) => Err(Memory),
    };
    drop(script);
    ended
}

#[test]
fn a_line_has_at_most_1048576_bytes(rt: HostRuntime) -> Result<(), Memory> {
    let parts: [(&[u8], u8, usize, &[u8]); 7] = [
        (b"#", b'x', 1048575, b"\n"),
        (b"#", b'x', 1048576, b"\n"),
        (b"at 1", b' ', 1048572, b"\n"),
        (b"at 2", b' ', 1048573, b"\n"),
        // a CR counts
        (b"at 3", b' ', 1048571, b"\r\n"),
        (b"at 4", b' ', 1048572, b"\r\n"),
        // so does a line that the end cuts off
        (b"at 5", b' ', 1048573, b""),
    ];
    let (status, written) = answers_to(rt.alloc(), &parts)?;
    let want = b"no 16 line\nok 0 at 1\nno 16 line\nok 0 at 3\nno 16 line\nno 16 line\n";
    assert_eq!(rt; status, 1);
    assert_eq!(rt; written.as_slice(), want.as_slice());
    drop(written);
    Ok(())
}

#[test]
fn a_message_has_at_most_1048576_bytes(rt: HostRuntime) -> Result<(), Memory> {
    let parts: [(&[u8], u8, usize, &[u8]); 7] = [
        (b"at 1\nmail\n\n", b' ', 1048574, b"\n.\n"),
        (b"mail\n\n", b' ', 1048575, b"\n.\n"),
        // the dot that a line begins with is no byte of the message
        (b"mail\n.", b' ', 1048575, b"\n.\n"),
        // a line that is too long by itself
        (b"mail\n", b' ', 1048577, b"\n.\n"),
        (b"mbox\nFrom a\n\n", b' ', 1048574, b"\n.\n"),
        // the second message is too long, and so the first isn't added
        (b"mbox\nFrom a\n\nFrom b\n\n", b' ', 1048575, b"\n.\n"),
        (b"at 2\nask 1 TRUE\nask 1 m.size = 1048576", b' ', 0, b"\n"),
    ];
    let (status, written) = answers_to(rt.alloc(), &parts)?;
    let want = b"ok 0 at 1\nok 0 doc 1\nno 16 message\nok 0 doc 2\nno 16 message\nok 0 docs 1 3\n\
        no 16 message\nok 0 at 2\n\
          ok 3 ask 1\ndoc 1\ndoc 2\ndoc 3\nok 3 ask 1\ndoc 1\ndoc 2\ndoc 3\n";
    assert_eq!(rt; status, 1);
    assert_eq!(rt; written.as_slice(), want.as_slice());
    drop(written);
    Ok(())
}

// Appends a mailbox file: 15 lines of 1,048,576 bytes, one of that many blanks, and a last one that
// begins a message.
fn push_mbox(alloc: Global, script: &mut Text, blanks: usize) -> Result<(), Memory> {
    script.push_slice(b"mbox\n")?;
    for _ in 0..15 {
        push_part(alloc, script, b"", b' ', 1048575, b"\n")?;
    }
    push_part(alloc, script, b"", b' ', blanks, b"\n\nFrom a\n.\n")
}

// Runs a script of two such files; returns the status and what was written.
fn answers_to_files(alloc: Global, first: usize, second: usize) -> Result<(u8, Text), Memory> {
    let mut script = Text::from_slice(alloc, b"at 1\n")?;
    let pushed = push_mbox(alloc, &mut script, first);
    let more = push_mbox(alloc, &mut script, second);
    let ended = if pushed.is_ok() && more.is_ok() {
        answers(alloc, script.as_slice(), 65536)
    } else {
        Err(Memory)
    };
    drop(script);
    ended
}

#[test]
fn a_mailbox_file_has_at_most_16777216_bytes(rt: HostRuntime) -> Result<(), Memory> {
    let (status, written) = answers_to_files(rt.alloc(), 1048567, 1048568)?;
    assert_eq!(rt; status, 1);
    let want = b"ok 0 at 1\nok 0 docs 1 1\nno 16 block\n";
    assert_eq!(rt; written.as_slice(), want.as_slice());
    drop(written);
    Ok(())
}

#[test]
fn a_filter_has_at_most_65536_bytes_and_4096_a_rule(rt: HostRuntime) -> Result<(), Memory> {
    let parts: [(&[u8], u8, usize, &[u8]); 5] = [
        (
            b"as ann\nat 1\nfilter\nWHEN TRUE PRIORITY 1 CLASS 'a'\n#",
            b'x',
            65503,
            b"\n.\n",
        ),
        (
            b"filter\nWHEN TRUE PRIORITY 1 CLASS 'a'\n#",
            b'x',
            65504,
            b"\n.\n",
        ),
        // a line that is too long by itself
        (b"filter\n#", b'x', 1048576, b"\n.\n"),
        (
            b"filter\n#\nWHEN TRUE PRIORITY 1 CLASS 'a'",
            b' ',
            4066,
            b"\n.\n",
        ),
        (
            b"filter\n#\nWHEN TRUE PRIORITY 1 CLASS 'a'",
            b' ',
            4067,
            b"\n.\n",
        ),
    ];
    let (status, written) = answers_to(rt.alloc(), &parts)?;
    let want = b"ok 0 as ann\nok 0 at 1\nok 0 filter 1\nno 16 block\nno 16 block\nok 0 filter 1\n\
        no 17 2 4096\n";
    assert_eq!(rt; status, 1);
    assert_eq!(rt; written.as_slice(), want.as_slice());
    drop(written);
    Ok(())
}

#[test]
fn a_note_has_at_most_4096_bytes(rt: HostRuntime) -> Result<(), Memory> {
    let parts: [(&[u8], u8, usize, &[u8]); 3] = [
        (b"as ann\nat 1\nmail\n.\nnote 1 k 1 ", b'x', 4096, b"\n"),
        (b"note 1 k 1 ", b'x', 4097, b"\n"),
        (b"note 1 k 1", b' ', 4097, b"\n"),
    ];
    let (status, written) = answers_to(rt.alloc(), &parts)?;
    let want = b"ok 0 as ann\nok 0 at 1\nok 0 doc 1\nok 0 note 1\nno 16 note\nok 0 note 2\n";
    assert_eq!(rt; status, 1);
    assert_eq!(rt; written.as_slice(), want.as_slice());
    drop(written);
    Ok(())
}

#[test]
fn a_name_has_at_most_32_letters(rt: HostRuntime) -> Result<(), Memory> {
    let parts: [(&[u8], u8, usize, &[u8]); 22] = [
        (b"as ", b'u', 33, b"\n"),
        (b"as ", b'u', 32, b"\nat 1\nmail\n.\n"),
        (b"note 1 ", b'k', 33, b" 1\n"),
        (b"note 1 ", b'k', 32, b" 1\n"),
        (b"query ", b'q', 33, b" TRUE\n"),
        (b"query ", b'q', 32, b" TRUE\n"),
        (b"filter\nWHEN TRUE PRIORITY 1 CLASS '", b'c', 33, b"'\n.\n"),
        (b"filter\nWHEN TRUE PRIORITY 1 CLASS '", b'c', 32, b"'\n.\n"),
        (b"wake ", b'q', 33, b"\n"),
        (b"wake ", b'q', 32, b"\n"),
        (b"run ", b'q', 33, b"\n"),
        (b"at 2\nrun ", b'q', 32, b"\n"),
        (b"box ", b'q', 33, b"\n"),
        (b"box ", b'q', 32, b"\n"),
        (b"list ", b'q', 33, b"\n"),
        (b"list ", b'q', 32, b"\n"),
        (b"explain ", b'q', 33, b"\n"),
        (b"explain ", b'q', 32, b"\n"),
        (b"scores ", b'k', 33, b"\n"),
        (b"scores ", b'k', 32, b"\n"),
        (b"digest ", b'q', 33, b" 1\n"),
        (b"digest ", b'q', 32, b" 1\n"),
    ];
    let (status, written) = answers_to(rt.alloc(), &parts)?;
    let want = b"no 8\nok 0 as uuuuuuuuuuuuuuuuuuuuuuuuuuuuuuuu\nok 0 at 1\nok 0 doc 1\nno 8\n\
        ok 0 note 1\n\
          no 8\nok 0 query qqqqqqqqqqqqqqqqqqqqqqqqqqqqqqqq\nno 17 1 27\nok 0 filter 1\n\
          no 8\nok 0 wake qqqqqqqqqqqqqqqqqqqqqqqqqqqqqqqq 2\nno 8\nok 0 at 2\n\
          ok 1 run 1 before 2\ndoc 1 first 1\n\
          no 8\nok 1 box qqqqqqqqqqqqqqqqqqqqqqqqqqqqqqqq\ndoc 1 first 1 run 1\n\
          no 8\nok 1 list qqqqqqqqqqqqqqqqqqqqqqqqqqqqqqqq\n\
          doc 1 first 1 run 1 priority 1 class cccccccccccccccccccccccccccccccc\n\
          no 8\nok 1 explain qqqqqqqqqqqqqqqqqqqqqqqqqqqqqqqq\nOVER m: DOC AT m.ts WHERE TRUE\n\
          no 8\nok 1 scores kkkkkkkkkkkkkkkkkkkkkkkkkkkkkkkk\ndoc 1 voters 1 sum 1\n\
          no 8\nok 5 digest qqqqqqqqqqqqqqqqqqqqqqqqqqqqqqqq 1\nFrom: tapestry\n\
          Subject: digest qqqqqqqqqqqqqqqqqqqqqqqqqqqqqqqq 1\n\nFrom doc 1 first 1\n\n";
    assert_eq!(rt; status, 1);
    assert_eq!(rt; written.as_slice(), want.as_slice());
    drop(written);
    Ok(())
}

#[test]
fn the_last_moment_is_250000000000(rt: HostRuntime) -> Result<(), Memory> {
    let script =
        b"at 250000000001\nat 9892-03-08T12:26:41Z\nat 0250000000000\nask 250000000001 TRUE\n\
          at 250000000000\nat 9892-03-08T12:26:40Z\nat 250000000001\nat 249999999999\nas ann\n\
          mail\n.\nquery q TRUE\n\
          run q\nwake q\nask 249999999999 TRUE\nask 250000000000 TRUE\nask 250000000001 TRUE\n";
    let (status, written) = answers(rt.alloc(), script.as_slice(), 64)?;
    let want = b"no 4\nno 4\nno 4\nno 4\nok 0 at 250000000000\nok 0 at 250000000000\nno 4\n\
        no 5 250000000000\n\
          ok 0 as ann\nok 0 doc 1\nok 0 query q\nok 0 run 1 before 250000000000\n\
          ok 0 wake q never\n\
          ok 0 ask 249999999999\nno 15 250000000000\nno 4\n";
    assert_eq!(rt; status, 1);
    assert_eq!(rt; written.as_slice(), want.as_slice());
    drop(written);
    Ok(())
}

// Appends a script of 268,435,456 bytes: lines of 1,048,576 bytes without a command, and a command
// at its end.
fn push_script(alloc: Global, script: &mut Text) -> Result<(), Memory> {
    for _ in 0..255 {
        push_part(alloc, script, b"# ", b'x', 1048573, b"\n")?;
    }
    push_part(alloc, script, b"# ", b'x', 1048568, b"\nat 5\n")
}

// Runs that script with an end behind it; returns the status and what was written.
fn answers_to_script(alloc: Global, end: &[u8]) -> Result<(u8, Text), Memory> {
    let mut script = Text::new(alloc);
    let pushed = push_script(alloc, &mut script);
    let more = script.push_slice(end);
    let ended = if pushed.is_ok() && more.is_ok() {
        answers(alloc, script.as_slice(), 65536)
    } else {
        Err(Memory)
    };
    drop(script);
    ended
}

// It takes three seconds once it is proved, and more than a minute in the checked build.
#[test]
fn a_script_has_at_most_268435456_bytes(rt: HostRuntime) -> Result<(), Memory> {
    let alloc = rt.alloc();
    // what is complete in those bytes is performed
    let rows: [(&[u8], u8); 2] = [(b"", 0), (b"\n", 8)];
    for (end, want) in rows {
        let (status, written) = answers_to_script(alloc, end)?;
        assert_eq!(rt; status, want);
        assert_eq!(rt; written.as_slice(), b"ok 0 at 5\n".as_slice());
        drop(written);
    }
    Ok(())
}

// Appends 65 queries of a user, of another one, and a run.
fn push_queries(script: &mut Text) -> Result<(), Memory> {
    script.push_slice(b"as ann\nat 1\n")?;
    for k in 0..65 {
        script.push_slice(b"query q")?;
        push_number(script, k)?;
        script.push_slice(b" TRUE\n")?;
    }
    script.push_slice(b"run q63\nas bob\nquery q64 TRUE\n")
}

// Appends the replies to them.
fn push_replies(written: &mut Text) -> Result<(), Memory> {
    written.push_slice(b"ok 0 as ann\nok 0 at 1\n")?;
    for k in 0..64 {
        written.push_slice(b"ok 0 query q")?;
        push_number(written, k)?;
        written.push_slice(b"\n")?;
    }
    written.push_slice(b"no 16 queries\nok 0 run 1 before 1\nok 0 as bob\nok 0 query q64\n")
}

// Runs that script; returns the status and whether those are its replies.
fn queries_are_answered(alloc: Global) -> Result<(u8, bool), Memory> {
    let mut script = Text::new(alloc);
    push_queries(&mut script)?;
    let mut want = Text::new(alloc);
    push_replies(&mut want)?;
    let (status, written) = answers(alloc, script.as_slice(), 64)?;
    let same = written == want;
    drop(written);
    Ok((status, same))
}

#[test]
fn a_user_has_at_most_64_queries(rt: HostRuntime) -> Result<(), Memory> {
    let (status, same) = queries_are_answered(rt.alloc())?;
    assert_eq!(rt; status, 1);
    assert!(rt; same);
    Ok(())
}

//! A long script: it ends in time only if each run reads new rows alone.

use session_runs::{answers_within, push_line, push_number};
use std::alloc::Global;
use tap_base::{Memory, Text};

// How many messages and how many runs: so many that a run that reads all rows would not end in
// time.
const COUNT: u32 = 100000;

// Appends a moment and a run.
fn push_run(script: &mut Text, k: u32) -> Result<(), Memory> {
    script.push_slice(b"at ")?;
    push_number(script, k.saturating_add(1000))?;
    script.push_slice(b"\nrun q\n")
}

// Appends many messages that no query finds, and then a run in each second.
fn push_script(script: &mut Text) -> Result<(), Memory> {
    push_line(
        script,
        b"as ann\nat 1000\nquery q m.words HAS 'yo'\n",
        b"mail\nSubject: hi\n\n.\n",
        COUNT as usize,
        b"",
    )?;
    for k in 0..COUNT {
        push_run(script, k.saturating_add(1))?;
    }
    Ok(())
}

// Appends the answer to a message.
fn push_doc(written: &mut Text, k: u32) -> Result<(), Memory> {
    written.push_slice(b"ok 0 doc ")?;
    push_number(written, k)?;
    written.push_slice(b"\n")
}

// Appends the answers to a moment and a run.
fn push_ran(written: &mut Text, k: u32) -> Result<(), Memory> {
    written.push_slice(b"ok 0 at ")?;
    push_number(written, k.saturating_add(1000))?;
    written.push_slice(b"\nok 0 run ")?;
    push_number(written, k)?;
    written.push_slice(b" before ")?;
    push_number(written, k.saturating_add(1000))?;
    written.push_slice(b"\n")
}

// Appends the replies to the messages.
fn push_docs(written: &mut Text) -> Result<(), Memory> {
    written.push_slice(b"ok 0 as ann\nok 0 at 1000\nok 0 query q\n")?;
    for k in 0..COUNT {
        push_doc(written, k.saturating_add(1))?;
    }
    Ok(())
}

// Appends the replies to that script.
fn push_answer(written: &mut Text) -> Result<(), Memory> {
    push_docs(written)?;
    for k in 0..COUNT {
        push_ran(written, k.saturating_add(1))?;
    }
    Ok(())
}

// Runs that script; returns the status and what was written.
fn long_run(alloc: Global) -> Result<(u8, Text), Memory> {
    let mut script = Text::new(alloc);
    let ended = match push_script(&mut script) {
        Ok(()) => answers_within(alloc, script.as_slice(), 65536, 8388608),
        Err(Memory) => Err(Memory),
    };
    drop(script);
    ended
}

// Returns whether these are the replies to that script.
fn is_answer(alloc: Global, written: &Text) -> Result<bool, Memory> {
    let mut want = Text::new(alloc);
    let pushed = push_answer(&mut want);
    let same = written == &want
        && want
            .as_slice()
            .ends_with(b"\nok 0 run 100000 before 101000\n");
    drop(want);
    match pushed {
        Ok(()) => Ok(same),
        Err(Memory) => Err(Memory),
    }
}

// It ends in time only if a run reads new rows alone.
#[test]
fn runs_over_many_messages_end(rt: HostRuntime) -> Result<(), Memory> {
    let (status, written) = long_run(rt.alloc())?;
    let same = is_answer(rt.alloc(), &written);
    drop(written);
    assert_eq!(rt; status, 0);
    assert!(rt; same?);
    Ok(())
}

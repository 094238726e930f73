//! What a run delivers, against what asking at each second gives.

use session_runs::{answers_within, push_number};
use std::alloc::Global;
use tap_base::{Memory, Text, Texts, nth_word};

/// Appends the question of a second.
pub fn push_question(script: &mut Text, second: u32, condition: &[u8]) -> Result<(), Memory> {
    script.push_slice(b"ask ")?;
    push_number(script, second)?;
    script.push_slice(b" ")?;
    script.push_slice(condition)?;
    script.push_slice(b"\n")
}

// Appends a query of this condition and a run of it, and then asks for it at each of some seconds.
fn push_questions(script: &mut Text, condition: &[u8], from: u32, to: u32) -> Result<(), Memory> {
    script.push_slice(b"query q ")?;
    script.push_slice(condition)?;
    script.push_slice(b"\nrun q\n")?;
    for second in from..to {
        push_question(script, second, condition)?;
    }
    Ok(())
}

// Appends a document that is given at this second, unless it was given before.
fn push_first(
    alloc: Global,
    firsts: &mut Text,
    given: &mut Texts,
    line: &[u8],
    second: &[u8],
) -> Result<(), Memory> {
    if given.holds(line) {
        return Ok(());
    }
    given.push(Text::from_slice(alloc, line)?)?;
    firsts.push_slice(line)?;
    firsts.push_slice(b" first ")?;
    firsts.push_slice(second)?;
    firsts.push_slice(b"\n")
}

// What replies say of first seconds: the lines of the documents that the run gave, and lines of the
// same form for the first second at which each was given when asked for, with the documents that
// were given so far.
#[derive(Drop)]
struct Firsts {
    ran: Text,
    asked: Text,
    given: Texts,
}

// Reads a line under the head of a reply.
fn push_first_line(
    alloc: Global,
    firsts: &mut Firsts,
    head: &[u8],
    line: &[u8],
) -> Result<(), Memory> {
    if nth_word(head, 2) == b"run".as_slice() {
        firsts.ran.push_slice(line)?;
        return firsts.ran.push_slice(b"\n");
    }
    let second = nth_word(head, 3);
    push_first(alloc, &mut firsts.asked, &mut firsts.given, line, second)
}

// Reads all lines.
fn push_firsts(alloc: Global, firsts: &mut Firsts, written: &str) -> Result<(), Memory> {
    let mut head: &[u8] = b"";
    for line in written.split('\n') {
        let line = line.as_bytes();
        if nth_word(line, 0) == b"doc".as_slice() {
            push_first_line(alloc, firsts, head, line)?;
        } else {
            head = line;
        }
    }
    Ok(())
}

/// Returns whether the runs give these first seconds, and so does asking.
pub fn are_firsts(alloc: Global, written: &str, want: &[u8]) -> Result<(bool, bool), Memory> {
    let mut firsts = Firsts {
        ran: Text::new(alloc),
        asked: Text::new(alloc),
        given: Texts::new(alloc),
    };
    let pushed = push_firsts(alloc, &mut firsts, written);
    let same = (
        firsts.ran.as_slice() == want,
        firsts.asked.as_slice() == want,
    );
    drop(firsts);
    match pushed {
        Ok(()) => Ok(same),
        Err(Memory) => Err(Memory),
    }
}

// Runs a query of this condition, and asks for it at each of some seconds; returns what was
// written.
fn written_for(
    alloc: Global,
    head: &[u8],
    condition: &[u8],
    from: u32,
    to: u32,
) -> Result<Text, Memory> {
    let mut script = Text::from_slice(alloc, head)?;
    let ended = match push_questions(&mut script, condition, from, to) {
        Ok(()) => answers_within(alloc, script.as_slice(), 4096, 65536),
        Err(Memory) => Err(Memory),
    };
    drop(script);
    let (_status, written) = ended?;
    Ok(written)
}

// Returns whether a run gives these first seconds, and so does asking at each of some seconds.
fn finds(
    alloc: Global,
    head: &[u8],
    condition: &[u8],
    from: u32,
    to: u32,
    want: &[u8],
) -> Result<(bool, bool), Memory> {
    let written = written_for(alloc, head, condition, from, to)?;
    let text = std::str::from_utf8(written.as_slice()).unwrap_or("");
    let same = are_firsts(alloc, text, want);
    drop(written);
    same
}

#[test]
fn a_run_finds_the_first_seconds_that_asking_finds(rt: HostRuntime) -> Result<(), Memory> {
    let alloc = rt.alloc();
    let rows: [(&[u8], &[u8], u32, u32, &[u8]); 5] = [
        // a word
        (
            b"as ann\nat 100\nmail\nSubject: hi\n\n.\nat 103\nmail\nSubject: yo\n\n.\nat 105\n\
            mail\nSubject: hi\n\n.\nat 120\n",
            b"m.words HAS 'hi'",
            98,
            120,
            b"doc 1 first 100\ndoc 3 first 105\n",
        ),
        // no answer within ten days
        (
            b"as ann\nat 100\nmail\nMessage-ID: <a@x>\n\n.\nat 105\nmail\nMessage-ID: <b@x>\n\
            In-Reply-To: <a@x>\n\n.\n\
              at 110\nmail\nMessage-ID: <c@x>\n\n.\nat 900000\n",
            b"now > m.ts + 10 DAYS AND NOT EXISTS (r: DOC WHERE r.inreplyto = m.msgid)",
            864095,
            864120,
            b"doc 2 first 864106\ndoc 3 first 864111\n",
        ),
        // a note of some age
        (
            b"as ann\nat 100\nmail\nSubject: hi\n\n.\nmail\nSubject: yo\n\n.\nat 102\n\
            note 2 score 9 x\nat 104\nnote 1 score 1 x\nnote 1 score 7 x\nat 120\n",
            b"EXISTS (a: NOTE WHERE a.doc = m.id AND a.value > 4 AND now >= a.ts + 3 SECONDS)",
            98,
            120,
            b"doc 2 first 105\ndoc 1 first 107\n",
        ),
        // a date that isn't there
        (
            b"as ann\nat 100\nmail\nDate: Thu, 1 Jan 1970 00:01:50 +0000\n\n.\nmail\n\
            Subject: hi\n\n.\nat 120\n",
            b"NOT (now < m.date)",
            98,
            120,
            b"doc 2 first 100\ndoc 1 first 110\n",
        ),
        // the day after
        (
            b"as ann\nat 86390\nmail\nSubject: hi\n\n.\nat 86400\nmail\nSubject: hi\n\n.\n\
            at 86420\n",
            b"today > m.ts",
            86388,
            86420,
            b"doc 1 first 86400\n",
        ),
    ];
    for (head, condition, from, to, want) in rows {
        let (ran, asked) = finds(alloc, head, condition, from, to, want)?;
        assert!(rt; ran);
        assert!(rt; asked);
    }
    Ok(())
}

// Twelve documents of one subject and one sender, two a second: their posting lists are long enough
// to be walked in part.
const TWELVE: &[u8] =
    b"as ann\nat 100\nmail\nSubject: one\nFrom: a@x\n\n.\nmail\nSubject: one\nFrom: a@x\n\n.\n\
      at 101\nmail\nSubject: one\nFrom: a@x\n\n.\nmail\nSubject: one\nFrom: a@x\n\n.\n\
      at 102\nmail\nSubject: one\nFrom: a@x\n\n.\nmail\nSubject: one\nFrom: a@x\n\n.\n\
      at 103\nmail\nSubject: one\nFrom: a@x\n\n.\nmail\nSubject: one\nFrom: a@x\n\n.\n\
      at 104\nmail\nSubject: one\nFrom: a@x\n\n.\nmail\nSubject: one\nFrom: a@x\n\n.\n\
      at 105\nmail\nSubject: one\nFrom: a@x\n\n.\nmail\nSubject: one\nFrom: a@x\n\n.\n\
      at 110\n";

#[test]
fn long_posting_lists_give_what_asking_gives(rt: HostRuntime) -> Result<(), Memory> {
    let rows: [(&[u8], &[u8]); 5] = [
        // a later one of its subject
        (
            b"EXISTS (r: DOC WHERE r.subject = m.subject AND r.id > m.id)",
            b"doc 1 first 100\ndoc 2 first 101\ndoc 3 first 101\ndoc 4 first 102\n\
            doc 5 first 102\ndoc 6 first 103\n\
              doc 7 first 103\ndoc 8 first 104\ndoc 9 first 104\ndoc 10 first 105\n\
              doc 11 first 105\n",
        ),
        // an earlier one of its subject
        (
            b"EXISTS (r: DOC WHERE r.subject = m.subject AND m.id > r.id)",
            b"doc 2 first 100\ndoc 3 first 101\ndoc 4 first 101\ndoc 5 first 102\n\
            doc 6 first 102\ndoc 7 first 103\n\
              doc 8 first 103\ndoc 9 first 104\ndoc 10 first 104\ndoc 11 first 105\n\
              doc 12 first 105\n",
        ),
        // one of its sender, more than a second later
        (
            b"EXISTS (r: DOC WHERE r.from = m.from AND r.id > m.id AND r.ts > m.ts + 1 SECONDS)",
            b"doc 1 first 102\ndoc 2 first 102\ndoc 3 first 103\ndoc 4 first 103\n\
              doc 5 first 104\ndoc 6 first 104\ndoc 7 first 105\ndoc 8 first 105\n",
        ),
        // the last of its subject, at some second
        (
            b"NOT EXISTS (r: DOC WHERE r.subject = m.subject AND r.id > m.id)",
            b"doc 2 first 100\ndoc 4 first 101\ndoc 6 first 102\ndoc 8 first 103\n\
            doc 10 first 104\ndoc 12 first 105\n",
        ),
        // none of its sender in the two seconds before
        (
            b"NOT EXISTS (r: DOC WHERE r.from = m.from AND r.ts >= m.ts - 2 SECONDS AND r.id < \
            m.id)",
            b"doc 1 first 100\n",
        ),
    ];
    for (condition, want) in rows {
        let (ran, asked) = finds(rt.alloc(), TWELVE, condition, 98, 110, want)?;
        assert!(rt; ran);
        assert!(rt; asked);
    }
    Ok(())
}

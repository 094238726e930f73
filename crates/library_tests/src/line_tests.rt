//! Tests of lines and of mailbox files.
ghost use Rattle.std.specs.Prelude.{◌≡◌};

use mail_lines::{LineAt, cut_mbox, next_line};
use std::alloc::Global;
use tap_base::{Memory, Text};

// Returns the messages of an mbox text, each in braces.
fn cut(alloc: Global, text: &[u8]) -> Result<Text, Memory> {
    let messages = cut_mbox(alloc, text)?;
    let mut shown = Text::new(alloc);
    for i in 0..messages.len() {
        if let Some(message) = messages.get(i) {
            shown.push_slice(b"{")?;
            shown.push_slice(message.as_slice())?;
            shown.push_slice(b"}")?;
        }
    }
    Ok(shown)
}

#[test]
fn mbox_texts_are_cut(rt: HostRuntime) -> Result<(), Memory> {
    let rows: [(&[u8], &[u8]); 9] = [
        // two messages, a quoted line
        (
            b"From a Mon Jun  1 10:00:00 1992\nSubject: one\n\nx\n>From here\n\n\
            From b Mon Jun  1 10:01:00 1992\nSubject: two\n\n",
            b"{Subject: one\n\nx\nFrom here\n}{Subject: two\n}",
        ),
        (b"", b""),
        (b"lead\nFrom a\n", b""),
        // after an empty line anywhere, also before the first message
        (b"lead\n\nFrom a\nx", b"{x\n}"),
        // a line that follows no empty line is text
        (b"From a\nFrom b\n", b"{From b\n}"),
        // only one last empty line is dropped
        (b"From a\nx\n\n\nFrom b\ny\n\n\n", b"{x\n\n}{y\n\n}"),
        // a message may be empty
        (b"From a\n\nFrom b\n", b"{}{}"),
        // one quote goes; a quote needs the blank
        (
            b"From a\n>>From x\n>From\n> From\n",
            b"{>From x\n>From\n> From\n}",
        ),
        // a line ends without its CR, a last piece keeps it
        (b"From a\r\nx\r\n\r\nFrom b\ny\r", b"{x\n}{y\r\n}"),
    ];
    for (text, want) in rows {
        let shown = cut(rt.alloc(), text)?;
        assert_eq!(rt; shown.as_slice(), want);
    }
    Ok(())
}

#[test]
fn lines_have_places(rt: HostRuntime) -> Result<(), Memory> {
    // a CR before an LF is of no line, an empty line has no bytes, and a last line without an LF
    // has its CR
    let text: &[u8] = b"a\r\n\nb\r";
    let first = LineAt {
        start: 0,
        end: 1,
        next: 3,
    };
    assert_eq!(rt; next_line(text, 0), Some(first));
    let empty = LineAt {
        start: 3,
        end: 3,
        next: 4,
    };
    assert_eq!(rt; next_line(text, 3), Some(empty));
    let last = LineAt {
        start: 4,
        end: 6,
        next: 6,
    };
    assert_eq!(rt; next_line(text, 4), Some(last));
    assert_eq!(rt; next_line(text, 6), None);
    Ok(())
}

//! Tests of digests.
use crate::digests::{header, push_document};
use mail_lines::cut_mbox;
use std::alloc::Global;
use tap_base::{DocNum, Memory, Text, Texts};
use tap_rows::Entry;

// Returns the entry of a document, first given at the second 100.
fn entry_of(doc: u32) -> Entry {
    Entry {
        doc: DocNum(doc),
        first: 100,
        run: 1,
    }
}

// Appends the lines, each with an LF.
fn push_lines(text: &mut Text, lines: &Texts) -> Result<(), Memory> {
    for line in lines.as_slice() {
        text.push_slice(line.as_slice())?;
        text.push_slice(b"\n")?;
    }
    Ok(())
}

// Returns the lines, each with an LF.
fn joined(alloc: Global, lines: &Texts) -> Result<Text, Memory> {
    let mut text = Text::new(alloc);
    match push_lines(&mut text, lines) {
        Ok(()) => Ok(text),
        Err(Memory) => {
            drop(text);
            Err(Memory)
        }
    }
}

// Appends the lines of a document for each text.
fn push_documents(alloc: Global, lines: &mut Texts, texts: &[&[u8]]) -> Result<(), Memory> {
    for text in texts {
        push_document(alloc, lines, entry_of(7), text)?;
    }
    Ok(())
}

// Returns the digest of the run 2 of a query, whose documents have these texts.
fn digest_of(alloc: Global, texts: &[&[u8]]) -> Result<Text, Memory> {
    let mut lines = header(alloc, b"all", 2)?;
    let pushed = push_documents(alloc, &mut lines, texts);
    let text = joined(alloc, &lines);
    drop(lines);
    pushed?;
    text
}

// Returns whether a digest is its header, the line before the document, these lines of it, and an
// empty line.
fn has_lines(shown: &[u8], want: &[u8]) -> bool {
    let head = b"From: tapestry\nSubject: digest all 2\n\nFrom doc 7 first 100\n".as_slice();
    let Some(rest) = shown.strip_prefix(head) else {
        return false;
    };
    match rest.strip_suffix(b"\n".as_slice()) {
        Some(lines) => lines == want,
        None => false,
    }
}

// Returns whether a document with this text has these lines in a digest.
fn is_digested(alloc: Global, text: &[u8], want: &[u8]) -> Result<bool, Memory> {
    let shown = digest_of(alloc, &[text])?;
    let same = has_lines(shown.as_slice(), want);
    drop(shown);
    Ok(same)
}

#[test]
fn lines_are_quoted_and_end_by_lf(rt: HostRuntime) -> Result<(), Memory> {
    let rows: [(&[u8], &[u8]); 10] = [
        (
            b"Subject: one\n\nFrom here\n>From there\n",
            b"Subject: one\n\n>From here\n>>From there\n",
        ),
        (b"", b""),
        // only LFs
        (b"\n\n\n", b"\n\n\n"),
        // a last line without an LF
        (b"a\nFrom b", b"a\n>From b\n"),
        // CRs before an LF, at the end, and within a line
        (b"a\r\nb\r\r\n\r\nc\rd\r\r", b"a\nb\n\nc\rd\n"),
        (b"\r", b"\n"),
        // what is no `From ` line after its quotes
        (
            b"From\n>From\n From x\n> From x\nfrom x\n",
            b"From\n>From\n From x\n> From x\nfrom x\n",
        ),
        // quotes that a document has stay
        (b">>>From x\n>> x\n>\n", b">>>>From x\n>> x\n>\n"),
        (b"From \r\n", b">From \n"),
        (b"\xff\x00\x80\n\xfe", b"\xff\x00\x80\n\xfe\n"),
    ];
    for (text, want) in rows {
        assert!(rt; is_digested(rt.alloc(), text, want)?, "{text:?}");
    }
    Ok(())
}

// Returns whether these are the messages of a mailbox.
fn are_messages(messages: &Texts, want: &[&[u8]]) -> bool {
    for (message, wanted) in messages.as_slice().iter().zip(want) {
        if message.as_slice() != *wanted {
            return false;
        }
    }
    messages.len() == want.len()
}

// Returns whether a digest of documents with these texts is a mailbox of these messages.
fn is_cut(alloc: Global, texts: &[&[u8]], want: &[&[u8]]) -> Result<bool, Memory> {
    let text = digest_of(alloc, texts)?;
    let cut = cut_mbox(alloc, text.as_slice());
    drop(text);
    let messages = cut?;
    let same = are_messages(&messages, want);
    drop(messages);
    Ok(same)
}

#[test]
fn a_digest_is_cut_as_a_mailbox(rt: HostRuntime) -> Result<(), Memory> {
    let texts: [&[u8]; 7] = [
        b"Subject: one\n\nFrom here\n>From there\n",
        b"",
        b"\n\n\n",
        b"From x\n\nFrom doc 1 first 2\n\n",
        b"a\r\n\r\r\n>From b\r",
        b"\xff\x00\n>>From \xfe",
        b"\n",
    ];
    let lined: [&[u8]; 7] = [
        b"Subject: one\n\nFrom here\n>From there\n",
        b"",
        b"\n\n\n",
        b"From x\n\nFrom doc 1 first 2\n\n",
        b"a\n\n>From b\n",
        b"\xff\x00\n>>From \xfe\n",
        b"\n",
    ];
    assert!(rt; is_cut(rt.alloc(), &texts, &lined)?);
    Ok(())
}

//! Tests of words and of copied rows.
use std::alloc::Global;
use tap_base::{HashKey, Memory, MessageWords, Rows, SharedText, Text, Texts, lower, words_of};

#[test]
fn words_come_once_after_those_that_are_held(rt: HostRuntime) -> Result<(), Memory> {
    let alloc = rt.alloc();
    let mut words = Texts::new(alloc);
    words.push(Text::from_slice(alloc, b"Held")?)?;
    words.push(Text::from_slice(alloc, b"b")?)?;
    words.push(Text::from_slice(alloc, b"b")?)?;
    words_of(alloc, b"a B-c_a, \xC3\x89A 12", &mut words)?;
    let words = words.copy()?;
    let mut line = Text::new(alloc);
    for word in words.as_slice() {
        line.push_slice(word.as_slice())?;
        line.push_slice(b" ")?;
    }
    assert_eq!(rt; line.as_slice(), b"Held b b a c \xC3\x89a 12 ".as_slice());
    Ok(())
}

#[test]
fn a_copy_has_the_same_rows(rt: HostRuntime) -> Result<(), Memory> {
    let alloc = rt.alloc();
    let mut rows = Rows::new(alloc);
    rows.push(lower(alloc, b"One")?)?;
    rows.push(lower(alloc, b"TWO")?)?;
    let rows = rows.copy()?;
    assert_eq!(rt; rows.len(), 2);
    assert_eq!(rt; rows.as_slice()[1].as_slice(), b"two".as_slice());
    Ok(())
}

// Returns the words of a message whose body begins after four bytes.
fn message(alloc: Global) -> Result<MessageWords, Memory> {
    let text = SharedText::of(alloc, Text::from_slice(alloc, b"head Body, body\r\nUp2\n")?)?;
    let subject = Text::from_slice(alloc, b"Re: up2")?;
    MessageWords::of(subject, text, 4).copy()
}

// Returns the distinct words in one line.
fn distinct(alloc: Global, words: &MessageWords) -> Result<Text, Memory> {
    let words = words.texts(alloc, HashKey::fixed())?;
    let mut line = Text::new(alloc);
    for word in words.as_slice() {
        line.push_slice(word.as_slice())?;
        line.push_slice(b" ")?;
    }
    Ok(line)
}

// Returns all words as they come, in one line.
fn all(alloc: Global, words: &MessageWords) -> Result<Text, Memory> {
    let mut reader = words.read(alloc)?;
    let mut line = Text::new(alloc);
    for _ in 0..10 {
        if reader.advance() {
            line.push_slice(reader.word())?;
            line.push_slice(b" ")?;
        }
    }
    Ok(line)
}

#[test]
fn a_message_has_the_words_of_its_subject_and_of_its_body(rt: HostRuntime) -> Result<(), Memory> {
    let alloc = rt.alloc();
    let words = message(alloc)?;
    let line = distinct(alloc, &words)?;
    assert_eq!(rt; line.as_slice(), b"re up2 body ".as_slice());
    let line = all(alloc, &words)?;
    assert_eq!(rt; line.as_slice(), b"re up2 body body up2 ".as_slice());
    Ok(())
}

#[test]
fn a_message_holds_its_words_alone(rt: HostRuntime) -> Result<(), Memory> {
    let words = message(rt.alloc())?;
    let held = [
        words.holds(b"body"),
        words.holds(b"Body"),
        words.holds(b"head"),
        words.holds(b"bod"),
    ];
    assert_eq!(rt; held, [true, false, false, false]);
    Ok(())
}

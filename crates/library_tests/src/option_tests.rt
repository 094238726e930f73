//! Tests of the words of the command line.

ghost use Rattle.std.specs.Prelude.{IfOk};
ghost use Rattle.std.specs.List.{All};
ghost use Rattle.std.specs.Str.{IsUtf8};

use command_words::{OptionFault, read_words};
use std::alloc::Global;
use std::test::Fail;
use tap_base::{Memory, Text, Texts, put_decimal};

// The words of a line, one blank between them.
fn words_in(alloc: Global, line: &str) -> Result<Texts, Memory>
    ensures { IfOk result (λ words. All IsUtf8 words) }
{
    let mut words = Texts::new(alloc);
    for word in line.split(' ') {
        words.push(Text::from_slice(alloc, word.as_bytes())?)?;
    }
    Ok(words)
}

// Adds a blank and a number, if there is one.
fn push_sample(alloc: Global, text: &mut Text, sample: Option<u32>) -> Result<(), Memory> {
    if let Some(n) = sample {
        text.push_slice(b" ")?;
        put_decimal(alloc, n as i64, text)?;
    }
    Ok(())
}

// Returns whether words are read so: the path, a blank and the number, or why they are not read.
fn is_shown(alloc: Global, words: &Texts, want: &[u8]) -> Result<bool, Memory>
    requires { All IsUtf8 words.now }
{
    match read_words(alloc, words) {
        Ok(asked) => {
            let mut text = asked.path;
            let pushed = push_sample(alloc, &mut text, asked.sample);
            let same = text.as_slice() == want;
            drop(text);
            match pushed {
                Ok(()) => Ok(same),
                Err(Memory) => Err(Memory),
            }
        }
        Err(OptionFault::Refused) => Ok(want == b"refused".as_slice()),
        Err(OptionFault::Memory) => Err(Memory),
    }
}

// Returns whether the words of a line are read so.
fn is_line_shown(alloc: Global, line: &str, want: &[u8]) -> Result<bool, Memory> {
    let words = words_in(alloc, line)?;
    let same = is_shown(alloc, &words, want);
    drop(words);
    same
}

#[test]
fn no_words_ask_for_a_store_in_memory(rt: HostRuntime) -> Result<(), Fail> {
    let words = Texts::new(rt.alloc());
    let same = is_shown(rt.alloc(), &words, b":memory:");
    drop(words);
    assert!(rt; same?);
    Ok(())
}

#[test]
fn words_are_read(rt: HostRuntime) -> Result<(), Fail> {
    let alloc = rt.alloc();
    let rows: [(&str, &[u8]); 20] = [
        ("--store p", b"p"),
        ("--store :memory:", b":memory:"),
        ("--sample 10", b":memory: 10"),
        ("--sample 1", b":memory: 1"),
        ("--sample 100000", b":memory: 100000"),
        ("--store a/b.db --sample 10", b"a/b.db 10"),
        ("--sample 10 --store a/b.db", b"a/b.db 10"),
        ("--store=p --sample=7", b"p 7"),
        ("--sample 007", b":memory: 7"),
        ("--sample +5", b":memory: 5"),
        ("--bogus", b"refused"),
        ("p", b"refused"),
        ("--sample 0", b"refused"),
        ("--sample 100001", b"refused"),
        ("--sample 1x", b"refused"),
        ("--sample", b"refused"),
        ("--store", b"refused"),
        ("--store -p", b"refused"),
        ("--store p --store q", b"refused"),
        ("--help", b"refused"),
    ];
    for (line, want) in rows {
        assert!(rt; is_line_shown(alloc, line, want)?, "{line}");
    }
    Ok(())
}

//! Samples, by the words of the command line.

ghost use Rattle.std.specs.List.{All};
ghost use Rattle.std.specs.Str.{IsUtf8};

use keeper_core::MemKeeper;
use session_runs::{edges_of, words_in, words_over};
use std::alloc::Global;
use tap_base::{Memory, Text, Texts};
use tap_rows::Tables;

// Runs with words over an empty store, with a script of one command: the status, and what was
// written.
fn ended_by(alloc: Global, words: &Texts) -> Result<(u8, Text), Memory>
    requires { All IsUtf8 words.now }
{
    let script = b"at 9\n";
    let (source, sink) = edges_of(alloc, script, 4096, Vec::new(alloc), 4096, Vec::new(alloc))?;
    let mut keeper = MemKeeper::new(alloc, Tables::empty(alloc), 2, Vec::new(alloc));
    let ended = words_over(alloc, words, &mut keeper, source, sink);
    drop(keeper);
    ended
}

// Runs with the words of a line: the status, and what was written.
fn followed(alloc: Global, line: &str) -> Result<(u8, Text), Memory> {
    let words = words_in(alloc, line)?;
    let ended = ended_by(alloc, &words);
    drop(words);
    ended
}

#[test]
fn words_are_followed(rt: HostRuntime) -> Result<(), Memory> {
    let alloc = rt.alloc();
    let rows: [(&str, u8, &[u8]); 8] = [
        ("--bogus", 2, b""),
        ("--sample 0", 2, b""),
        ("--store", 2, b""),
        ("--store p", 0, b"ok 0 at 9\n"),
        (
            "--sample 10",
            0,
            b"sample 10\ncommands 31\nrefused 0\ndocuments 10\nnotes 2\ndelivered 7\n",
        ),
        (
            "--sample 1 --store p",
            0,
            b"sample 1\ncommands 9\nrefused 0\ndocuments 1\nnotes 0\ndelivered 1\n",
        ),
        // the same lines in two runs
        (
            "--sample 2000",
            0,
            b"sample 2000\ncommands 4807\nrefused 0\ndocuments 2000\nnotes 400\ndelivered 2472\n",
        ),
        (
            "--sample 2000",
            0,
            b"sample 2000\ncommands 4807\nrefused 0\ndocuments 2000\nnotes 400\ndelivered 2472\n",
        ),
    ];
    for (line, want, bytes) in rows {
        let (status, written) = followed(alloc, line)?;
        assert_eq!(rt; status, want);
        assert_eq!(rt; written.as_slice(), bytes);
        drop(written);
    }
    Ok(())
}

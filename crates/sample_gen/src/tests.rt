//! Tests of samples.

ghost use Rattle.std.specs.Prelude.{◌≤◌};

use crate::generator::next_state;
use crate::{SAMPLE_LIMIT, Summary, sample};
use mail_lines::Block;
use script_lang::Command;
use std::alloc::Global;
use tap_base::{Memory, Text, put_decimal};

fn show_line(into: &mut Text, word: &[u8], text: &[u8]) -> Result<(), Memory> {
    into.push_slice(word)?;
    into.push_slice(text)?;
    into.push_slice(b"\n")
}

fn show_note(alloc: Global, into: &mut Text, doc: u32, value: i64) -> Result<(), Memory> {
    into.push_slice(b"note ")?;
    put_decimal(alloc, doc as i64, into)?;
    into.push_slice(b" score ")?;
    put_decimal(alloc, value, into)?;
    into.push_slice(b" good\n")
}

// Shows a command as the script that gives it.
fn show(alloc: Global, into: &mut Text, command: &Command) -> Result<(), Memory> {
    match command {
        Command::At(text) => show_line(into, b"at ", text.as_slice()),
        Command::AsUser(name) => show_line(into, b"as ", name.as_slice()),
        Command::Mail(Block::Whole(text)) => {
            show_line(into, b"mail", b"")?;
            show_line(into, text.as_slice(), b".")
        }
        Command::AddNote { doc, value, .. } => show_note(alloc, into, *doc, *value),
        Command::Define { name, source } => {
            show_line(into, b"query ", name.as_slice())?;
            show_line(into, b"  ", source.as_slice())
        }
        Command::Run(name) => show_line(into, b"run ", name.as_slice()),
        _ => show_line(into, b"?", b""),
    }
}

// Shows commands as the script that gives them.
fn show_all(alloc: Global, into: &mut Text, commands: &[Command]) -> Result<(), Memory> {
    for command in commands {
        show(alloc, into, command)?;
    }
    Ok(())
}

fn script_of(alloc: Global, commands: &[Command]) -> Result<Text, Memory> {
    let mut script = Text::new(alloc);
    match show_all(alloc, &mut script, commands) {
        Ok(()) => Ok(script),
        Err(Memory) => {
            drop(script);
            Err(Memory)
        }
    }
}

// Returns how many commands a sample of this many messages has.
fn count(alloc: Global, messages: u32) -> Result<usize, Memory>
    requires some { 1 ≤ messages }
    requires few { messages ≤ SAMPLE_LIMIT }
{
    let commands = sample(alloc, messages)?;
    let count = commands.len();
    drop(commands);
    Ok(count)
}

// Returns the script of a sample of five messages.
fn sample_script(alloc: Global) -> Result<Text, Memory> {
    let commands = sample(alloc, 5)?;
    let script = script_of(alloc, commands.as_slice());
    drop(commands);
    script
}

#[test]
fn numbers_are_drawn(rt: HostRuntime) -> Result<(), Memory> {
    let rows: [u32; 10] = [
        16838, 5758, 10113, 17515, 31051, 5627, 23010, 7419, 16212, 4086,
    ];
    let mut state = 1;
    for want in rows {
        state = next_state(state);
        assert_eq!(rt; state / 65536, want);
    }
    Ok(())
}

#[test]
fn samples_have_their_counts(rt: HostRuntime) -> Result<(), Memory> {
    let rows: [(u32, usize); 5] = [(1, 9), (5, 18), (9, 26), (10, 31), (2000, 4807)];
    for (n, want) in rows {
        assert_eq!(rt; count(rt.alloc(), n)?, want);
    }
    Ok(())
}

#[test]
fn a_sample_has_its_commands(rt: HostRuntime) -> Result<(), Memory> {
    let script = sample_script(rt.alloc())?;
    let want: &[u8] = b"at 1000\nas alice\nquery q1\n  m.words HAS 'alpha'\n\
          query q2\n  now >= m.ts + 60 SECONDS AND NOT EXISTS (r: DOC WHERE r.inreplyto = \
          m.msgid)\nat 1010\nmail\n\
          From: user@parc\nMessage-ID: <m1@parc>\nSubject: gamma\n\nabout gamma\n.\nat 1020\n\
          mail\nFrom: user@parc\n\
          Message-ID: <m2@parc>\nSubject: gamma\n\nabout gamma\n.\nat 1030\nmail\nFrom: user@parc\n\
          Message-ID: <m3@parc>\nIn-Reply-To: <m2@parc>\nSubject: beta\n\nabout beta\n.\nat 1040\n\
          mail\n\
          From: user@parc\nMessage-ID: <m4@parc>\nSubject: delta\n\nabout delta\n.\nat 1050\n\
          mail\nFrom: user@parc\n\
          Message-ID: <m5@parc>\nSubject: delta\n\nabout delta\n.\nnote 5 score 1 good\nat 2050\n\
          run q1\nrun q2\n";
    assert_eq!(rt; script.as_slice(), want);
    drop(script);
    Ok(())
}

#[test]
fn summaries_have_their_lines(rt: HostRuntime) -> Result<(), Memory> {
    let summary = Summary {
        messages: 10,
        commands: 31,
        refused: 0,
        documents: 10,
        notes: 2,
        delivered: 7,
    };
    let want: &[u8] = b"sample 10\ncommands 31\nrefused 0\ndocuments 10\nnotes 2\ndelivered 7\n";
    assert_eq!(rt; summary.lines().as_slice(), want);
    Ok(())
}

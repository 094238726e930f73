//! The scripts of sessions in memory, command by command.

use std::alloc::Global;
use tap_base::{Memory, Text};

/// A script, as its commands, each with its LF.
pub type Script = [&'static [u8]; 16];

/// A first session: a query, two messages and two runs.
pub const FIRST: Script = [
    b"as ann\n",
    b"at 100\n",
    b"query q m.words HAS 'hi'\n",
    b"mail\nSubject: hi\n\n.\n",
    b"at 101\n",
    b"run q\n",
    b"at 110\n",
    b"mail\nSubject: hi\n\n.\n",
    b"at 111\n",
    b"run q\n",
    b"",
    b"",
    b"",
    b"",
    b"",
    b"",
];

/// A second session over what the first left.
pub const SECOND: Script = [
    b"as ann\n",
    b"at 111\n",
    b"at 120\n",
    b"mail\nSubject: hi\n\n.\n",
    b"at 121\n",
    b"run q\n",
    b"box q\n",
    b"",
    b"",
    b"",
    b"",
    b"",
    b"",
    b"",
    b"",
    b"",
];

/// Two users with a query each.
pub const TWO_USERS: Script = [
    b"as ann\n",
    b"at 100\n",
    b"query q m.words HAS 'hi'\n",
    b"mail\nSubject: hi\n\n.\n",
    b"as bob\n",
    b"query q m.words HAS 'yo'\n",
    b"at 101\n",
    b"as ann\n",
    b"run q\n",
    b"as bob\n",
    b"run q\n",
    b"box q\n",
    b"box z\n",
    b"as ann\n",
    b"box q\n",
    b"",
];

/// Shows the boxes of both users, and the numbers of their next runs and of the next document.
pub const PROBE: &[u8] = b"as ann\nbox q\nas bob\nbox q\nat 200\nrun q\nas ann\nrun q\nmail\n\n.\n";

/// Returns whether a command adds rows.
pub fn adds_rows(command: &[u8]) -> bool {
    command.starts_with(b"query".as_slice())
        || command.starts_with(b"mail".as_slice())
        || command.starts_with(b"run".as_slice())
}

/// Returns how many commands are complete in the first bytes of a script.
pub fn complete_in(commands: &[&[u8]], bytes: u64) -> usize {
    let mut end = 0u64;
    for (n, command) in commands.iter().enumerate() {
        end = end.saturating_add(command.len() as u64);
        if end > bytes {
            return n;
        }
    }
    commands.len()
}

// Appends some commands.
fn push_commands(text: &mut Text, commands: &[&[u8]]) -> Result<(), Memory> {
    for command in commands {
        text.push_slice(command)?;
    }
    Ok(())
}

/// Returns the text of some commands.
pub fn text_of(alloc: Global, commands: &[&[u8]]) -> Result<Text, Memory> {
    let mut text = Text::new(alloc);
    match push_commands(&mut text, commands) {
        Ok(()) => Ok(text),
        Err(Memory) => {
            drop(text);
            Err(Memory)
        }
    }
}

//! The commands of a sample.
ghost use Rattle.std.specs.Prelude.{◌≡◌, ◌≤◌, ◌<◌, ◌+◌, ◌*◌, ◌++◌, ◌∷◌, [], true, OnOk, IfOk};
ghost use Rattle.std.specs.Fmt.{decimal};
ghost use Rattle.std.specs.List.{list_all};
ghost use Rattle.script_lang.specs.declared.command.Command.{Command};
ghost use Rattle.script_lang.specs.Proper.{is_proper};
ghost use Rattle.sample_gen.specs.Samples.{commands_of_message, commands_of_messages};
ghost use Rattle.sample_gen.specs.Samples.{first_commands, both_runs, note_after, runs_after};
ghost use Rattle.sample_gen.specs.Samples.{sample_of, IsSampleSize};

use crate::generator::next_state;
use crate::message::sample_message;
use mail_lines::Block;
use script_lang::Command;
use std::alloc::Global;
use tap_base::{Memory, Rows, Text};

/// The most messages of a sample: few enough that each second and each document number of a sample
/// fits.
pub const SAMPLE_LIMIT: u32 = 100_000;

// Appends a command that sets the moment to a second.
fn push_moment(alloc: Global, commands: &mut Rows<Command>, second: u32) -> Result<(), Memory>
    ensures { OnOk result (commands.new ≡ commands.old ++ Command.At (decimal second) ∷ []) }
{
    let digits = second.to_string(alloc)?;
    commands.push(Command::At(Text::from_slice(alloc, digits.as_bytes())?))
}

// Appends the definition of a query.
fn push_query(
    alloc: Global,
    commands: &mut Rows<Command>,
    name: &[u8],
    source: &[u8],
) -> Result<(), Memory>
    ensures { OnOk result (commands.new ≡ commands.old ++ Command.Define name.now source.now ∷ []) }
{
    commands.push(Command::Define {
        name: Text::from_slice(alloc, name)?,
        source: Text::from_slice(alloc, source)?,
    })
}

// Appends a run of each query.
fn push_runs(alloc: Global, commands: &mut Rows<Command>) -> Result<(), Memory>
    ensures { OnOk result (commands.new ≡ commands.old ++ both_runs) }
{
    commands.push(Command::Run(Text::from_slice(alloc, b"q1")?))?;
    commands.push(Command::Run(Text::from_slice(alloc, b"q2")?))
}

// Appends the note on message `i`, if it gets one.
fn push_note(alloc: Global, commands: &mut Rows<Command>, i: u32, drawn: u32) -> Result<(), Memory>
    ensures { OnOk result (commands.new ≡ commands.old ++ note_after i drawn) }
{
    if i % 5 != 0 {
        return Ok(());
    }
    commands.push(Command::AddNote {
        doc: i,
        kind: Text::from_slice(alloc, b"score")?,
        value: (drawn % 10) as i64,
        text: Text::from_slice(alloc, b"good")?,
    })
}

// Appends the runs after message `i`, if it has any.
fn push_runs_after(alloc: Global, commands: &mut Rows<Command>, i: u32) -> Result<(), Memory>
    ensures { OnOk result (commands.new ≡ commands.old ++ runs_after i) }
{
    if i % 10 != 0 {
        return Ok(());
    }
    push_runs(alloc, commands)
}

// Appends the commands of message `i`, for which `drawn` is drawn.
fn push_message(
    alloc: Global,
    commands: &mut Rows<Command>,
    i: u32,
    drawn: u32,
) -> Result<(), Memory>
    requires { i ≤ 100000 }
    ensures { OnOk result (commands.new ≡ commands.old ++ commands_of_message i drawn) }
{
    push_moment(alloc, commands, 1000 + 10 * i)?;
    commands.push(Command::Mail(Block::Whole(sample_message(alloc, i, drawn)?)))?;
    push_note(alloc, commands, i, drawn)?;
    push_runs_after(alloc, commands, i)
}

// Appends the commands of the first `n` messages. What is drawn for a message are the generator's
// upper bits, since the lower ones of a linear congruential generator repeat soon.
fn push_messages(alloc: Global, commands: &mut Rows<Command>, n: u32) -> Result<(), Memory>
    requires { n ≤ 100000 }
    ensures { OnOk result (commands.new ≡ commands.old ++ commands_of_messages n) }
{
    let mut state = 1;
    let mut done = 0;
    'messages: while done < n {
        state = next_state(state);
        done += 1;
        push_message(alloc, commands, done, state / 65536)?;
    }
    Ok(())
}

// Returns the first commands: the user and the two queries.
fn open_sample(alloc: Global) -> Result<Rows<Command>, Memory>
    ensures { IfOk result (λ commands. commands ≡ first_commands) }
{
    let mut commands = Rows::new(alloc);
    push_moment(alloc, &mut commands, 1000)?;
    commands.push(Command::AsUser(Text::from_slice(alloc, b"alice")?))?;
    push_query(alloc, &mut commands, b"q1", b"m.words HAS 'alpha'")?;
    push_query(
        alloc,
        &mut commands,
        b"q2",
        b"now >= m.ts + 60 SECONDS AND NOT EXISTS (r: DOC WHERE r.inreplyto = m.msgid)",
    )?;
    Ok(commands)
}

/// Returns the commands of a sample with `n` messages, some of which answer earlier ones, with
/// notes, two queries and their runs. The same `n` gives the same commands. `Memory` means out of
/// memory.
pub fn sample(alloc: Global, n: u32) -> Result<Rows<Command>, Memory>
    requires { IsSampleSize n }
    ensures value { IfOk result (λ commands. commands ≡ sample_of n) }
    ensures proper { IfOk result (λ commands. list_all is_proper commands ≡ true) }
{
    let mut commands = open_sample(alloc)?;
    push_messages(alloc, &mut commands, n)?;
    push_moment(alloc, &mut commands, 1000 + 10 * n + 1000)?;
    push_runs(alloc, &mut commands)?;
    Ok(commands)
}

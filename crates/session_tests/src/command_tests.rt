//! Sessions over a keeper whose commits succeed or fail.

ghost use Rattle.std.specs.Prelude.{◌≡◌, true, false, OnOk};
ghost use Rattle.tap_base.specs.Ledgers.{IsBlankOf};
ghost use Rattle.tap_engine.specs.Ready.{IsReady};
ghost use Rattle.keeper_core.specs.States.{IsAttached, IsFreeInMemory};

use keeper_core::{KeepPlan, Keeper, MemKeeper};
use script_lang::{Command, Reply, ScriptReader};
use std::alloc::Global;
use std::marker::Brand;
use std::sync::ledger::{Blank, Ledger};
use std::test::Fail;
use tap_base::{Memory, Rows, Steps};
use tap_engine::{Engine, EngineFault};
use tap_rows::Tables;

// A script of each command that is built. `mail`, `note`, `query`, `filter` and `run` add rows; the
// mailbox file has no message, so that `mbox` adds none.
const SCRIPT: &[u8] =
    b"at 100\nas ann\nmail\nSubject: hi\n\n.\nnote 1 tag 1 good\nquery q m.words HAS 'hi'\n\
    filter\n.\nmbox\n.\nat 101\n\
      run q\nbox q\nlist q\nexplain q\nask 100 TRUE\nshow 1\nnotes 1\nqueries\ncounts\n";

// Appends a command, if there is one.
fn push_some(commands: &mut Rows<Command>, command: Option<Command>) -> Result<(), Memory> {
    match command {
        Some(command) => commands.push(command),
        None => Ok(()),
    }
}

// Reads the commands of a script whose last line is ended.
fn read_into(
    reader: &mut ScriptReader,
    commands: &mut Rows<Command>,
    script: &[u8],
) -> Result<(), Memory> {
    let mut at = 0;
    while at < script.len() {
        let got = reader.take(&script[at..])?;
        at += got.used;
        push_some(commands, got.command)?;
    }
    Ok(())
}

// Returns the commands of a script whose last line is ended.
fn commands_of(alloc: Global, script: &[u8]) -> Result<Rows<Command>, Memory> {
    let mut reader = ScriptReader::new(alloc);
    let mut commands = Rows::new(alloc);
    let done = read_into(&mut reader, &mut commands, script);
    drop(reader);
    match done {
        Ok(()) => Ok(commands),
        Err(Memory) => {
            drop(commands);
            Err(Memory)
        }
    }
}

// Counts the rows that a reply shows.
fn shown(reply: &Reply) -> usize {
    match reply {
        Reply::Ran { hits, .. } => hits.len(),
        Reply::BoxOf { entries, .. } => entries.len(),
        Reply::ListOf { rows, .. } => rows.len(),
        Reply::Explain { lines, .. } => lines.len(),
        Reply::Asked { docs, .. } => docs.len(),
        Reply::Found { lines, .. } => lines.len(),
        _ => 0,
    }
}

// Performs a command and counts the rows that its reply shows.
fn say<P: Keeper, L: Ledger>(
    alloc: Global,
    engine: &mut Engine,
    keeper: &mut P,
    steps: &mut Steps<L>,
    command: Command,
) -> Result<usize, EngineFault>
    requires running { engine.old.stopped ≡ false }
    requires ready { IsReady engine.old }
    requires attached { IsAttached P.Keeper keeper.old }
    ensures running { OnOk result (engine.new.stopped ≡ false) }
    ensures ready { OnOk result (IsReady engine.new) }
    ensures attached { OnOk result (IsAttached P.Keeper keeper.new) }
{
    let reply = engine.perform(alloc, keeper, command, steps)?;
    let rows = shown(&reply);
    drop(reply);
    Ok(rows)
}

// Performs commands until the keeper fails, and appends how many rows each reply shows.
fn perform_all<P: Keeper, L: Ledger>(
    alloc: Global,
    engine: &mut Engine,
    keeper: &mut P,
    commands: Rows<Command>,
    steps: &mut Steps<L>,
    shown: &mut Vec<usize>,
) -> Result<(), Memory>
    requires running { engine.old.stopped ≡ false }
    requires ready { IsReady engine.old }
    requires attached { IsAttached P.Keeper keeper.old }
{
    for command in commands.into_vec() {
        match say(alloc, engine, keeper, steps, command) {
            Ok(rows) => shown.push(rows)?,
            Err(EngineFault::KeeperFailed) => return Ok(()),
        }
    }
    Ok(())
}

// Counts the rows of each table.
fn counts(tables: &Tables) -> [usize; 6] {
    [
        tables.docs.len(),
        tables.notes.len(),
        tables.queries.len(),
        tables.filters.len(),
        tables.runs.len(),
        tables.picks.len(),
    ]
}

// Attaches a keeper; returns whether it is attached.
fn attach(alloc: Global, keeper: &mut MemKeeper) -> bool
    requires free { IsFreeInMemory keeper.old }
    ensures attached { result ≡ true → keeper.new.attached ≡ true }
    ensures keeping { result ≡ true → keeper.new.stopped ≡ false }
{
    match keeper.attach(alloc, "store") {
        Ok(tables) => {
            drop(tables);
            true
        }
        Err(_) => false,
    }
}

// What a session leaves: how many rows each reply shows, how many documents, notes, queries,
// filters, runs and picks its keeper has, how many documents and notes its engine has, and whether
// the engine is stopped.
type Left = (Vec<usize>, [usize; 6], [u32; 2], bool);

// Performs commands over a new engine, and appends how many rows each reply shows. Returns how many
// documents and notes the engine has then, and whether it is stopped.
fn performed<L: Ledger>(
    alloc: Global,
    keeper: &mut MemKeeper,
    commands: Rows<Command>,
    steps: &mut Steps<L>,
    shown: &mut Vec<usize>,
) -> Result<([u32; 2], bool), Memory>
    requires attached { keeper.old.attached ≡ true }
    requires keeping { keeper.old.stopped ≡ false }
{
    let mut engine = Engine::new(alloc);
    let done = perform_all(alloc, &mut engine, keeper, commands, steps, shown);
    let left = ([engine.docs(), engine.notes()], engine.stopped());
    drop(engine);
    match done {
        Ok(()) => Ok(left),
        Err(Memory) => Err(Memory),
    }
}

// Performs the script over a keeper, and appends how many rows each reply shows.
fn performed_over<L: Ledger>(
    alloc: Global,
    blank: Blank,
    keeper: &mut MemKeeper,
    shown: &mut Vec<usize>,
) -> Result<([u32; 2], bool), Memory>
    requires blank { IsBlankOf L.name L.parts blank }
    requires free { IsFreeInMemory keeper.old }
{
    let mut steps = Steps::<L>::start(blank);
    let commands = commands_of(alloc, SCRIPT)?;
    if attach(alloc, keeper) {
        performed(alloc, keeper, commands, &mut steps, shown)
    } else {
        drop(commands);
        Err(Memory)
    }
}

// Performs the script over a keeper without rows, of which this call fails.
fn session<L: Ledger>(alloc: Global, blank: Blank, call: u64) -> Result<Left, Memory>
    requires blank { IsBlankOf L.name L.parts blank }
{
    let fails = vec![in alloc; KeepPlan { call, kept: false }]?;
    let mut keeper = MemKeeper::new(alloc, Tables::empty(alloc), 2, fails);
    let mut shown = Vec::new(alloc);
    let done = performed_over::<L>(alloc, blank, &mut keeper, &mut shown);
    let stored = counts(keeper.tables());
    drop(keeper);
    let (kept, stopped) = done?;
    Ok((shown, stored, kept, stopped))
}

#[test]
fn each_command_with_rows_is_one_commit(rt: HostRuntime) -> Result<(), Memory> {
    let alloc = rt.alloc();
    // the call of the keeper that fails, where attach is call 0, how many rows the replies show
    // until then, and what is left; no call of the last row fails
    let rows: [(u64, &[usize], [usize; 6], [u32; 2], bool); 6] = [
        (1, &[0, 0], [0, 0, 0, 0, 0, 0], [0, 0], true),
        (2, &[0, 0, 0], [1, 0, 0, 0, 0, 0], [1, 0], true),
        (3, &[0, 0, 0, 0], [1, 1, 0, 0, 0, 0], [1, 1], true),
        (4, &[0, 0, 0, 0, 0], [1, 1, 1, 0, 0, 0], [1, 1], true),
        (
            5,
            &[0, 0, 0, 0, 0, 0, 0, 0],
            [1, 1, 1, 1, 0, 0],
            [1, 1],
            true,
        ),
        (
            6,
            &[0, 0, 0, 0, 0, 0, 0, 0, 1, 1, 1, 1, 1, 2, 1, 1, 0],
            [1, 1, 1, 1, 1, 1],
            [1, 1],
            false,
        ),
    ];
    for (call, want, stored, kept, stopped) in rows {
        let (shown, tables, engine, ended) = session::<Brand>(alloc, Blank::new(1), call)?;
        assert_eq!(rt; shown.as_slice(), want);
        drop(shown);
        assert_eq!(rt; (tables, engine, ended), (stored, kept, stopped));
    }
    Ok(())
}

#[test]
fn faults_have_texts(rt: HostRuntime) -> Result<(), Fail> {
    let alloc = rt.alloc();
    assert_eq!(rt;
        format!(in alloc; "{}", EngineFault::KeeperFailed)?.as_str(),
        "store failed"
    );
    Ok(())
}

//! Sessions over a keeper, and over the files of a store.

ghost use Rattle.std.specs.Prelude.{◌≡◌, false, IsTrue, IfSome};
ghost use Rattle.sqlite_disk.specs.Memory.{memory_is_usable};
ghost use Rattle.tap_base.specs.Ledgers.{IsBlankOf};
ghost use Rattle.keeper_core.specs.States.{IsFree};
ghost use Rattle.store_tests.specs.Usable.{AreBothUsable};

use keeper_core::Keeper;
use keeper_sql::SqlKeeper;
use sqlite::{Alter, Connection, FileStore, Files, Options};
use sqlite_disk::{Disk, Memory as MemoryFile};
use std::alloc::Global;
use std::marker::Brand;
use std::sync::ledger::{Blank, Ledger};
use tap_base::{HashKey, Memory, Steps, Text, Texts};
use tap_edges::{MemSink, MemSource};
use tap_top::tapestry;

/// A status and what was written.
pub type Ran = Result<(u8, Text), Memory>;

// Runs over a keeper.
fn run_between<P: Keeper, L: Ledger>(
    alloc: Global,
    blank: Blank,
    keeper: &mut P,
    mut source: MemSource,
    mut sink: MemSink,
) -> Ran
    requires blank { IsBlankOf L.name L.parts blank }
    requires free { IsFree P.Keeper keeper.old }
{
    let mut steps = Steps::<L>::start(blank);
    let words = Texts::new(alloc);
    let status = tapestry(
        alloc,
        HashKey::fixed(),
        &words,
        &mut source,
        &mut sink,
        keeper,
        &mut steps,
    );
    let written = Text::from_slice(alloc, sink.written());
    drop(words);
    drop(source);
    drop(sink);
    Ok((status, written?))
}

// Runs a script over a keeper.
fn run<P: Keeper, L: Ledger>(alloc: Global, blank: Blank, keeper: &mut P, script: &[u8]) -> Ran
    requires blank { IsBlankOf L.name L.parts blank }
    requires free { IsFree P.Keeper keeper.old }
{
    let text = Text::from_slice(alloc, script)?;
    let source = MemSource::new(text, Vec::new(alloc), Vec::new(alloc));
    match MemSink::new(alloc, 4096, Vec::new(alloc)) {
        Ok(sink) => run_between::<P, L>(alloc, blank, keeper, source, sink),
        Err(Memory) => {
            drop(source);
            Err(Memory)
        }
    }
}

/// Runs a script over the store of a connection, and hands that back.
pub fn run_over<A: Alter + Drop>(
    alloc: Global,
    connection: Connection<A>,
    script: &[u8],
) -> (Ran, Connection<A>)
    requires idle { connection.in_transaction ≡ false }
{
    let mut keeper = SqlKeeper::adopt(connection);
    let ran = run::<_, Brand>(alloc, Blank::new(1), &mut keeper, script);
    (ran, keeper.into_connection())
}

// Opens the files of a store.
fn opened<D: Disk + Drop>(alloc: Global, files: Files<D>) -> Option<Connection<FileStore<D>>>
    requires usable { AreBothUsable D.Disk files }
    ensures idle { IfSome result (λ connection. connection.in_transaction ≡ false) }
{
    match Connection::open_files(alloc, files, Options::new(1)) {
        Ok(connection) => Some(connection),
        Err(_) => None,
    }
}

// Closes the files of a store.
fn closed<D: Disk + Drop>(connection: Connection<FileStore<D>>) -> Option<Files<D>>
    ensures usable { IfSome result (λ files. AreBothUsable D.Disk files) }
{
    match connection.close_files() {
        Ok(files) => Some(files),
        Err((_, store)) => {
            drop(store.close());
            None
        }
    }
}

// Joins what a session ended with and the files that it left, if there are both.
fn joined<D: Disk + Drop>(ran: Ran, files: Option<Files<D>>) -> Option<(u8, Text, Files<D>)>
    requires usable { IfSome files (λ left. AreBothUsable D.Disk left) }
    ensures usable { IfSome result (λ left. AreBothUsable D.Disk left.2) }
{
    match files {
        Some(files) => match ran {
            Ok((status, written)) => Some((status, written, files)),
            Err(Memory) => {
                drop(files);
                None
            }
        },
        None => {
            drop(ran);
            None
        }
    }
}

/// Runs a session over the files of a store: its status, what it wrote, and the files as it closed
/// them.
pub fn session<D: Disk + Drop>(
    alloc: Global,
    files: Files<D>,
    script: &[u8],
) -> Option<(u8, Text, Files<D>)>
    requires usable { AreBothUsable D.Disk files }
    ensures usable { IfSome result (λ left. AreBothUsable D.Disk left.2) }
{
    match opened(alloc, files) {
        Some(connection) => {
            let (ran, connection) = run_over(alloc, connection, script);
            joined(ran, closed(connection))
        }
        None => None,
    }
}

/// Returns files without bytes.
pub fn new_files(alloc: Global) -> Files<MemoryFile>
    ensures log { IsTrue (memory_is_usable result.log) }
    ensures db { IsTrue (memory_is_usable result.db) }
{
    Files {
        log: MemoryFile::new(alloc),
        db: MemoryFile::new(alloc),
    }
}

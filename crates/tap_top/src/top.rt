//! The top call: reads the words, opens the store, and performs a script or a sample over it.
ghost use Rattle.std.specs.Prelude.{◌≡◌, ◌≢◌, ◌≤◌, ◌&&◌, ◌==◌};
ghost use Rattle.std.specs.Prelude.{ℕ, List, [], Option, Some, None, true};
ghost use Rattle.std.specs.List.{All};
ghost use Rattle.std.specs.Str.{IsUtf8};
ghost use Rattle.std.specs.Io.KnownBytes.{IsAtEnd};
ghost use Rattle.command_words.specs.Words.{path_in, sample_in};
ghost use Rattle.command_words.specs.WellWorded.{IsWellWorded, path_or_default};
ghost use Rattle.keeper_core.specs.States.{IsFree, IsPlacedUnless};
ghost use Rattle.tap_rows.specs.declared.tables.Tables.{Tables};
ghost use Rattle.script_lang.specs.Script.{script_from};
ghost use Rattle.tap_model.specs.Sessions.{no_session};
ghost use Rattle.tap_model.specs.Sound.{IsStore};
ghost use Rattle.tap_top.specs.Points.{CanOpen, CanPerform};
ghost use Rattle.tap_top.specs.Premises.{IsDurableIn, FromEngine, FromDurable, FromStore, IsCalm};
ghost use Rattle.tap_top.specs.Premises.{IfCalm, IsUndisturbed};
ghost use Rattle.tap_top.specs.Versions.{VersionAtExit};
ghost use Rattle.tap_top.specs.Answers.{Closed, ClosedCut, CutsShort};
ghost use Rattle.tap_top.specs.Statuses.{PassedScriptLimit, HoldsScript};
ghost use Rattle.tap_top.specs.Causes.{Causes, IsFault, LeavesKeeper};
ghost use Rattle.tap_top.specs.Conclusions.{RunEnds, RunEndsOver, RunLeaves};
ghost use Rattle.tap_top.specs.Prompt.{IsUpToDate};
ghost use Rattle.peer_edges.specs.Asks.{AskedOnlyWhen};
ghost use Rattle.tap_top.specs.Ends.{EngineScriptEnds, ScriptEnds};
ghost use Rattle.tap_top.specs.Refusals.{Refusals};
ghost use Rattle.tap_top.specs.Codes.{code_of, PerformedAll, is_all_ok, IsOfClose, IsOfRun};

use crate::StoreFault;
use crate::feed::{Stop, feed, finish};
use crate::opening::{OpenFault, open_store};
use crate::refusing::refuse;
use crate::sampled::sample_store;
use crate::status::Status;
use command_words::{OptionFault, read_words};
use keeper_core::Keeper;
use peer_edges::Peer;
use script_lang::ScriptReader;
use std::alloc::Global;
use std::sync::ledger::Ledger;
use tap_base::{HashKey, Steps, Text, Texts};
use tap_edges::{PIECE, Sink, least};
use tap_engine::Engine;

/// The most bytes that a script may have: 256 MiB.
pub const SCRIPT_LIMIT: usize = 268435456;

// Returns the status of a run that ended with the input.
fn status(all_ok: bool) -> Status
    ensures ok { is_all_ok result ≡ all_ok }
    ensures low { PerformedAll result }
{
    if all_ok {
        Status::AllOk
    } else {
        Status::SomeRefused
    }
}

// Performs the command that the end of input completes; returns the status of the run.
fn close<K: Sink, P: Keeper, L: Ledger>(
    alloc: Global,
    reader: &mut ScriptReader,
    engine: &mut Engine,
    keeper: &mut P,
    steps: &mut Steps<L>,
    sink: &mut K,
    all_ok: bool,
) -> Status
    requires can { CanPerform P.Keeper engine.old keeper.old }
    ensures whole { PerformedAll result → FromEngine P.Keeper engine.old keeper.old keeper.new (λ t.
        Closed t engine.old.session (script_from reader.old []) (K.out sink.old) (K.out sink.new)
        (IsDurableIn P.Keeper keeper.new) all_ok (is_all_ok result)) }
    ensures cut { CutsShort P.Keeper engine.old keeper.old keeper.new
        (K.out sink.old) (K.out sink.new) (ClosedCut (script_from reader.old []))
        (result ≡ Status.PutFailed) (result ≡ Status.KeeperFailed) }
    ensures memory { result ≡ Status.OutOfMemory → (keeper.new ≡ keeper.old)
        × ((engine.new ≡ engine.old) × (K.out sink.new ≡ K.out sink.old)) }
    ensures statuses { IsOfClose result }
    ensures puts { IsFault (result ≡ Status.PutFailed) (K.faults sink.old) (K.faults sink.new) }
    ensures leaves { LeavesKeeper P.Keeper engine.old keeper.old keeper.new
        (result ≡ Status.KeeperFailed) }
{
    match finish(alloc, reader, engine, keeper, steps, sink) {
        Ok(ok) => status(all_ok && ok),
        Err(Stop::Put) => Status::PutFailed,
        Err(Stop::Keeper) => Status::KeeperFailed,
        Err(Stop::Memory) => Status::OutOfMemory,
    }
}

// Reads the source and performs the commands as they come; returns the status of the run.
fn run<S: Peer<K>, K: Sink, P: Keeper, L: Ledger>(
    alloc: Global,
    source: &mut S,
    sink: &mut K,
    engine: &mut Engine,
    keeper: &mut P,
    steps: &mut Steps<L>,
) -> Status
    requires can { CanPerform P.Keeper engine.old keeper.old }
    requires session { engine.old.session ≡ no_session }
    ensures ends { FromEngine P.Keeper engine.old keeper.old keeper.new (λ t.
        EngineScriptEnds result t (S.left source.old) (S.left source.new) (K.out sink.old)
        (K.out sink.new)
        (P.tells keeper.new) (P.may_leave keeper.new)) }
    ensures prompt { FromEngine P.Keeper engine.old keeper.old keeper.new (λ t.
        AskedOnlyWhen (λ l o. IsUpToDate t (S.left source.old) l (K.out sink.old) o)
        (S.was_asked source.old) (S.was_asked source.new)) }
    ensures many { result ≡ Status.ScriptTooLong
        → PassedScriptLimit (S.left source.old) (S.left source.new) }
    ensures statuses { IsOfRun result }
    ensures reads { IsFault (result ≡ Status.ReadFailed)
        (S.faults source.old) (S.faults source.new) }
    ensures puts { IsFault (result ≡ Status.PutFailed) (K.faults sink.old) (K.faults sink.new) }
    ensures ended { PerformedAll result → IsAtEnd (S.left source.new) }
    ensures leaves { LeavesKeeper P.Keeper engine.old keeper.old keeper.new
        (result ≡ Status.KeeperFailed) }
{
    let mut reader = ScriptReader::new(alloc);
    let mut piece = [0u8; PIECE];
    let mut taken = 0;
    let mut all_ok = true;
    'pieces: while taken <= SCRIPT_LIMIT {
        let n = match source.ask(sink, &mut piece) {
            Ok(n) => n,
            Err(_) => return Status::ReadFailed,
        };
        if n == 0 {
            return close(alloc, &mut reader, engine, keeper, steps, sink, all_ok);
        }
        let room = least(n, SCRIPT_LIMIT - taken);
        taken += n;
        match feed(
            alloc,
            &mut reader,
            &piece[..room],
            engine,
            keeper,
            steps,
            sink,
        ) {
            Ok(ok) => all_ok &= ok,
            Err(Stop::Put) => return Status::PutFailed,
            Err(Stop::Keeper) => return Status::KeeperFailed,
            Err(Stop::Memory) => return Status::OutOfMemory,
        }
    }
    Status::ScriptTooLong
}

// Attaches the keeper at a path, checks its tables, and performs the commands of the source;
// returns the status of the run.
fn run_store<S: Peer<K>, K: Sink, P: Keeper, L: Ledger>(
    alloc: Global,
    key: HashKey,
    path: &Text,
    source: &mut S,
    sink: &mut K,
    keeper: &mut P,
    steps: &mut Steps<L>,
) -> Status
    requires can { CanOpen P.Keeper keeper.old path.now }

    // How the script ended over a store that a session left.
    ensures script { FromStore P.Keeper keeper.old keeper.new (λ t.
        ScriptEnds (code_of result) t (S.left source.old) (S.left source.new) (K.out sink.old)
        (K.out sink.new)
        (P.has_version keeper.old) (P.tells keeper.new) (P.may_leave keeper.new)) }
    ensures prompt { FromStore P.Keeper keeper.old keeper.new (λ t.
        AskedOnlyWhen (λ l o. IsUpToDate t (S.left source.old) l (K.out sink.old) o)
        (S.was_asked source.old) (S.was_asked source.new)) }
    ensures kept { FromStore P.Keeper keeper.old keeper.new (λ t.
        (x : Tables) → P.may_leave keeper.new x → IsStore x) }
    ensures version { FromStore P.Keeper keeper.old keeper.new (λ t.
        VersionAtExit (code_of result) (P.has_version keeper.old) (P.has_version keeper.new)) }

    // A store is refused if and only if its version isn't known or one of its rows is damaged.
    ensures refusals { Refusals P.Keeper keeper.old keeper.new (code_of result)
        (S.left source.old) (S.left source.new) (K.out sink.old) (K.out sink.new) }

    // When each status comes.
    ensures causes { Causes (code_of result) (S.faults source.old) (S.faults source.new)
        (K.faults sink.old) (K.faults sink.new)
        (P.faults keeper.old) (P.faults keeper.new) (P.stopped keeper.new) }
    ensures many { result ≡ Status.ScriptTooLong
        → PassedScriptLimit (S.left source.old) (S.left source.new) }
    ensures ended { PerformedAll result → IsAtEnd (S.left source.new) }
    ensures complete { HoldsScript (S.left source.old) →
        IfCalm (S.faults source.old) (S.faults source.new) (K.faults sink.old) (K.faults sink.new)
        (P.faults keeper.old) (P.faults keeper.new) (IsUndisturbed (code_of result)) }
    ensures statuses { (code_of result ≤ 8) × (result ≢ Status.WordsRefused) }
    ensures path { IsPlacedUnless (result ≡ Status.OutOfMemory) (P.path keeper.old)
        (P.path keeper.new) path.now }
{
    match open_store(alloc, key, path, keeper) {
        Ok(mut engine) => {
            let status = run(alloc, source, sink, &mut engine, keeper, steps);
            drop(engine);
            status
        }
        Err(OpenFault::Refused(fault)) => refuse(fault, sink),
        Err(OpenFault::Keeper) => Status::KeeperFailed,
        Err(OpenFault::Memory) => Status::OutOfMemory,
    }
}

/// Runs the mail filter: reads the words of the command line, attaches the keeper at the path that
/// they name, checks its tables, and performs the commands of the source. It reads pieces of at
/// most 65,536 bytes, performs each command when its last line is read, and puts its reply before
/// the next command. If the words ask for a sample, its commands are performed in place of the
/// source's, no reply is put, and the lines of its summary are put at the end. No reply depends on
/// the key, under which texts are hashed.
///
/// Returns the status:
/// - 0: all commands were performed, and every reply begins `ok`;
/// - 1: all commands were performed, and some reply doesn't begin `ok`;
/// - 2: the words are refused; nothing was attached, read or written;
/// - 3: a read failed;
/// - 4: a put failed;
/// - 5: the keeper failed; the command that it failed at has no reply;
/// - 6: the store is refused; one line says why, and nothing was read;
/// - 7: out of memory, with a sample also while a command was performed;
/// - 8: the script has more than 268,435,456 bytes.
pub fn tapestry<S: Peer<K>, K: Sink, P: Keeper, L: Ledger>(
    alloc: Global,
    key: HashKey,
    words: &Texts,
    source: &mut S,
    sink: &mut K,
    keeper: &mut P,
    steps: &mut Steps<L>,
) -> u8
    requires free { IsFree P.Keeper keeper.old }
    requires texts { All IsUtf8 words.now }

    // When each status comes, and what was read and written, whatever the store is.
    ensures ends { RunEnds words.now result (S.left source.old) (S.left source.new)
        (K.out sink.old) (K.out sink.new) (S.faults source.old) (S.faults source.new)
        (K.faults sink.old) (K.faults sink.new) }

    // Over the tables of a store: how a script or a sample ended, what a crash leaves, with which
    // version, and when the store is refused.
    ensures over { FromDurable P.Keeper keeper.old keeper.new (λ t. RunEndsOver words.now result
        (S.left source.old) (S.left source.new) (K.out sink.old) (K.out sink.new)
        (S.was_asked source.old) (S.was_asked source.new) t (P.has_version keeper.old)
        (P.has_version keeper.new) (P.tells keeper.new) (P.may_leave keeper.new)) }

    // Where the keeper is, and when it has failed.
    ensures leaves { RunLeaves P.Keeper keeper.old keeper.new result (path_in words.now) }

    // What well-worded words ask for.
    ensures named { (path : Option (List ℕ)) (number : Option ℕ)
        → IsWellWorded words.now path number →
        (path_in words.now ≡ path_or_default path) × (sample_in words.now ≡ number) }

    // If nothing fails, the run ends with its commands, at a refused store, or out of memory.
    ensures complete { (path : Option (List ℕ)) → IsWellWorded words.now path None
        → HoldsScript (S.left source.old) →
        IfCalm (S.faults source.old) (S.faults source.new) (K.faults sink.old) (K.faults sink.new)
        (P.faults keeper.old) (P.faults keeper.new) (IsUndisturbed result) }
    ensures sample_complete { (path : Option (List ℕ)) (n : ℕ)
        → IsWellWorded words.now path (Some n) →
        IsCalm (K.faults sink.old) (K.faults sink.new) →
        IsCalm (P.faults keeper.old) (P.faults keeper.new) →
        IsUndisturbed result }
{
    let asked = match read_words(alloc, words) {
        Ok(asked) => asked,
        Err(OptionFault::Refused) => return Status::WordsRefused.code(),
        Err(OptionFault::Memory) => return Status::OutOfMemory.code(),
    };
    match asked.sample {
        Some(n) => sample_store(alloc, key, &asked.path, n, sink, keeper, steps).code(),
        None => run_store(alloc, key, &asked.path, source, sink, keeper, steps).code(),
    }
}

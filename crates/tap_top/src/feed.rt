//! Commands one by one: each is performed when its last line is read, and its reply is put before
//! the next one.
ghost use Rattle.std.specs.Prelude.{◌≡◌, ◌≤◌, ◌<◌, [], ◌∷◌, Some, None, true, length, take};
ghost use Rattle.std.specs.Prelude.{OnOk, IfOk, IsErrOf};
ghost use Rattle.script_lang.specs.Replies.{is_accepted};
ghost use Rattle.script_lang.specs.Script.{script_from, complete_from};
ghost use Rattle.tap_top.specs.Points.{CanPerform};
ghost use Rattle.tap_top.specs.Premises.{IsDurableIn, AgreeOn, FromEngine};
ghost use Rattle.tap_top.specs.Causes.{IsFault, LeavesKeeper};
ghost use Rattle.tap_top.specs.Answers.{Answered, ClosedCut, CutsShort};
ghost use Rattle.tap_top.specs.Pieces.{PieceAnswered, PieceCut, PieceOutOfMemory};
ghost use Rattle.tap_top.specs.declared.feed.Stop.{Stop};

use keeper_core::Keeper;
use script_lang::{Command, Got, Reply, ScriptReader, put_reply};
use std::alloc::Global;
use std::sync::ledger::Ledger;
use tap_base::Steps;
use tap_edges::{Sink, rest_from};
use tap_engine::{Engine, EngineFault};

/// Why no more commands are performed.
#[derive(Clone, Copy, Debug, PartialEq, Eq)]
pub enum Stop {
    /// A reply could not be put.
    Put,
    /// The keeper failed.
    Keeper,
    /// The reader is out of memory.
    Memory,
}

// Returns whether the reply begins `ok`.
fn is_ok(reply: &Reply) -> bool
    ensures { result ≡ is_accepted reply.now }
{
    match reply {
        Reply::No(_) => false,
        _ => true,
    }
}

/// Performs a command and puts its reply; returns whether the reply begins `ok`. Fails if the
/// keeper fails, and then nothing is put, or if the put fails.
pub fn answer<K: Sink, P: Keeper, L: Ledger>(
    alloc: Global,
    engine: &mut Engine,
    keeper: &mut P,
    command: Command,
    steps: &mut Steps<L>,
    sink: &mut K,
) -> Result<bool, Stop>
    requires can { CanPerform P.Keeper engine.old keeper.old }
    ensures ok { IfOk result (λ ok. FromEngine P.Keeper engine.old keeper.old keeper.new (λ t.
        Answered t engine.old.session (command ∷ []) (K.out sink.old) (K.out sink.new)
        (AgreeOn P.Keeper engine.new keeper.new) engine.new.session ok)) }
    ensures cut { CutsShort P.Keeper engine.old keeper.old keeper.new
        (K.out sink.old) (K.out sink.new) (λ Cut. Cut [] command)
        (IsErrOf result Stop.Put) (IsErrOf result Stop.Keeper) }
    ensures able { IsErrOf result Stop.Memory → ⊥ }
    ensures can { OnOk result (CanPerform P.Keeper engine.new keeper.new) }
    ensures puts { IsFault (IsErrOf result Stop.Put) (K.faults sink.old) (K.faults sink.new) }
    ensures leaves { LeavesKeeper P.Keeper engine.old keeper.old keeper.new
        (IsErrOf result Stop.Keeper) }
{
    let reply = match engine.perform(alloc, keeper, command, steps) {
        Ok(reply) => reply,
        Err(EngineFault::KeeperFailed) => return Err(Stop::Keeper),
    };
    match put_reply(&reply, sink) {
        Ok(()) => Ok(is_ok(&reply)),
        Err(_) => Err(Stop::Put),
    }
}

// How many bytes a line took, and whether the reply to the command that it completed begins `ok`.
#[derive(Clone, Copy, Debug, PartialEq, Eq)]
struct LineTaken {
    used: usize,
    ok: bool,
}

// Takes the next line of a piece, and performs the command that it completes.
fn take_one<K: Sink, P: Keeper, L: Ledger>(
    alloc: Global,
    reader: &mut ScriptReader,
    piece: &[u8],
    engine: &mut Engine,
    keeper: &mut P,
    steps: &mut Steps<L>,
    sink: &mut K,
) -> Result<LineTaken, Stop>
    requires some { 0 < length piece.now }
    requires can { CanPerform P.Keeper engine.old keeper.old }
    ensures within { IfOk result (λ step. (0 < step.used) × (step.used ≤ length piece.now)) }
    ensures open { OnOk result (complete_from reader.new [] ≡ []) }
    ensures ok { IfOk result (λ step. FromEngine P.Keeper engine.old keeper.old keeper.new (λ t.
        PieceAnswered (take step.used piece.now) reader.old reader.new t
        engine.old.session (K.out sink.old) (K.out sink.new)
        (AgreeOn P.Keeper engine.new keeper.new) engine.new.session step.ok)) }
    ensures cut { CutsShort P.Keeper engine.old keeper.old keeper.new
        (K.out sink.old) (K.out sink.new) (PieceCut piece.now reader.old)
        (IsErrOf result Stop.Put) (IsErrOf result Stop.Keeper) }
    ensures memory { IsErrOf result Stop.Memory → (keeper.new ≡ keeper.old)
        × ((engine.new ≡ engine.old) × (K.out sink.new ≡ K.out sink.old)) }
    ensures can { OnOk result (CanPerform P.Keeper engine.new keeper.new) }
    ensures puts { IsFault (IsErrOf result Stop.Put) (K.faults sink.old) (K.faults sink.new) }
    ensures leaves { LeavesKeeper P.Keeper engine.old keeper.old keeper.new
        (IsErrOf result Stop.Keeper) }
{
    let got = match reader.take(piece) {
        Ok(got) => got,
        Err(_) => return Err(Stop::Memory),
    };
    let Got { used, command } = got;
    match command {
        None => Ok(LineTaken { used, ok: true }),
        Some(command) => match answer(alloc, engine, keeper, command, steps, sink) {
            Ok(ok) => Ok(LineTaken { used, ok }),
            Err(stop) => Err(stop),
        },
    }
}

/// Performs the commands that a piece completes, and puts each reply before the next command;
/// returns whether all replies begin `ok`.
pub fn feed<K: Sink, P: Keeper, L: Ledger>(
    alloc: Global,
    reader: &mut ScriptReader,
    piece: &[u8],
    engine: &mut Engine,
    keeper: &mut P,
    steps: &mut Steps<L>,
    sink: &mut K,
) -> Result<bool, Stop>
    requires open { complete_from reader.old [] ≡ [] }
    requires can { CanPerform P.Keeper engine.old keeper.old }
    ensures open { OnOk result (complete_from reader.new [] ≡ []) }
    ensures ok { IfOk result (λ ok. FromEngine P.Keeper engine.old keeper.old keeper.new (λ t.
        PieceAnswered piece.now reader.old reader.new t engine.old.session (K.out sink.old)
        (K.out sink.new)
        (AgreeOn P.Keeper engine.new keeper.new) engine.new.session ok)) }
    ensures cut { CutsShort P.Keeper engine.old keeper.old keeper.new
        (K.out sink.old) (K.out sink.new) (PieceCut piece.now reader.old)
        (IsErrOf result Stop.Put) (IsErrOf result Stop.Keeper) }
    ensures memory { IsErrOf result Stop.Memory
        → FromEngine P.Keeper engine.old keeper.old keeper.new (λ t.
        PieceOutOfMemory piece.now reader.old t engine.old.session (K.out sink.old) (K.out sink.new)
        (IsDurableIn P.Keeper keeper.new)) }
    ensures can { OnOk result (CanPerform P.Keeper engine.new keeper.new) }
    ensures puts { IsFault (IsErrOf result Stop.Put) (K.faults sink.old) (K.faults sink.new) }
    ensures leaves { LeavesKeeper P.Keeper engine.old keeper.old keeper.new
        (IsErrOf result Stop.Keeper) }
{
    let mut all_ok = true;
    let mut rest = piece;
    while !rest.is_empty() {
        match take_one(alloc, reader, rest, engine, keeper, steps, sink) {
            Ok(step) => {
                all_ok &= step.ok;
                rest = rest_from(rest, step.used);
            }
            Err(Stop::Put) => return Err(Stop::Put),
            Err(Stop::Keeper) => return Err(Stop::Keeper),
            Err(Stop::Memory) => return Err(Stop::Memory),
        }
    }
    Ok(all_ok)
}

/// Performs the command that the end of input completes or cuts off, if there is one; returns
/// whether its reply begins `ok`.
pub fn finish<K: Sink, P: Keeper, L: Ledger>(
    alloc: Global,
    reader: &mut ScriptReader,
    engine: &mut Engine,
    keeper: &mut P,
    steps: &mut Steps<L>,
    sink: &mut K,
) -> Result<bool, Stop>
    requires can { CanPerform P.Keeper engine.old keeper.old }
    ensures ok { IfOk result (λ ok. FromEngine P.Keeper engine.old keeper.old keeper.new (λ t.
        Answered t engine.old.session (script_from reader.old []) (K.out sink.old) (K.out sink.new)
        (AgreeOn P.Keeper engine.new keeper.new) engine.new.session ok)) }
    ensures cut { CutsShort P.Keeper engine.old keeper.old keeper.new
        (K.out sink.old) (K.out sink.new) (ClosedCut (script_from reader.old []))
        (IsErrOf result Stop.Put) (IsErrOf result Stop.Keeper) }
    ensures memory { IsErrOf result Stop.Memory → (keeper.new ≡ keeper.old)
        × ((engine.new ≡ engine.old) × (K.out sink.new ≡ K.out sink.old)) }
    ensures puts { IsFault (IsErrOf result Stop.Put) (K.faults sink.old) (K.faults sink.new) }
    ensures leaves { LeavesKeeper P.Keeper engine.old keeper.old keeper.new
        (IsErrOf result Stop.Keeper) }
{
    match reader.finish() {
        Ok(None) => Ok(true),
        Ok(Some(command)) => match answer(alloc, engine, keeper, command, steps, sink) {
            Ok(ok) => Ok(ok),
            Err(stop) => Err(stop),
        },
        Err(_) => Err(Stop::Memory),
    }
}

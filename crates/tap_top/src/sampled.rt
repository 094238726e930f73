//! A sample: its commands are performed without replies, and the lines of its summary are put at
//! the end.
ghost use Rattle.std.specs.Prelude.{◌≡◌, ◌≢◌, ◌+◌, ◌⊎◌, ◌↔◌, ◌==◌, ℕ, List, [], ◌∷◌, Option, Some};
ghost use Rattle.std.specs.Prelude.{None};
ghost use Rattle.std.specs.Prelude.{true, false, length, OnOk, IfOk, IfSome, IsErrOf};
ghost use Rattle.std.specs.Io.KnownBytes.{Appends};
ghost use Rattle.sample_gen.specs.Samples.{IsSampleSize};
ghost use Rattle.tap_base.specs.Counts.{Rose};
ghost use Rattle.keeper_core.specs.States.{IsPlacedUnless};
ghost use Rattle.script_lang.specs.declared.reply.Reply.{Reply as ReplyOf};
ghost use Rattle.script_lang.specs.declared.refusal.Refusal.{Refusal as RefusalOf};
ghost use Rattle.sample_gen.specs.Summaries.{summary_lines};
ghost use Rattle.tap_model.specs.Sessions.{no_session};
ghost use Rattle.tap_top.specs.declared.sampled.Cut.{Cut};
ghost use Rattle.tap_top.specs.Codes.{code_of, PerformedAll, is_all_ok, IsOfClose};
ghost use Rattle.tap_top.specs.Refusals.{Refusals};
ghost use Rattle.tap_top.specs.Points.{CanOpen, CanPerform};
ghost use Rattle.tap_top.specs.Premises.{IsDurableIn, AgreeOn, FromEngine, FromStore};
ghost use Rattle.tap_top.specs.Causes.{IsFault, LeavesKeeper};
ghost use Rattle.tap_top.specs.Versions.{VersionAtExit};
ghost use Rattle.tap_top.specs.Ends.{EngineSampleEnds, SampleEnds};
ghost use Rattle.tap_top.specs.Samples.{refusals_in, hits_in, PassesEnd, Performed, Counted, Adds};
ghost use Rattle.tap_top.specs.Samples.{FirstPerformed, NextUncommitted, FrontPut};

use crate::opening::{OpenFault, open_store};
use crate::refusing::refuse;
use crate::status::Status;
use crate::tally::Tally;
use keeper_core::Keeper;
use sample_gen::{Summary, sample};
use script_lang::{Command, Refusal, Reply};
use std::alloc::Global;
use std::sync::ledger::Ledger;
use tap_base::{HashKey, Rows, Steps, Text};
use tap_edges::Sink;
use tap_engine::{Engine, EngineFault};

/// Why some commands of a sample were not performed.
#[derive(Clone, Copy, Debug, PartialEq, Eq)]
pub enum Cut {
    /// The keeper failed.
    Keeper,
    /// A command, or the count of its reply, was out of memory.
    Memory,
}

// Counts a reply; returns `None` if it says that there was no memory, or if a count would pass the
// end of its type.
fn count(tally: Tally, reply: &Reply) -> Option<Tally>
    ensures refused { IfSome result (λ counted.
        counted.refused ≡ tally.refused + refusals_in reply.now) }
    ensures delivered { IfSome result (λ counted.
        counted.delivered ≡ tally.delivered + hits_in reply.now) }
    ensures able { IfSome result (λ counted. reply.now ≢ ReplyOf.No RefusalOf.Memory) }
    ensures none { result ≡ None
        → (reply.now ≡ ReplyOf.No RefusalOf.Memory) ⊎ PassesEnd tally reply.now }
{
    match reply {
        Reply::No(Refusal::Memory) => None,
        _ => tally.with(reply),
    }
}

// Performs a command and counts its reply. Fails if the keeper fails, or if the command is out of
// memory.
fn perform_one<P: Keeper, L: Ledger>(
    alloc: Global,
    engine: &mut Engine,
    keeper: &mut P,
    command: Command,
    steps: &mut Steps<L>,
    tally: Tally,
) -> Result<Tally, Cut>
    requires can { CanPerform P.Keeper engine.old keeper.old }
    ensures ok { IfOk result (λ counted. FromEngine P.Keeper engine.old keeper.old keeper.new (λ t.
        Performed t engine.old.session (command ∷ [])
        (λ replies x. AgreeOn P.Keeper engine.new keeper.new x × Adds tally counted replies)
        engine.new.session)) }
    ensures memory { IsErrOf result Cut.Memory
        → FromEngine P.Keeper engine.old keeper.old keeper.new (λ t.
        FirstPerformed t engine.old.session (command ∷ []) (IsDurableIn P.Keeper keeper.new)) }
    ensures keeper { IsErrOf result Cut.Keeper
        → FromEngine P.Keeper engine.old keeper.old keeper.new (λ t.
        NextUncommitted t engine.old.session (command ∷ []) (P.may_leave keeper.new)) }
    ensures can { OnOk result (CanPerform P.Keeper engine.new keeper.new) }
    ensures leaves { LeavesKeeper P.Keeper engine.old keeper.old keeper.new
        (IsErrOf result Cut.Keeper) }
{
    let reply = match engine.perform(alloc, keeper, command, steps) {
        Ok(reply) => reply,
        Err(EngineFault::KeeperFailed) => return Err(Cut::Keeper),
    };
    match count(tally, &reply) {
        Some(tally) => Ok(tally),
        None => Err(Cut::Memory),
    }
}

// Performs the commands; returns the counts of their replies. Stops at the first command that is
// out of memory.
fn perform_all<P: Keeper, L: Ledger>(
    alloc: Global,
    engine: &mut Engine,
    keeper: &mut P,
    commands: Rows<Command>,
    steps: &mut Steps<L>,
) -> Result<Tally, Cut>
    requires can { CanPerform P.Keeper engine.old keeper.old }
    ensures ok { IfOk result (λ tally. FromEngine P.Keeper engine.old keeper.old keeper.new (λ t.
        Performed t engine.old.session commands
        (λ replies x. AgreeOn P.Keeper engine.new keeper.new x × Counted tally replies)
        engine.new.session)) }
    ensures memory { IsErrOf result Cut.Memory
        → FromEngine P.Keeper engine.old keeper.old keeper.new (λ t.
        FirstPerformed t engine.old.session commands (IsDurableIn P.Keeper keeper.new)) }
    ensures keeper { IsErrOf result Cut.Keeper
        → FromEngine P.Keeper engine.old keeper.old keeper.new (λ t.
        NextUncommitted t engine.old.session commands (P.may_leave keeper.new)) }
    ensures can { OnOk result (CanPerform P.Keeper engine.new keeper.new) }
    ensures leaves { LeavesKeeper P.Keeper engine.old keeper.old keeper.new
        (IsErrOf result Cut.Keeper) }
{
    let mut tally = Tally::new();
    for command in commands.into_vec() {
        match perform_one(alloc, engine, keeper, command, steps, tally) {
            Ok(counted) => tally = counted,
            Err(Cut::Keeper) => return Err(Cut::Keeper),
            Err(Cut::Memory) => return Err(Cut::Memory),
        }
    }
    Ok(tally)
}

// Returns the summary of a sample that was performed to its end.
fn sum_up(n: u32, commands: usize, tally: Tally, engine: &Engine) -> Summary
    ensures { result ≡ record {
      messages = n;
      commands = commands;
      refused = tally.refused;
      documents = length engine.now.index.docs;
      notes = length engine.now.index.notes;
      delivered = tally.delivered;
    } }
{
    Summary {
        messages: n,
        commands,
        refused: tally.refused,
        documents: engine.docs(),
        notes: engine.notes(),
        delivered: tally.delivered,
    }
}

// Puts the lines of a summary; returns the status of the run.
fn put_summary<K: Sink>(summary: Summary, sink: &mut K) -> Status
    ensures statuses { PerformedAll result ⊎ result ≡ Status.PutFailed }
    ensures ok { PerformedAll result → is_all_ok result ≡ (summary.refused == 0) }
    ensures whole { PerformedAll result
        → Appends (K.out sink.old) (K.out sink.new) (summary_lines summary) }
    ensures cut { result ≡ Status.PutFailed
        → FrontPut (summary_lines summary) (K.out sink.old) (K.out sink.new) }
    ensures puts { IsFault (result ≡ Status.PutFailed) (K.faults sink.old) (K.faults sink.new) }
{
    match sink.put(summary.lines().as_slice()) {
        Ok(()) if summary.refused == 0 => Status::AllOk,
        Ok(()) => Status::SomeRefused,
        Err(_) => Status::PutFailed,
    }
}

// Performs the commands of a sample and puts its summary; returns the status of the run.
fn run_sample<K: Sink, P: Keeper, L: Ledger>(
    alloc: Global,
    n: u32,
    sink: &mut K,
    engine: &mut Engine,
    keeper: &mut P,
    steps: &mut Steps<L>,
) -> Status
    requires size { IsSampleSize n }
    requires can { CanPerform P.Keeper engine.old keeper.old }
    requires session { engine.old.session ≡ no_session }
    ensures ends { FromEngine P.Keeper engine.old keeper.old keeper.new (λ t.
        EngineSampleEnds result t n (K.out sink.old) (K.out sink.new) (P.tells keeper.new)
        (P.may_leave keeper.new)) }
    ensures silent { (result ≡ Status.KeeperFailed) ⊎ (result ≡ Status.OutOfMemory)
        → K.out sink.new ≡ K.out sink.old }
    ensures statuses { IsOfClose result }
    ensures puts { IsFault (result ≡ Status.PutFailed) (K.faults sink.old) (K.faults sink.new) }
    ensures leaves { LeavesKeeper P.Keeper engine.old keeper.old keeper.new
        (result ≡ Status.KeeperFailed) }
{
    let Ok(commands) = sample(alloc, n) else {
        return Status::OutOfMemory;
    };
    let count = commands.len();
    let tally = match perform_all(alloc, engine, keeper, commands, steps) {
        Ok(tally) => tally,
        Err(Cut::Keeper) => return Status::KeeperFailed,
        Err(Cut::Memory) => return Status::OutOfMemory,
    };
    let summary = sum_up(n, count, tally, engine);
    put_summary(summary, sink)
}

/// Attaches the keeper at a path, checks its tables, performs the commands of a sample with `n`
/// messages, and puts its summary; returns the status of the run. No replies are put.
pub fn sample_store<K: Sink, P: Keeper, L: Ledger>(
    alloc: Global,
    key: HashKey,
    path: &Text,
    n: u32,
    sink: &mut K,
    keeper: &mut P,
    steps: &mut Steps<L>,
) -> Status
    requires size { IsSampleSize n }
    requires can { CanOpen P.Keeper keeper.old path.now }

    // How the sample ended over a store that a session left.
    ensures sample { FromStore P.Keeper keeper.old keeper.new (λ t.
        SampleEnds (code_of result) t n (K.out sink.old) (K.out sink.new)
        (P.has_version keeper.old) (P.tells keeper.new) (P.may_leave keeper.new)) }
    ensures silent { (result ≡ Status.KeeperFailed) ⊎ (result ≡ Status.OutOfMemory)
        → K.out sink.new ≡ K.out sink.old }
    ensures version { FromStore P.Keeper keeper.old keeper.new (λ t.
        VersionAtExit (code_of result) (P.has_version keeper.old) (P.has_version keeper.new)) }

    // A store is refused if and only if its version isn't known or one of its rows is damaged.
    ensures refusals { (left : Option (List ℕ))
        → Refusals P.Keeper keeper.old keeper.new (code_of result)
        left left (K.out sink.old) (K.out sink.new) }

    // When each status comes.
    ensures puts { IsFault (result ≡ Status.PutFailed) (K.faults sink.old) (K.faults sink.new) }
    ensures stopped { (P.stopped keeper.new ≡ true) ↔ (result ≡ Status.KeeperFailed) }
    ensures kept_cause { result ≡ Status.KeeperFailed
        → Rose (P.faults keeper.old) (P.faults keeper.new) }
    ensures kept_calm { P.stopped keeper.new ≡ false → P.faults keeper.new ≡ P.faults keeper.old }
    ensures statuses { IsOfClose result ⊎ (result ≡ Status.StoreRefused) }
    ensures path { IsPlacedUnless (result ≡ Status.OutOfMemory) (P.path keeper.old)
        (P.path keeper.new) path.now }
{
    match open_store(alloc, key, path, keeper) {
        Ok(mut engine) => {
            let status = run_sample(alloc, n, sink, &mut engine, keeper, steps);
            drop(engine);
            status
        }
        Err(OpenFault::Refused(fault)) => refuse(fault, sink),
        Err(OpenFault::Keeper) => Status::KeeperFailed,
        Err(OpenFault::Memory) => Status::OutOfMemory,
    }
}

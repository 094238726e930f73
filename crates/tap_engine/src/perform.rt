//! One command, one step, one commit: what a command is answered, and what it changes.

ghost use Rattle.std.specs.Prelude.{◌≡◌, false, OnErr, IfOk, IfErr};
ghost use Rattle.keeper_core.specs.States.{IsAttached};

use crate::engine::Engine;
use crate::fault::EngineFault;
use crate::prepared::Prepared;
use keeper_core::{CommitFault, Keeper};
use script_lang::{Command, Refusal, Reply};
use std::alloc::Global;
use std::sync::ledger::Ledger;
use tap_base::Steps;

impl Engine {
    ghost use Rattle.tap_engine.specs.Ready.{IsReady};
    ghost use Rattle.tap_engine.specs.Answering.{Prepares, RefusesSoundly};
    ghost use Rattle.tap_engine.specs.Performing.{Performs, CommitsStep, FailsByKeeper};
    ghost use Rattle.tap_engine.specs.Answering.{IsUnchangedButHits, fault_answer, fault_engine};
    ghost use Rattle.tap_engine.specs.Costs.{TakesFewSteps};

    // Takes all memory that a command needs, and adds its rows to the engine, unless the command is
    // refused.
    fn prepare<L: Ledger>(
        &mut self,
        alloc: Global,
        command: Command,
        steps: &mut Steps<L>,
    ) -> Result<Prepared, Refusal>
        requires ready { IsReady self.old }
        ensures ok { IfOk result (Prepares self.old command self.new) }
        ensures refusal { IfErr result (RefusesSoundly self.old command) }
        ensures err { OnErr result (IsUnchangedButHits self.new self.old) }
        ensures steps { TakesFewSteps self.old command steps.old steps.new }
    {
        match command {
            Command::At(text) => self.at(text.as_slice()),
            Command::AsUser(name) => self.as_user(name),
            Command::Mail(block) => self.mail(alloc, block),
            Command::Mbox(block) => self.mbox(alloc, block),
            Command::Define { name, source } => self.define(alloc, name, source),
            Command::AddNote {
                doc,
                kind,
                value,
                text,
            } => self.note(doc, kind, value, text),
            Command::Run(name) => self.run(alloc, name.as_slice(), steps),
            Command::Filter(block) => self.filter(alloc, block),
            Command::BoxOf(name) => Prepared::read(self.show_box(alloc, name)),
            Command::ListOf(name) => Prepared::read(self.show_list(alloc, name, steps)),
            Command::Explain(name) => Prepared::read(self.explain(alloc, name)),
            Command::Ask { moment, source } => {
                Prepared::read(self.ask(alloc, moment.as_slice(), source.as_slice(), steps))
            }
            Command::Wake(name) => Prepared::read(self.show_wake(alloc, name, steps)),
            Command::ScoresOf(kind) => Prepared::read(self.show_scores(alloc, kind)),
            Command::DigestOf { name, ordinal } => {
                Prepared::read(self.show_digest(alloc, name, ordinal, steps))
            }
            Command::Find(lookup) => Prepared::read(self.find(alloc, lookup, steps)),
            Command::Bad(refusal) => Err(refusal),
        }
    }

    // Gives what is returned if the keeper didn't commit, and stops the engine if the keeper
    // failed.
    fn not_committed(&mut self, fault: CommitFault) -> Result<Reply, EngineFault>
        ensures { (result ≡ fault_answer fault) × (self.new ≡ fault_engine fault self.old) }
    {
        match fault {
            CommitFault::Memory => Ok(Reply::No(Refusal::Memory)),
            CommitFault::Failed => {
                self.stopped = true;
                Err(EngineFault::KeeperFailed)
            }
        }
    }

    /// Performs a command and returns the reply to it. It takes all memory first, then commits once
    /// if the command adds rows, and takes no memory after that. If the command is refused or out
    /// of memory, the engine (but for its buffer of hits) and the keeper's tables are unchanged. It
    /// is never out of memory for `at` and `counts`, nor for a command that is refused by a check
    /// before the text of a query or a filter is read, a mailbox file is cut, or the runs of a
    /// digest are counted. It fails only if the keeper fails, and the engine is stopped then. A
    /// step is a row that the index hands out.
    pub fn perform<P: Keeper, L: Ledger>(
        &mut self,
        alloc: Global,
        keeper: &mut P,
        command: Command,
        steps: &mut Steps<L>,
    ) -> Result<Reply, EngineFault>
        requires running { self.old.stopped ≡ false }
        requires ready { IsReady self.old }
        requires attached { IsAttached P.Keeper keeper.old }

        // The reply and the step, over the tables that the engine represents. What was delivered
        // matters only to a command that looks at it.
        ensures answer { Performs self.old command result self.new }

        // The rows that it takes from the index, whatever the answer is.
        ensures steps { TakesFewSteps self.old command steps.old steps.new }

        // What the keeper's store has, what a crash leaves, and the store's version, if the keeper
        // is honest.
        ensures stores { CommitsStep P.Keeper self.old command result keeper.old keeper.new }

        // It fails only if the keeper fails, and only for a command that adds rows.
        ensures keeper { FailsByKeeper P.Keeper self.old command result self.new
            keeper.old keeper.new }
    {
        let Prepared {
            reply,
            change,
            undo,
        } = match self.prepare(alloc, command, steps) {
            Ok(prepared) => prepared,
            Err(refusal) => return Ok(Reply::No(refusal)),
        };
        let Some(change) = change else {
            drop(undo);
            return Ok(reply);
        };
        match keeper.commit(&change) {
            Ok(()) => {
                drop(change);
                drop(undo);
                Ok(reply)
            }
            Err(fault) => {
                drop(change);
                self.undo_rows(undo);
                self.not_committed(fault)
            }
        }
    }
}

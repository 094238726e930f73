//! The scores of documents by the votes on them.

ghost use Rattle.std.specs.Prelude.{IfOk, IfErr};
ghost use Rattle.script_lang.specs.declared.command.Command.{Command};

use crate::engine::Engine;
use crate::sessions::refuse_name;
use script_lang::{Refusal, Reply};
use std::alloc::Global;
use tap_base::Text;

impl Engine {
    ghost use Rattle.tap_engine.specs.Answering.{IsReplyTo, RefusesAsModel};

    // Adds up the votes of the notes of a kind, for each document that has one. No note is looked
    // at: the tally is in memory.
    pub(crate) fn show_scores(&self, alloc: Global, kind: Text) -> Result<Reply, Refusal>
        ensures ok { IfOk result (IsReplyTo self.now (Command.ScoresOf kind)) }
        ensures refusal { IfErr result (RefusesAsModel self.now (Command.ScoresOf kind)) }
    {
        refuse_name(kind.as_slice())?;
        let rows = self.votes.of_kind(alloc, kind.as_slice())?;
        Ok(Reply::ScoresOf { kind, rows })
    }
}

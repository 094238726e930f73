//! A command whose memory is taken and whose rows are to be committed.

ghost use Rattle.std.specs.Prelude.{◌≡◌, None, IfOk, IfErr};
ghost use Rattle.script_lang.specs.declared.command.Command.{Command};
ghost use Rattle.tap_engine.specs.declared.engine.Engine.{Engine};
ghost use Rattle.tap_engine.specs.declared.undo.Undo.{Undo as UndoRows};

use crate::undo::Undo;
use script_lang::{Refusal, Reply};
use tap_rows::Change;

/// A command whose memory is taken: its reply, the rows that are to be committed, and what undoes
/// them if they aren't.
#[derive(Drop)]
pub struct Prepared {
    pub reply: Reply,
    pub change: Option<Change>,
    pub undo: Undo,
}

impl Prepared {
    ghost use Rattle.tap_engine.specs.Ready.{IsReady};
    ghost use Rattle.tap_engine.specs.Answering.{IsReplyTo, Prepares};
    ghost use Rattle.tap_engine.specs.Answering.{RefusesAsModel, RefusesSoundly};

    // Makes a command that adds no rows.
    pub(crate) fn plain(reply: Reply) -> Prepared
        ensures { result ≡ record { reply = reply; change = None; undo = UndoRows.Nothing } }
    {
        Prepared {
            reply,
            change: None,
            undo: Undo::Nothing,
        }
    }

    // Prepares a command that adds no rows, of the reply to it, unless it is refused.
    pub(crate) fn read(reply: Result<Reply, Refusal>) -> Result<Prepared, Refusal>
        ensures ok { (engine : Engine) (command : Command) → IsReady engine
            → IfOk reply (IsReplyTo engine command)
            → IfOk result (Prepares engine command engine) }
        ensures refusal { (engine : Engine) (command : Command)
            → IfErr reply (RefusesAsModel engine command)
            → IfErr result (RefusesSoundly engine command) }
    {
        match reply {
            Ok(reply) => Ok(Prepared::plain(reply)),
            Err(refusal) => Err(refusal),
        }
    }
}

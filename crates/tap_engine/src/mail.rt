//! The command that adds a message.

ghost use Rattle.std.specs.Prelude.{◌≡◌, ◌≤◌, length, OnErr, IfOk, IfErr};
ghost use Rattle.std.specs.Result.{result_err};
ghost use Rattle.script_lang.specs.declared.command.Command.{Command};
ghost use Rattle.tap_model.specs.Verdicts.{too_long, block_text};

use crate::engine::Engine;
use crate::limits::refuse_more;
use crate::prepared::Prepared;
use crate::undo::Undo;
use mail_lines::Block;
use script_lang::{LimitName, MESSAGE_LIMIT, Refusal, Reply};
use std::alloc::Global;
use std::slice::from_ref;
use tap_base::{DocNum, SharedText, Text};
use tap_model::{DOCUMENT_LIMIT, STORE_LIMIT};

// Gives the text of a message, or refuses one that is too long.
fn message_of(block: Block) -> Result<Text, Refusal>
    ensures err { result_err result ≡ too_long block }
    ensures ok { IfOk result (λ text. text ≡ block_text block) }
    ensures within { IfOk result (λ text. length text ≤ MESSAGE_LIMIT) }
{
    match block {
        Block::Whole(text) if text.len() <= MESSAGE_LIMIT as usize => Ok(text),
        _ => Err(Refusal::Limit(LimitName::Message)),
    }
}

impl Engine {
    ghost use Rattle.tap_engine.specs.Ready.{IsReady};
    ghost use Rattle.tap_engine.specs.Answering.{IsUnchangedButHits, Prepares, RefusesAsModel};

    // Adds a message.
    pub(crate) fn mail(&mut self, alloc: Global, block: Block) -> Result<Prepared, Refusal>
        requires ready { IsReady self.old }
        ensures ok { IfOk result (Prepares self.old (Command.Mail block) self.new) }
        ensures refusal { IfErr result (RefusesAsModel self.old (Command.Mail block)) }
        ensures err { OnErr result (IsUnchangedButHits self.new self.old) }
    {
        let Some(moment) = self.session.moment else {
            return Err(Refusal::NoMoment);
        };
        let text = message_of(block)?;
        refuse_more(
            LimitName::Documents,
            DOCUMENT_LIMIT,
            self.index.docs() as usize,
            1,
        )?;
        refuse_more(LimitName::Store, STORE_LIMIT, self.bytes, text.len())?;
        let shared = SharedText::of(alloc, text)?;
        let num = DocNum(self.index.docs() + 1);
        let undo = Undo::Docs {
            len: self.index.docs() as usize,
            bytes: self.bytes,
        };
        let change = self.add_docs(alloc, moment, from_ref(&shared))?;
        Ok(Prepared {
            reply: Reply::OneDoc(num),
            change,
            undo,
        })
    }
}

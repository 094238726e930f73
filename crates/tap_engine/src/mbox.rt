//! The command that adds the messages of a mailbox file.

ghost use Rattle.std.specs.Prelude.{◌≡◌, ◌≤◌, ◌<◌, ◌+◌, ◌^◌};
ghost use Rattle.std.specs.Prelude.{length, max, None, true, OnOk, OnErr, IfOk, IfErr};
ghost use Rattle.std.specs.Result.{result_err};
ghost use Rattle.script_lang.specs.declared.command.Command.{Command};
ghost use Rattle.tap_model.specs.Sessions.{moment_or_zero};
ghost use Rattle.tap_model.specs.Verdicts.{no_moment, messages_of, are_short, long_message};
ghost use Rattle.tap_model.specs.Verdicts.{long_block, bytes_of_all};

use crate::docs::total;
use crate::engine::Engine;
use crate::limits::refuse_more;
use crate::prepared::Prepared;
use crate::undo::Undo;
use mail_lines::{Block, cut_mbox};
use script_lang::{LimitName, MESSAGE_LIMIT, Refusal, Reply};
use std::alloc::Global;
use tap_base::{Memory, Rows, SharedText, Texts};
use tap_model::{DOCUMENT_LIMIT, STORE_LIMIT};

// Cuts a mailbox file into its messages. A file that is too long gives none: it is refused later,
// in the order of limits.
fn cut_block(alloc: Global, block: &Block) -> Result<Texts, Memory>
    ensures { IfOk result (λ texts. texts ≡ messages_of block.now) }
{
    match block {
        Block::Whole(text) => cut_mbox(alloc, text.as_slice()),
        Block::Long => Ok(Texts::new(alloc)),
    }
}

// Checks that no message is longer than MESSAGE_LIMIT bytes.
fn are_short(texts: &[SharedText]) -> bool
    ensures { result ≡ are_short texts.now }
{
    texts
        .iter()
        .all(|text| text.len() <= MESSAGE_LIMIT as usize)
}

// Refuses messages if one of them is too long.
fn refuse_long_message(texts: &[SharedText]) -> Result<(), Refusal>
    ensures value { result_err result ≡ long_message texts.now }
    ensures short { OnOk result (are_short texts.now ≡ true) }
{
    if are_short(texts) {
        Ok(())
    } else {
        Err(Refusal::Limit(LimitName::Message))
    }
}

// Refuses a mailbox file that is too long.
fn refuse_long_block(block: &Block) -> Result<(), Refusal>
    ensures { result_err result ≡ long_block block.now }
{
    match block {
        Block::Whole(_) => Ok(()),
        Block::Long => Err(Refusal::Limit(LimitName::Block)),
    }
}

impl Engine {
    ghost use Rattle.tap_engine.specs.Standing.{mbox_bounds, mbox_refusal, RefusedAfter};
    ghost use Rattle.tap_engine.specs.Ready.{IsReady};
    ghost use Rattle.tap_engine.specs.Answering.{IsUnchangedButHits, Prepares, RefusesAsModel};

    // Refuses messages of a mailbox file that pass a limit.
    #[tactic(auto, unfolding(crate::specs::Standing::mbox_bounds))]
    fn refuse_messages(&self, block: &Block, texts: &[SharedText]) -> Result<(), Refusal>
        ensures value { result_err result ≡ mbox_bounds self.now block.now texts.now }
        ensures short { OnOk result (are_short texts.now ≡ true) }
        ensures few { OnOk result (length self.now.index.docs + length texts.now
            ≤ max (length self.now.index.docs) DOCUMENT_LIMIT) }
        ensures bytes { OnOk result (self.now.bytes + bytes_of_all texts.now < 2 ^ 64) }
    {
        refuse_long_message(texts)?;
        refuse_long_block(block)?;
        refuse_more(
            LimitName::Documents,
            DOCUMENT_LIMIT,
            self.index.docs() as usize,
            texts.len(),
        )?;
        refuse_more(LimitName::Store, STORE_LIMIT, self.bytes, total(texts))
    }

    // Gives the messages of a mailbox file and the moment at which they arrive, or the first
    // refusal.
    fn new_messages(&self, alloc: Global, block: &Block) -> Result<(i64, Rows<SharedText>), Refusal>
        ensures checks { OnOk result (mbox_refusal self.now block.now ≡ None) }
        ensures moment { IfOk result (λ made. made.0 ≡ moment_or_zero self.now.session) }
        ensures texts { IfOk result (λ made. made.1 ≡ messages_of block.now) }
        ensures refusal { IfErr result (λ refusal.
            RefusedAfter (no_moment self.now.session) (mbox_refusal self.now block.now) refusal) }
        ensures short { IfOk result (λ made. are_short made.1 ≡ true) }
        ensures few { IfOk result (λ made. length self.now.index.docs + length made.1
            ≤ max (length self.now.index.docs) DOCUMENT_LIMIT) }
        ensures bytes { IfOk result (λ made. self.now.bytes + bytes_of_all made.1 < 2 ^ 64) }
    {
        let Some(moment) = self.session.moment else {
            return Err(Refusal::NoMoment);
        };
        let texts = cut_block(alloc, block)?.into_shared(alloc)?;
        self.refuse_messages(block, texts.as_slice())?;
        Ok((moment, texts))
    }

    // Adds the messages of a mailbox file, all in one change.
    pub(crate) fn mbox(&mut self, alloc: Global, block: Block) -> Result<Prepared, Refusal>
        requires ready { IsReady self.old }
        ensures ok { IfOk result (Prepares self.old (Command.Mbox block) self.new) }
        ensures refusal { IfErr result (RefusesAsModel self.old (Command.Mbox block)) }
        ensures err { OnErr result (IsUnchangedButHits self.new self.old) }
    {
        let undo = Undo::Docs {
            len: self.index.docs() as usize,
            bytes: self.bytes,
        };
        let (moment, texts) = self.new_messages(alloc, &block)?;
        let first = u64::from(self.index.docs()) + 1;
        let change = self.add_docs(alloc, moment, texts.as_slice())?;
        let reply = Reply::Docs {
            count: texts.len() as u32,
            first,
        };
        Ok(Prepared {
            reply,
            change,
            undo,
        })
    }
}

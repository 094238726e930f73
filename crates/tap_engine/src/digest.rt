//! The documents of one run as one message.

ghost use Rattle.std.specs.Prelude.{◌≡◌, ◌≤◌, ◌+◌, None, Some, true, OnOk, IfOk, IfErr};
ghost use Rattle.std.specs.Result.{result_err};
ghost use Rattle.script_lang.specs.declared.command.Command.{Command};
ghost use Rattle.tap_base.specs.Names.{is_name};
ghost use Rattle.tap_model.specs.Verdicts.{no_run};

use crate::engine::Engine;
use digest_mail::digest;
use script_lang::{Refusal, Reply};
use std::alloc::Global;
use std::sync::ledger::Ledger;
use tap_base::{Steps, Text, Texts};
use tap_kept::copy_run;

// Refuses an ordinal that is not that of one of `runs` runs.
#[tactic(auto, unfolding(tap_model::specs::Verdicts::no_run))]
fn refuse_run(ordinal: u32, runs: u32) -> Result<(), Refusal>
    ensures { result_err result ≡ no_run ordinal runs }
{
    if 1 <= ordinal && ordinal <= runs {
        Ok(())
    } else {
        Err(Refusal::NoRun { runs })
    }
}

impl Engine {
    ghost use Rattle.tap_engine.specs.Answering.{IsReplyTo, RefusesAsModel};
    ghost use Rattle.tap_engine.specs.Standing.{look_refusal, digest_refusal, cached_named};
    ghost use Rattle.tap_engine.specs.Standing.{RefusedAfter};
    ghost use Rattle.tap_engine.specs.Lists.{cached_digest};
    ghost use Rattle.tap_engine.specs.Costs.{TakesAtMost, cached_digest_work};

    // Makes the lines of the digest of one run of the user's query of this name. A query with more
    // runs than a `u32` counts is refused as out of memory: no store has that many.
    fn digest_named<L: Ledger>(
        &self,
        alloc: Global,
        name: &[u8],
        ordinal: u32,
        steps: &mut Steps<L>,
    ) -> Result<Texts, Refusal>
        ensures look { OnOk result (digest_refusal self.now name.now ordinal ≡ None) }
        ensures lines { IfOk result (λ lines.
            Some lines ≡ cached_digest self.now name.now ordinal (cached_named self.now name.now)) }
        ensures refusal { IfErr result (λ refusal. RefusedAfter (look_refusal self.now name.now)
            (digest_refusal self.now name.now ordinal) refusal) }
        ensures name { OnOk result (is_name name.now ≡ true) }
        ensures steps { steps.new
            ≤ steps.old + cached_digest_work ordinal (cached_named self.now name.now) }
    {
        let kept = self.look(name)?;
        if kept.runs > u32::MAX as usize {
            return Err(Refusal::Memory);
        }
        refuse_run(ordinal, kept.runs as u32)?;
        let entries = copy_run(alloc, &kept.entries, ordinal)?;
        let lines = digest(alloc, name, ordinal, entries.as_slice(), &self.index, steps)?;
        Ok(lines)
    }

    // Shows the documents that one run of the user's query of this name delivered, as the lines of
    // one message.
    pub(crate) fn show_digest<L: Ledger>(
        &self,
        alloc: Global,
        name: Text,
        ordinal: u32,
        steps: &mut Steps<L>,
    ) -> Result<Reply, Refusal>
        ensures ok { IfOk result (IsReplyTo self.now (Command.DigestOf name ordinal)) }
        ensures refusal { IfErr result (RefusesAsModel self.now (Command.DigestOf name ordinal)) }
        ensures most { TakesAtMost self.now (Command.DigestOf name ordinal) steps.old steps.new }
    {
        let lines = self.digest_named(alloc, name.as_slice(), ordinal, steps)?;
        Ok(Reply::DigestOf {
            name,
            ordinal,
            lines,
        })
    }
}

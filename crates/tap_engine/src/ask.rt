//! The documents that a condition gives at a past second.

ghost use Rattle.std.specs.Prelude.{◌≡◌, int_lt, IfOk, IfErr};
ghost use Rattle.std.specs.Result.{result_err};
ghost use Rattle.script_lang.specs.declared.command.Command.{Command};
ghost use Rattle.script_lang.specs.declared.refusal.Refusal.{Refusal};
ghost use Rattle.tap_model.specs.Verdicts.{refuse_unless};

use crate::engine::Engine;
use crate::sessions::second_of;
use script_lang::{Refusal, Reply};
use std::alloc::Global;
use std::sync::ledger::Ledger;
use tap_base::Steps;
use tap_kept::{given_at, read_text};

// Refuses a second that isn't over: one at or after the session's moment.
fn refuse_open(second: i64, now: i64) -> Result<(), Refusal>
    ensures { result_err result ≡ refuse_unless (int_lt second now) (Refusal.NotOver now) }
{
    if second < now {
        Ok(())
    } else {
        Err(Refusal::NotOver { now })
    }
}

impl Engine {
    ghost use Rattle.tap_engine.specs.Answering.{IsReplyTo, RefusesAsModel};
    ghost use Rattle.tap_engine.specs.Costs.{TakesAtMost};

    // Lists the documents that a condition gives at a past second.
    pub(crate) fn ask<L: Ledger>(
        &self,
        alloc: Global,
        moment: &[u8],
        source: &[u8],
        steps: &mut Steps<L>,
    ) -> Result<Reply, Refusal>
        ensures ok { IfOk result (IsReplyTo self.now (Command.Ask moment.now source.now)) }
        ensures refusal { IfErr result
            (RefusesAsModel self.now (Command.Ask moment.now source.now)) }
        ensures most { TakesAtMost self.now (Command.Ask moment.now source.now)
            steps.old steps.new }
    {
        let Some(second) = second_of(moment) else {
            return Err(Refusal::BadMoment);
        };
        let Some(now) = self.session.moment else {
            return Err(Refusal::NoMoment);
        };
        let cond = read_text(alloc, source)?;
        if let Err(refusal) = refuse_open(second, now) {
            drop(cond);
            return Err(refusal);
        }
        let given = given_at(alloc, &cond, &self.index, second, steps);
        drop(cond);
        let docs = given?;
        Ok(Reply::Asked {
            moment: second,
            docs,
        })
    }
}

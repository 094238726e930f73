//! When a run is next worthwhile.

ghost use Rattle.std.specs.Prelude.{◌≡◌, ◌≤◌, ◌+◌, None, Some, true, OnOk, IfOk, IfErr};
ghost use Rattle.script_lang.specs.declared.command.Command.{Command};
ghost use Rattle.tap_base.specs.Names.{is_name};

use crate::engine::Engine;
use script_lang::{Refusal, Reply};
use std::alloc::Global;
use std::sync::ledger::Ledger;
use tap_base::{Steps, Text};

impl Engine {
    ghost use Rattle.tap_engine.specs.Answering.{IsReplyTo, RefusesAsModel};
    ghost use Rattle.tap_engine.specs.Ready.{IsReady};
    ghost use Rattle.tap_engine.specs.Costs.{TakesAtMost, cached_wake_work};
    ghost use Rattle.tap_engine.specs.Standing.{wake_refusal, cached_named, cached_wake, RefusedBy};

    // Finds the earliest moment from the session's on at which a run of the user's query of this
    // name delivers, if there is one.
    fn wake_named<L: Ledger>(
        &self,
        alloc: Global,
        name: &[u8],
        steps: &mut Steps<L>,
    ) -> Result<Option<i64>, Refusal>
        requires ready { IsReady self.now }
        ensures look { OnOk result (wake_refusal self.now name.now ≡ None) }
        ensures moment { IfOk result (λ moment.
            Some moment ≡ cached_wake self.now (cached_named self.now name.now)) }
        ensures refusal { IfErr result (λ refusal.
            RefusedBy (wake_refusal self.now name.now) refusal) }
        ensures name { OnOk result (is_name name.now ≡ true) }
        ensures steps { steps.new
            ≤ steps.old + cached_wake_work self.now (cached_named self.now name.now) }
    {
        let Some(now) = self.session.moment else {
            return Err(Refusal::NoMoment);
        };
        let kept = self.look(name)?;
        let moment = kept.wake(alloc, &self.index, now, steps)?;
        Ok(moment)
    }

    // Tells the earliest moment from the session's on at which a run of the user's query of this
    // name delivers.
    pub(crate) fn show_wake<L: Ledger>(
        &self,
        alloc: Global,
        name: Text,
        steps: &mut Steps<L>,
    ) -> Result<Reply, Refusal>
        requires ready { IsReady self.now }
        ensures ok { IfOk result (IsReplyTo self.now (Command.Wake name)) }
        ensures refusal { IfErr result (RefusesAsModel self.now (Command.Wake name)) }
        ensures most { TakesAtMost self.now (Command.Wake name) steps.old steps.new }
    {
        let moment = self.wake_named(alloc, name.as_slice(), steps)?;
        Ok(Reply::Wake { name, moment })
    }
}

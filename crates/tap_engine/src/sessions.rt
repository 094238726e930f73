//! The commands that set the session's moment and its user.

ghost use Rattle.std.specs.Prelude.{◌≡◌, Option, Some, true, OnOk, OnErr, IfOk, IfErr};
ghost use Rattle.std.specs.Result.{result_err};
ghost use Rattle.tap_base.specs.Numbers.{moment_of};
ghost use Rattle.tap_base.specs.Names.{is_name};
ghost use Rattle.script_lang.specs.declared.command.Command.{Command};
ghost use Rattle.tap_model.specs.Verdicts.{is_back, bad_name};

use crate::engine::Engine;
use crate::prepared::Prepared;
use script_lang::{Refusal, Reply};
use tap_base::{Text, is_name, read_moment};

// Reads a moment, in seconds since 1970-01-01T00:00:00Z.
pub(crate) fn second_of(text: &[u8]) -> Option<i64>
    ensures { result ≡ moment_of text.now }
{
    read_moment(text).ok()
}

// Refuses a second before the last one.
fn refuse_back(last: Option<i64>, second: i64) -> Result<(), Refusal>
    ensures { result_err result ≡ is_back last (Some second) }
{
    match last {
        Some(last) if second < last => Err(Refusal::Backwards { last }),
        _ => Ok(()),
    }
}

// Refuses a text that is no name.
#[tactic(auto, unfolding(tap_model::specs::Verdicts::bad_name))]
pub(crate) fn refuse_name(name: &[u8]) -> Result<(), Refusal>
    ensures value { result_err result ≡ bad_name name.now }
    ensures name { OnOk result (is_name name.now ≡ true) }
{
    if is_name(name) {
        Ok(())
    } else {
        Err(Refusal::BadName)
    }
}

impl Engine {
    ghost use Rattle.tap_engine.specs.Answering.{Prepares, RefusesAsModel};
    ghost use Rattle.tap_engine.specs.Ready.{IsReady};

    // Sets the session's moment, which is never before the last one or, without one, before the
    // greatest stored moment.
    pub(crate) fn at(&mut self, text: &[u8]) -> Result<Prepared, Refusal>
        requires ready { IsReady self.old }
        ensures ok { IfOk result (Prepares self.old (Command.At text.now) self.new) }
        ensures refusal { IfErr result (RefusesAsModel self.old (Command.At text.now)) }
        ensures err { OnErr result (self.new ≡ self.old) }
    {
        let Some(second) = second_of(text) else {
            return Err(Refusal::BadMoment);
        };
        refuse_back(self.session.moment.or(self.greatest), second)?;
        self.session.moment = Some(second);
        Ok(Prepared::plain(Reply::At(second)))
    }

    // Sets the session's user.
    pub(crate) fn as_user(&mut self, name: Text) -> Result<Prepared, Refusal>
        requires ready { IsReady self.old }
        ensures ok { IfOk result (Prepares self.old (Command.AsUser name) self.new) }
        ensures refusal { IfErr result (RefusesAsModel self.old (Command.AsUser name)) }
        ensures err { OnErr result (self.new ≡ self.old) }
    {
        refuse_name(name.as_slice())?;
        let shown = name.copy()?;
        self.session.user = Some(name);
        Ok(Prepared::plain(Reply::AsUser(shown)))
    }
}

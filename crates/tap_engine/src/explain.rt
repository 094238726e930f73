//! The lines that explain a query.

ghost use Rattle.std.specs.Prelude.{◌≡◌, None, Some, true, OnOk, IfOk, IfErr};
ghost use Rattle.script_lang.specs.declared.command.Command.{Command};
ghost use Rattle.tap_base.specs.Names.{is_name};

use crate::engine::Engine;
use script_lang::{Refusal, Reply};
use std::alloc::Global;
use tap_base::{Text, Texts};

impl Engine {
    ghost use Rattle.tap_engine.specs.Answering.{IsReplyTo, RefusesAsModel};
    ghost use Rattle.tap_engine.specs.Standing.{look_refusal, cached_named, RefusedBy};
    ghost use Rattle.tap_engine.specs.Lists.{cached_lines};

    // Makes the lines that explain the user's query of this name.
    fn lines_named(&self, alloc: Global, name: &[u8]) -> Result<Texts, Refusal>
        ensures look { OnOk result (look_refusal self.now name.now ≡ None) }
        ensures lines { IfOk result (λ lines.
            Some lines ≡ cached_lines (cached_named self.now name.now)) }
        ensures refusal { IfErr result (λ refusal.
            RefusedBy (look_refusal self.now name.now) refusal) }
        ensures name { OnOk result (is_name name.now ≡ true) }
    {
        let kept = self.look(name)?;
        let lines = kept.row.lines(alloc)?;
        Ok(lines)
    }

    // Explains the user's query of this name.
    pub(crate) fn explain(&self, alloc: Global, name: Text) -> Result<Reply, Refusal>
        ensures ok { IfOk result (IsReplyTo self.now (Command.Explain name)) }
        ensures refusal { IfErr result (RefusesAsModel self.now (Command.Explain name)) }
    {
        let lines = self.lines_named(alloc, name.as_slice())?;
        Ok(Reply::Explain { name, lines })
    }
}

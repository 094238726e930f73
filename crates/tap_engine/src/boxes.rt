//! What a query has delivered.

ghost use Rattle.std.specs.Prelude.{◌≡◌, None, Some, true, OnOk, IfOk, IfErr};
ghost use Rattle.script_lang.specs.declared.command.Command.{Command};
ghost use Rattle.tap_base.specs.Names.{is_name};

use crate::engine::Engine;
use script_lang::{Refusal, Reply};
use std::alloc::Global;
use tap_base::{Memory, Rows, Text};
use tap_kept::copy_entries;
use tap_rows::Entry;

impl Engine {
    ghost use Rattle.tap_engine.specs.Answering.{IsReplyTo, RefusesAsModel};
    ghost use Rattle.tap_engine.specs.Standing.{look_refusal, cached_named, cached_entries};
    ghost use Rattle.tap_engine.specs.Standing.{RefusedBy};

    // Copies what the user's query of this name has delivered.
    fn entries_named(&self, alloc: Global, name: &[u8]) -> Result<Rows<Entry>, Refusal>
        ensures look { OnOk result (look_refusal self.now name.now ≡ None) }
        ensures entries { IfOk result (λ entries.
            Some entries ≡ cached_entries (cached_named self.now name.now)) }
        ensures refusal { IfErr result (λ refusal.
            RefusedBy (look_refusal self.now name.now) refusal) }
        ensures name { OnOk result (is_name name.now ≡ true) }
    {
        let kept = self.look(name)?;
        Ok(copy_entries(alloc, &kept.entries)?)
    }

    // Lists what the user's query of this name has delivered.
    pub(crate) fn show_box(&self, alloc: Global, name: Text) -> Result<Reply, Refusal>
        ensures ok { IfOk result (IsReplyTo self.now (Command.BoxOf name)) }
        ensures refusal { IfErr result (RefusesAsModel self.now (Command.BoxOf name)) }
    {
        let entries = self.entries_named(alloc, name.as_slice())?;
        Ok(Reply::BoxOf { name, entries })
    }
}

//! The commands that look stored rows up.

ghost use Rattle.std.specs.Prelude.{◌≡◌, ◌≤◌, ◌+◌, None, IfOk, IfErr};
ghost use Rattle.std.specs.Option.{option_or};
ghost use Rattle.row_index.specs.Orders.{InPlace, doc_number, doc_arrival};
ghost use Rattle.script_lang.specs.declared.command.Command.{Command};
ghost use Rattle.script_lang.specs.declared.lookup.Lookup.{Lookup as Rows};
ghost use Rattle.tap_model.specs.Sessions.{or_zero};

use crate::engine::Engine;
use crate::note::refuse_doc;
use script_lang::{Found, Lookup, Refusal, Reply};
use std::alloc::Global;
use std::sync::ledger::Ledger;
use tap_base::{DocNum, Steps, Texts};
use tap_kept::{note_lines, text_lines};

impl Engine {
    ghost use Rattle.tap_engine.specs.Answering.{IsReplyTo, RefusesAsModel};
    ghost use Rattle.tap_engine.specs.Costs.{TakesNoStep, TakesAtMost, IsQuietLookup};
    ghost use Rattle.tap_engine.specs.Lookups.{lookup_refusal, IsFoundFor, LookupRefuses};
    ghost use Rattle.tap_engine.specs.Lookups.{cached_lookup_work};
    ghost use Rattle.tap_engine.specs.Standing.{RefusedBy};

    // Shows the lines of the text of the document of this number.
    fn show_doc<L: Ledger>(
        &self,
        alloc: Global,
        num: u32,
        steps: &mut Steps<L>,
    ) -> Result<Reply, Refusal>
        ensures ok { IfOk result (IsFoundFor (Rows.ShowDoc num) self.now) }
        ensures refusal { IfErr result (λ refusal.
            RefusedBy (lookup_refusal (Rows.ShowDoc num) self.now) refusal) }
        ensures steps { steps.new ≤ steps.old + 1 }
    {
        let Some(kept) = self.index.doc(DocNum(num), steps) else {
            return Err(Refusal::NoDoc);
        };
        let doc = kept.doc();
        let lines = text_lines(alloc, doc.text.as_slice())?;
        Ok(Reply::Found {
            found: Found::DocText {
                doc: num,
                arrival: doc.arrival,
            },
            lines,
        })
    }

    // Shows the notes on the document of this number.
    fn list_notes<L: Ledger>(
        &self,
        alloc: Global,
        num: u32,
        steps: &mut Steps<L>,
    ) -> Result<Reply, Refusal>
        ensures ok { IfOk result (IsFoundFor (Rows.ListNotes num) self.now) }
        ensures refusal { IfErr result (λ refusal.
            RefusedBy (lookup_refusal (Rows.ListNotes num) self.now) refusal) }
        ensures steps { steps.new ≤ steps.old + cached_lookup_work (Rows.ListNotes num) self.now }
    {
        refuse_doc(num, self.index.docs() as usize)?;
        let lines = note_lines(alloc, self.index.notes_of(DocNum(num)), steps)?;
        Ok(Reply::Found {
            found: Found::DocNotes { doc: num },
            lines,
        })
    }

    // Shows the user's queries.
    fn list_queries(&self, alloc: Global) -> Result<Reply, Refusal>
        ensures ok { IfOk result (IsFoundFor Rows.ListQueries self.now) }
        ensures refusal { IfErr result (λ refusal.
            RefusedBy (lookup_refusal Rows.ListQueries self.now) refusal) }
    {
        let Some(user) = &self.session.user else {
            return Err(Refusal::NoUser);
        };
        let lines = self.queries.lines(alloc, user.as_slice())?;
        Ok(Reply::Found {
            found: Found::UserQueries,
            lines,
        })
    }

    // Gives the least moment that `at` accepts.
    fn last_moment(&self) -> i64
        ensures { result ≡ or_zero (option_or self.now.session.moment self.now.greatest) }
    {
        match self.session.moment.or(self.greatest) {
            Some(moment) => moment,
            None => 0,
        }
    }

    // Counts the documents and the notes. It takes no memory.
    fn count(&self, alloc: Global) -> Reply
        ensures { IsFoundFor Rows.Count self.now result }
    {
        Reply::Found {
            found: Found::Counts {
                docs: self.index.docs(),
                notes: self.index.notes(),
                moment: self.last_moment(),
            },
            lines: Texts::new(alloc),
        }
    }

    // Looks rows up by what is in memory.
    fn look_up<L: Ledger>(
        &self,
        alloc: Global,
        lookup: Lookup,
        steps: &mut Steps<L>,
    ) -> Result<Reply, Refusal>
        ensures ok { IfOk result (IsFoundFor lookup self.now) }
        ensures refusal { IfErr result (λ refusal. LookupRefuses lookup self.now refusal) }
        ensures quiet { IsQuietLookup lookup → steps.new ≡ steps.old }
        ensures steps { steps.new ≤ steps.old + cached_lookup_work lookup self.now }
    {
        match lookup {
            Lookup::ShowDoc(num) => self.show_doc(alloc, num, steps),
            Lookup::ListNotes(num) => self.list_notes(alloc, num, steps),
            Lookup::ListQueries => self.list_queries(alloc),
            Lookup::Count => Ok(self.count(alloc)),
        }
    }

    // Looks stored rows up.
    pub(crate) fn find<L: Ledger>(
        &self,
        alloc: Global,
        lookup: Lookup,
        steps: &mut Steps<L>,
    ) -> Result<Reply, Refusal>
        ensures ok { IfOk result (IsReplyTo self.now (Command.Find lookup)) }
        ensures refusal { IfErr result (RefusesAsModel self.now (Command.Find lookup)) }
        ensures quiet { TakesNoStep self.now (Command.Find lookup) steps.old steps.new }
        ensures most { TakesAtMost self.now (Command.Find lookup) steps.old steps.new }
    {
        // This call only brings the order of the documents into scope.
        let _docs = self.index.docs();
        self.look_up(alloc, lookup, steps)
    }
}

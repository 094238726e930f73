//! The undoing of a command whose rows were not committed.

ghost use Rattle.std.specs.Prelude.{◌≡◌};

use crate::engine::Engine;
use crate::undo::Undo;

impl Engine {
    ghost use Rattle.tap_engine.specs.Answering.{undone, CanUndo};

    // Removes the rows of a command that wasn't committed. It takes no memory.
    pub(crate) fn undo_rows(&mut self, undo: Undo)
        requires { CanUndo undo self.old }
        ensures { self.new ≡ undone undo self.old }
    {
        match undo {
            Undo::Nothing => {}
            Undo::Docs { len, bytes } => {
                self.index.cut_docs(len);
                self.bytes = bytes;
            }
            Undo::Note { bytes, vote } => {
                self.index.forget_last_note();
                self.votes.undo(vote);
                self.bytes = bytes;
            }
            Undo::Query { len, owners, bytes } => {
                self.queries.cut(len);
                self.owners.cut(owners);
                self.bytes = bytes;
            }
            Undo::Filter { len, owners, bytes } => {
                self.filters.cut(len);
                self.owners.cut(owners);
                self.bytes = bytes;
            }
            Undo::Run {
                place,
                covered,
                runs,
                entries,
                run_count,
                pick_count,
            } => {
                self.queries.undo_run(place, covered, runs, entries);
                self.run_count = run_count;
                self.pick_count = pick_count;
            }
        }
    }
}

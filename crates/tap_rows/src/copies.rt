//! Copies of rows, tables and changes.
ghost use Rattle.std.specs.Prelude.{◌≡◌, IfOk};

use crate::{Change, Doc, FilterRow, Note, Pick, QueryRow, RunRow, Tables};
use tap_base::{Copied, Memory};

impl Copied for Doc {
    fn copied(&self) -> Result<Doc, Memory> {
        Ok(Doc {
            num: self.num,
            arrival: self.arrival,
            text: self.text.copy()?,
        })
    }
}

impl Copied for Note {
    fn copied(&self) -> Result<Note, Memory> {
        let author = self.author.copy()?;
        let kind = self.kind.copy()?;
        let text = self.text.copy()?;
        Ok(Note {
            num: self.num,
            doc: self.doc,
            author,
            kind,
            value: self.value,
            arrival: self.arrival,
            text,
        })
    }
}

impl Copied for QueryRow {
    fn copied(&self) -> Result<QueryRow, Memory> {
        let owner = self.owner.copy()?;
        let name = self.name.copy()?;
        let source = self.source.copy()?;
        Ok(QueryRow {
            num: self.num,
            owner,
            name,
            source,
            arrival: self.arrival,
        })
    }
}

impl Copied for RunRow {
    fn copied(&self) -> Result<RunRow, Memory> {
        Ok(*self)
    }
}

impl Copied for Pick {
    fn copied(&self) -> Result<Pick, Memory> {
        Ok(*self)
    }
}

impl Copied for FilterRow {
    fn copied(&self) -> Result<FilterRow, Memory> {
        let owner = self.owner.copy()?;
        let source = self.source.copy()?;
        Ok(FilterRow {
            num: self.num,
            owner,
            source,
            arrival: self.arrival,
        })
    }
}

impl Tables {
    /// Returns a copy of all rows. Fails with `Memory` when out of memory.
    pub fn copy(&self) -> Result<Tables, Memory>
        ensures { IfOk result (λ tables. tables ≡ self.now) }
    {
        let docs = self.docs.copy()?;
        let notes = self.notes.copy()?;
        let queries = self.queries.copy()?;
        let runs = self.runs.copy()?;
        let picks = self.picks.copy()?;
        let filters = self.filters.copy()?;
        Ok(Tables {
            docs,
            notes,
            queries,
            runs,
            picks,
            filters,
        })
    }
}

impl Change {
    /// Returns a copy of the change. Fails with `Memory` when out of memory.
    pub fn copy(&self) -> Result<Change, Memory>
        ensures { IfOk result (λ change. change ≡ self.now) }
    {
        match self {
            Change::Docs(docs) => Ok(Change::Docs(docs.copy()?)),
            Change::OneNote(note) => Ok(Change::OneNote(note.copied()?)),
            Change::OneQuery(query) => Ok(Change::OneQuery(query.copied()?)),
            Change::RunDone(run, picks) => Ok(Change::RunDone(*run, picks.copy()?)),
            Change::OneFilter(filter) => Ok(Change::OneFilter(filter.copied()?)),
        }
    }
}

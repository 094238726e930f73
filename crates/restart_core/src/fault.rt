//! Why stored tables can't be used again.
ghost use Rattle.std.specs.Prelude.{◌≡◌};

use tap_base::Memory;

/// The table of a damaged row.
#[derive(Clone, Copy, Debug, PartialEq, Eq)]
pub enum TableName {
    Docs,
    Notes,
    Queries,
    Runs,
    Picks,
    Filters,
}

/// Why a stored row is damaged.
#[derive(Clone, Copy, Debug, PartialEq, Eq)]
pub enum Why {
    /// Its number isn't its place, counted from 1.
    Number,
    /// Its moment is below that of the row before, or isn't from 0 to 250,000,000,000.
    Moment,
    /// It refers to a row that doesn't exist.
    Reference,
    /// A name in it is no name.
    Name,
    /// An earlier row has its key: the owner and name of a query, the query and document of a pick.
    Twice,
    /// Its text can't be read, or is too long.
    Text,
    /// The first second of a pick isn't from the document's arrival on and below the run's moment.
    Second,
    /// A pick isn't behind the one before by run, first second and document.
    Order,
}

/// Why stored tables can't be used again.
#[derive(Clone, Copy, Debug, PartialEq, Eq)]
pub enum RestartFault {
    /// The first damaged row: its table, its place there from 1 (0 if the place is above
    /// 4,294,967,295), its first reason.
    Damaged {
        table: TableName,
        num: u32,
        why: Why,
    },
    /// Out of memory.
    Memory,
}

impl From<Memory> for RestartFault {
    ghost use Rattle.restart_core.specs.declared.fault.RestartFault.{RestartFault};

    ghost from_gives = { λ _ fault. fault ≡ RestartFault.Memory };

    fn from(_memory: Memory) -> RestartFault {
        RestartFault::Memory
    }
}

//! A keeper in memory that never fails.

ghost use Rattle.std.specs.Prelude.{◌≡◌, false, []};
ghost use Rattle.keeper_core.specs.Stored.{Sure};

use crate::{AttachFault, CommitFault, Keeper};
use std::alloc::Global;
use std::marker::Model;
use tap_base::Text;
use tap_rows::{Change, Tables};

/// Keeps tables in memory, and never fails.
#[derive(Drop)]
pub struct SureKeeper {
    tables: Tables,
    attached: bool,
    path: Text,
}

impl Model for SureKeeper {
    ghost Value = { Sure };

    ghost view = { λ k. record { tables = k.tables; attached = k.attached; path = k.path } };
}

impl SureKeeper {
    /// Returns a keeper of these tables, in a store of version 2.
    pub fn new(alloc: Global, tables: Tables) -> SureKeeper
        ensures { result ≡ record { tables = tables; attached = false; path = [] } }
    {
        SureKeeper {
            tables,
            attached: false,
            path: Text::new(alloc),
        }
    }
}

impl Keeper for SureKeeper {
    ghost use Rattle.std.specs.Prelude.{◌≡◌, pos, false};
    ghost use Rattle.std.proofs.Common.{sym, ◌∙◌};

    ghost tells = { λ k s. s ≡ k.tables };

    ghost has_version = { λ _ v. v ≡ pos 2 };

    ghost honest = { λ _. Unit {0} };

    ghost may_leave = { λ k x. x ≡ k.tables };

    ghost attached = { λ k. k.attached };

    ghost stopped = { λ _. false };

    ghost path = { λ k. k.path };

    ghost faults = { λ _. 0 };

    fn attach(&mut self, alloc: Global, at: &str) -> Result<Tables, AttachFault> {
        let path = Text::from_slice(alloc, at.as_bytes())?;
        let tables = self.tables.copy()?;
        self.path = path;
        self.attached = true;
        Ok(tables)
    }

    fn commit(&mut self, change: &Change) -> Result<(), CommitFault> {
        self.tables.apply(change.copy()?)?;
        Ok(())
    }

    ghost one = { λ k s t a b. a ∙ sym b };

    ghost left = { λ k t honest running told. told };

    ghost exact = { λ k t x honest running told may. may ∙ sym told };
}

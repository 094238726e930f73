//! The start of an engine over stored tables.

ghost use Rattle.std.specs.Prelude.{◌≡◌, ◌⊎◌, None, Some, OnOk, IfOk, IfErr};
ghost use Rattle.std.specs.Option.{option_map};
ghost use Rattle.tap_kept.specs.Starting.{first_unread};

use crate::engine::Engine;
use restart_core::Sound;
use std::alloc::Global;
use tap_base::HashKey;
use tap_kept::{
    StartFault, Sums, cache_delivered, cache_filters, index_rows, owners_of, tally_votes,
};
use tap_model::Session;
use tap_rows::Tables;

impl Engine {
    ghost use Rattle.tap_kept.specs.declared.start_fault.StartFault.{StartFault as Fault};
    ghost use Rattle.tap_model.specs.Sound.{IsStore};
    ghost use Rattle.tap_engine.specs.Started.{IsNewOver};

    // Builds the engine from the parts of the tables. It looks at each row a fixed number of times,
    // and hashes texts under this key.
    fn build(alloc: Global, key: HashKey, sound: Sound) -> Result<Engine, StartFault>
        ensures ok { IfOk result (IsNewOver sound) }
        ensures read { OnOk result (first_unread sound.filters ≡ None) }
        ensures fault { IfErr result (λ fault. (fault ≡ Fault.Memory)
            ⊎ (option_map Fault.Rules (first_unread sound.filters) ≡ Some fault)) }
    {
        let (tables, conds) = sound.into_parts();
        let sums = Sums::of(&tables)?;
        let owners = owners_of(
            alloc,
            key,
            tables.queries.as_slice(),
            tables.filters.as_slice(),
        )?;
        let Tables {
            docs,
            notes,
            queries,
            runs,
            picks,
            filters,
        } = tables;
        let filters = cache_filters(alloc, filters)?;
        let queries = cache_delivered(alloc, queries, conds, runs.as_slice(), picks.as_slice())?;
        let votes = tally_votes(alloc, key, notes.as_slice())?;
        let (index, hits) = index_rows(alloc, key, docs, notes)?;
        Ok(Engine {
            session: Session::new(),
            index,
            votes,
            hits,
            queries,
            filters,
            run_count: runs.len(),
            pick_count: picks.len(),
            bytes: sums.bytes,
            owners,
            greatest: sums.greatest,
            stopped: false,
        })
    }

    /// Makes an engine with a new session that represents sound tables. It looks at each row a
    /// fixed number of times, and hashes texts under this key. It reports `Rules` with the first
    /// filter whose text has a fault if there is one, which is never over tables that a session
    /// left; otherwise it fails only if it is out of memory.
    pub fn start(alloc: Global, key: HashKey, sound: Sound) -> Result<Engine, StartFault>
        ensures ok { IfOk result (IsNewOver sound) }
        ensures read { OnOk result (first_unread sound.filters ≡ None) }
        ensures fault { IfErr result (λ fault. (fault ≡ Fault.Memory)
            ⊎ (option_map Fault.Rules (first_unread sound.filters) ≡ Some fault)) }
        ensures kept { IsStore sound → IfErr result (λ fault. fault ≡ Fault.Memory) }
    {
        Engine::build(alloc, key, sound)
    }
}

//! Opens a store: attaches the keeper, checks the tables, and starts an engine over them.
ghost use Rattle.std.specs.Prelude.{◌≡◌, ◌⊎◌, ◌↔◌, ◌≤◌, ℤ, pos, true, false, Some, None, IfOk};
ghost use Rattle.std.specs.Prelude.{OnOk, IsErrOf};
ghost use Rattle.std.specs.Str.{IsUtf8};
ghost use Rattle.tap_base.specs.Counts.{Rose};
ghost use Rattle.keeper_core.specs.States.{IsPlacedUnless};
ghost use Rattle.tap_rows.specs.declared.tables.Tables.{Tables as TableRows};
ghost use Rattle.restart_core.specs.Damages.{damage_of};
ghost use Rattle.tap_model.specs.Sessions.{no_session};
ghost use Rattle.tap_engine.specs.Standing.{Represents};
ghost use Rattle.tap_engine.specs.Started.{IsNewOver};
ghost use Rattle.tap_top.specs.Points.{CanOpen, CanPerform};
ghost use Rattle.tap_top.specs.Premises.{IsDurableIn, IfTold};
ghost use Rattle.tap_top.specs.Versions.{IsMigrated, MayBeMigrated};
ghost use Rattle.tap_top.specs.Refusals.{row_fault, fault_of};
ghost use Rattle.tap_top.specs.Opened.{HasShortTexts, IfRefused};
ghost use Rattle.tap_top.specs.declared.opening.OpenFault.{OpenFault};

use crate::StoreFault;
use keeper_core::{AttachFault, Keeper};
use restart_core::{RestartFault, TableName, Why, check_tables};
use std::alloc::Global;
use tap_base::{HashKey, Text};
use tap_engine::{Engine, StartFault};
use tap_rows::Tables;

/// Why a store wasn't opened.
#[derive(Clone, Copy, Debug, PartialEq, Eq)]
pub enum OpenFault {
    /// The store is refused.
    Refused(StoreFault),
    /// The keeper failed.
    Keeper,
    /// Out of memory.
    Memory,
}

// Returns a text that is UTF-8 as a `str`.
fn as_str(text: &Text) -> &str
    requires { IsUtf8 text.now }
    ensures { result.now ≡ text.now }
{
    std::str::from_utf8(text.as_slice()).unwrap_or("")
}

// Checks the tables of a store, and starts an engine over them.
fn start(alloc: Global, key: HashKey, tables: Tables) -> Result<Engine, OpenFault>
    ensures ok { IfOk result (IsNewOver tables) }
    ensures sure { OnOk result (row_fault tables ≡ None) }
    ensures undamaged { OnOk result (damage_of tables ≡ None) }
    ensures refused { IfRefused result (λ fault. row_fault tables ≡ Some fault) }
    ensures asked { IsErrOf result OpenFault.Keeper → ⊥ }
{
    let sound = match check_tables(alloc, key, tables) {
        Ok(sound) => sound,
        Err(RestartFault::Damaged { table, num, why }) => {
            return Err(OpenFault::Refused(StoreFault::Damaged { table, num, why }));
        }
        Err(RestartFault::Memory) => return Err(OpenFault::Memory),
    };
    match Engine::start(alloc, key, sound) {
        Ok(engine) => Ok(engine),
        Err(StartFault::Rules { num }) => Err(OpenFault::Refused(StoreFault::Damaged {
            table: TableName::Filters,
            num,
            why: Why::Text,
        })),
        Err(StartFault::Memory) => Err(OpenFault::Memory),
    }
}

/// Attaches the store at a path, checks its tables, and starts an engine over them, which hashes
/// texts under this key. No text of its documents is longer than a message may be.
pub fn open_store<P: Keeper>(
    alloc: Global,
    key: HashKey,
    path: &Text,
    keeper: &mut P,
) -> Result<Engine, OpenFault>
    requires can { CanOpen P.Keeper keeper.old path.now }
    ensures can { IfOk result (λ engine. CanPerform P.Keeper engine keeper.new) }
    ensures session { IfOk result (λ engine. engine.session ≡ no_session) }
    ensures short { IfOk result HasShortTexts }
    ensures represents { IfOk result (λ engine. IfTold P.Keeper keeper.old keeper.new (λ t.
        Represents engine t)) }
    ensures kept { IfTold P.Keeper keeper.old keeper.new (λ t.
        P.stopped keeper.new ≡ false → IsDurableIn P.Keeper keeper.new t) }
    ensures crash { IfTold P.Keeper keeper.old keeper.new (λ t. (x : TableRows)
        → P.may_leave keeper.new x → x ≡ t) }
    ensures sure { OnOk result (IfTold P.Keeper keeper.old keeper.new (λ t.
        (v : ℤ) → P.has_version keeper.old v → fault_of v t ≡ None)) }
    ensures refused { IfRefused result (λ fault. IfTold P.Keeper keeper.old keeper.new (λ t.
        (v : ℤ) → P.has_version keeper.old v → fault_of v t ≡ Some fault)) }
    ensures version { OnOk result
        (IfTold P.Keeper keeper.old keeper.new (λ t. P.has_version keeper.new (pos 2))) }
    ensures known { OnOk result
        (P.honest keeper.new → (v : ℤ) → P.has_version keeper.old v → (v ≡ pos 1) ⊎ (v ≡ pos 2)) }
    ensures migrated { IfRefused result (λ fault. IfTold P.Keeper keeper.old keeper.new (λ t.
        (v : ℤ) → P.has_version keeper.old v → IsMigrated v (P.has_version keeper.new))) }
    ensures memory { IsErrOf result OpenFault.Memory → IfTold P.Keeper keeper.old keeper.new (λ t.
        (v : ℤ) → P.has_version keeper.old v → MayBeMigrated v (P.has_version keeper.new)) }
    ensures stopped { (P.stopped keeper.new ≡ true) ↔ IsErrOf result OpenFault.Keeper }
    ensures cause { IsErrOf result OpenFault.Keeper
        → Rose (P.faults keeper.old) (P.faults keeper.new) }
    ensures placed { IsPlacedUnless (IsErrOf result OpenFault.Memory) (P.path keeper.old)
        (P.path keeper.new) path.now }
    ensures later { P.faults keeper.old ≤ P.faults keeper.new }
    ensures calm { P.stopped keeper.new ≡ false → P.faults keeper.new ≡ P.faults keeper.old }
    ensures honest { P.honest keeper.new → P.honest keeper.old }
{
    match keeper.attach(alloc, as_str(path)) {
        Ok(tables) => start(alloc, key, tables),
        Err(AttachFault::Alien { version }) => {
            Err(OpenFault::Refused(StoreFault::Version { version }))
        }
        Err(AttachFault::Failed) => Err(OpenFault::Keeper),
        Err(AttachFault::Memory) => Err(OpenFault::Memory),
    }
}

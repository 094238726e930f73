//! The call that a program makes over its store.
ghost use Rattle.std.specs.Prelude.{◌≡◌, ◌↔◌, ℕ, ℤ, List, Option, true};
ghost use Rattle.std.specs.List.{All};
ghost use Rattle.std.specs.Str.{IsUtf8};
ghost use Rattle.keeper_core.specs.Keeping.{IsDurable};
ghost use Rattle.keeper_core.specs.States.{IsFree, IsPlacedBy};
ghost use Rattle.tap_rows.specs.declared.tables.Tables.{Tables as TableRows};

use keeper_core::Keeper;
use peer_edges::Peer;
use std::alloc::Global;
use std::sync::ledger::Ledger;
use tap_base::{HashKey, Steps, Texts};
use tap_edges::Sink;

/// The call that a program makes over its store: it reads the words of the command line, and
/// returns a status.
pub trait StoreProgram {
    // How it ended, whatever the store: by the words and the status; by the bytes that were left in
    // the source before and after, and those that were written to the sink; and by the counts of
    // faults of both.
    ghost ends: { List (List ℕ) → ℕ → Option (List ℕ) → Option (List ℕ) → Option (List ℕ)
        → Option (List ℕ)
        → ℕ → ℕ → ℕ → ℕ → Type 0 };

    // How it ended over a store with these tables and this version: by the words, the status and
    // the bytes, by when the source was asked for more before and after, and by the version and the
    // tables that the store tells after and what a crash leaves then.
    ghost ends_over: { List (List ℕ) → ℕ → Option (List ℕ) → Option (List ℕ) → Option (List ℕ)
        → Option (List ℕ)
        → (Option (List ℕ) → Option (List ℕ) → Type 0)
        → (Option (List ℕ) → Option (List ℕ) → Type 0)
        → TableRows → (ℤ → Type 0) → (ℤ → Type 0) → (TableRows → Type 0) → (TableRows → Type 0)
        → Type 0 };

    // The path of the store that the words name.
    ghost path: { List (List ℕ) → List ℕ };

    /// Makes the call over a keeper that isn't attached, with texts hashed under this key. Returns
    /// the status: 5 if and only if the keeper failed, and 2 only if the keeper is unchanged.
    fn hold<I: Peer<K>, K: Sink, P: Keeper, L: Ledger>(
        alloc: Global,
        key: HashKey,
        words: &Texts,
        source: &mut I,
        sink: &mut K,
        keeper: &mut P,
        steps: &mut Steps<L>,
    ) -> u8
        requires free { IsFree P.Keeper keeper.old }
        requires texts { All IsUtf8 words.now }
        ensures ends { ends words.now result (I.left source.old) (I.left source.new)
            (K.out sink.old) (K.out sink.new)
            (I.faults source.old) (I.faults source.new) (K.faults sink.old) (K.faults sink.new) }
        ensures ends_over { (t : TableRows) → P.honest keeper.new
            → IsDurable (P.tells keeper.old) (P.may_leave keeper.old) t →
            ends_over words.now result (I.left source.old) (I.left source.new) (K.out sink.old)
            (K.out sink.new)
            (I.was_asked source.old) (I.was_asked source.new)
            t (P.has_version keeper.old) (P.has_version keeper.new) (P.tells keeper.new)
            (P.may_leave keeper.new) }
        ensures unchanged { result ≡ 2 → keeper.new ≡ keeper.old }
        ensures placed { IsPlacedBy result (P.path keeper.old) (P.path keeper.new)
            (path words.now) }
        ensures stopped { (P.stopped keeper.new ≡ true) ↔ (result ≡ 5) };
}

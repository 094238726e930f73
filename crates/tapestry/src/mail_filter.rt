//! The mail filter as a session over a store.
use file_session::StoreProgram;
use keeper_core::Keeper;
use peer_edges::Peer;
use std::alloc::Global;
use std::sync::ledger::Ledger;
use tap_base::{HashKey, Steps, Texts};
use tap_edges::Sink;
use tap_top::tapestry;

/// The mail filter: performs a script or a sample over the store that the words name.
pub struct MailFilter;

impl StoreProgram for MailFilter {
    ghost use Rattle.tap_top.specs.Conclusions.{RunEnds, RunEndsOver};
    ghost use Rattle.command_words.specs.Words.{path_in};

    ghost ends = { λ words status left left' out out' reads reads' puts puts'.
        RunEnds words status left left' out out' reads reads' puts puts' };

    ghost ends_over = { λ words status left left' out out' asked asked' tables versions versions'
        tells leaves.
        RunEndsOver words status left left' out out' asked asked' tables versions versions' tells
        leaves };

    ghost path = { λ words. path_in words };

    fn hold<I: Peer<K>, K: Sink, P: Keeper, L: Ledger>(
        alloc: Global,
        key: HashKey,
        words: &Texts,
        source: &mut I,
        sink: &mut K,
        keeper: &mut P,
        steps: &mut Steps<L>,
    ) -> u8 {
        tapestry(alloc, key, words, source, sink, keeper, steps)
    }
}

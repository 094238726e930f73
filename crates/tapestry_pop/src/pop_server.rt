//! The server of a box as a session over a store.
use file_session::StoreProgram;
use keeper_core::Keeper;
use peer_edges::Peer;
use pop_box::serve;
use std::alloc::Global;
use std::sync::ledger::Ledger;
use tap_base::{HashKey, Steps, Texts};
use tap_edges::Sink;

/// The server of a box: holds one POP3 session over the letters of the box that the words name.
pub struct PopServer;

impl StoreProgram for PopServer {
    ghost use Rattle.pop_box.specs.Conclusions.{PopEnds, PopEndsOver};
    ghost use Rattle.command_words.specs.PopWords.{pop_path_in};

    ghost ends = { λ words status left left' out out' reads reads' puts puts'.
        PopEnds words status left left' out out' reads reads' puts puts' };

    ghost ends_over = { λ words status left left' out out' asked asked' tables versions versions'
        tells leaves.
        PopEndsOver words status left left' out out' asked asked' tables versions versions' tells
        leaves };

    ghost path = { λ words. pop_path_in words };

    fn hold<I: Peer<K>, K: Sink, P: Keeper, L: Ledger>(
        alloc: Global,
        key: HashKey,
        words: &Texts,
        source: &mut I,
        sink: &mut K,
        keeper: &mut P,
        steps: &mut Steps<L>,
    ) -> u8 {
        serve(alloc, key, words, source, sink, keeper, steps)
    }
}

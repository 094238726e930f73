//! The top call: reads the words, opens the store, and holds a session over the letters of a box.
ghost use Rattle.std.specs.Prelude.{◌≡◌, ◌≢◌, ◌≤◌, ◌⊎◌, ℕ, List, Option, Some, None};
ghost use Rattle.std.specs.List.{All};
ghost use Rattle.std.specs.Str.{IsUtf8};
ghost use Rattle.std.specs.Io.KnownBytes.{IsAtEnd};
ghost use Rattle.command_words.specs.PopWords.{pop_path_in, user_in, box_in, secret_in};
ghost use Rattle.command_words.specs.PopWords.{IsPopWorded};
ghost use Rattle.command_words.specs.WellWorded.{path_or_default};
ghost use Rattle.keeper_core.specs.States.{IsFree, IsPlacedUnless};
ghost use Rattle.tap_top.specs.Points.{CanOpen};
ghost use Rattle.tap_top.specs.Premises.{FromDurable, FromStore, IfCalm};
ghost use Rattle.tap_top.specs.Refusals.{Refusals};
ghost use Rattle.tap_top.specs.Versions.{VersionAtExit};
ghost use Rattle.tap_top.specs.Opened.{HasShortTexts};
ghost use Rattle.tap_top.specs.Causes.{Causes};
ghost use Rattle.tap_top.specs.Conclusions.{RunLeaves};
ghost use Rattle.pop_box.specs.Conclusions.{PopEnds, PopEndsOver};
ghost use Rattle.pop_box.specs.Letters.{letters_in};
ghost use Rattle.tap_engine.specs.Standing.{OverSound};
ghost use Rattle.pop_session.specs.Ends.{IsSession, PassedSessionLimit, SessionCauses};
ghost use Rattle.pop_box.specs.Prompt.{AskedUpToDate};
ghost use Rattle.pop_box.specs.Served.{LettersServed, Served, TookQuit, Unchanged};
ghost use Rattle.pop_box.specs.Served.{IsUndisturbedSession};

use crate::letters::letters_from;
use crate::no_box::refuse_box;
use command_words::{OptionFault, PopWords, read_pop_words};
use keeper_core::Keeper;
use peer_edges::Peer;
use pop_session::hold_session;
use std::alloc::Global;
use std::sync::ledger::Ledger;
use tap_base::{HashKey, Memory, Steps, Texts};
use tap_edges::Sink;
use tap_engine::Engine;
use tap_top::{OpenFault, open_store, refuse};

// Holds a session over the letters of the box, which are copied out of the engine; returns the
// status.
fn serve_with<S: Peer<K>, K: Sink, L: Ledger>(
    alloc: Global,
    asked: &PopWords,
    source: &mut S,
    sink: &mut K,
    engine: Engine,
    steps: &mut Steps<L>,
) -> u8
    requires short { HasShortTexts engine }
    ensures session { OverSound engine (λ t.
        LettersServed result (letters_in asked.now.user asked.now.name t)
        asked.now.user asked.now.secret
        (S.left source.old) (S.left source.new) (K.out sink.old) (K.out sink.new)) }
    ensures prompt { OverSound engine (λ t.
        AskedUpToDate (letters_in asked.now.user asked.now.name t) asked.now.user asked.now.secret
        (S.left source.old) (K.out sink.old) (S.was_asked source.old) (S.was_asked source.new)) }
    ensures statuses { IsSession result ⊎ ((result ≡ 7) ⊎ (result ≡ 9)) }
    ensures causes { SessionCauses result (S.faults source.old) (S.faults source.new)
        (K.faults sink.old) (K.faults sink.new) (S.left source.old) (S.left source.new) }
    ensures quit { result ≡ 0
        → TookQuit asked.now.user asked.now.secret (S.left source.old) (S.left source.new) }
    ensures ended { result ≡ 1 → IsAtEnd (S.left source.new) }
{
    let user = asked.user.as_slice();
    match letters_from(alloc, engine, user, asked.name.as_slice(), steps) {
        Ok(Some(letters)) => hold_session(
            user,
            asked.secret.as_slice(),
            letters.as_slice(),
            source,
            sink,
        ),
        Ok(None) => refuse_box(sink),
        Err(Memory) => 7,
    }
}

// Opens the store at the path that the words name, and holds a session over the letters of the box;
// returns the status.
fn serve_box<S: Peer<K>, K: Sink, P: Keeper, L: Ledger>(
    alloc: Global,
    key: HashKey,
    asked: &PopWords,
    source: &mut S,
    sink: &mut K,
    keeper: &mut P,
    steps: &mut Steps<L>,
) -> u8
    requires can { CanOpen P.Keeper keeper.old asked.now.path }
    ensures session { FromStore P.Keeper keeper.old keeper.new (λ t.
        Served result (letters_in asked.now.user asked.now.name t) asked.now.user asked.now.secret
        (S.left source.old) (S.left source.new) (K.out sink.old) (K.out sink.new)
        (P.has_version keeper.old)) }
    ensures prompt { FromStore P.Keeper keeper.old keeper.new (λ t.
        AskedUpToDate (letters_in asked.now.user asked.now.name t) asked.now.user asked.now.secret
        (S.left source.old) (K.out sink.old) (S.was_asked source.old) (S.was_asked source.new)) }
    ensures unchanged { FromDurable P.Keeper keeper.old keeper.new (λ t.
        Unchanged result t (P.tells keeper.new) (P.may_leave keeper.new)) }
    ensures version { FromDurable P.Keeper keeper.old keeper.new (λ t.
        VersionAtExit result (P.has_version keeper.old) (P.has_version keeper.new)) }
    ensures refusals { Refusals P.Keeper keeper.old keeper.new result
        (S.left source.old) (S.left source.new) (K.out sink.old) (K.out sink.new) }
    ensures causes { Causes result (S.faults source.old) (S.faults source.new) (K.faults sink.old)
        (K.faults sink.new)
        (P.faults keeper.old) (P.faults keeper.new) (P.stopped keeper.new) }
    ensures many { result ≡ 8 → PassedSessionLimit (S.left source.old) (S.left source.new) }
    ensures quit { result ≡ 0
        → TookQuit asked.now.user asked.now.secret (S.left source.old) (S.left source.new) }
    ensures ended { result ≡ 1 → IsAtEnd (S.left source.new) }
    ensures complete { IfCalm (S.faults source.old) (S.faults source.new)
        (K.faults sink.old) (K.faults sink.new) (P.faults keeper.old) (P.faults keeper.new)
        (IsUndisturbedSession result) }
    ensures statuses { (result ≤ 9) × (result ≢ 2) }
    ensures path { IsPlacedUnless (result ≡ 7) (P.path keeper.old) (P.path keeper.new)
        asked.now.path }
{
    match open_store(alloc, key, &asked.path, keeper) {
        Ok(engine) => serve_with(alloc, asked, source, sink, engine, steps),
        Err(OpenFault::Refused(fault)) => refuse(fault, sink).code(),
        Err(OpenFault::Keeper) => 5,
        Err(OpenFault::Memory) => 7,
    }
}

/// Serves the box of a store by one session of the post office protocol, version 3 (RFC 1939):
/// reads the words of the command line, attaches the keeper at the path that they name, checks its
/// tables, copies the letters of the box, greets, and answers the requests of the source, up to an
/// accepted QUIT. The letters are the documents of the user's box, in the order in which `list`
/// shows them. It reads pieces of at most 65,536 bytes, and puts the reply to each request before
/// it looks at the next one. After the greeting it takes no memory. It changes nothing in the
/// store.
///
/// Returns the status:
/// - 0: QUIT was accepted, and all replies were put;
/// - 1: the input ended before that, and all replies were put;
/// - 2: the words are refused; nothing was attached, read or written;
/// - 3: a read failed;
/// - 4: a put failed;
/// - 5: the keeper failed; nothing was read or written;
/// - 6: the store is refused; one line says why, and nothing was read;
/// - 7: out of memory; nothing was read or written;
/// - 8: no QUIT was accepted among the first 268,435,456 bytes, and more were taken;
/// - 9: there is no such box, and the line `-ERR box` says so; nothing was read.
pub fn serve<S: Peer<K>, K: Sink, P: Keeper, L: Ledger>(
    alloc: Global,
    key: HashKey,
    words: &Texts,
    source: &mut S,
    sink: &mut K,
    keeper: &mut P,
    steps: &mut Steps<L>,
) -> u8
    requires free { IsFree P.Keeper keeper.old }
    requires texts { All IsUtf8 words.now }

    // When each status comes, and what was read and written, whatever the store is.
    ensures ends { PopEnds words.now result (S.left source.old) (S.left source.new)
        (K.out sink.old) (K.out sink.new) (S.faults source.old) (S.faults source.new)
        (K.faults sink.old) (K.faults sink.new) }

    // Over the tables of a store: how the box was served, that the tables are unchanged, with which
    // version, and when the store is refused.
    ensures over { FromDurable P.Keeper keeper.old keeper.new (λ t. PopEndsOver words.now result
        (S.left source.old) (S.left source.new) (K.out sink.old) (K.out sink.new)
        (S.was_asked source.old) (S.was_asked source.new) t (P.has_version keeper.old)
        (P.has_version keeper.new) (P.tells keeper.new) (P.may_leave keeper.new)) }

    // Where the keeper is, and when it has failed.
    ensures leaves { RunLeaves P.Keeper keeper.old keeper.new result (pop_path_in words.now) }

    // What well-worded words ask for.
    ensures named { (path : Option (List ℕ)) (user name secret : List ℕ)
        → IsPopWorded words.now path user name secret →
        (pop_path_in words.now ≡ path_or_default path) × ((user_in words.now ≡ user)
        × ((box_in words.now ≡ name) × (secret_in words.now ≡ secret))) }

    // If nothing fails, the session ends by itself.
    ensures complete { (path : Option (List ℕ)) (user name secret : List ℕ)
        → IsPopWorded words.now path user name secret →
        IfCalm (S.faults source.old) (S.faults source.new) (K.faults sink.old) (K.faults sink.new)
        (P.faults keeper.old) (P.faults keeper.new) (IsUndisturbedSession result) }
{
    let asked = match read_pop_words(alloc, words) {
        Ok(asked) => asked,
        Err(OptionFault::Refused) => return 2,
        Err(OptionFault::Memory) => return 7,
    };
    serve_box(alloc, key, &asked, source, sink, keeper, steps)
}

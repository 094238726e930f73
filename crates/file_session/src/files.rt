//! The files of a store, from their open to their close.
ghost use Rattle.std.specs.Prelude.{◌≡◌, ◌≢◌, ◌⊎◌, ◌↔◌, [], true, false, not, Some, None, Ok};
ghost use Rattle.std.specs.Prelude.{IfSome, is_some, ⊤};
ghost use Rattle.std.specs.List.{All};
ghost use Rattle.std.specs.Str.{IsUtf8};
ghost use Rattle.tap_base.specs.Ledgers.{IsBlankOf};
ghost use Rattle.keeper_core.specs.States.{IsPlacedBy};
ghost use Rattle.keeper_file.specs.Cases.{Tells, HasVersion, IsHonest, MayLeave, IsInMemory};
ghost use Rattle.keeper_file.specs.Cases.{has_files, is_stopped, path_of};
ghost use Rattle.keeper_file.specs.Images.{ImageTells, ImageHasVersion};
ghost use Rattle.sqlite_wal.specs.Files.{image_at};
ghost use Rattle.tap_rows.specs.declared.tables.Tables.{Tables};
ghost use Rattle.file_session.specs.Closes.{CallEnd, SessionEnd};

use crate::session::StoreProgram;
use keeper_file::{FileKeeper, Opener, PathOpener};
use peer_edges::Peer;
use sqlite::{Alter, Error, FileFrom, FileStore, Files, Start};
use std::sync::ledger::{Blank, Ledger};
use tap_base::{HashKey, Steps, Texts};
use tap_edges::Sink;

// Makes the call over a keeper with this opener, which has opened nothing. Returns the status, and
// the keeper.
fn run_over<C: StoreProgram, I: Peer<K>, K: Sink, A: Alter + Drop, O: Opener<A>, L: Ledger>(
    rt: &HostRuntime,
    words: &Texts,
    source: &mut I,
    sink: &mut K,
    opener: O,
    blank: Blank,
) -> (u8, FileKeeper<A, O>)
    requires blank { IsBlankOf L.name L.parts blank }
    requires texts { All IsUtf8 words.now }
    requires clean { O.Opener.files.clean opener }
    ensures ends { C.ends words.now result.0 (I.left source.old) (I.left source.new)
        (K.out sink.old) (K.out sink.new)
        (I.faults source.old) (I.faults source.new) (K.faults sink.old) (K.faults sink.new) }
    ensures ends_over { (t : Tables) → IsHonest O.Opener.files A.Store result.1.inner
        → ImageTells O.Opener.files.image t →
        C.ends_over words.now result.0 (I.left source.old) (I.left source.new) (K.out sink.old)
        (K.out sink.new)
        (I.was_asked source.old) (I.was_asked source.new)
        t (ImageHasVersion O.Opener.files.image) (HasVersion O.Opener.files A.Store result.1.inner)
        (Tells O.Opener.files A.Store result.1.inner)
        (MayLeave O.Opener.files A.Store result.1.inner) }
    ensures placed { IsPlacedBy result.0 [] (path_of result.1.inner) (C.path words.now) }
    ensures unopened { result.0 ≡ 2 → has_files result.1.inner ≡ false }
    ensures stopped { (is_stopped result.1.inner ≡ true) ↔ (result.0 ≡ 5) }
{
    let mut steps = Steps::<L>::start(blank);
    let mut keeper = FileKeeper::new(opener);
    let alloc = rt.alloc();
    let key = HashKey::draw(rt);
    let status = C::hold(alloc, key, words, source, sink, &mut keeper, &mut steps);
    (status, keeper)
}

// Makes the call over a keeper with this opener. Returns the status, and, unless the keeper failed
// or the store was refused, the keeper: first if it has files open, else second.
fn run_apart<C: StoreProgram, I: Peer<K>, K: Sink, A: Alter + Drop, O: Opener<A>, L: Ledger>(
    rt: &HostRuntime,
    words: &Texts,
    source: &mut I,
    sink: &mut K,
    opener: O,
    blank: Blank,
) -> (u8, Option<FileKeeper<A, O>>, Option<FileKeeper<A, O>>)
    requires blank { IsBlankOf L.name L.parts blank }
    requires texts { All IsUtf8 words.now }
    requires clean { O.Opener.files.clean opener }
    ensures ends { C.ends words.now result.0 (I.left source.old) (I.left source.new)
        (K.out sink.old) (K.out sink.new)
        (I.faults source.old) (I.faults source.new) (K.faults sink.old) (K.faults sink.new) }
    ensures gone { (result.0 ≡ 5) ⊎ (result.0 ≡ 6)
        → (is_some result.1 ≡ false) × (is_some result.2 ≡ false) }
    ensures one { result.0 ≢ 5 → result.0 ≢ 6 → is_some result.2 ≡ not (is_some result.1) }
    ensures open { IfSome result.1 (λ keeper. has_files keeper.inner ≡ true) }
    ensures unopened { IfSome result.2 (λ keeper. has_files keeper.inner ≡ false) }
    ensures placed { IfSome result.2 (λ keeper.
        (((result.0 ≡ 2) ⊎ (result.0 ≡ 7)) × (path_of keeper.inner ≡ []))
        ⊎ IsInMemory (C.path words.now)) }
    ensures refused { result.0 ≡ 2 → is_some result.1 ≡ false }
    ensures end { CallEnd O.Opener.files A.Store (λ t versions tells leaves.
        C.ends_over words.now result.0 (I.left source.old) (I.left source.new) (K.out sink.old)
        (K.out sink.new)
        (I.was_asked source.old) (I.was_asked source.new)
        t (ImageHasVersion O.Opener.files.image) versions tells leaves) result.0
        (λ inner. IfSome result.1 (λ keeper. keeper.inner ≡ inner)
        × IfSome result.2 (λ keeper. keeper.inner ≡ inner)) }
{
    let (status, keeper) = run_over::<C, _, _, A, _, L>(rt, words, source, sink, opener, blank);
    if status == 5 || status == 6 {
        drop(keeper);
        return (status, None, None);
    }
    if keeper.has_files() {
        (status, Some(keeper), None)
    } else {
        (status, None, Some(keeper))
    }
}

/// Makes the call over the files that the words name, and closes them unless the keeper failed or
/// the store was refused. Returns the status; what the close gave, which is both files, none if no
/// file was open, or an error and what is left of the store; and, unless the status is 5 or 6, the
/// keeper if it has no file open.
pub fn run_to_close<'a, C: StoreProgram, I: Peer<K>, K: Sink, S: Start, L: Ledger>(
    rt: &'a HostRuntime,
    words: &Texts,
    source: &mut I,
    sink: &mut K,
    start: S,
    blank: Blank,
) -> (
    u8,
    Option<Result<Option<Files<FileFrom<S>>>, (Error, FileStore<FileFrom<S>>)>>,
    Option<FileKeeper<FileStore<FileFrom<S>>, PathOpener<'a, S, FileFrom<S>>>>,
)
    requires blank { IsBlankOf L.name L.parts blank }
    requires texts { All IsUtf8 words.now }
    ensures ends { C.ends words.now result.0 (I.left source.old) (I.left source.new)
        (K.out sink.old) (K.out sink.new)
        (I.faults source.old) (I.faults source.new) (K.faults sink.old) (K.faults sink.new) }

    // Nothing is closed if and only if the keeper failed or the store was refused.
    ensures closes { (result.1 ≡ None) ↔ ((result.0 ≡ 5) ⊎ (result.0 ≡ 6)) }

    // With another status, no file was open if and only if the keeper comes back. It has none open,
    // and is attached nowhere, as words are refused or it is out of memory, or the words name a
    // path in memory.
    ensures no_file { (result.1 ≡ Some (Ok None)) ↔ (is_some result.2 ≡ true) }
    ensures unopened { IfSome result.2 (λ keeper. has_files keeper.inner ≡ false) }
    ensures placed { IfSome result.2 (λ keeper.
        (((result.0 ≡ 2) ⊎ (result.0 ≡ 7)) × (path_of keeper.inner ≡ []))
        ⊎ IsInMemory (C.path words.now)) }
    ensures refused { result.0 ≡ 2 → result.1 ≡ Some (Ok None) }

    // How the call ended over the tables that the files held initially, and what the close left of
    // those that it told.
    ensures end { SessionEnd S.Start (λ t versions tells leaves.
        C.ends_over words.now result.0 (I.left source.old) (I.left source.new) (K.out sink.old)
        (K.out sink.new)
        (I.was_asked source.old) (I.was_asked source.new)
        t (ImageHasVersion (image_at S.Start)) versions tells leaves) result.0 result.1
        (λ inner. IfSome result.2 (λ keeper. keeper.inner ≡ inner)) }
{
    let opener = PathOpener::new(rt, start);
    let (status, open, unopened) = run_apart::<C, _, _, FileStore<FileFrom<S>>, _, L>(
        rt, words, source, sink, opener, blank,
    );
    match open {
        Some(keeper) => (status, Some(keeper.close()), unopened),
        None => {
            if status == 5 || status == 6 {
                (status, None, unopened)
            } else {
                (status, Some(Ok(None)), unopened)
            }
        }
    }
}

/// Makes the call over the files that the words name, and closes them unless the keeper failed or
/// the store was refused. Returns the status, and what the close gave, as `run_to_close`.
pub fn run_session<C: StoreProgram, I: Peer<K>, K: Sink, S: Start, L: Ledger>(
    rt: &HostRuntime,
    words: &Texts,
    source: &mut I,
    sink: &mut K,
    start: S,
    blank: Blank,
) -> (
    u8,
    Option<Result<Option<Files<FileFrom<S>>>, (Error, FileStore<FileFrom<S>>)>>,
)
    requires blank { IsBlankOf L.name L.parts blank }
    requires texts { All IsUtf8 words.now }
    ensures ends { C.ends words.now result.0 (I.left source.old) (I.left source.new)
        (K.out sink.old) (K.out sink.new)
        (I.faults source.old) (I.faults source.new) (K.faults sink.old) (K.faults sink.new) }
    ensures closes { (result.1 ≡ None) ↔ ((result.0 ≡ 5) ⊎ (result.0 ≡ 6)) }

    // No file was open only if words were refused or it was out of memory, or if the words name a
    // path in memory.
    ensures no_file { result.1 ≡ Some (Ok None)
        → ((result.0 ≡ 2) ⊎ (result.0 ≡ 7)) ⊎ IsInMemory (C.path words.now) }
    ensures refused { result.0 ≡ 2 → result.1 ≡ Some (Ok None) }
    ensures end { SessionEnd S.Start (λ t versions tells leaves.
        C.ends_over words.now result.0 (I.left source.old) (I.left source.new) (K.out sink.old)
        (K.out sink.new)
        (I.was_asked source.old) (I.was_asked source.new)
        t (ImageHasVersion (image_at S.Start)) versions tells leaves) result.0 result.1
        (λ inner. ⊤) }
{
    let (status, closed, unopened) = run_to_close::<C, _, _, _, L>(
        rt, words, source, sink, start, blank,
    );
    drop(unopened);
    (status, closed)
}

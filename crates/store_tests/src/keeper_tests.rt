//! Sessions over a keeper that fails, and over stores of each version.

ghost use Rattle.keeper_core.specs.States.{IsFreeInMemory};

use keeper_core::{KeepPlan, MemKeeper};
use session_runs::{edges_of, tables_after, written_over};
use std::alloc::Global;
use tap_base::{Memory, Text};
use tap_edges::PutPlan;
use tap_rows::Tables;

// Runs a session over a keeper, with puts that fail as planned; returns its status and what was
// written.
fn cut_session(
    alloc: Global,
    keeper: &mut MemKeeper,
    script: &[u8],
    puts: Vec<PutPlan>,
) -> Result<(u8, Text), Memory>
    requires free { IsFreeInMemory keeper.old }
{
    let (source, sink) = edges_of(alloc, script, 4096, Vec::new(alloc), 4096, puts)?;
    written_over(alloc, keeper, source, sink)
}

// Runs a session over a keeper; returns its status and what was written.
fn session(alloc: Global, keeper: &mut MemKeeper, script: &[u8]) -> Result<(u8, Text), Memory>
    requires free { IsFreeInMemory keeper.old }
{
    cut_session(alloc, keeper, script, Vec::new(alloc))
}

const FIRST: &[u8] =
    b"as ann\nat 100\nquery q m.words HAS 'hi'\nmail\nSubject: hi\n\n.\nat 101\nrun q\nat 110\n\
    mail\nSubject: hi\n\n.\nat 111\nrun q\n";

const SECOND: &[u8] = b"as ann\nat 111\nat 120\nmail\nSubject: hi\n\n.\nat 121\nrun q\nbox q\n";

// Runs a second session over what the first left in a store of this version: its status and what it
// wrote, and the version then.
fn second(alloc: Global, version: i64) -> Result<((u8, Text), i64), Memory> {
    let first = tables_after(alloc, FIRST)?;
    let mut keeper = MemKeeper::new(alloc, first, version, Vec::new(alloc));
    let ended = session(alloc, &mut keeper, SECOND);
    let version = keeper.version();
    drop(keeper);
    Ok((ended?, version))
}

// Runs a session over these tables in a store of version 2; returns its status and what it wrote.
fn over(alloc: Global, tables: Tables, script: &[u8]) -> Result<(u8, Text), Memory> {
    let mut keeper = MemKeeper::new(alloc, tables, 2, Vec::new(alloc));
    let ended = session(alloc, &mut keeper, script);
    drop(keeper);
    ended
}

// Runs a second session whose third call of the keeper fails, the commit of its run: its status and
// what it wrote, and what a crash leaves.
fn second_cut(alloc: Global, kept: bool) -> Result<(Result<(u8, Text), Memory>, Tables), Memory> {
    let fails = vec![in alloc; KeepPlan { call: 2, kept }]?;
    let first = tables_after(alloc, FIRST)?;
    let mut keeper = MemKeeper::new(alloc, first, 2, fails);
    let ended = session(alloc, &mut keeper, SECOND);
    Ok((ended, keeper.after_crash()))
}

// Runs that session, and shows a box of what a crash leaves; the status of each, and what each
// wrote.
fn shown_after_cut(alloc: Global, kept: bool) -> Result<((u8, Text), (u8, Text)), Memory> {
    let (ended, left) = second_cut(alloc, kept)?;
    let boxed = over(alloc, left, b"as ann\nbox q\n");
    Ok((ended?, boxed?))
}

const VOTES: &[u8] =
    b"as ann\nat 1\nmail\n\n.\nnote 1 like 2 x\nas bob\nnote 1 like 5 x\nas ann\nnote 1 like 3 y\n";

#[test]
fn votes_are_counted_after_a_restart(rt: HostRuntime) -> Result<(), Memory> {
    let left = tables_after(rt.alloc(), VOTES)?;
    let (status, written) = over(rt.alloc(), left, b"scores like\n")?;
    assert_eq!(rt; status, 0);
    assert_eq!(rt;
        written.as_slice(),
        b"ok 1 scores like\ndoc 1 voters 2 sum 8\n".as_slice()
    );
    drop(written);
    Ok(())
}

#[test]
fn sessions_go_on_over_a_store(rt: HostRuntime) -> Result<(), Memory> {
    let alloc = rt.alloc();
    // a store of version 1 becomes one of version 2
    let versions: [i64; 2] = [2, 1];
    for version in versions {
        let ((status, written), version) = second(alloc, version)?;
        assert_eq!(rt; status, 0);
        assert_eq!(rt;
            written.as_slice(),
            b"ok 0 as ann\nok 0 at 111\nok 0 at 120\nok 0 doc 3\nok 0 at 121\n\
            ok 1 run 3 before 121\ndoc 3 first 120\n\
              ok 3 box q\ndoc 1 first 100 run 1\ndoc 2 first 110 run 2\ndoc 3 first 120 run 3\n"
                .as_slice()
        );
        drop(written);
        assert_eq!(rt; version, 2);
    }
    Ok(())
}

#[test]
fn a_crash_leaves_a_run_or_none_of_it(rt: HostRuntime) -> Result<(), Memory> {
    let alloc = rt.alloc();
    let rows: [(bool, &[u8]); 2] = [
        (
            false,
            b"ok 0 as ann\nok 2 box q\ndoc 1 first 100 run 1\ndoc 2 first 110 run 2\n",
        ),
        (
            true,
            b"ok 0 as ann\nok 3 box q\ndoc 1 first 100 run 1\ndoc 2 first 110 run 2\n\
            doc 3 first 120 run 3\n",
        ),
    ];
    for (kept, boxed) in rows {
        let ((status, written), (again, shown)) = shown_after_cut(alloc, kept)?;
        assert_eq!(rt; status, 5);
        assert_eq!(rt;
            written.as_slice(),
            b"ok 0 as ann\nok 0 at 111\nok 0 at 120\nok 0 doc 3\nok 0 at 121\n".as_slice()
        );
        drop(written);
        assert_eq!(rt; again, 0);
        assert_eq!(rt; shown.as_slice(), boxed);
        drop(shown);
    }
    Ok(())
}

// Runs a session over an empty store of version 7, with puts that fail as planned: its status and
// what it wrote, and the version then.
fn over_alien(alloc: Global, puts: Vec<PutPlan>) -> Result<((u8, Text), i64), Memory> {
    let mut keeper = MemKeeper::new(alloc, Tables::empty(alloc), 7, Vec::new(alloc));
    let ended = cut_session(alloc, &mut keeper, b"at 200\n", puts);
    let version = keeper.version();
    drop(keeper);
    Ok((ended?, version))
}

// Runs that session, whose put of the line fails after seven bytes.
fn over_alien_cut(alloc: Global) -> Result<((u8, Text), i64), Memory> {
    over_alien(alloc, vec![in alloc; PutPlan { call: 0, out: 7 }]?)
}

#[test]
fn stores_of_other_versions_are_refused(rt: HostRuntime) -> Result<(), Memory> {
    let alloc = rt.alloc();
    let ((status, written), version) = over_alien(alloc, Vec::new(alloc))?;
    assert_eq!(rt; status, 6);
    assert_eq!(rt; written.as_slice(), b"stop 6 version 7\n".as_slice());
    drop(written);
    assert_eq!(rt; version, 7);
    let ((status, written), _version) = over_alien_cut(alloc)?;
    assert_eq!(rt; status, 4);
    assert_eq!(rt; written.as_slice(), b"stop 6 ".as_slice());
    drop(written);
    Ok(())
}

// Runs a session whose attach fails.
fn unattached(alloc: Global) -> Result<(u8, Text), Memory> {
    let plan = KeepPlan {
        call: 0,
        kept: true,
    };
    let fails = vec![in alloc; plan]?;
    let mut keeper = MemKeeper::new(alloc, Tables::empty(alloc), 2, fails);
    let ended = session(alloc, &mut keeper, b"at 200\n");
    drop(keeper);
    ended
}

#[test]
fn a_failed_attach_ends_the_run(rt: HostRuntime) -> Result<(), Memory> {
    let (status, written) = unattached(rt.alloc())?;
    assert_eq!(rt; status, 5);
    assert_eq!(rt; written.as_slice(), b"".as_slice());
    drop(written);
    Ok(())
}

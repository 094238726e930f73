//! The commands that look ahead, count votes, show a run as a message and look stored rows up.

use session_runs::answers;
use tap_base::Memory;

#[test]
fn runs_to_come_votes_and_digests_are_told(rt: HostRuntime) -> Result<(), Memory> {
    let alloc = rt.alloc();
    let rows: [(&[u8], u8, &[u8]); 5] = [
        // a moment to wake at, while the query waits and after its run
        (
            b"as ann\nat 100\nquery w now >= m.ts + 3 SECONDS AND now < m.ts + 6 SECONDS\nmail\n\
            Subject: hi\n\n.\n\
              wake w\nat 103\nwake w\nat 104\nwake w\nrun w\nwake w\n",
            0,
            b"ok 0 as ann\nok 0 at 100\nok 0 query w\nok 0 doc 1\nok 0 wake w 104\nok 0 at 103\n\
            ok 0 wake w 104\n\
              ok 0 at 104\nok 0 wake w 104\nok 1 run 1 before 104\ndoc 1 first 103\n\
              ok 0 wake w never\n",
        ),
        // a query that never delivers, and one that is not there
        (
            b"as ann\nat 100\nquery b now <> m.date\nmail\nSubject: hi\n\n.\nwake b\nwake c\n",
            1,
            b"ok 0 as ann\nok 0 at 100\nok 0 query b\nok 0 doc 1\nok 0 wake b never\nno 10\n",
        ),
        // each author's last vote counts; other kinds and names that aren't valid
        (
            b"as ann\nat 100\nmail\nSubject: hi\n\n.\nmail\nSubject: hi\n\n.\nnote 1 score 3 x\n\
            note 2 score 5 y\n\
              as bob\nnote 1 score 4 z\nnote 2 score -9 z\nas ann\nnote 1 score 1 again\n\
              scores score\nscores like\n\
              scores X\n",
            1,
            b"ok 0 as ann\nok 0 at 100\nok 0 doc 1\nok 0 doc 2\nok 0 note 1\nok 0 note 2\n\
            ok 0 as bob\nok 0 note 3\n\
              ok 0 note 4\nok 0 as ann\nok 0 note 5\nok 2 scores score\ndoc 1 voters 2 sum 5\n\
              doc 2 voters 2 sum -4\n\
              ok 0 scores like\nno 8\n",
        ),
        // a sum of more than 64 bits
        (
            b"as ann\nat 100\nmail\nSubject: hi\n\n.\nnote 1 score 9223372036854775807 a\nas bob\n\
            note 1 score 9223372036854775807 b\nscores score\n",
            0,
            b"ok 0 as ann\nok 0 at 100\nok 0 doc 1\nok 0 note 1\nok 0 as bob\nok 0 note 2\n\
            ok 1 scores score\ndoc 1 voters 2 sum 18446744073709551614\n",
        ),
        // the digests of two runs, and of one that was not
        (
            b"as ann\nat 100\nquery all TRUE\nmail\nSubject: one\n\nFrom here\n>From there\n.\n\
            at 101\nrun all\n\
              run all\ndigest all 1\ndigest all 2\ndigest all 3\n",
            1,
            b"ok 0 as ann\nok 0 at 100\nok 0 query all\nok 0 doc 1\nok 0 at 101\n\
            ok 1 run 1 before 101\n\
              doc 1 first 100\nok 0 run 2 before 101\nok 9 digest all 1\nFrom: tapestry\n\
              Subject: digest all 1\n\n\
              From doc 1 first 100\nSubject: one\n\n>From here\n>>From there\n\n\
              ok 3 digest all 2\nFrom: tapestry\n\
              Subject: digest all 2\n\nno 19 2\n",
        ),
    ];
    for (script, want, bytes) in rows {
        let (status, written) = answers(alloc, script, 100)?;
        assert_eq!(rt; status, want);
        assert_eq!(rt; written.as_slice(), bytes);
        drop(written);
    }
    Ok(())
}

#[test]
fn stored_rows_are_shown(rt: HostRuntime) -> Result<(), Memory> {
    let alloc = rt.alloc();
    let rows: [(&[u8], u8, &[u8]); 6] = [
        // each look-up, and each refusal
        (
            b"at 1000\nas ann\nmail\nSubject: x\n\nhello\n.\nnote 1 score 3 good one\nnote 1 k 1\n\
              query q FROM NOW   m.words HAS 'hello'\nat 1001\nrun q\nqueries\nnotes 1\nshow 1\n\
              counts\nshow 2\nnotes\nqueries all\n",
            1,
            b"ok 0 at 1000\nok 0 as ann\nok 0 doc 1\nok 0 note 1\nok 0 note 2\nok 0 query q\n\
            ok 0 at 1001\n\
              ok 1 run 1 before 1001\ndoc 1 first 1000\nok 1 queries\n\
              query q ts 1000 from 1000 runs 1 last 1001 boxed 1 text m.words HAS 'hello'\n\
              ok 2 notes 1\n\
              note 1 ts 1000 author ann kind score value 3 text good one\n\
              note 2 ts 1000 author ann kind k value 1 text\nok 3 show 1 at 1000\nSubject: x\n\n\
              hello\n\
              ok 0 counts documents 1 notes 2 moment 1001\nno 11\nno 2\nno 2\n",
        ),
        // before there is a user, a moment or a row
        (
            b"counts\nqueries\nshow 1\nnotes 1\nshow 0\nas ann\nqueries\n",
            1,
            b"ok 0 counts documents 0 notes 0 moment 0\nno 7\nno 11\nno 11\nno 11\nok 0 as ann\n\
            ok 0 queries\n",
        ),
        // the notes of one document, of each author, in order of their numbers
        (
            b"at 5\nas ann\nmail\n.\nmail\n.\nnote 2 k 1 a\nnote 1 k 2 b\nas bob\nat 7\n\
            note 2 j -3 c\nnotes 2\nnotes 1\n\
              notes 3\nnotes 0\n",
            1,
            b"ok 0 at 5\nok 0 as ann\nok 0 doc 1\nok 0 doc 2\nok 0 note 1\nok 0 note 2\n\
            ok 0 as bob\nok 0 at 7\nok 0 note 3\n\
              ok 2 notes 2\nnote 1 ts 5 author ann kind k value 1 text a\n\
              note 3 ts 7 author bob kind j value -3 text c\n\
              ok 1 notes 1\nnote 2 ts 5 author ann kind k value 2 text b\nno 11\nno 11\n",
        ),
        // each user's own queries: never run, from now, and with runs that delivered nothing
        (
            b"at 5\nas ann\nquery b TRUE\nquery a from now m.words HAS 'x'\nas bob\n\
            query b FALSE\nat 8\nmail\nSubject: x\n.\n\
              at 9\nrun b\nrun b\nqueries\nas ann\nrun b\nat 12\nqueries\nas cid\nqueries\n",
            0,
            b"ok 0 at 5\nok 0 as ann\nok 0 query b\nok 0 query a\nok 0 as bob\nok 0 query b\n\
            ok 0 at 8\nok 0 doc 1\nok 0 at 9\n\
              ok 0 run 1 before 9\nok 0 run 2 before 9\nok 1 queries\n\
              query b ts 5 from 0 runs 2 last 9 boxed 0 text FALSE\n\
              ok 0 as ann\nok 1 run 1 before 9\ndoc 1 first 8\nok 0 at 12\nok 2 queries\n\
              query b ts 5 from 0 runs 1 last 9 boxed 1 text TRUE\n\
              query a ts 5 from 5 runs 0 last never boxed 0 text m.words HAS 'x'\nok 0 as cid\n\
              ok 0 queries\n",
        ),
        // lines of a text: CRs at their ends, lines of a dot and of `>`, and a last line that is
        // empty
        (
            b"at 5\nmail\nSubject: x\r\r\n\r\n..\n>From here\nFrom here\n\n\n.\nmail\n.\nshow 1\n\
            show 2\n",
            0,
            b"ok 0 at 5\nok 0 doc 1\nok 0 doc 2\nok 7 show 1 at 5\nSubject: x\n\n.\n>From here\n\
            From here\n\n\nok 0 show 2 at 5\n",
        ),
        // the session's moment is told, and not that of the last row
        (
            b"at 5\nmail\n.\nat 9\ncounts\nat 8\n",
            1,
            b"ok 0 at 5\nok 0 doc 1\nok 0 at 9\nok 0 counts documents 1 notes 0 moment 9\nno 5 9\n",
        ),
    ];
    for (script, want, bytes) in rows {
        let (status, written) = answers(alloc, script, 100)?;
        assert_eq!(rt; status, want);
        assert_eq!(rt; written.as_slice(), bytes);
        drop(written);
    }
    Ok(())
}

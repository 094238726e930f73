//! Three sessions, and their replies.

pub const FIRST: &[u8] =
    b"as ann\nat 100\nquery q m.words HAS 'hi'\nmail\nSubject: hi\n\n.\nat 101\nrun q\nat 110\n\
    mail\nSubject: hi\n\n.\nat 111\nrun q\n";

pub const FIRST_REPLIES: &[u8] =
    b"ok 0 as ann\nok 0 at 100\nok 0 query q\nok 0 doc 1\nok 0 at 101\nok 1 run 1 before 101\n\
    doc 1 first 100\n\
      ok 0 at 110\nok 0 doc 2\nok 0 at 111\nok 1 run 2 before 111\ndoc 2 first 110\n";

/// A change of each kind, and the box.
pub const SECOND: &[u8] =
    b"as ann\nat 111\nat 120\nmail\nSubject: hi\n\n.\nat 121\nrun q\nnote 1 score -7 x\n\
    query r TRUE\n\
      filter\nWHEN TRUE PRIORITY 1 CLASS 'a'\n.\nbox q\n";

pub const SECOND_REPLIES: &[u8] =
    b"ok 0 as ann\nok 0 at 111\nok 0 at 120\nok 0 doc 3\nok 0 at 121\nok 1 run 3 before 121\n\
    doc 3 first 120\n\
      ok 0 note 1\nok 0 query r\nok 0 filter 1\n\
      ok 3 box q\ndoc 1 first 100 run 1\ndoc 2 first 110 run 2\ndoc 3 first 120 run 3\n";

pub const THIRD: &[u8] = b"counts\nas ann\nbox q\nqueries\nshow 3\n";

pub const THIRD_REPLIES: &[u8] =
    b"ok 0 counts documents 3 notes 1 moment 121\nok 0 as ann\nok 3 box q\ndoc 1 first 100 run 1\n\
    doc 2 first 110 run 2\n\
      doc 3 first 120 run 3\nok 2 queries\n\
      query q ts 100 from 0 runs 3 last 121 boxed 3 text m.words HAS 'hi'\n\
      query r ts 121 from 0 runs 0 last never boxed 0 text TRUE\nok 2 show 3 at 120\n\
      Subject: hi\n\n";

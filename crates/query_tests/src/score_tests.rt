//! Tests of votes that are added and undone, and of scores.

use std::alloc::Global;
use tap_base::{DocNum, Memory, NoteNum, Text};
use tap_rows::Note;
use vote_scores::{Score, Scores};

// A vote of an author on a document.
#[derive(Clone, Copy)]
struct Cast<'a> {
    doc: u32,
    author: &'a [u8],
    value: i64,
}

// Gives a note its author and its kind.
fn fill_note(note: &mut Note, author: &[u8]) -> Result<(), Memory> {
    note.author.push_slice(author)?;
    note.kind.push_slice(b"score")
}

// Returns the note of a vote, of the kind `score`.
fn note_of<'a>(alloc: Global, cast: &Cast<'a>) -> Result<Note, Memory> {
    let mut note = Note {
        num: NoteNum(1),
        doc: DocNum(cast.doc),
        author: Text::new(alloc),
        kind: Text::new(alloc),
        value: cast.value,
        arrival: 100,
        text: Text::new(alloc),
    };
    match fill_note(&mut note, cast.author) {
        Ok(()) => Ok(note),
        Err(Memory) => {
            drop(note);
            Err(Memory)
        }
    }
}

// Adds the vote of a note, if there is room for it.
fn add_note(scores: &mut Scores, note: &Note) -> Result<(), Memory> {
    if scores.len() < u32::MAX {
        scores.add(note)?;
    }
    Ok(())
}

// Adds votes, each if there is room for it.
fn add_votes<'a>(alloc: Global, scores: &mut Scores, casts: &[Cast<'a>]) -> Result<(), Memory> {
    for cast in casts {
        let note = note_of(alloc, cast)?;
        let added = add_note(scores, &note);
        drop(note);
        added?;
    }
    Ok(())
}

// Adds the vote of a note and undoes it. Returns the value that it had before, if any.
fn undone_note(scores: &mut Scores, note: &Note) -> Result<Option<i64>, Memory> {
    if scores.len() == u32::MAX {
        return Ok(None);
    }
    let undo = scores.add(note)?;
    let old = undo.old;
    scores.undo(undo);
    Ok(old)
}

// Adds a vote and undoes it. Returns the value that it had before, if any.
fn undone<'a>(alloc: Global, scores: &mut Scores, cast: &Cast<'a>) -> Result<Option<i64>, Memory> {
    let note = note_of(alloc, cast)?;
    let old = undone_note(scores, &note);
    drop(note);
    old
}

// Returns these votes, added in turn.
fn scores_of<'a>(alloc: Global, casts: &[Cast<'a>]) -> Result<Scores, Memory> {
    let mut scores = Scores::new(alloc);
    match add_votes(alloc, &mut scores, casts) {
        Ok(()) => Ok(scores),
        Err(Memory) => {
            drop(scores);
            Err(Memory)
        }
    }
}

// Returns whether these are the scores of the kind.
fn are_scores(
    alloc: Global,
    scores: &Scores,
    kind: &[u8],
    wanted: &[Score],
) -> Result<bool, Memory> {
    let rows = scores.of_kind(alloc, kind)?;
    let same = rows.as_slice() == wanted;
    drop(rows);
    Ok(same)
}

// Returns whether these votes have these scores of the kind.
fn have_scores<'a>(
    alloc: Global,
    casts: &[Cast<'a>],
    kind: &[u8],
    wanted: &[Score],
) -> Result<bool, Memory> {
    let scores = scores_of(alloc, casts)?;
    let same = are_scores(alloc, &scores, kind, wanted);
    drop(scores);
    same
}

// Returns a vote on a document.
fn cast_on(doc: u32, author: &[u8], value: i64) -> Cast<'_> {
    Cast { doc, author, value }
}

// Returns the score of a document.
fn score(doc: u32, voters: u32, sum: i128) -> Score {
    Score {
        doc: DocNum(doc),
        voters,
        sum,
    }
}

#[test]
fn the_last_vote_of_each_author_counts(rt: HostRuntime) -> Result<(), Memory> {
    let casts = [
        cast_on(1, b"ann", 3),
        cast_on(2, b"ann", 5),
        cast_on(1, b"bob", 4),
        cast_on(2, b"bob", -9),
        cast_on(1, b"ann", 1),
    ];
    let wanted = [score(1, 2, 5), score(2, 2, -4)];
    assert!(rt; have_scores(rt.alloc(), &casts, b"score", &wanted)?);
    assert!(rt; have_scores(rt.alloc(), &casts, b"like", &[])?);
    Ok(())
}

#[test]
fn sums_have_more_than_64_bits(rt: HostRuntime) -> Result<(), Memory> {
    let casts = [cast_on(1, b"ann", i64::MAX), cast_on(1, b"bob", i64::MAX)];
    let wanted = [score(1, 2, 18446744073709551614)];
    assert!(rt; have_scores(rt.alloc(), &casts, b"score", &wanted)?);
    Ok(())
}

// Adds and undoes two votes on the second document. Returns the values before them.
fn undone_both(alloc: Global, scores: &mut Scores) -> Result<[Option<i64>; 2], Memory> {
    let ann = undone(alloc, scores, &cast_on(2, b"ann", 8))?;
    let bob = undone(alloc, scores, &cast_on(2, b"bob", 8))?;
    Ok([ann, bob])
}

#[test]
fn an_undone_vote_leaves_the_scores(rt: HostRuntime) -> Result<(), Memory> {
    let casts = [cast_on(2, b"ann", 3), cast_on(1, b"bob", 4)];
    let wanted = [score(1, 1, 4), score(2, 1, 3)];
    let mut scores = scores_of(rt.alloc(), &casts)?;
    let undone = undone_both(rt.alloc(), &mut scores);
    let len = scores.len();
    let same = are_scores(rt.alloc(), &scores, b"score", &wanted);
    drop(scores);
    assert_eq!(rt; undone?, [Some(3), None]);
    assert_eq!(rt; len, 2);
    assert!(rt; same?);
    Ok(())
}

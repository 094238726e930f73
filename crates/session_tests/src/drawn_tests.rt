//! Questions that are drawn, each asked of a session and of the definition.

use crate::slow_asked::ask_and_run;
use crate::slow_rows::{Layout, SlowRows, rows_of};
use std::alloc::Global;
use tap_base::{Memory, Text};

// How many questions are drawn.
const QUESTIONS: u32 = 60;

// Returns a number below that many, and draws the next.
fn draw(drawn: &mut u32, below: u32) -> u32 {
    *drawn = drawn.wrapping_mul(1_664_525).wrapping_add(1_013_904_223);
    (*drawn >> 16).checked_rem(below).unwrap_or(0)
}

// Returns a part that ties the document `r` to `m`.
fn tie(drawn: &mut u32) -> &'static [u8] {
    match draw(drawn, 14) {
        0 => b"r.inreplyto = m.msgid",
        1 => b"r.references HAS m.msgid",
        2 => b"m.references HAS r.msgid",
        3 => b"r.subject = m.subject",
        4 => b"r.from = m.from",
        5 => b"r.to HAS m.from",
        6 => b"m.to HAS r.from",
        7 => b"r.cc HAS m.from",
        8 => b"m.cc HAS r.from",
        9 => b"r.newsgroups HAS m.subject",
        10 => b"m.newsgroups HAS r.subject",
        11 => b"r.size = m.size AND r.id <> m.id",
        12 => b"m.from <> 'bob@x' AND r.to HAS 'list@x'",
        _ => b"r.cc HAS 'list@x'",
    }
}

// Returns another part about `r` and `m`.
fn part(drawn: &mut u32) -> &'static [u8] {
    match draw(drawn, 12) {
        0 => b"r.words HAS 'lunch'",
        1 => b"m.from = 'ann@x'",
        2 => b"m.date < TIME '1970-01-01T00:01:45Z'",
        3 => b"NOW >= r.ts + 3 SECONDS",
        4 => b"NOW < m.ts + 7 SECONDS",
        5 => b"NOW >= r.date + 12 SECONDS",
        6 => b"EXISTS (a: NOTE WHERE a.doc = r.id OR a.doc = m.id)",
        7 => b"EXISTS (a: NOTE WHERE a.doc = r.id AND a.author = 'ann')",
        8 => b"EXISTS (a: NOTE WHERE a.kind = 'tag' AND a.ts > r.ts)",
        9 => b"EXISTS (s: DOC WHERE s.inreplyto = r.msgid OR s.references HAS r.msgid)",
        10 => b"EXISTS (s: DOC WHERE s.to HAS r.from AND s.id > m.id)",
        _ => b"EXISTS (s: DOC WHERE s.size = r.size AND s.id <> r.id)",
    }
}

// Returns a part that ties the note `a` to `m`.
fn note_tie(drawn: &mut u32) -> &'static [u8] {
    match draw(drawn, 6) {
        0 => b"a.text = m.subject",
        1 => b"m.newsgroups HAS a.kind",
        2 => b"m.words HAS a.author",
        3 => b"a.value = m.id",
        _ => b"a.doc = m.id",
    }
}

// Returns another part about `a` and `m`.
fn note_part(drawn: &mut u32) -> &'static [u8] {
    match draw(drawn, 12) {
        0 => b"a.author = 'ann'",
        1 => b"a.kind = 'score'",
        2 => b"a.value = 3",
        3 => b"a.value > 1",
        4 => b"a.text = 'fine'",
        5 => b"a.ts > m.ts + 4 SECONDS",
        6 => b"a.doc < m.id",
        7 => b"a.id >= 4",
        8 => b"NOW < a.ts + 4 SECONDS",
        9 => b"EXISTS (b: NOTE WHERE b.doc = a.doc AND b.value = a.value AND b.author <> a.author)",
        10 => b"EXISTS (b: NOTE WHERE b.kind = a.kind AND b.id > a.id)",
        _ => b"EXISTS (r: DOC WHERE r.id = a.doc AND r.inreplyto = m.msgid)",
    }
}

// Returns what stands between two parts.
fn between(drawn: &mut u32) -> &'static [u8] {
    match draw(drawn, 4) {
        0 => b" OR ",
        1 => b" AND NOT ",
        _ => b" AND ",
    }
}

// Returns a comparison.
fn comparison(drawn: &mut u32) -> &'static [u8] {
    match draw(drawn, 6) {
        0 => b" < ",
        1 => b" <= ",
        2 => b" > ",
        3 => b" >= ",
        4 => b" = ",
        _ => b" <> ",
    }
}

// Returns a field that is compared by its order.
fn ordered(drawn: &mut u32) -> &'static [u8] {
    match draw(drawn, 3) {
        0 => b".ts",
        1 => b".date",
        _ => b".id",
    }
}

// Returns the variable of one side.
fn side(is_turned: bool) -> &'static [u8] {
    if is_turned { b"m" } else { b"r" }
}

// Returns what a time on the right side is shifted by.
fn shift(drawn: &mut u32) -> &'static [u8] {
    match draw(drawn, 4) {
        0 => b" + 3 SECONDS",
        1 => b" - 5 SECONDS",
        _ => b"",
    }
}

// Appends a comparison of `r` and `m` by arrival, date or number.
fn push_guard(source: &mut Text, drawn: &mut u32) -> Result<(), Memory> {
    let field = ordered(drawn);
    let is_turned = draw(drawn, 2) == 1;
    source.push_slice(side(is_turned))?;
    source.push_slice(field)?;
    source.push_slice(comparison(drawn))?;
    source.push_slice(side(!is_turned))?;
    source.push_slice(field)?;
    if field == b".id".as_slice() {
        return Ok(());
    }
    source.push_slice(shift(drawn))
}

// Appends a guard or another part.
fn push_part(source: &mut Text, drawn: &mut u32) -> Result<(), Memory> {
    if draw(drawn, 2) == 0 {
        return push_guard(source, drawn);
    }
    source.push_slice(part(drawn))
}

// Appends two parts in parentheses, of which the first ties `r` to `m`.
fn push_two(source: &mut Text, drawn: &mut u32) -> Result<(), Memory> {
    source.push_slice(b"(")?;
    source.push_slice(tie(drawn))?;
    source.push_slice(between(drawn))?;
    push_part(source, drawn)?;
    source.push_slice(b")")
}

// Appends a question of documents, with four parts.
fn push_of_docs(source: &mut Text, drawn: &mut u32) -> Result<(), Memory> {
    source.push_slice(b"EXISTS (r: DOC WHERE ")?;
    push_two(source, drawn)?;
    source.push_slice(between(drawn))?;
    push_two(source, drawn)?;
    source.push_slice(b")")
}

// Appends a question of notes, with three parts.
fn push_of_notes(source: &mut Text, drawn: &mut u32) -> Result<(), Memory> {
    source.push_slice(b"EXISTS (a: NOTE WHERE ")?;
    source.push_slice(note_tie(drawn))?;
    source.push_slice(between(drawn))?;
    source.push_slice(b"(")?;
    source.push_slice(note_part(drawn))?;
    source.push_slice(between(drawn))?;
    source.push_slice(note_part(drawn))?;
    source.push_slice(b"))")
}

// Appends a question, or NOT of one.
fn push_drawn(source: &mut Text, drawn: &mut u32) -> Result<(), Memory> {
    if draw(drawn, 4) == 0 {
        source.push_slice(b"NOT ")?;
    }
    if draw(drawn, 3) == 0 {
        return push_of_notes(source, drawn);
    }
    push_of_docs(source, drawn)
}

// How many drawn questions gave what the definition gives, one after the other from the first on,
// and how many of these gave a document at some second, and not all at another.
#[derive(Drop)]
struct Counts {
    same: u32,
    telling: u32,
}

// Appends the next question to an empty text, and counts it. Returns whether it gives what the
// definition gives.
fn count_next(
    alloc: Global,
    rows: &SlowRows,
    drawn: &mut u32,
    source: &mut Text,
    counts: &mut Counts,
) -> Result<bool, Memory> {
    push_drawn(source, drawn)?;
    let asked = ask_and_run(alloc, rows, source.as_slice())?;
    if asked.same {
        counts.same = counts.same.saturating_add(1);
        if asked.is_telling() {
            counts.telling = counts.telling.saturating_add(1);
        }
    }
    Ok(asked.same)
}

// Counts the questions, up to the first one that gives something else, with which `source` ends.
fn count_all(
    alloc: Global,
    rows: &SlowRows,
    source: &mut Text,
    counts: &mut Counts,
) -> Result<(), Memory> {
    let mut drawn = 7;
    for _ in 0..QUESTIONS {
        source.cut(0);
        if !count_next(alloc, rows, &mut drawn, source, counts)? {
            return Ok(());
        }
    }
    source.cut(0);
    Ok(())
}

// Counts the questions over the documents and the notes.
fn count_over(alloc: Global, source: &mut Text, counts: &mut Counts) -> Result<(), Memory> {
    let layout = Layout {
        copies: 1,
        second: None,
    };
    let rows = rows_of(alloc, layout)?;
    let counted = count_all(alloc, &rows, source, counts);
    drop(rows);
    counted
}

#[test]
fn drawn_questions_give_what_the_definition_gives(rt: HostRuntime) -> Result<(), Memory> {
    let alloc = rt.alloc();
    let mut source = Text::new(alloc);
    let mut counts = Counts {
        same: 0,
        telling: 0,
    };
    let counted = count_over(alloc, &mut source, &mut counts);
    assert_eq!(rt; std::str::from_utf8(source.as_slice()).unwrap_or("?"), "");
    drop(source);
    counted?;
    assert_eq!(rt; counts.same, QUESTIONS);
    assert!(rt; counts.telling >= QUESTIONS / 2);
    Ok(())
}

//! Tests of the lines of replies, and of the commands of a script that comes in pieces.

ghost use Rattle.std.specs.Prelude.{◌≡◌, ◌≤◌, ◌<◌, length};
ghost use Rattle.script_lang.specs.Replies.{HasShortNames};

use mail_lines::Block;
use script_lang::{
    Command, Found, LimitName, Lookup, QueryState, Refusal, Reply, ScriptReader, note_line,
    put_reply, query_line,
};
use std::alloc::Global;
use std::test::Fail;
use tap_base::{DocNum, Memory, NoteNum, Rows, Text, Texts, put_decimal};
use tap_edges::{MemSink, PutPlan};
use tap_rows::{Entry, Note};
use tql_lex::LexFault;
use tql_parse::ParseFault;
use tql_types::TypeFault;

// Returns the bytes of a reply that are taken if these puts fail.
fn shown(alloc: Global, reply: &Reply, fails: Vec<PutPlan>) -> Result<Text, Memory>
    requires { HasShortNames reply.now }
{
    let mut sink = MemSink::new(alloc, 256, fails)?;
    let _ = put_reply(reply, &mut sink);
    let text = Text::from_slice(alloc, sink.written());
    drop(sink);
    text
}

// Returns the line of a refusal.
fn refused(alloc: Global, refusal: Refusal) -> Result<Text, Memory> {
    let reply = Reply::No(refusal);
    let line = shown(alloc, &reply, Vec::new(alloc));
    drop(reply);
    line
}

#[test]
fn refusals_have_their_lines(rt: HostRuntime) -> Result<(), Fail> {
    let alloc = rt.alloc();
    let rows: [(Refusal, &[u8]); 25] = [
        (Refusal::Unknown, b"no 1\n"),
        (Refusal::Form, b"no 2\n"),
        (Refusal::Cut, b"no 3\n"),
        (Refusal::BadMoment, b"no 4\n"),
        (
            Refusal::Backwards { last: 250000000000 },
            b"no 5 250000000000\n",
        ),
        (Refusal::NoMoment, b"no 6\n"),
        (Refusal::NoUser, b"no 7\n"),
        (Refusal::BadName, b"no 8\n"),
        (Refusal::Taken, b"no 9\n"),
        (Refusal::NoQuery, b"no 10\n"),
        (Refusal::NoDoc, b"no 11\n"),
        (
            Refusal::Lex(LexFault::BadByte { place: 9 }),
            b"no 12 byte 9\n",
        ),
        (
            Refusal::Lex(LexFault::TooLong { len: 4097 }),
            b"no 12 long 4097\n",
        ),
        (
            Refusal::Parse(ParseFault::Unexpected { place: 11 }),
            b"no 13 token 11\n",
        ),
        (Refusal::Parse(ParseFault::Ended), b"no 13 ended\n"),
        (
            Refusal::Types(TypeFault::NoVar { place: 0 }),
            b"no 14 variable 0\n",
        ),
        (
            Refusal::Types(TypeFault::ManyVars { place: 113 }),
            b"no 14 variables 113\n",
        ),
        (Refusal::Types(TypeFault::ManyNodes), b"no 14 nodes\n"),
        (Refusal::NotOver { now: 1 }, b"no 15 1\n"),
        (Refusal::Limit(LimitName::Message), b"no 16 message\n"),
        (Refusal::Limit(LimitName::AllQueries), b"no 16 allqueries\n"),
        (Refusal::Rule { line: 1, place: 5 }, b"no 17 1 5\n"),
        (Refusal::ManyRules, b"no 17 many\n"),
        (Refusal::Memory, b"no 18\n"),
        (Refusal::NoRun { runs: 2 }, b"no 19 2\n"),
    ];
    for (refusal, want) in rows {
        let line = refused(alloc, refusal)?;
        assert_eq!(rt; line.as_slice(), want);
        drop(line);
    }
    Ok(())
}

// Returns the bytes of a reply that are taken if this put fails.
fn shown_until(alloc: Global, reply: &Reply, call: u64) -> Result<Text, Memory>
    requires { HasShortNames reply.now }
{
    shown(alloc, reply, vec![in alloc; PutPlan { call, out: 0 }]?)
}

// Returns a delivery.
fn entry(doc: u32, first: i64, run: u32) -> Entry {
    Entry {
        doc: DocNum(doc),
        first,
        run,
    }
}

// Returns what is taken of a reply with two deliveries if this put fails.
fn box_until(alloc: Global, call: u64) -> Result<Text, Memory> {
    let entries = vec![in alloc; entry(1, 100, 1), entry(20, 110, 2)]?;
    let reply = Reply::BoxOf {
        name: Text::new(alloc),
        entries: Rows::from_vec(entries),
    };
    let text = shown_until(alloc, &reply, call);
    drop(reply);
    text
}

// Adds a text and an empty one.
fn push_lines(alloc: Global, lines: &mut Texts) -> Result<(), Memory> {
    lines.push(Text::from_slice(alloc, b"one")?)?;
    lines.push(Text::new(alloc))
}

fn two_lines(alloc: Global) -> Result<Texts, Memory> {
    let mut lines = Texts::new(alloc);
    match push_lines(alloc, &mut lines) {
        Ok(()) => Ok(lines),
        Err(Memory) => {
            drop(lines);
            Err(Memory)
        }
    }
}

// Returns what is taken of a reply with two texts if this put fails.
fn texts_until(alloc: Global, call: u64) -> Result<Text, Memory> {
    let reply = Reply::Explain {
        lines: two_lines(alloc)?,
        name: Text::new(alloc),
    };
    let text = shown_until(alloc, &reply, call);
    drop(reply);
    text
}

#[test]
fn short_lines_are_one_put(rt: HostRuntime) -> Result<(), Fail> {
    let rows: [(u64, &[u8]); 2] = [
        (0, b""),
        (
            1,
            b"ok 2 box \ndoc 1 first 100 run 1\ndoc 20 first 110 run 2\n",
        ),
    ];
    for (call, want) in rows {
        let bytes = box_until(rt.alloc(), call)?;
        assert_eq!(rt; bytes.as_slice(), want);
        drop(bytes);
    }
    Ok(())
}

#[test]
fn a_text_is_two_puts(rt: HostRuntime) -> Result<(), Fail> {
    let rows: [(u64, &[u8]); 4] = [
        (1, b"ok 2 explain \n"),
        (2, b"ok 2 explain \none"),
        (3, b"ok 2 explain \none\n"),
        (9, b"ok 2 explain \none\n\n"),
    ];
    for (call, want) in rows {
        let bytes = texts_until(rt.alloc(), call)?;
        assert_eq!(rt; bytes.as_slice(), want);
        drop(bytes);
    }
    Ok(())
}

// Returns the bytes of the reply to a look-up that found two texts, or no text.
fn found_bytes(
    alloc: Global,
    found: Found,
    lines: Texts,
    fails: Vec<PutPlan>,
) -> Result<Text, Memory> {
    let reply = Reply::Found { found, lines };
    let text = shown(alloc, &reply, fails);
    drop(reply);
    text
}

#[test]
fn look_ups_have_their_lines(rt: HostRuntime) -> Result<(), Fail> {
    let alloc = rt.alloc();
    let rows: [(Found, &[u8], &[u8]); 4] = [
        (
            Found::DocText {
                doc: 4294967295,
                arrival: 250000000000,
            },
            b"ok 2 show 4294967295 at 250000000000\none\n\n",
            b"ok 0 show 4294967295 at 250000000000\n",
        ),
        (
            Found::DocNotes { doc: 7 },
            b"ok 2 notes 7\none\n\n",
            b"ok 0 notes 7\n",
        ),
        (
            Found::UserQueries,
            b"ok 2 queries\none\n\n",
            b"ok 0 queries\n",
        ),
        (
            Found::Counts {
                docs: 1000000,
                notes: 4294967295,
                moment: 0,
            },
            b"ok 2 counts documents 1000000 notes 4294967295 moment 0\none\n\n",
            b"ok 0 counts documents 1000000 notes 4294967295 moment 0\n",
        ),
    ];
    for (found, two, none) in rows {
        let bytes = found_bytes(alloc, found, two_lines(alloc)?, Vec::new(alloc))?;
        assert_eq!(rt; bytes.as_slice(), two);
        drop(bytes);
        let bytes = found_bytes(alloc, found, Texts::new(alloc), Vec::new(alloc))?;
        assert_eq!(rt; bytes.as_slice(), none);
        drop(bytes);
    }
    Ok(())
}

#[test]
fn a_look_up_is_cut_at_a_put(rt: HostRuntime) -> Result<(), Fail> {
    let alloc = rt.alloc();
    let rows: [(u64, &[u8]); 4] = [
        (0, b""),
        (1, b"ok 2 queries\n"),
        (2, b"ok 2 queries\none"),
        (9, b"ok 2 queries\none\n\n"),
    ];
    for (call, want) in rows {
        let fails = vec![in alloc; PutPlan { call, out: 0 }]?;
        let bytes = found_bytes(alloc, Found::UserQueries, two_lines(alloc)?, fails)?;
        assert_eq!(rt; bytes.as_slice(), want);
        drop(bytes);
    }
    Ok(())
}

// Returns the line of a note with this text.
fn noted(alloc: Global, value: i64, text: &[u8]) -> Result<Text, Memory> {
    let note = Note {
        num: NoteNum(12),
        doc: DocNum(3),
        author: Text::from_slice(alloc, b"ann")?,
        kind: Text::from_slice(alloc, b"score")?,
        value,
        arrival: 1000,
        text: Text::from_slice(alloc, text)?,
    };
    let line = note_line(alloc, &note);
    drop(note);
    line
}

// Returns the line of a query with this last run and this text.
fn listed(alloc: Global, runs: usize, last: Option<i64>, text: &[u8]) -> Result<Text, Memory> {
    let state = QueryState {
        arrival: 1000,
        start: 0,
        runs,
        last,
        boxed: 5,
    };
    query_line(alloc, b"q", state, text)
}

#[test]
fn rows_have_their_lines(rt: HostRuntime) -> Result<(), Fail> {
    let alloc = rt.alloc();
    let lines = [
        noted(alloc, -9223372036854775808, b"good  one ")?,
        noted(alloc, 0, b"")?,
        listed(alloc, 0, None, b"TRUE")?,
        listed(alloc, 18446744073709551615, Some(250000000000), b"")?,
    ];
    let wants: [&[u8]; 4] = [
        b"note 12 ts 1000 author ann kind score value -9223372036854775808 text good  one ",
        b"note 12 ts 1000 author ann kind score value 0 text",
        b"query q ts 1000 from 0 runs 0 last never boxed 5 text TRUE",
        b"query q ts 1000 from 0 runs 18446744073709551615 last 250000000000 boxed 5 text",
    ];
    for i in 0..4 {
        assert_eq!(rt; lines[i].as_slice(), wants[i]);
    }
    drop(lines);
    Ok(())
}

fn show_one(into: &mut Text, name: &[u8], text: &[u8]) -> Result<(), Memory> {
    into.push_slice(name)?;
    into.push_slice(text)?;
    into.push_slice(b";")
}

fn show_block(into: &mut Text, name: &[u8], block: &Block) -> Result<(), Memory> {
    match block {
        Block::Whole(text) => show_one(into, name, text.as_slice()),
        Block::Long => show_one(into, name, b"(long)"),
    }
}

fn show_two(into: &mut Text, name: &[u8], one: &[u8], two: &[u8]) -> Result<(), Memory> {
    into.push_slice(name)?;
    into.push_slice(one)?;
    show_one(into, b",", two)
}

// Shows why a line is no command.
fn show_bad(into: &mut Text, refusal: Refusal) -> Result<(), Memory> {
    match refusal {
        Refusal::Unknown => show_one(into, b"bad ", b"word"),
        Refusal::Form => show_one(into, b"bad ", b"form"),
        Refusal::Cut => show_one(into, b"bad ", b"cut"),
        _ => show_one(into, b"bad ", b"limit"),
    }
}

fn show_note(
    alloc: Global,
    into: &mut Text,
    doc: u32,
    kind: &[u8],
    value: i64,
    text: &[u8],
) -> Result<(), Memory> {
    into.push_slice(b"note ")?;
    put_decimal(alloc, doc as i64, into)?;
    into.push_slice(b",")?;
    put_decimal(alloc, value, into)?;
    show_two(into, b",", kind, text)
}

// Shows a look-up.
fn show_lookup(alloc: Global, into: &mut Text, lookup: Lookup) -> Result<(), Memory> {
    match lookup {
        Lookup::ShowDoc(doc) => {
            into.push_slice(b"show ")?;
            put_decimal(alloc, doc as i64, into)?;
        }
        Lookup::ListNotes(doc) => {
            into.push_slice(b"notes ")?;
            put_decimal(alloc, doc as i64, into)?;
        }
        Lookup::ListQueries => into.push_slice(b"queries")?,
        Lookup::Count => into.push_slice(b"counts")?,
    }
    into.push_slice(b";")
}

fn show(alloc: Global, into: &mut Text, command: &Command) -> Result<(), Memory> {
    match command {
        Command::At(text) => show_one(into, b"at ", text.as_slice()),
        Command::AsUser(name) => show_one(into, b"as ", name.as_slice()),
        Command::Mail(block) => show_block(into, b"mail ", block),
        Command::Mbox(block) => show_block(into, b"mbox ", block),
        Command::AddNote {
            doc,
            kind,
            value,
            text,
        } => show_note(alloc, into, *doc, kind.as_slice(), *value, text.as_slice()),
        Command::Define { name, source } => {
            show_two(into, b"query ", name.as_slice(), source.as_slice())
        }
        Command::Run(name) => show_one(into, b"run ", name.as_slice()),
        Command::BoxOf(name) => show_one(into, b"box ", name.as_slice()),
        Command::ListOf(name) => show_one(into, b"list ", name.as_slice()),
        Command::Filter(block) => show_block(into, b"filter ", block),
        Command::Explain(name) => show_one(into, b"explain ", name.as_slice()),
        Command::Ask { moment, source } => {
            show_two(into, b"ask ", moment.as_slice(), source.as_slice())
        }
        Command::Wake(name) => show_one(into, b"wake ", name.as_slice()),
        Command::ScoresOf(kind) => show_one(into, b"scores ", kind.as_slice()),
        Command::DigestOf { name, ordinal } => {
            into.push_slice(b"digest ")?;
            put_decimal(alloc, *ordinal as i64, into)?;
            show_one(into, b",", name.as_slice())
        }
        Command::Find(lookup) => show_lookup(alloc, into, *lookup),
        Command::Bad(refusal) => show_bad(into, *refusal),
    }
}

// Shows a command, if there is one.
fn show_some(alloc: Global, into: &mut Text, command: Option<Command>) -> Result<(), Memory> {
    match command {
        Some(command) => {
            let done = show(alloc, into, &command);
            drop(command);
            done
        }
        None => Ok(()),
    }
}

// Shows the commands of a script that comes in pieces of `size` bytes, as the reader gives them.
fn read_into(
    alloc: Global,
    reader: &mut ScriptReader,
    into: &mut Text,
    script: &[u8],
    size: usize,
) -> Result<(), Memory>
    requires { 0 < size }
{
    let mut at = 0;
    while at < script.len() {
        let end = if script.len() - at < size {
            script.len()
        } else {
            at + size
        };
        let got = reader.take(&script[at..end])?;
        at += got.used;
        show_some(alloc, into, got.command)?;
    }
    show_some(alloc, into, reader.finish()?)
}

// Shows the commands of a script that comes in pieces of `size` bytes.
fn read(alloc: Global, script: &[u8], size: usize) -> Result<Text, Memory>
    requires { 0 < size }
{
    let mut reader = ScriptReader::new(alloc);
    let mut out = Text::new(alloc);
    let done = read_into(alloc, &mut reader, &mut out, script, size);
    drop(reader);
    match done {
        Ok(()) => Ok(out),
        Err(Memory) => {
            drop(out);
            Err(Memory)
        }
    }
}

// Returns whether these are the commands of a script that comes in pieces of `size` bytes.
fn reads(alloc: Global, script: &[u8], size: usize, want: &[u8]) -> Result<bool, Memory>
    requires { 0 < size }
{
    let shown = read(alloc, script, size)?;
    let same = shown.as_slice() == want;
    drop(shown);
    Ok(same)
}

#[test]
fn commands_are_read_in_any_pieces(rt: HostRuntime) -> Result<(), Fail> {
    let alloc = rt.alloc();
    let rows: [(&[u8], &[u8]); 6] = [
        (
            b"at 9\r\n\t as  ann \n# at 1\n \n#\nrun q\nbox q\nlist q\nexplain q\nwake q\n\
            scores k\ndigest q 01\n",
            b"at 9;as ann;run q;box q;list q;explain q;wake q;scores k;digest 1,q;",
        ),
        (
            b"note 4294967295 k -9223372036854775808  a b \nnote 4294967296 k 1 t\nnote 1 k +1 t\n\
            query q\nquery q  a  b\nask 1\tx\r\r\nask",
            b"note 4294967295,-9223372036854775808,k,a b ;bad form;bad form;query q,;query \
            q,a  b;ask 1,x\r;bad form;",
        ),
        (
            b"mail\r\nSubject: x\r\n\r\n..\n.x\n\n.\r\nmbox\n.\nfilter\n# no\n.",
            b"mail Subject: x\n\n.\nx\n\n;mbox ;filter # no\n;",
        ),
        (
            b"mail x\nat 1\n.\nfly\nat\nat 1 2\nmail",
            b"bad form;bad word;bad form;bad form;bad cut;",
        ),
        (
            b"show 1\n notes\t02 \nqueries\ncounts\r\nshow\nshow x\nshow 1 2\nnotes\n\
            notes 4294967296\nqueries all\ncounts 1\nshows 1\n",
            b"show 1;notes 2;queries;counts;bad form;bad form;bad form;bad form;bad form;bad \
            form;bad form;bad word;",
        ),
        (b"mbox y\nat 1", b"bad form;"),
    ];
    for (script, want) in rows {
        let whole = read(alloc, script, 1000)?;
        assert_eq!(rt; whole.as_slice(), want);
        drop(whole);
        assert!(rt; reads(alloc, script, 1, want)?);
        assert!(rt; reads(alloc, script, 2, want)?);
    }
    Ok(())
}

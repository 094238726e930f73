//! The lines of replies.
ghost use Rattle.std.specs.Prelude.{◌≡◌, ◌≤◌, ◌+◌, ◌++◌, List, [], ◌∷◌, ℕ, Option, length, codes};
ghost use Rattle.std.specs.Fmt.{decimal, signed_decimal};
ghost use Rattle.arrayvec.specs.ArrayVec.{array_vec_len};
ghost use Rattle.script_lang.specs.Replies.{head, line, hit_line, entry_text, entry_line};
ghost use Rattle.script_lang.specs.Replies.{listed_line, doc_line, score_line, IsShort, lex_text};
ghost use Rattle.script_lang.specs.Replies.{parse_text};
ghost use Rattle.script_lang.specs.Replies.{type_text, refusal_text, limit_words, moment_text};
ghost use Rattle.script_lang.specs.Replies.{first_text, found_text};
ghost use Rattle.script_lang.specs.declared.reply.Reply.{Reply};

use crate::buffer::{
    head_line, head_name, head_number, number_line, push_bytes, push_number, text_line,
};
use crate::lookup::Found;
use crate::refusal::{LimitName, Refusal};
use arrayvec::ArrayVec;
use tap_base::DocNum;
use tap_rows::{Entry, Hit, Listed, Score};
use tql_lex::LexFault;
use tql_parse::ParseFault;
use tql_types::TypeFault;

/// A row that one line shows.
pub trait RowLine {
    // The line, with its LF.
    ghost line: { Self → List ℕ };

    /// Writes the line that shows the row into a buffer, in place of what it holds.
    fn show(&self, buffer: &mut ArrayVec<u8, 512>)
        ensures { buffer.new.items ≡ line self.now };
}

impl RowLine for Hit {
    ghost line = { hit_line };

    fn show(&self, buffer: &mut ArrayVec<u8, 512>)
        ensures { buffer.new.items ≡ hit_line self.now }
    {
        buffer.clear();
        push_bytes(buffer, b"doc ");
        push_number(buffer, self.doc.0);
        push_bytes(buffer, b" first ");
        push_number(buffer, self.first);
        push_bytes(buffer, b"\n");
    }
}

// Writes the text of an entry, without an LF, into a buffer, in place of what it holds.
fn show_entry(entry: &Entry, buffer: &mut ArrayVec<u8, 512>)
    ensures bytes { buffer.new.items ≡ entry_text entry.now }
    ensures short { array_vec_len buffer.new ≤ 140 }
{
    buffer.clear();
    push_bytes(buffer, b"doc ");
    push_number(buffer, entry.doc.0);
    push_bytes(buffer, b" first ");
    push_number(buffer, entry.first);
    push_bytes(buffer, b" run ");
    push_number(buffer, entry.run);
}

impl RowLine for Entry {
    ghost line = { entry_line };

    fn show(&self, buffer: &mut ArrayVec<u8, 512>)
        ensures { buffer.new.items ≡ entry_line self.now }
    {
        show_entry(self, buffer);
        push_bytes(buffer, b"\n");
    }
}

impl RowLine for DocNum {
    ghost line = { doc_line };

    fn show(&self, buffer: &mut ArrayVec<u8, 512>)
        ensures { buffer.new.items ≡ doc_line self.now }
    {
        buffer.clear();
        push_bytes(buffer, b"doc ");
        push_number(buffer, self.0);
        push_bytes(buffer, b"\n");
    }
}

impl RowLine for Score {
    ghost line = { score_line };

    fn show(&self, buffer: &mut ArrayVec<u8, 512>)
        ensures { buffer.new.items ≡ score_line self.now }
    {
        buffer.clear();
        push_bytes(buffer, b"doc ");
        push_number(buffer, self.doc.0);
        push_bytes(buffer, b" voters ");
        push_number(buffer, self.voters);
        push_bytes(buffer, b" sum ");
        push_number(buffer, self.sum);
        push_bytes(buffer, b"\n");
    }
}

/// Writes the line of a listed document into a buffer, in place of what it holds.
pub fn show_listed(row: &Listed, buffer: &mut ArrayVec<u8, 512>)
    requires { IsShort row.now.class }
    ensures { buffer.new.items ≡ listed_line row.now }
{
    show_entry(&row.entry, buffer);
    push_bytes(buffer, b" priority ");
    push_number(buffer, row.priority);
    push_bytes(buffer, b" class ");
    push_bytes(buffer, row.class.as_slice());
    push_bytes(buffer, b"\n");
}

// Returns the line of a fault of tokens.
fn lex_line(fault: LexFault) -> ArrayVec<u8, 512>
    ensures { result.items ≡ line (lex_text fault) }
{
    match fault {
        LexFault::BadByte { place } => number_line(b"no 12 byte ", place),
        LexFault::OpenString { place } => number_line(b"no 12 string ", place),
        LexFault::BigNumber { place } => number_line(b"no 12 number ", place),
        LexFault::TooLong { len } => number_line(b"no 12 long ", len),
        LexFault::Memory => text_line(b"no 18"),
    }
}

// Returns the line of a fault of syntax.
fn parse_line(fault: ParseFault) -> ArrayVec<u8, 512>
    ensures { result.items ≡ line (parse_text fault) }
{
    match fault {
        ParseFault::Unexpected { place } => number_line(b"no 13 token ", place),
        ParseFault::Ended => text_line(b"no 13 ended"),
        ParseFault::Deep { place } => number_line(b"no 13 deep ", place),
        ParseFault::Memory => text_line(b"no 18"),
    }
}

fn type_line(fault: TypeFault) -> ArrayVec<u8, 512>
    ensures { result.items ≡ line (type_text fault) }
{
    match fault {
        TypeFault::NoVar { place } => number_line(b"no 14 variable ", place),
        TypeFault::NoField { place } => number_line(b"no 14 field ", place),
        TypeFault::Clash { place } => number_line(b"no 14 clash ", place),
        TypeFault::Shadow { place } => number_line(b"no 14 shadow ", place),
        TypeFault::BadTime { place } => number_line(b"no 14 time ", place),
        TypeFault::BigSpan { place } => number_line(b"no 14 span ", place),
        TypeFault::ManyVars { place } => number_line(b"no 14 variables ", place),
        TypeFault::ManyNodes => text_line(b"no 14 nodes"),
        TypeFault::Memory => text_line(b"no 18"),
    }
}

// Returns the line of a limit that would be passed.
fn limit_line(name: LimitName) -> ArrayVec<u8, 512>
    ensures { result.items ≡ line (limit_words name) }
{
    match name {
        LimitName::Line => text_line(b"no 16 line"),
        LimitName::Message => text_line(b"no 16 message"),
        LimitName::Block => text_line(b"no 16 block"),
        LimitName::Note => text_line(b"no 16 note"),
        LimitName::Documents => text_line(b"no 16 documents"),
        LimitName::Notes => text_line(b"no 16 notes"),
        LimitName::Queries => text_line(b"no 16 queries"),
        LimitName::AllQueries => text_line(b"no 16 allqueries"),
        LimitName::Users => text_line(b"no 16 users"),
        LimitName::Filters => text_line(b"no 16 filters"),
        LimitName::Runs => text_line(b"no 16 runs"),
        LimitName::Picks => text_line(b"no 16 picks"),
        LimitName::Store => text_line(b"no 16 store"),
    }
}

// Returns the line of a fault at a place of a rule.
fn rule_line(number: u32, place: u32) -> ArrayVec<u8, 512>
    ensures { result.items ≡ line (codes "no 17 " ++ decimal number ++ codes " " ++ decimal place) }
{
    let mut buffer = ArrayVec::new();
    push_bytes(&mut buffer, b"no 17 ");
    push_number(&mut buffer, number);
    push_bytes(&mut buffer, b" ");
    push_number(&mut buffer, place);
    push_bytes(&mut buffer, b"\n");
    buffer
}

pub fn refusal_line(refusal: Refusal) -> ArrayVec<u8, 512>
    ensures { result.items ≡ line (refusal_text refusal) }
{
    match refusal {
        Refusal::Unknown => text_line(b"no 1"),
        Refusal::Form => text_line(b"no 2"),
        Refusal::Cut => text_line(b"no 3"),
        Refusal::BadMoment => text_line(b"no 4"),
        Refusal::Backwards { last } => number_line(b"no 5 ", last),
        Refusal::NoMoment => text_line(b"no 6"),
        Refusal::NoUser => text_line(b"no 7"),
        Refusal::BadName => text_line(b"no 8"),
        Refusal::Taken => text_line(b"no 9"),
        Refusal::NoQuery => text_line(b"no 10"),
        Refusal::NoDoc => text_line(b"no 11"),
        Refusal::Lex(fault) => lex_line(fault),
        Refusal::Parse(fault) => parse_line(fault),
        Refusal::Types(fault) => type_line(fault),
        Refusal::NotOver { now } => number_line(b"no 15 ", now),
        Refusal::Limit(name) => limit_line(name),
        Refusal::Rule { line, place } => rule_line(line, place),
        Refusal::ManyRules => text_line(b"no 17 many"),
        Refusal::Memory => text_line(b"no 18"),
        Refusal::NoRun { runs } => number_line(b"no 19 ", runs),
    }
}

/// Returns the first line of the reply to `mbox`.
pub fn docs_head(count: u32, first: u64) -> ArrayVec<u8, 512>
    ensures { result.items
        ≡ line (head 0 (codes "docs") ++ decimal count ++ codes " " ++ decimal first) }
{
    let mut buffer = head_line(0, b"docs");
    push_number(&mut buffer, count);
    push_bytes(&mut buffer, b" ");
    push_number(&mut buffer, first);
    push_bytes(&mut buffer, b"\n");
    buffer
}

/// Returns the first line of the reply to `run`.
pub fn run_head(n: usize, ordinal: u32, moment: i64) -> ArrayVec<u8, 512>
    ensures { result.items ≡ line
        (head n (codes "run") ++ decimal ordinal ++ codes " before " ++ signed_decimal moment) }
{
    let mut buffer = head_line(n, b"run");
    push_number(&mut buffer, ordinal);
    push_bytes(&mut buffer, b" before ");
    push_number(&mut buffer, moment);
    push_bytes(&mut buffer, b"\n");
    buffer
}

/// Returns the first line of the reply to `wake`.
pub fn wake_head(name: &[u8], moment: Option<i64>) -> ArrayVec<u8, 512>
    requires { IsShort name.now }
    ensures { result.items
        ≡ line (head 0 (codes "wake") ++ name.now ++ codes " " ++ moment_text moment) }
{
    let mut buffer = head_line(0, b"wake");
    push_bytes(&mut buffer, name);
    push_bytes(&mut buffer, b" ");
    match moment {
        Some(moment) => push_number(&mut buffer, moment),
        None => push_bytes(&mut buffer, b"never"),
    }
    push_bytes(&mut buffer, b"\n");
    buffer
}

/// Returns the first line of the reply to `digest`.
pub fn digest_head(n: usize, name: &[u8], ordinal: u32) -> ArrayVec<u8, 512>
    requires { IsShort name.now }
    ensures { result.items
        ≡ line (head n (codes "digest") ++ name.now ++ codes " " ++ decimal ordinal) }
{
    let mut buffer = head_line(n, b"digest");
    push_bytes(&mut buffer, name);
    push_bytes(&mut buffer, b" ");
    push_number(&mut buffer, ordinal);
    push_bytes(&mut buffer, b"\n");
    buffer
}

// Returns the first line of the reply to `queries`.
fn queries_head(n: usize) -> ArrayVec<u8, 512>
    ensures { result.items ≡ line (codes "ok " ++ decimal n ++ codes " queries") }
{
    let mut buffer = ArrayVec::new();
    push_bytes(&mut buffer, b"ok ");
    push_number(&mut buffer, n);
    push_bytes(&mut buffer, b" queries\n");
    buffer
}

/// Returns the first line of the reply to a look-up with that many further lines.
pub fn found_head(n: usize, found: Found) -> ArrayVec<u8, 512>
    ensures { result.items ≡ line (found_text n found) }
{
    match found {
        Found::DocText { doc, arrival } => {
            let mut buffer = head_line(n, b"show");
            push_number(&mut buffer, doc);
            push_bytes(&mut buffer, b" at ");
            push_number(&mut buffer, arrival);
            push_bytes(&mut buffer, b"\n");
            buffer
        }
        Found::DocNotes { doc } => head_number(n, b"notes", doc),
        Found::UserQueries => queries_head(n),
        Found::Counts {
            docs,
            notes,
            moment,
        } => {
            let mut buffer = head_line(n, b"counts");
            push_bytes(&mut buffer, b"documents ");
            push_number(&mut buffer, docs);
            push_bytes(&mut buffer, b" notes ");
            push_number(&mut buffer, notes);
            push_bytes(&mut buffer, b" moment ");
            push_number(&mut buffer, moment);
            push_bytes(&mut buffer, b"\n");
            buffer
        }
    }
}

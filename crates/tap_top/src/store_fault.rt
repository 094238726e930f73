//! Why a store is refused, and its line.
ghost use Rattle.std.specs.Prelude.{◌≡◌, ◌≤◌, ◌+◌, ◌++◌, length};
ghost use Rattle.arrayvec.specs.ArrayVec.{array_vec_len};
ghost use Rattle.tap_top.specs.Refusals.{table_word, why_word, stop_line};

use arrayvec::ArrayVec;
use itoa::{Buffer, Integer};
use restart_core::{TableName, Why};

/// Why a store is refused.
#[derive(Clone, Copy, Debug, PartialEq, Eq)]
pub enum StoreFault {
    /// Its version isn't known.
    Version {
        version: i64,
    },
    /// Its first damaged row, with the row's place in its table, counted from 1.
    Damaged {
        table: TableName,
        num: u32,
        why: Why,
    },
}

// Appends bytes to a line that has room for them.
fn push(line: &mut ArrayVec<u8, 128>, bytes: &[u8])
    requires { array_vec_len line.old + length bytes.now ≤ 128 }
    ensures { line.new.items ≡ line.old.items ++ bytes.now }
{
    let _pushed = line.try_extend_from_slice(bytes);
}

// Appends the decimal digits of a number, at most 40 bytes.
fn push_number<I: Integer>(line: &mut ArrayVec<u8, 128>, n: I)
    requires { array_vec_len line.old + 40 ≤ 128 }
    ensures bytes { line.new.items ≡ line.old.items ++ I.text n }
    ensures short { array_vec_len line.new ≤ array_vec_len line.old + 40 }
{
    let mut digits = Buffer::new();
    push(line, digits.format(n).as_bytes());
}

fn word_of_table(table: TableName) -> &'static [u8]
    ensures word { result.now ≡ table_word table }
    ensures short { length result.now ≤ 7 }
{
    match table {
        TableName::Docs => b"docs",
        TableName::Notes => b"notes",
        TableName::Queries => b"queries",
        TableName::Runs => b"runs",
        TableName::Picks => b"picks",
        TableName::Filters => b"filters",
    }
}

fn word_of_reason(why: Why) -> &'static [u8]
    ensures word { result.now ≡ why_word why }
    ensures short { length result.now ≤ 9 }
{
    match why {
        Why::Number => b"number",
        Why::Moment => b"moment",
        Why::Reference => b"reference",
        Why::Name => b"name",
        Why::Twice => b"twice",
        Why::Text => b"text",
        Why::Second => b"second",
        Why::Order => b"order",
    }
}

impl StoreFault {
    /// Returns the line that is put for a refused store; it takes no memory.
    pub fn line(self) -> ArrayVec<u8, 128>
        ensures { result.items ≡ stop_line self }
    {
        let mut line = ArrayVec::new();
        match self {
            StoreFault::Version { version } => {
                push(&mut line, b"stop 6 version ");
                push_number(&mut line, version);
            }
            StoreFault::Damaged { table, num, why } => {
                push(&mut line, b"stop 6 damaged ");
                push(&mut line, word_of_table(table));
                push(&mut line, b" ");
                push_number(&mut line, num);
                push(&mut line, b" ");
                push(&mut line, word_of_reason(why));
            }
        }
        push(&mut line, b"\n");
        line
    }
}

//! The pieces of a printed text: names, signs, texts in quotes, and parts that depend on a
//! condition.
ghost use Rattle.std.specs.Prelude.{◌≡◌, ◌++◌, [], OnOk, if◌then◌else◌};
ghost use Rattle.std.specs.List.{flat_map};
ghost use Rattle.tql_tree.specs.Canonical.{text_of_bytes, text_of_table, text_of_op};
ghost use Rattle.tap_base.specs.Bytes.{doubled};

use crate::Table;
use tap_base::{Memory, Op, Text};

/// Returns the table's name in a query: `DOC` or `NOTE`.
pub fn name_of_table(table: Table) -> &'static [u8]
    ensures { result.now ≡ text_of_table table }
{
    match table {
        Table::Docs => b"DOC".as_slice(),
        Table::Notes => b"NOTE".as_slice(),
    }
}

/// Returns the sign of the comparison.
pub fn name_of_op(op: Op) -> &'static [u8]
    ensures { result.now ≡ text_of_op op }
{
    match op {
        Op::Eq => b"=".as_slice(),
        Op::Ne => b"<>".as_slice(),
        Op::Lt => b"<".as_slice(),
        Op::Le => b"<=".as_slice(),
        Op::Gt => b">".as_slice(),
        Op::Ge => b">=".as_slice(),
    }
}

// Appends a byte of a text, a quote twice.
fn put_byte(b: u8, into: &mut Text) -> Result<(), Memory>
    ensures { OnOk result (into.new ≡ into.old ++ doubled b) }
{
    if b == b'\'' {
        into.push_slice(b"''")
    } else {
        into.push_slice(&[b])
    }
}

// Appends the bytes of a text, each quote twice.
fn put_inner(bytes: &[u8], into: &mut Text) -> Result<(), Memory>
    ensures { OnOk result (into.new ≡ into.old ++ flat_map doubled bytes.now) }
{
    for b in bytes {
        put_byte(*b, into)?;
    }
    Ok(())
}

/// Appends a text in quotes, each quote of it twice. Out of memory, it may have appended a part.
pub fn put_quoted(bytes: &[u8], into: &mut Text) -> Result<(), Memory>
    ensures { OnOk result (into.new ≡ into.old ++ text_of_bytes bytes.now) }
{
    into.push_slice(b"'")?;
    put_inner(bytes, into)?;
    into.push_slice(b"'")
}

/// Appends these bytes if asked, and nothing otherwise.
pub fn put_if(asked: bool, bytes: &[u8], into: &mut Text) -> Result<(), Memory>
    ensures { OnOk result (into.new ≡ into.old ++ (if asked then bytes.now else [])) }
{
    if asked {
        into.push_slice(bytes)
    } else {
        Ok(())
    }
}

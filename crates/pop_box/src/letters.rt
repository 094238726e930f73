//! The letters of a box, copied out of the engine.
ghost use Rattle.std.specs.Prelude.{◌≡◌, ◌≤◌, ◌++◌, length, OnOk, IfOk, IfSome};
ghost use Rattle.std.specs.Option.{option_copied};
ghost use Rattle.tap_engine.specs.Standing.{OverSound};
ghost use Rattle.tap_top.specs.Opened.{HasShortTexts};
ghost use Rattle.pop_session.specs.Sessions.{AreShort};
ghost use Rattle.pop_box.specs.Letters.{letter_with, letters_of, letters_in};

use pop_session::Letter;
use std::alloc::Global;
use std::sync::ledger::Ledger;
use tap_base::{DocNum, Memory, Rows, Steps, Text};
use tap_engine::Engine;
use tap_rows::Listed;

// Appends a document as a letter, if it has a text.
fn push_letter(
    alloc: Global,
    letters: &mut Rows<Letter>,
    doc: DocNum,
    text: Option<&[u8]>,
) -> Result<(), Memory>
    requires letters { AreShort letters.old }
    requires short { IfSome (option_copied text) (λ bytes. length bytes ≤ 1048576) }
    ensures letters { OnOk result
        (letters.new ≡ letters.old ++ letter_with doc (option_copied text.entry)) }
    ensures short { OnOk result (AreShort letters.new) }
{
    match text {
        None => Ok(()),
        Some(text) => letters.push(Letter {
            doc,
            text: Text::from_slice(alloc, text)?,
        }),
    }
}

// Copies the listed documents as letters, in their order.
fn copy_letters<L: Ledger>(
    alloc: Global,
    engine: &Engine,
    rows: &[Listed],
    steps: &mut Steps<L>,
) -> Result<Rows<Letter>, Memory>
    requires { HasShortTexts engine.now }
    ensures letters { IfOk result (λ letters. letters ≡ letters_of engine.now.index.docs rows.now) }
    ensures short { IfOk result AreShort }
{
    let mut letters = Rows::new(alloc);
    for row in rows {
        let text = engine.text_of(row.entry.doc, steps);
        push_letter(alloc, &mut letters, row.entry.doc, text)?;
    }
    Ok(letters)
}

// Copies the letters of the user's box of this name.
fn find_letters<L: Ledger>(
    alloc: Global,
    engine: &Engine,
    user: &[u8],
    name: &[u8],
    steps: &mut Steps<L>,
) -> Result<Option<Rows<Letter>>, Memory>
    requires { HasShortTexts engine.now }
    ensures letters { IfOk result (λ found. OverSound engine.now (λ t.
        found ≡ letters_in user.now name.now t)) }
    ensures short { IfOk result (λ found. IfSome found AreShort) }
{
    match engine.listing(alloc, user, name, steps)? {
        Some(rows) => Ok(Some(copy_letters(alloc, engine, rows.as_slice(), steps)?)),
        None => Ok(None),
    }
}

/// Copies the letters of the user's box of this name out of the engine, in the order of its
/// listing, and drops the engine.
/// `None` comes if and only if one of the two is no name or the user has no query of this name.
/// Fails with `Memory` when out of memory.
pub fn letters_from<L: Ledger>(
    alloc: Global,
    engine: Engine,
    user: &[u8],
    name: &[u8],
    steps: &mut Steps<L>,
) -> Result<Option<Rows<Letter>>, Memory>
    requires { HasShortTexts engine }
    ensures letters { IfOk result (λ found. OverSound engine (λ t.
        found ≡ letters_in user.now name.now t)) }
    ensures short { IfOk result (λ found. IfSome found AreShort) }
{
    find_letters(alloc, &engine, user, name, steps)
}

//! Documents that tests keep, and a session that keeps one.

ghost use Rattle.keeper_core.specs.States.{IsFree};

use keeper_core::Keeper;
use std::alloc::Global;
use tap_base::{DocNum, Memory, Rows, SharedText, Text};
use tap_rows::{Change, Doc};

/// Returns a change that adds a document of this number.
pub fn one_doc(alloc: Global, num: u32) -> Result<Change, Memory> {
    let text = SharedText::of(alloc, Text::from_slice(alloc, b"Subject: hi\n\n")?)?;
    let doc = Doc {
        num: DocNum(num),
        arrival: 100,
        text,
    };
    Ok(Change::Docs(Rows::from_vec(vec![in alloc; doc]?)))
}

/// Two changes that add a document each.
#[derive(Drop)]
pub struct TwoDocs {
    pub one: Change,
    pub two: Change,
}

/// Returns the changes that add the first document, and the second.
pub fn two_docs(alloc: Global) -> Result<TwoDocs, Memory> {
    let one = one_doc(alloc, 1)?;
    match one_doc(alloc, 2) {
        Ok(two) => Ok(TwoDocs { one, two }),
        Err(Memory) => {
            drop(one);
            Err(Memory)
        }
    }
}

/// Attaches a keeper and commits a change; how many documents there were before.
pub fn keep<P: Keeper>(alloc: Global, keeper: &mut P, at: &str, change: &Change) -> Option<usize>
    requires free { IsFree P.Keeper keeper.old }
{
    match keeper.attach(alloc, at) {
        Ok(tables) => {
            let docs = tables.docs.len();
            drop(tables);
            keeper.commit(change).is_ok().then_some(docs)
        }
        Err(_) => None,
    }
}

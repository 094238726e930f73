//! Tests of adding and removing deliveries.

use little_box::LittleBox;
use std::alloc::Global;
use tap_base::{DocNum, Memory};
use tap_rows::Entry;

// Adds a delivery of a document that the box doesn't have.
fn add(delivered: &mut LittleBox, doc: u32, first: i64) -> Result<(), Memory> {
    let doc = DocNum(doc);
    if !delivered.has(doc) && delivered.len() < u32::MAX {
        delivered.add(Entry { doc, first, run: 1 })?;
    }
    Ok(())
}

// Adds two deliveries.
fn add_two(delivered: &mut LittleBox) -> Result<(), Memory> {
    add(delivered, 7, 5)?;
    add(delivered, 3, 6)
}

// Returns a box with those deliveries.
fn two_delivered(alloc: Global) -> Result<LittleBox, Memory> {
    let mut delivered = LittleBox::new(alloc);
    match add_two(&mut delivered) {
        Ok(()) => Ok(delivered),
        Err(Memory) => {
            drop(delivered);
            Err(Memory)
        }
    }
}

// Removes all deliveries after the first.
fn cut_to_one(delivered: &mut LittleBox) {
    if delivered.len() > 0 {
        delivered.cut(1);
    }
}

#[test]
fn deliveries_are_added_and_cut(rt: HostRuntime) -> Result<(), Memory> {
    let mut delivered = two_delivered(rt.alloc())?;
    assert_eq!(rt; delivered.len(), 2);
    assert!(rt; delivered.has(DocNum(3)));
    cut_to_one(&mut delivered);
    assert!(rt; !delivered.has(DocNum(3)));
    assert!(rt; delivered.has(DocNum(7)));
    assert!(rt; delivered.entry(1).is_none());
    drop(delivered);
    Ok(())
}

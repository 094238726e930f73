//! The entries of a query's box.

ghost use Rattle.std.specs.Prelude.{◌≡◌, ◌≤◌, ◌++◌, ◌∷◌, [], false, length, take, map};
ghost use Rattle.std.specs.Prelude.{option_to_list, slice_get, OnOk, OnErr, IfOk};
ghost use Rattle.little_box.specs.Boxes.{is_in};
ghost use Rattle.tap_rows.specs.Results.{entry_at};
ghost use Rattle.tap_model.specs.Replies.{entries_in_run};
ghost use Rattle.tap_kept.specs.Keeping.{AreNew};

use little_box::LittleBox;
use std::alloc::Global;
use tap_base::{Memory, Rows};
use tap_rows::{Entry, Hit};

// Appends the entry at this place, if there is one.
fn push_at(copy: &mut Rows<Entry>, entries: &LittleBox, place: u32) -> Result<(), Memory>
    ensures { OnOk result (copy.new ≡ copy.old ++ option_to_list (slice_get entries.now place)) }
{
    match entries.entry(place) {
        None => Ok(()),
        Some(entry) => copy.push(*entry),
    }
}

/// Copies the entries of a box into a list, in order.
pub fn copy_entries(alloc: Global, entries: &LittleBox) -> Result<Rows<Entry>, Memory>
    ensures { IfOk result (λ copy. copy ≡ entries.now) }
{
    let mut copy = Rows::new(alloc);
    for place in 0..entries.len() {
        push_at(&mut copy, entries, place)?;
    }
    Ok(copy)
}

// Appends the entry at this place, if there is one and it is of this run.
fn push_of_run(
    copy: &mut Rows<Entry>,
    entries: &LittleBox,
    place: u32,
    run: u32,
) -> Result<(), Memory>
    ensures { OnOk result
        (copy.new ≡ copy.old ++ entries_in_run run (option_to_list (slice_get entries.now place))) }
{
    match entries.entry(place) {
        None => Ok(()),
        Some(entry) => {
            if entry.run == run {
                copy.push(*entry)
            } else {
                Ok(())
            }
        }
    }
}

/// Copies the entries of one run of a box into a list, in order.
pub fn copy_run(alloc: Global, entries: &LittleBox, run: u32) -> Result<Rows<Entry>, Memory>
    ensures { IfOk result (λ copy. copy ≡ entries_in_run run entries.now) }
{
    let mut copy = Rows::new(alloc);
    for place in 0..entries.len() {
        push_of_run(&mut copy, entries, place, run)?;
    }
    Ok(copy)
}

// Adds an entry whose document isn't in the box. A box has at most 4,294,967,295 entries, since its
// places are `u32`. At Err nothing has changed.
pub(crate) fn add_entry(entries: &mut LittleBox, entry: Entry) -> Result<(), Memory>
    requires { is_in entry.doc.0 entries.old ≡ false }
    ensures ok { OnOk result (entries.new ≡ entries.old ++ entry ∷ []) }
    ensures err { OnErr result (entries.new ≡ entries.old) }
{
    if entries.len() == u32::MAX {
        Err(Memory)
    } else {
        entries.add(entry)
    }
}

// Adds the hits of a run. At Err the first of them may have been added.
fn push_hits(entries: &mut LittleBox, run: u32, hits: &[Hit]) -> Result<(), Memory>
    requires { AreNew entries.old hits.now }
    ensures ok { OnOk result (entries.new ≡ entries.old ++ map (entry_at run) hits.now) }
    ensures back { take (length entries.old) entries.new ≡ entries.old }
    ensures more { length entries.old ≤ length entries.new }
{
    for hit in hits {
        add_entry(
            entries,
            Entry {
                doc: hit.doc,
                first: hit.first,
                run,
            },
        )?;
    }
    Ok(())
}

// Adds the hits of a run, for which room is made at once. At Err nothing has changed.
pub(crate) fn add_hits(entries: &mut LittleBox, run: u32, hits: &[Hit]) -> Result<(), Memory>
    requires { AreNew entries.old hits.now }
    ensures ok { OnOk result (entries.new ≡ entries.old ++ map (entry_at run) hits.now) }
    ensures err { OnErr result (entries.new ≡ entries.old) }
{
    entries.reserve(hits.len())?;
    let len = entries.len();
    let done = push_hits(entries, run, hits);
    if done.is_err() {
        entries.cut(len);
    }
    done
}

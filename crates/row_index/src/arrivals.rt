//! The rows of some seconds, found by halving: arrivals never fall.

ghost use Rattle.std.specs.Prelude.{◌≡◌, not, int_lt, filter};
ghost use Rattle.row_index.specs.Orders.{IsRisingBy, doc_arrival, note_arrival, place_arrival};
ghost use Rattle.row_index.specs.Orders.{in_window, up_to};

use crate::from_end::partition_point_from_end;
use tap_rows::{KeptDoc, Note};

// Returns the documents that arrived before the moment.
fn docs_before(docs: &[KeptDoc], moment: i64) -> &[KeptDoc]
    requires { IsRisingBy doc_arrival docs.now }
    ensures { result.now ≡ filter (λ doc. int_lt doc.arrival moment) docs.now }
{
    &docs[..partition_point_from_end(docs, |doc| doc.doc().arrival < moment)]
}

// Returns the documents that arrived at the moment or later.
fn docs_from(docs: &[KeptDoc], moment: i64) -> &[KeptDoc]
    requires { IsRisingBy doc_arrival docs.now }
    ensures { result.now ≡ filter (λ doc. not (int_lt doc.arrival moment)) docs.now }
{
    &docs[partition_point_from_end(docs, |doc| doc.doc().arrival < moment)..]
}

// Returns the documents that arrived from `low` up to but not at `high`.
pub(crate) fn docs_within(docs: &[KeptDoc], low: i64, high: i64) -> &[KeptDoc]
    requires { IsRisingBy doc_arrival docs.now }
    ensures { result.now ≡ in_window doc_arrival low high docs.now }
{
    docs_from(docs_before(docs, high), low)
}

// Returns the documents that arrived up to `last`.
pub(crate) fn docs_up_to(docs: &[KeptDoc], last: i64) -> &[KeptDoc]
    requires { IsRisingBy doc_arrival docs.now }
    ensures { result.now ≡ up_to doc_arrival last docs.now }
{
    &docs[..partition_point_from_end(docs, |doc| doc.doc().arrival <= last)]
}

// Returns the notes that arrived before the moment.
fn notes_before(notes: &[Note], moment: i64) -> &[Note]
    requires { IsRisingBy note_arrival notes.now }
    ensures { result.now ≡ filter (λ note. int_lt note.arrival moment) notes.now }
{
    &notes[..partition_point_from_end(notes, |note| note.arrival < moment)]
}

// Returns the notes that arrived at the moment or later.
fn notes_from(notes: &[Note], moment: i64) -> &[Note]
    requires { IsRisingBy note_arrival notes.now }
    ensures { result.now ≡ filter (λ note. not (int_lt note.arrival moment)) notes.now }
{
    &notes[partition_point_from_end(notes, |note| note.arrival < moment)..]
}

// Returns the notes that arrived from `low` up to but not at `high`.
pub(crate) fn notes_within(notes: &[Note], low: i64, high: i64) -> &[Note]
    requires { IsRisingBy note_arrival notes.now }
    ensures { result.now ≡ in_window note_arrival low high notes.now }
{
    notes_from(notes_before(notes, high), low)
}

// Returns the notes that arrived up to `last`.
pub(crate) fn notes_up_to(notes: &[Note], last: i64) -> &[Note]
    requires { IsRisingBy note_arrival notes.now }
    ensures { result.now ≡ up_to note_arrival last notes.now }
{
    &notes[..partition_point_from_end(notes, |note| note.arrival <= last)]
}

// Returns the arrival of the document at this place, from 0, or 0 if there is none.
fn arrival_at(docs: &[KeptDoc], place: u32) -> i64
    ensures { result ≡ place_arrival docs.now place }
{
    match docs.get(place as usize) {
        Some(doc) => doc.doc().arrival,
        None => 0,
    }
}

// Returns the places of documents that arrived before the moment.
fn places_before<'a>(docs: &[KeptDoc], places: &'a [u32], moment: i64) -> &'a [u32]
    requires { IsRisingBy (place_arrival docs.now) places.now }
    ensures { result.now
        ≡ filter (λ place. int_lt (place_arrival docs.now place) moment) places.now }
{
    &places[..partition_point_from_end(places, |place| arrival_at(docs, *place) < moment)]
}

// Returns the places of documents that arrived at the moment or later.
fn places_from<'a>(docs: &[KeptDoc], places: &'a [u32], moment: i64) -> &'a [u32]
    requires { IsRisingBy (place_arrival docs.now) places.now }
    ensures { result.now
        ≡ filter (λ place. not (int_lt (place_arrival docs.now place) moment)) places.now }
{
    &places[partition_point_from_end(places, |place| arrival_at(docs, *place) < moment)..]
}

// Returns the places of documents that arrived from `low` up to but not at `high`.
pub(crate) fn places_within<'a>(
    docs: &[KeptDoc],
    places: &'a [u32],
    low: i64,
    high: i64,
) -> &'a [u32]
    requires { IsRisingBy (place_arrival docs.now) places.now }
    ensures { result.now ≡ in_window (place_arrival docs.now) low high places.now }
{
    places_from(docs, places_before(docs, places, high), low)
}

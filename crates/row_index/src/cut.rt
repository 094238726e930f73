//! Comparisons that cut a list of documents in order.

ghost use Rattle.std.specs.Prelude.{◌≡◌, true, false, filter};
ghost use Rattle.row_index.specs.Orders.{IsRisingBy};
ghost use Rattle.row_index.specs.Cuts.{place_rank_by, passes, is_front, keeps_place};

use crate::from_end::partition_point_from_end;
use tap_rows::KeptDoc;

/// What documents of a list are in order of: their arrival, in seconds since 1970-01-01T00:00:00Z,
/// or their number.
#[derive(Clone, Copy, Debug, PartialEq, Eq)]
pub enum Order {
    Arrival,
    Number,
}

/// Which numbers pass: those less than a bound, those that aren't greater, those that aren't less,
/// or those that are greater.
#[derive(Clone, Copy, Debug, PartialEq, Eq)]
pub enum Limit {
    Below,
    UpTo,
    From,
    Above,
}

/// A comparison of the arrivals or numbers of documents with a bound.
#[derive(Clone, Copy, Debug)]
pub struct ListCut {
    pub order: Order,
    pub limit: Limit,
    pub bound: i128,
}

// Returns the arrival or number of the document at this place, from 0, or 0 if there is none.
fn rank_at(docs: &[KeptDoc], place: u32, order: Order) -> i64
    ensures { result ≡ place_rank_by order docs.now place }
{
    match docs.get(place as usize) {
        None => 0,
        Some(doc) => match order {
            Order::Arrival => doc.doc().arrival,
            Order::Number => i64::from(doc.doc().num.0),
        },
    }
}

// Returns whether the number passes.
fn passes(limit: Limit, bound: i128, number: i64) -> bool
    ensures { result ≡ passes limit bound number }
{
    let number = i128::from(number);
    match limit {
        Limit::Below => number < bound,
        Limit::UpTo => number <= bound,
        Limit::From => bound <= number,
        Limit::Above => bound < number,
    }
}

// Returns whether the document at this place passes the comparison.
fn keeps_place(docs: &[KeptDoc], place: u32, cut: ListCut) -> bool
    ensures { result ≡ keeps_place docs.now cut place }
{
    passes(cut.limit, cut.bound, rank_at(docs, place, cut.order))
}

// Returns whether what passes comes before what doesn't.
fn is_front(limit: Limit) -> bool
    ensures { result ≡ is_front limit }
{
    match limit {
        Limit::Below => true,
        Limit::UpTo => true,
        Limit::From => false,
        Limit::Above => false,
    }
}

// Returns the places of documents that pass the comparison, which come first.
fn front<'a>(docs: &[KeptDoc], places: &'a [u32], cut: ListCut) -> &'a [u32]
    requires rising { IsRisingBy (place_rank_by cut.order docs.now) places.now }
    requires front { is_front cut.limit ≡ true }
    ensures { result.now ≡ filter (keeps_place docs.now cut) places.now }
{
    &places[..partition_point_from_end(places, |place| keeps_place(docs, *place, cut))]
}

// Returns the places of documents that pass the comparison, which come last.
fn end<'a>(docs: &[KeptDoc], places: &'a [u32], cut: ListCut) -> &'a [u32]
    requires rising { IsRisingBy (place_rank_by cut.order docs.now) places.now }
    requires end { is_front cut.limit ≡ false }
    ensures { result.now ≡ filter (keeps_place docs.now cut) places.now }
{
    &places[partition_point_from_end(places, |place| !keeps_place(docs, *place, cut))..]
}

/// Returns the places of documents that pass the comparison, by halving.
pub(crate) fn places_cut<'a>(docs: &[KeptDoc], places: &'a [u32], cut: ListCut) -> &'a [u32]
    requires { IsRisingBy (place_rank_by cut.order docs.now) places.now }
    ensures { result.now ≡ filter (keeps_place docs.now cut) places.now }
{
    if is_front(cut.limit) {
        front(docs, places, cut)
    } else {
        end(docs, places, cut)
    }
}

//! Lists of places, in order.

ghost use Rattle.std.specs.Prelude.{◌≡◌, ◌≤◌, ◌-◌, nat_le, length, not, IfOk, OnOk, OnErr};
ghost use Rattle.std.specs.List.{suffix_len};
ghost use Rattle.row_index.specs.Places.{ends_with, with_place, without_place, cut_places};

use tap_base::Memory;

// Returns whether this is the last place.
fn ends_with(places: &[u32], place: u32) -> bool
    ensures { result ≡ ends_with place places.now }
{
    match places.last() {
        Some(last) => *last == place,
        None => false,
    }
}

// Appends the place, unless it is the last one, and returns whether it isn't.
pub(crate) fn put_place(places: &mut Vec<u32>, place: u32) -> Result<bool, Memory>
    ensures new { IfOk result (λ new. new ≡ not (ends_with place places.old.items)) }
    ensures ok { OnOk result (places.new.items ≡ with_place place places.old.items) }
    ensures err { OnErr result (places.new.items ≡ places.old.items) }
{
    if ends_with(places, place) {
        return Ok(false);
    }
    places.push(place)?;
    Ok(true)
}

// Removes the place, if it is the last one.
pub(crate) fn drop_place(places: &mut Vec<u32>, place: u32)
    ensures { places.new.items ≡ without_place place places.old.items }
{
    if ends_with(places, place) {
        let _ = places.pop();
    }
}

// Returns whether this place is `len` or more.
fn is_late(place: u32, len: u32) -> bool
    ensures { result ≡ nat_le len place }
{
    len <= place
}

// Returns how many places there are before those at the end that are `len` or more.
fn places_below_end(places: &[u32], len: u32) -> usize
    ensures value { result ≡ length places.now - suffix_len (λ place. nat_le len place) places.now }
    ensures within { result ≤ length places.now }
{
    let mut left = places.len();
    while left > 0 && is_late(places[left - 1], len) {
        left -= 1;
    }
    left
}

// Removes the places at the end that are `len` or more.
pub(crate) fn cut_places(places: &mut Vec<u32>, len: u32)
    ensures { places.new.items ≡ cut_places len places.old.items }
{
    let left = places_below_end(places, len);
    places.truncate(left);
}

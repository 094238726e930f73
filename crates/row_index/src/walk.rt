//! Walks over rows.

ghost use Rattle.std.specs.Prelude.{◌≡◌, ◌+◌, List, [], ◌∷◌, ◌++◌, option_to_list};
ghost use Rattle.std.specs.Prelude.{Option, Some, None, option_copied, IfSome, length, map};
ghost use Rattle.std.specs.Prelude.{slice_get};
ghost use Rattle.row_index.specs.Walks.{left_in, at_places, places_in};

use crate::dates::Dated;
use std::collections::btree_set::Range;
use std::marker::Model;
use std::sync::ledger::Ledger;
use tap_base::Steps;
use tap_rows::{KeptDoc, Note};

// Places that are left: those of a list, or those of some dates.
#[derive(Drop)]
enum Places<'a> {
    Listed(&'a [u32]),
    ByDate(Range<'a, Dated>),
}

// Rows that are left, by their places.
#[derive(Drop)]
struct Picked<'a, T> {
    rows: &'a [T],
    places: Places<'a>,
}

// Rows that are left: those of a slice, or picked ones.
#[derive(Drop)]
enum Left<'a, T> {
    Beside(&'a [T]),
    Picked(Picked<'a, T>),
}

/// A walk over rows that the index lends. Its value is the rows that are left. No row is copied.
#[derive(Drop)]
pub struct Walk<'a, T> {
    left: Left<'a, T>,
}

impl<'a, T> Model for Walk<'a, T> {
    ghost use Rattle.std.specs.Prelude.{List};
    ghost use Rattle.row_index.specs.Walks.{left_in};

    ghost Value = { List T };

    ghost view = { λ walk. left_in walk.left };
}

/// A walk over documents.
pub type DocWalk<'a> = Walk<'a, KeptDoc>;

/// A walk over notes.
pub type NoteWalk<'a> = Walk<'a, Note>;

// Removes and returns the next place.
fn take_place<'a>(places: &mut Places<'a>) -> Option<u32>
    ensures places { places_in places.old ≡ option_to_list result ++ places_in places.new }
    ensures end { result ≡ None → places_in places.old ≡ [] }
{
    match places {
        Places::Listed(places) => match places.split_first() {
            None => None,
            Some((place, rest)) => {
                *places = rest;
                Some(*place)
            }
        },
        Places::ByDate(dates) => match dates.next() {
            None => None,
            Some(dated) => Some(dated.place),
        },
    }
}

// Returns the row at this place, from 0.
fn row_at<'a, T>(rows: &'a [T], place: u32) -> Option<&'a T>
    ensures { option_copied result ≡ slice_get rows.now place }
{
    rows.get(place as usize)
}

// Removes and returns the next row.
fn take_first<'a, T>(left: &mut Left<'a, T>) -> Option<&'a T>
    ensures none { result ≡ None → left_in left.old ≡ [] }
    ensures some { IfSome result (λ row. left_in left.old ≡ row.now ∷ left_in left.new) }
{
    match left {
        Left::Beside(rows) => match rows.split_first() {
            None => None,
            Some((row, rest)) => {
                *rows = rest;
                Some(row)
            }
        },
        Left::Picked(picked) => match take_place(&mut picked.places) {
            None => None,
            Some(place) => row_at(picked.rows, place),
        },
    }
}

impl<'a, T> Walk<'a, T> {
    // Returns a walk over the rows of a slice.
    pub(crate) fn over(rows: &'a [T]) -> Walk<'a, T>
        ensures { result ≡ rows.now }
    {
        Walk {
            left: Left::Beside(rows),
        }
    }

    // Returns a walk over the rows at these places.
    pub(crate) fn placed(rows: &'a [T], places: &'a [u32]) -> Walk<'a, T>
        ensures { result ≡ at_places rows.now places.now }
    {
        Walk {
            left: Left::Picked(Picked {
                rows,
                places: Places::Listed(places),
            }),
        }
    }

    // Returns a walk over the rows of these dates.
    pub(crate) fn by_date(rows: &'a [T], dates: Range<'a, Dated>) -> Walk<'a, T>
        ensures { result ≡ at_places rows.now (map (λ key. key.place) dates.entry) }
    {
        Walk {
            left: Left::Picked(Picked {
                rows,
                places: Places::ByDate(dates),
            }),
        }
    }

    /// Removes and returns the next row, with one step. `None` comes if and only if no row is left,
    /// and then no step. It takes no memory.
    pub fn next<L: Ledger>(&mut self, steps: &mut Steps<L>) -> Option<&'a T>
        ensures rows { self.old ≡ option_to_list (option_copied result) ++ self.new }
        ensures end { result ≡ None → self.old ≡ [] }
        ensures steps { steps.new ≡ steps.old + length (option_to_list (option_copied result)) }
    {
        match take_first(&mut self.left) {
            None => {
                // What is left after the end is no row, whatever the walk was over.
                self.left = Left::Beside(&[]);
                None
            }
            Some(row) => {
                steps.tick();
                Some(row)
            }
        }
    }
}

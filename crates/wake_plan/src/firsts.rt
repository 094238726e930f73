//! The turn with the least mark.

ghost use Rattle.std.specs.Prelude.{◌≡◌};
ghost use Rattle.wake_plan.specs.Firsts.{nearer, IsFirst};

use crate::turn::Turn;

/// A place among turns, with the mark of the row that was read ahead there.
#[derive(Clone, Copy)]
pub(crate) struct FirstPlace {
    pub(crate) index: usize,
    pub(crate) mark: i64,
}

// Returns the place of the lesser mark, of two the first.
fn nearer(first: Option<FirstPlace>, index: usize, mark: Option<i64>) -> Option<FirstPlace>
    ensures { result ≡ nearer first index mark }
{
    match (first, mark) {
        (_, None) => first,
        (None, Some(mark)) => Some(FirstPlace { index, mark }),
        (Some(x), Some(mark)) => {
            if mark < x.mark {
                Some(FirstPlace { index, mark })
            } else {
                first
            }
        }
    }
}

/// Returns the place of the turn with the least mark, of several the first. `None` comes if and
/// only if no turn has a row.
pub(crate) fn first_place(turns: &[Turn]) -> Option<FirstPlace>
    ensures { IsFirst turns.now result }
{
    let mut first = None;
    for (index, turn) in turns.iter().enumerate() {
        first = nearer(first, index, turn.mark());
    }
    first
}

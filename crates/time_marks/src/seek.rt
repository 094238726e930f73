//! Where the stored seconds of driving rows are looked for.
ghost use Rattle.std.specs.Prelude.{◌≡◌, ℤ, true, neg_ℤ};
ghost use Rattle.jiff_core.specs.Calendar.{IsWithin};
ghost use Rattle.tql_core.specs.Bounds.{is_near};
ghost use Rattle.time_marks.specs.Windows.{is_within, moved, days_window, WindowFits};
ghost use Rattle.time_marks.specs.Seeks.{seek_of, seek_window, marked_at, CanSeek};

use crate::Window;
use tql_core::{Base, Term, Var};

/// Says where the stored seconds of a driving row are looked for. A mark is the stored second,
/// which is the arrival or the date of the variable's row, plus `plus` seconds, or the start of the
/// first UTC day that is not before that. A fixed mark has no driving row.
#[derive(Clone, Copy, Debug, PartialEq, Eq)]
pub enum Seek {
    Arrived { var: Var, plus: i64 },
    Dated { var: Var, plus: i64 },
    Fixed { moment: i64 },
    ArrivedDay { var: Var, plus: i64 },
    DatedDay { var: Var, plus: i64 },
}

// Returns the window moved back by that many seconds.
fn moved_back(w: Window, by: i64) -> Window
    requires by { is_near by ≡ true }
    requires low { IsWithin 510000000000 w.low }
    requires high { IsWithin 510000000000 w.high }
    ensures { result ≡ moved w (neg_ℤ by) }
{
    w.shift(-by)
}

// Returns the window of the seconds whose next start of a day is in the window.
fn window_of_days(w: Window) -> Window
    requires window { WindowFits w }
    ensures ends { result ≡ days_window w }
    ensures low { IsWithin 510000000000 result.low }
    ensures high { IsWithin 510000000000 result.high }
{
    w.to_days()
}

impl Seek {
    /// Returns the seek of a mark.
    pub fn of(at: Term) -> Seek
        ensures { result ≡ seek_of at }
    {
        match at.base {
            Base::Arrival(var) => Seek::Arrived { var, plus: at.plus },
            Base::Date(var) => Seek::Dated { var, plus: at.plus },
            Base::Fixed => Seek::Fixed { moment: at.plus },
            Base::ArrivalDay(var, plus) => Seek::ArrivedDay { var, plus },
            Base::DateDay(var, plus) => Seek::DatedDay { var, plus },
        }
    }

    // Returns the window of the stored seconds, by its ends.
    fn solved(self, w: Window) -> Window
        requires window { CanSeek self w }
        ensures { result ≡ seek_window w self }
    {
        match self {
            Seek::Arrived { plus, .. } => moved_back(w, plus),
            Seek::Dated { plus, .. } => moved_back(w, plus),
            Seek::Fixed { .. } => w,
            Seek::ArrivedDay { plus, .. } => moved_back(window_of_days(w), plus),
            Seek::DatedDay { plus, .. } => moved_back(window_of_days(w), plus),
        }
    }

    /// Returns the window of the stored seconds whose marks lie in the window: the window, or for
    /// days that of the days, moved back by `plus`. Of a fixed mark it is the window itself.
    #[tactic(auto, using(crate::proofs::SeekLaws::seek_found))]
    pub fn window(self, w: Window) -> Window
        requires window { CanSeek self w }
        ensures ends { result ≡ seek_window w self }
        ensures seconds { (x : ℤ) → is_within result x ≡ is_within w (marked_at self x) }
    {
        self.solved(w)
    }
}

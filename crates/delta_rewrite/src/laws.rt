//! Laws of delta windows, over their definitions alone.
ghost use Rattle.delta_rewrite.specs.Laws.{DeltaIsUnion, DeltaKeepsScopes, DeltaHasNoOtherMark};

/// States that the delta window over the past seconds gives the union of what each of them gives,
/// with first seconds. Over the seconds since the last run, without what was given before, it gives
/// what is fresh.
pub fn the_delta_window_is_the_union()
    ensures { DeltaIsUnion }
{}

/// States that each probe of a delta window binds its variables once and names no others.
pub fn delta_windows_keep_scopes()
    ensures { DeltaKeepsScopes }
{}

/// States that each probe of a delta window has the path and the mark of a probe of the window
/// query.
pub fn delta_windows_have_no_other_mark()
    ensures { DeltaHasNoOtherMark }
{}

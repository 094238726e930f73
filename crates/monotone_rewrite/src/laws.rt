//! Laws of window queries, over their definitions alone.
ghost use Rattle.monotone_rewrite.specs.Laws.{WindowIsUnion, DistinctIsUnion, LaterRowsKeepFirst};
ghost use Rattle.monotone_rewrite.specs.Laws.{UnionIsLeast, ProbesKeepScopes};

/// States that the window query over the past seconds gives the union of what each of them gives,
/// with first seconds. Over the seconds since the last run, without what was given before, it gives
/// what is fresh.
pub fn the_window_is_the_union()
    ensures { WindowIsUnion }
{}

/// States the same law of the distinct probes.
pub fn distinct_probes_are_the_union()
    ensures { DistinctIsUnion }
{}

/// States that rows that come later change no first second of a condition.
pub fn later_rows_keep_first()
    ensures { LaterRowsKeepFirst }
{}

/// States that the union is the least growing family over what each second gives.
pub fn the_union_is_least()
    ensures { UnionIsLeast }
{}

/// States that each probe of a window query binds its variables once and names no others.
pub fn probes_keep_scopes()
    ensures { ProbesKeepScopes }
{}

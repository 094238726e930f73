//! Laws of marks, bodies and probes.
ghost use Rattle.time_marks.specs.Laws.{ChangesAtMarks, BodiesHoldAtMarks};
ghost use Rattle.time_marks.specs.Distinct.{SameProbeIsEqual, RepeatsFindNothingNew};
ghost use Rattle.time_marks.specs.Distinct.{DistinctAreAmong};
ghost use Rattle.time_marks.specs.Found.{FoundInAnyOrder};
ghost use Rattle.time_marks.specs.Seeks.{SeeksSolveMarks};

/// States that the truth of a condition changes from one second to the next only at a mark.
pub fn truth_changes_at_marks()
    ensures { ChangesAtMarks }
{}

/// States that the body at a mark is true if and only if the condition holds at the mark's second.
pub fn bodies_hold_at_marks()
    ensures { BodiesHoldAtMarks }
{}

/// States that a probe finds a document if and only if each step has a row, in whatever order they
/// are looked for.
pub fn found_in_any_order()
    ensures { FoundInAnyOrder }
{}

/// States that a mark lies in a window if and only if the stored second lies in the seek's window,
/// for every row.
pub fn seeks_solve_marks()
    ensures { SeeksSolveMarks }
{}

/// States that the test of two probes is true if and only if they are equal.
pub fn the_test_is_equality()
    ensures { SameProbeIsEqual }
{}

/// States that probes that equal earlier ones find nothing new.
pub fn repeats_find_nothing_new()
    ensures { RepeatsFindNothingNew }
{}

/// States that each distinct probe is one of the probes, so that what holds of all of them holds of
/// the distinct ones.
pub fn distinct_probes_are_among()
    ensures { DistinctAreAmong }
{}

//! The law of the next moment.

ghost use Rattle.wake_plan.specs.Laws.{WakesAreNext};

/// States that the moment of `wake` is the least one from now on at which a run since the last one
/// delivers a document, as long as no row is added. If there is none, no run delivers.
pub fn wakes_are_next()
    ensures { WakesAreNext }
{}

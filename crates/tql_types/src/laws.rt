//! Laws of typing.
ghost use Rattle.tql_types.specs.Laws.{TypedConditionsAreQueries, TypedConditionsAreBounded};

/// States that a condition that typing gives is a query's: it names only variables in scope, `m`
/// alone is free in it, and each EXISTS binds a variable from 1 to 5 that isn't in scope there.
pub fn typed_conditions_are_queries()
    ensures { TypedConditionsAreQueries }
{}

/// States that each time of a condition that typing gives adds at most 450,000,086,400 seconds to
/// its base, and nothing to a day.
pub fn typed_conditions_are_bounded()
    ensures { TypedConditionsAreBounded }
{}

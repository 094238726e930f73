//! Laws of ratings, over their definitions alone.
ghost use Rattle.filter_rules.specs.Laws.{ClassesAreNames};

/// Shows that each class of a list that the rules of a text rate is a name.
pub fn classes_are_names()
    ensures { ClassesAreNames }
{}

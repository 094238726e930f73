//! Laws of the form of a condition, over its definition alone.
ghost use Rattle.query_form.specs.Laws.{FormsAreEquivalent, FormsAreQueries, FormsAreBounded};
ghost use Rattle.query_form.specs.Laws.{FormsAreSmall, SplitsAreFew};

/// States that the form holds if and only if the condition does, over all tables, at each second
/// and whatever rows the variables have.
pub fn forms_are_equivalent()
    ensures { FormsAreEquivalent }
{}

/// States that the form of a query is a query: it names no variable but `m` and those that its
/// EXISTS bind.
pub fn forms_are_queries()
    ensures { FormsAreQueries }
{}

/// States that the times of the form are bounded if those of the condition are.
pub fn forms_are_bounded()
    ensures { FormsAreBounded }
{}

/// States that the form has at most 128 nodes, unless it is the condition itself.
pub fn forms_are_small()
    ensures { FormsAreSmall }
{}

/// States that an EXISTS is split into at most 16.
pub fn splits_are_few()
    ensures { SplitsAreFew }
{}

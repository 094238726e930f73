//! Laws of what an index finds.

ghost use Rattle.row_index.specs.Laws.{ListsOfOneKindAreApart};

/// States that a document stands in at most one posting list of a kind of which it has one text at
/// most: two lists of the kind that begin with the same document are the same.
pub fn lists_of_one_kind_are_apart()
    ensures { ListsOfOneKindAreApart }
{}

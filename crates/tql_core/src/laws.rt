//! Laws of conditions, and of their nodes in a pool.
ghost use Rattle.tap_rows.specs.Kept.{IsOfTheSecond};
ghost use Rattle.tql_core.specs.Condition.{Condition};
ghost use Rattle.tql_core.specs.Holds.{truth_of};
ghost use Rattle.tql_core.specs.Same.{SameIsEqual};
ghost use Rattle.tql_core.specs.Trees.{NodesSayTheirParts, TreesStay, EqualTreesHaveOneNumber};

/// States that the truth of a condition at a second depends only on the documents and notes that
/// arrived by then.
pub fn a_condition_is_of_its_second()
    ensures { (c : Condition) → IsOfTheSecond (truth_of c) }
{}

/// States that a node's condition is made of the conditions of its parts.
pub fn nodes_say_their_parts()
    ensures { NodesSayTheirParts }
{}

/// States that the conditions of a pool are unchanged as it grows.
pub fn trees_stay()
    ensures { TreesStay }
{}

/// States that two numbers of a pool are equal if and only if their conditions are.
pub fn equal_trees_have_one_number()
    ensures { EqualTreesHaveOneNumber }
{}

/// States that the test of two conditions is true if and only if they are equal.
pub fn the_test_is_equality()
    ensures { SameIsEqual }
{}

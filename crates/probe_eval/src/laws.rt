//! Laws of what probes find.

ghost use Rattle.probe_eval.specs.Laws.{DrivingRowsAreMarked, WalkedRowsAreEnough, ListsNeedNoTest};
ghost use Rattle.probe_eval.specs.Laws.{WalksFindWhatProbesFind, RestsAreFound, RestsAreAlike};
ghost use Rattle.probe_eval.specs.Linear.{ProbesByIndexAreLinear};
ghost use Rattle.probe_eval.specs.Pairs.{ProbesTestPairs};

/// States that the driving rows of a probe are the rows of its table whose mark lies in the window.
pub fn driving_rows_are_marked()
    ensures { DrivingRowsAreMarked }
{}

/// States that the driving rows that are walked lead to the same hits as all driving rows, in the
/// same order: a row that is left out has a guard of the path that is false.
pub fn walked_rows_are_enough()
    ensures { WalkedRowsAreEnough }
{}

/// States that a probe which compares one text of the query's document with a literal and asks for
/// nothing else finds each row that is walked, at each mark that isn't before the row: neither its
/// guard nor its body is tested again.
pub fn lists_need_no_test()
    ensures { ListsNeedNoTest }
{}

/// States that walks from each driving row over the rows that accesses give find the unseen
/// documents and marks that the probes of a query find, and no others.
pub fn walks_find_what_probes_find()
    ensures { WalksFindWhatProbesFind }
{}

/// States that the search for the rest of a path finds it if and only if it exists, whatever rows
/// are known. The path names its own variables alone, each of them once.
pub fn rests_are_found()
    ensures { RestsAreFound }
{}

/// States that the rest of a path exists beside all rows of a variable that may go on, or beside
/// none, if no guard names the variable and another one that has no row yet.
pub fn rests_are_alike()
    ensures { RestsAreAlike }
{}

/// States that a probe finds a document with a mark if and only if some driving row has that mark,
/// beside which the rest of the path exists and the body is true. The body names the document and
/// the driving row alone, so it is evaluated once for the two.
pub fn probes_test_pairs()
    ensures { ProbesTestPairs }
{}

/// States that the bound of a probe is linear in its driving rows that are walked, if each further
/// row of its path is found by an access that gives at most `n` rows and its body looks at `m` at
/// most: each driving row takes that many steps, however many rows the tables have.
pub fn probes_by_index_are_linear()
    ensures { ProbesByIndexAreLinear }
{}

//! Laws of sessions.
ghost use Rattle.tap_top.specs.Chains.{ChainsAreSafe};
ghost use Rattle.tap_top.specs.Statuses.{ScriptSizes};

/// Shows what any number of sessions in a row leaves, of which each may have ended with a crash, if
/// each began with what the one before left, and left the tables after some first commands: a
/// store, if the first began with one, and so what each query has delivered is its box; and all
/// rows that any of them began with.
pub fn sessions_in_a_row_are_safe()
    ensures { ChainsAreSafe }
{}

/// Shows which numbers the sizes are that definitions name by a constant of the code: a script has
/// at most 268,435,456 bytes, and one read asks for at most 65,536.
pub fn script_sizes_are_numbers()
    ensures { ScriptSizes }
{}

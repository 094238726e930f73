//! Laws of sessions over a box.
ghost use Rattle.pop_box.specs.Served.{SessionSizes};

/// Shows which numbers the sizes are that definitions name by a constant of the code: a session
/// takes at most 268,435,456 bytes, and one read asks for at most 65,536.
pub fn session_sizes_are_numbers()
    ensures { SessionSizes }
{}

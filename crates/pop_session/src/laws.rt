//! Laws of sessions.
ghost use Rattle.pop_session.specs.Laws.{RepliesGrow};

/// States that the replies to some bytes are the first of those to all bytes that go on from them.
pub fn replies_grow()
    ensures { RepliesGrow }
{}

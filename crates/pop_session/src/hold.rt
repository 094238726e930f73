//! A session over a source and a sink: the client's bytes in pieces, and the replies to them.
ghost use Rattle.std.specs.Prelude.{◌≡◌, []};
ghost use Rattle.pop_session.specs.declared.outcome.Phase.{Phase};
ghost use Rattle.pop_session.specs.Sessions.{AreShort, CanTakeBytes, replies_from, quits_from};
ghost use Rattle.pop_session.specs.Ends.{SessionEnds, SessionCauses, IsSession, LettersEnd};
ghost use Rattle.pop_session.specs.Ends.{OpenEnd, IsSessionUpToDate};
ghost use Rattle.peer_edges.specs.Asks.{AskedOnlyWhen};

use crate::laws::replies_grow;
use crate::{Letter, PopSession};
use peer_edges::Peer;
use tap_edges::{PIECE, Sink, least};

/// The most bytes that a session looks at: 256 MiB.
pub const SESSION_LIMIT: usize = 268435456;

// Takes the pieces of the source and puts the replies to each before the next one is read; returns
// the status.
fn answer_pieces<S: Peer<K>, K: Sink>(
    session: &mut PopSession<'_>,
    source: &mut S,
    sink: &mut K,
) -> u8
    requires ready { CanTakeBytes session.old }
    requires unread { session.old.front ≡ [] }
    requires first { session.old.phase ≡ Phase.Authorization }
    ensures ends { SessionEnds (replies_from session.old) (quits_from session.old)
        (S.left source.old) (S.left source.new)
        (K.out sink.old) (K.out sink.new) result [] }
    ensures prompt { AskedOnlyWhen (λ l o.
        OpenEnd (replies_from session.old) (quits_from session.old) (S.left source.old) l
        (K.out sink.old) o)
        (S.was_asked source.old) (S.was_asked source.new) }
    ensures statuses { IsSession result }
    ensures causes { SessionCauses result (S.faults source.old) (S.faults source.new)
        (K.faults sink.old) (K.faults sink.new) (S.left source.old) (S.left source.new) }
{
    replies_grow();
    let mut piece = [0u8; PIECE];
    let mut taken = 0;
    'pieces: while taken <= SESSION_LIMIT {
        let n = match source.ask(sink, &mut piece) {
            Ok(n) => n,
            Err(_) => return 3,
        };
        if n == 0 {
            return 1;
        }
        let room = least(n, SESSION_LIMIT - taken);
        taken += n;
        match session.take(&piece[..room], sink) {
            Ok(true) => return 0,
            Ok(false) => {}
            Err(_) => return 4,
        }
    }
    8
}

/// Holds a session of the user over these letters: greets, and answers the requests of the source,
/// up to an accepted QUIT, in pieces of at most 65,536 bytes. It takes no memory. Returns the
/// status: 0, 1, 3, 4 or 8, as `serve` has them.
pub fn hold_session<S: Peer<K>, K: Sink>(
    user: &[u8],
    secret: &[u8],
    letters: &[Letter],
    source: &mut S,
    sink: &mut K,
) -> u8
    requires { AreShort letters.now }
    ensures ends { LettersEnd result user.now secret.now letters.now (S.left source.old)
        (S.left source.new) (K.out sink.old) (K.out sink.new) }

    // Whenever the source was asked for more, exactly the greeting and the replies to the bytes
    // taken so far were out.
    ensures prompt { AskedOnlyWhen (λ l o.
        IsSessionUpToDate user.now secret.now letters.now (S.left source.old) l (K.out sink.old) o)
        (S.was_asked source.old) (S.was_asked source.new) }
    ensures statuses { IsSession result }
    ensures causes { SessionCauses result (S.faults source.old) (S.faults source.new)
        (K.faults sink.old) (K.faults sink.new) (S.left source.old) (S.left source.new) }
{
    let mut session = PopSession::new(user, secret, letters);
    match session.greet(sink) {
        Ok(()) => answer_pieces(&mut session, source, sink),
        Err(_) => 4,
    }
}

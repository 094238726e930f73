//! A session: the client's bytes in pieces, and the replies to them.
ghost use Rattle.std.specs.Prelude.{◌≡◌, ◌≤◌, ◌<◌, ◌+◌, ◌-◌, List, [], ℕ, true, false};
ghost use Rattle.std.specs.Prelude.{length, take};
ghost use Rattle.std.specs.Prelude.{OnOk, OnErr, IfOk};
ghost use Rattle.std.specs.List.{position_or_len};
ghost use Rattle.std.specs.Io.KnownBytes.{Appends};
ghost use Rattle.mail_lines.specs.Lines.{is_end, NoEnd};
ghost use Rattle.tap_edges.specs.Puts.{counted, PutBehind};
ghost use Rattle.pop_session.specs.Replies.{greeting};
ghost use Rattle.pop_session.specs.Sessions.{PopSessionState, new_session, greeted, replies_from};
ghost use Rattle.pop_session.specs.Sessions.{quits_from, CanTakeBytes, is_ended, request_grown};
ghost use Rattle.pop_session.specs.Sessions.{AreShort, AnswersRest, FailsToPut};
ghost use Rattle.pop_session.specs.Sessions.{held, open_reply, answered, IsOver};

use crate::buffer::greeting_line;
use crate::letter::Letter;
use crate::outcome::Phase;
use crate::put::put_reply;
use crate::request::outcome_of;
use arrayvec::ArrayVec;
use memchr::memchr;
use std::marker::Model;
use tap_edges::{PutFailed, Sink, put_next, rest_from};

/// A session of RFC 1939 over a list of letters. It takes the client's bytes in pieces of any size,
/// and puts the reply to each request before it looks at the next. It takes no memory.
#[derive(Drop)]
pub struct PopSession<'a> {
    user: &'a [u8],
    secret: &'a [u8],
    letters: &'a [Letter],
    // The bytes of the open request. Of one that is too long only a front is stored: one byte more
    // than a request may have.
    front: ArrayVec<u8, 513>,
    phase: Phase,
    greeted: bool,
    failed: bool,
}

impl<'a> Model for PopSession<'a> {
    ghost use Rattle.std.specs.Prelude.{◌≡◌};
    ghost use Rattle.mail_lines.specs.Lines.{NoEnd};
    ghost use Rattle.pop_session.specs.Sessions.{PopSessionState, AreShort};

    ghost Value = { PopSessionState };

    ghost view = { λ s. record {
      user = s.user.now;
      secret = s.secret.now;
      letters = s.letters.now;
      front = s.front.items;
      phase = s.phase;
      greeted = s.greeted;
      failed = s.failed;
    } };

    ghost invariant = { λ s. NoEnd s.front.items × AreShort s.letters.now };
}

// Returns how many bytes come before the first LF; all of them if there is none.
fn end_of_request(bytes: &[u8]) -> usize
    ensures value { result ≡ position_or_len is_end bytes.now }
    ensures within { result ≤ length bytes.now }
{
    match memchr(b'\n', bytes) {
        Some(end) => end,
        None => bytes.len(),
    }
}

// Appends bytes of the open request, up to one byte more than a request may have, which shows that
// it is too long.
fn grow(front: &mut ArrayVec<u8, 513>, bytes: &[u8])
    ensures { front.new.items ≡ request_grown front.old.items bytes.now }
{
    let room = front.remaining_capacity();
    if bytes.len() <= room {
        let _pushed = front.try_extend_from_slice(bytes);
    } else {
        let _pushed = front.try_extend_from_slice(&bytes[..room]);
    }
}

// Returns whether an accepted QUIT has ended the session.
fn is_ended(phase: Phase) -> bool
    ensures { result ≡ is_ended phase }
{
    match phase {
        Phase::Ended => true,
        _ => false,
    }
}

// How many bytes of a piece a request took, and how many bytes of the replies to the piece are put
// then.
#[derive(Clone, Copy)]
struct Step {
    used: usize,
    done: usize,
}

impl<'a> PopSession<'a> {
    /// Returns a session before its greeting, for the user of this name and secret.
    pub fn new(user: &'a [u8], secret: &'a [u8], letters: &'a [Letter]) -> PopSession<'a>
        requires { AreShort letters.now }
        ensures { result ≡ new_session user.now secret.now letters.now }
    {
        PopSession {
            user,
            secret,
            letters,
            front: ArrayVec::new(),
            phase: Phase::Authorization,
            greeted: false,
            failed: false,
        }
    }

    /// Puts the greeting (RFC 1939 4). Fails only if the put fails, and the session has failed
    /// then.
    pub fn greet<K: Sink>(&mut self, sink: &mut K) -> Result<(), PutFailed>
        requires first { self.old.greeted ≡ false }
        requires open { is_ended self.old.phase ≡ false }
        requires going { self.old.failed ≡ false }
        ensures ok { OnOk result (Appends (K.out sink.old) (K.out sink.new) greeting) }
        ensures next { OnOk result (self.new ≡ greeted self.old) }
        ensures ready { OnOk result (CanTakeBytes self.new) }
        ensures fails { FailsToPut K.Sink 0 greeting sink.old sink.new self.new result }
    {
        match put_next(sink, 0, greeting_line().as_slice()) {
            Ok(_) => {
                self.greeted = true;
                Ok(())
            }
            Err(failed) => {
                self.failed = true;
                Err(failed)
            }
        }
    }

    // Returns whether nothing more of a piece is looked at: it is at its end, or the session is.
    fn is_over(&self, rest: &[u8]) -> bool
        ensures over { result ≡ true → IsOver self.now rest.now }
        ensures more { result ≡ false → (0 < length rest.now) × (is_ended self.now.phase ≡ false) }
        ensures front { NoEnd self.now.front }
    {
        let ended = is_ended(self.phase);
        rest.is_empty() || ended
    }

    // Holds more bytes of the open request.
    fn hold(&mut self, bytes: &[u8])
        requires { NoEnd bytes.now }
        ensures next { self.new ≡ held self.old bytes.now }
        ensures front { NoEnd self.old.front }
    {
        grow(&mut self.front, bytes);
    }

    // Puts the reply to the open request, and begins a new one. `start` bytes are put before.
    fn answer<K: Sink>(&mut self, start: usize, sink: &mut K) -> Result<usize, PutFailed>
        ensures put { PutBehind K.Sink start (open_reply self.old) sink.old sink.new result }
        ensures next { OnOk result (self.new ≡ answered self.old) }
        ensures failed { OnErr result (self.new.failed ≡ true) }
    {
        let outcome = outcome_of(self.user, self.secret, self.phase, self.front.as_slice());
        self.front.clear();
        self.phase = outcome.phase;
        match put_reply(sink, start, self.letters, outcome.reply) {
            Ok(done) => Ok(done),
            Err(failed) => {
                self.failed = true;
                Err(failed)
            }
        }
    }

    // Takes the bytes of a piece up to the end of the next request, and puts the reply to it.
    // `start` bytes are put before.
    fn take_one<K: Sink>(
        &mut self,
        piece: &[u8],
        start: usize,
        sink: &mut K,
    ) -> Result<Step, PutFailed>
        requires some { 0 < length piece.now }
        requires ready { CanTakeBytes self.old }
        ensures within { IfOk result (λ step. (0 < step.used) × (step.used ≤ length piece.now)) }
        ensures count { IfOk result (λ step. step.done
            ≡ counted (start + length (replies_from self.old (take step.used piece.now)))) }
        ensures ok { IfOk result (λ step. Appends (K.out sink.old) (K.out sink.new)
            (replies_from self.old (take step.used piece.now))) }
        ensures next { IfOk result (λ step.
            AnswersRest self.old self.new (take step.used piece.now)) }
        ensures going { OnOk result ((self.new.greeted ≡ true) × (self.new.failed ≡ false)) }
        ensures fails { FailsToPut K.Sink start (replies_from self.old piece.now)
            sink.old sink.new self.new result }
    {
        let len = end_of_request(piece);
        self.hold(&piece[..len]);
        if len == piece.len() {
            return Ok(Step {
                used: len,
                done: start,
            });
        }
        match self.answer(start, sink) {
            Ok(done) => Ok(Step {
                used: len + 1,
                done,
            }),
            Err(failed) => Err(failed),
        }
    }

    /// Takes a piece of the client's bytes, and puts the reply to each request that the piece
    /// completes. Returns whether one of these requests was an accepted QUIT; no later byte is
    /// looked at then, and the session has ended. However the bytes go on, the replies to all of
    /// them are those that were put and those to the rest. Fails only if a put fails, with the
    /// number of bytes that this call put before, and the session has failed then.
    pub fn take<K: Sink>(&mut self, piece: &[u8], sink: &mut K) -> Result<bool, PutFailed>
        requires ready { CanTakeBytes self.old }
        ensures ok { OnOk result
            (Appends (K.out sink.old) (K.out sink.new) (replies_from self.old piece.now)) }
        ensures next { OnOk result (AnswersRest self.old self.new piece.now) }
        ensures open { OnOk result (replies_from self.new [] ≡ []) }
        ensures quit { IfOk result (λ quit. quit ≡ quits_from self.old piece.now) }
        ensures over { IfOk result (λ quit. quit ≡ true → (rest : List ℕ)
            → replies_from self.new rest ≡ []) }
        ensures ready { IfOk result (λ quit. quit ≡ false → CanTakeBytes self.new) }
        ensures fails { FailsToPut K.Sink 0 (replies_from self.old piece.now)
            sink.old sink.new self.new result }
    {
        let mut done = 0usize;
        let mut rest = piece;
        'requests: while !self.is_over(rest) {
            match self.take_one(rest, done, sink) {
                Ok(step) => {
                    done = step.done;
                    rest = rest_from(rest, step.used);
                }
                Err(failed) => return Err(failed),
            }
        }
        Ok(is_ended(self.phase))
    }
}

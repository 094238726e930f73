//! Reads a request and checks it.
ghost use Rattle.std.specs.Prelude.{◌≡◌, ◌≤◌, ◌+◌, ◌==◌, ◌&&◌, Bool, true, false, Option, Some};
ghost use Rattle.std.specs.Prelude.{None, length, drop};
ghost use Rattle.std.specs.Prelude.{if◌then◌else◌, nat_le};
ghost use Rattle.std.specs.List.{position_or_len};
ghost use Rattle.std.specs.Str.{bytes_eq};
ghost use Rattle.std.specs.Str.Lines.{strip_carriage_return};
ghost use Rattle.tap_base.specs.LineWords.{word, has_words, after_blanks};
ghost use Rattle.tap_base.specs.Numbers.{number_of};
ghost use Rattle.pop_session.specs.Requests.{keyword_of, is_allowed, unnamed, replied};
ghost use Rattle.pop_session.specs.Requests.{refused_request, after_keyword, letter_number, bare};
ghost use Rattle.pop_session.specs.Requests.{lettered, list_outcome, is_right};
ghost use Rattle.pop_session.specs.Requests.{user_outcome, pass_outcome, allowed_outcome};
ghost use Rattle.pop_session.specs.Requests.{keyword_outcome, text_outcome, outcome_of};
ghost use Rattle.pop_session.specs.declared.reply.PopReply.{PopReply};
ghost use Rattle.pop_session.specs.declared.reply.PopReply.TheVariants.{Row, Text, Refused};
ghost use Rattle.pop_session.specs.declared.reply.PopRefusal.TheVariants.{Kept};
ghost use Rattle.pop_session.specs.declared.reply.PopReply.TheVariants.{Accepted};
ghost use Rattle.pop_session.specs.declared.outcome.Phase.TheVariants.{Ended};

use crate::keyword::{Keyword, keyword_of};
use crate::outcome::{Outcome, Phase};
use crate::reply::{Listing, PopRefusal, PopReply};
use tap_base::{after_byte, blank_place, has_words, nth_word, read_number, skip_blanks};

// The most bytes of a request, without its LF.
const REQUEST_LIMIT: usize = 512;

// The most digits of a number.
const DIGIT_LIMIT: usize = 10;

// The greatest number of that many digits.
const LARGEST_NUMBER: u64 = 9999999999;

// Returns whether a keyword is allowed in a phase.
fn is_allowed(keyword: Keyword, phase: Phase) -> bool
    ensures { result ≡ is_allowed keyword phase }
{
    match keyword {
        Keyword::Quit => true,
        Keyword::User => match phase {
            Phase::Authorization | Phase::Named(_) => true,
            Phase::Transaction | Phase::Ended => false,
        },
        Keyword::Pass => match phase {
            Phase::Named(_) => true,
            _ => false,
        },
        _ => match phase {
            Phase::Transaction => true,
            _ => false,
        },
    }
}

// Returns the phase after a request that isn't an accepted USER, PASS or QUIT.
fn unnamed(phase: Phase) -> Phase
    ensures { result ≡ unnamed phase }
{
    match phase {
        Phase::Named(_) => Phase::Authorization,
        phase => phase,
    }
}

// Returns the outcome of a reply that ends no phase.
fn replied(phase: Phase, reply: PopReply) -> Outcome
    ensures { result ≡ replied phase reply }
{
    Outcome {
        reply,
        phase: unnamed(phase),
    }
}

fn refused_request(phase: Phase, refusal: PopRefusal) -> Outcome
    ensures { result ≡ refused_request phase refusal }
{
    replied(phase, PopReply::Refused(refusal))
}

// Returns the bytes after the one blank that follows the keyword.
fn after_keyword(text: &[u8]) -> &[u8]
    ensures { result.now ≡ after_keyword text.now }
{
    let request = skip_blanks(text);
    after_byte(request, blank_place(request))
}

// Returns the number that the argument of a request is.
fn letter_number(text: &[u8]) -> Option<u64>
    ensures { result ≡ letter_number text.now }
{
    if has_words(text, 2) {
        read_number(nth_word(text, 1), DIGIT_LIMIT, LARGEST_NUMBER)
    } else {
        None
    }
}

// Returns the outcome of a request that has no argument.
fn bare(text: &[u8], phase: Phase, outcome: Outcome) -> Outcome
    ensures { result ≡ bare text.now phase outcome }
{
    if has_words(text, 1) {
        outcome
    } else {
        refused_request(phase, PopRefusal::Form)
    }
}

// Returns the outcome of LIST or UIDL.
fn list_outcome(text: &[u8], phase: Phase, listing: Listing) -> Outcome
    ensures { result ≡ list_outcome text.now phase listing }
{
    if has_words(text, 1) {
        return replied(phase, PopReply::Rows(listing));
    }
    match letter_number(text) {
        Some(number) => replied(phase, PopReply::Row(listing, number)),
        None => refused_request(phase, PopRefusal::Form),
    }
}

// Returns the outcome of RETR.
fn retrieved(text: &[u8], phase: Phase) -> Outcome
    ensures { result ≡ lettered phase (letter_number text.now) Text }
{
    match letter_number(text) {
        Some(number) => replied(phase, PopReply::Text(number)),
        None => refused_request(phase, PopRefusal::Form),
    }
}

// Returns the outcome of DELE: no letter is deleted.
fn kept(text: &[u8], phase: Phase) -> Outcome
    ensures { result ≡ lettered phase (letter_number text.now) (λ n. Refused Kept) }
{
    match letter_number(text) {
        Some(_) => refused_request(phase, PopRefusal::Kept),
        None => refused_request(phase, PopRefusal::Form),
    }
}

// Returns the outcome of USER (RFC 1939 7).
fn user_outcome(user: &[u8], phase: Phase, text: &[u8]) -> Outcome
    ensures { result ≡ user_outcome user.now phase text.now }
{
    if has_words(text, 2) {
        Outcome {
            reply: PopReply::Accepted,
            phase: Phase::Named(nth_word(text, 1) == user),
        }
    } else {
        refused_request(phase, PopRefusal::Form)
    }
}

// Returns whether the right name was given.
fn is_right(phase: Phase) -> bool
    ensures { result ≡ is_right phase }
{
    match phase {
        Phase::Named(right) => right,
        _ => false,
    }
}

// Returns the outcome of PASS (RFC 1939 7).
fn pass_outcome(secret: &[u8], phase: Phase, text: &[u8]) -> Outcome
    ensures { result ≡ pass_outcome secret.now phase text.now }
{
    let given = after_keyword(text);
    if given.is_empty() {
        refused_request(phase, PopRefusal::Form)
    } else if is_right(phase) && given == secret {
        Outcome {
            reply: PopReply::Accepted,
            phase: Phase::Transaction,
        }
    } else {
        refused_request(phase, PopRefusal::Denied)
    }
}

// Returns the outcome of QUIT (RFC 1939 6).
fn quit_outcome(phase: Phase, text: &[u8]) -> Outcome
    ensures { result ≡ bare text.now phase (record { reply = Accepted; phase = Ended }) }
{
    let ended = Outcome {
        reply: PopReply::Accepted,
        phase: Phase::Ended,
    };
    bare(text, phase, ended)
}

// Returns the outcome of a request whose keyword is allowed.
fn allowed_outcome(
    user: &[u8],
    secret: &[u8],
    phase: Phase,
    keyword: Keyword,
    text: &[u8],
) -> Outcome
    ensures { result ≡ allowed_outcome user.now secret.now phase keyword text.now }
{
    match keyword {
        Keyword::User => user_outcome(user, phase, text),
        Keyword::Pass => pass_outcome(secret, phase, text),
        Keyword::Quit => quit_outcome(phase, text),
        Keyword::Stat => bare(text, phase, replied(phase, PopReply::Totals)),
        Keyword::List => list_outcome(text, phase, Listing::Sizes),
        Keyword::Uidl => list_outcome(text, phase, Listing::Ids),
        Keyword::Retr => retrieved(text, phase),
        Keyword::Dele => kept(text, phase),
        Keyword::Noop => bare(text, phase, replied(phase, PopReply::Accepted)),
        Keyword::Rset => bare(text, phase, replied(phase, PopReply::Accepted)),
    }
}

// Returns the outcome of a request's text.
fn text_outcome(user: &[u8], secret: &[u8], phase: Phase, text: &[u8]) -> Outcome
    ensures { result ≡ text_outcome user.now secret.now phase text.now }
{
    match keyword_of(nth_word(text, 0)) {
        None => refused_request(phase, PopRefusal::Unknown),
        Some(keyword) => {
            if is_allowed(keyword, phase) {
                allowed_outcome(user, secret, phase, keyword, text)
            } else {
                refused_request(phase, PopRefusal::State)
            }
        }
    }
}

// Returns a request without one CR at its end.
fn without_return(request: &[u8]) -> &[u8]
    ensures { result.now ≡ strip_carriage_return request.now }
{
    if request.last() == Some(&b'\r') {
        &request[..request.len() - 1]
    } else {
        request
    }
}

/// Returns the outcome of a request, which is given without its LF: the first check that applies
/// refuses it.
pub(crate) fn outcome_of(user: &[u8], secret: &[u8], phase: Phase, request: &[u8]) -> Outcome
    ensures { result ≡ outcome_of user.now secret.now phase request.now }
{
    if request.len() <= REQUEST_LIMIT {
        text_outcome(user, secret, phase, without_return(request))
    } else {
        refused_request(phase, PopRefusal::Long)
    }
}

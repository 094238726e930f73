//! The search for a user's query by its name.

ghost use Rattle.std.specs.Prelude.{◌≡◌, Some, true, IfOk, OnOk};
ghost use Rattle.std.specs.Result.{result_err};
ghost use Rattle.tap_base.specs.Names.{is_name};
ghost use Rattle.tap_model.specs.Sessions.{user_of};
ghost use Rattle.tap_kept.specs.Keeping.{named_in};
ghost use Rattle.tap_engine.specs.Standing.{query_refusal};

use crate::engine::Engine;
use crate::sessions::refuse_name;
use script_lang::Refusal;
use tap_kept::{CachedQueries, CachedQuery};
use tap_model::Session;

// Finds the user's query of this name.
pub(crate) fn query_of<'a>(
    session: &Session,
    queries: &'a CachedQueries,
    name: &[u8],
) -> Result<&'a CachedQuery, Refusal>
    ensures err { result_err result ≡ query_refusal session.now queries.now name.now }
    ensures ok { IfOk result (λ kept.
        named_in (user_of session.now) name.now queries.now ≡ Some kept.now) }
    ensures name { OnOk result (is_name name.now ≡ true) }
{
    let Some(user) = &session.user else {
        return Err(Refusal::NoUser);
    };
    refuse_name(name)?;
    match queries.named(user.as_slice(), name) {
        Some(kept) => Ok(kept),
        None => Err(Refusal::NoQuery),
    }
}

impl Engine {
    ghost use Rattle.tap_engine.specs.Standing.{look_refusal, cached_named};

    // Finds the query of this name of the session's user.
    #[tactic(auto, unfolding(crate::specs::Standing::look_refusal))]
    pub(crate) fn look(&self, name: &[u8]) -> Result<&CachedQuery, Refusal>
        ensures err { result_err result ≡ look_refusal self.now name.now }
        ensures ok { IfOk result (λ kept. cached_named self.now name.now ≡ Some kept.now) }
        ensures name { OnOk result (is_name name.now ≡ true) }
    {
        query_of(&self.session, &self.queries, name)
    }
}

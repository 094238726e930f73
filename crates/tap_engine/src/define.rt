//! The command that defines a query.

ghost use Rattle.std.specs.Prelude.{◌≡◌, ◌<◌, ◌+◌, ◌^◌, ◌++◌, [], ◌∷◌, if◌then◌else◌};
ghost use Rattle.std.specs.Prelude.{length, Some, None, true, is_none, OnOk, OnErr, IfOk, IfErr};
ghost use Rattle.std.specs.Result.{result_err};
ghost use Rattle.tap_base.specs.Words.{has_text};
ghost use Rattle.tap_rows.specs.declared.change.Change.{Change as RowChange};
ghost use Rattle.script_lang.specs.declared.command.Command.{Command};
ghost use Rattle.tap_model.specs.Verdicts.{refuse_unless, first_refusal};
ghost use Rattle.script_lang.specs.declared.refusal.Refusal.{Refusal};
ghost use Rattle.tql_core.specs.Bounds.{are_bounded};
ghost use Rattle.tql_core.specs.Condition.{condition};
ghost use Rattle.tql_core.specs.Scope.{IsQuery};
ghost use Rattle.tap_model.specs.Queries.{condition_by};
ghost use Rattle.restart_core.specs.Starts.{stored_source};
ghost use Rattle.tap_kept.specs.Keeping.{never_run, with_owner, named_in};
ghost use Rattle.tap_model.specs.Sessions.{moment_or_zero, user_of};
ghost use Rattle.tap_base.specs.Names.{is_name};
ghost use Rattle.tap_base.specs.Numbers.{IsMoment};

use crate::engine::Engine;
use crate::limits::refuse_more;
use crate::prepared::Prepared;
use crate::sessions::refuse_name;
use crate::undo::Undo;
use script_lang::{LimitName, Refusal, Reply};
use std::alloc::Global;
use tap_base::{Copied, Memory, QueryNum, Rows, Text, Texts};
use tap_kept::{CachedQueries, CachedQuery, PlannedQuery, read_source};
use tap_model::{QUERY_LIMIT, STORE_LIMIT, USER_LIMIT, USER_QUERY_LIMIT};
use tap_rows::{Change, QueryRow};
use tql_core::Cond;

// Adds an owner, unless it is there already. At Err nothing has changed.
pub(crate) fn push_owner(owners: &mut Texts, owner: Text) -> Result<(), Memory>
    ensures ok { OnOk result (owners.new ≡ with_owner owners.old owner) }
    ensures err { OnErr result (owners.new ≡ owners.old) }
{
    if owners.holds(owner.as_slice()) {
        Ok(())
    } else {
        owners.push(owner)
    }
}

// Adds a query and its owner. At Err nothing has changed.
fn push_query(
    queries: &mut CachedQueries,
    owners: &mut Texts,
    kept: CachedQuery,
    owner: Text,
) -> Result<(), Memory>
    ensures queries { OnOk result (queries.new ≡ queries.old ++ kept ∷ []) }
    ensures owners { OnOk result (owners.new ≡ with_owner owners.old owner) }
    ensures err { OnErr result ((queries.new ≡ queries.old) × (owners.new ≡ owners.old)) }
{
    let len = owners.len();
    if push_owner(owners, owner).is_err() {
        drop(kept);
        return Err(Memory);
    }
    let done = queries.push(kept);
    if done.is_err() {
        owners.cut(len);
    }
    done
}

impl Engine {
    ghost use Rattle.tap_engine.specs.Answering.{Prepares, RefusesAsModel};
    ghost use Rattle.tap_engine.specs.Standing.{name_refusal, query_limits, early_define};
    ghost use Rattle.tap_engine.specs.Standing.{define_refusal, RefusedAfter};
    ghost use Rattle.tap_engine.specs.Ready.{IsReady};

    // Adds a query that was never run, and gives its row as a change. At Err nothing has changed.
    fn add_query(&mut self, alloc: Global, row: QueryRow, cond: Cond) -> Result<Change, Memory>
        requires cond { condition cond ≡ condition_by row }
        requires scoped { IsQuery (condition cond) }
        requires bounded { are_bounded (condition cond) ≡ true }
        requires arrival { IsMoment row.arrival }
        requires bytes { self.old.bytes + length row.source < 2 ^ 64 }
        ensures change { IfOk result (λ change. change ≡ RowChange.OneQuery row) }
        ensures engine { OnOk result (self.new ≡ record self.old {
          queries = self.old.queries ++ never_run row ∷ [];
          owners = with_owner self.old.owners row.owner;
          bytes = self.old.bytes + length row.source;
        }) }
        ensures err { OnErr result (self.new ≡ self.old) }
    {
        let len = row.source.len();
        let owner = row.owner.copy()?;
        let planned_query = PlannedQuery::new(alloc, row.copied()?, cond)?;
        let kept = CachedQuery::new(alloc, planned_query);
        push_query(&mut self.queries, &mut self.owners, kept, owner)?;
        self.bytes += len;
        Ok(Change::OneQuery(row))
    }

    // Refuses a name that one of the user's queries has.
    fn refuse_taken(&self, user: &[u8], name: &[u8]) -> Result<(), Refusal>
        ensures { result_err result
            ≡ refuse_unless (is_none (named_in user.now name.now self.now.queries)) Refusal.Taken }
    {
        if self.queries.named(user, name).is_some() {
            Err(Refusal::Taken)
        } else {
            Ok(())
        }
    }

    // Counts how many owners more there are once this user owns a query or a filter: 0 or 1.
    pub(crate) fn new_users(&self, user: &[u8]) -> usize
        ensures { result ≡ if has_text self.now.owners user.now then 0 else 1 }
    {
        if self.owners.holds(user) { 0 } else { 1 }
    }

    // Refuses a text that is no name, then a name that one of the user's queries has.
    #[tactic(auto, unfolding(crate::specs::Standing::name_refusal))]
    fn refuse_query_name(&self, user: &[u8], name: &[u8]) -> Result<(), Refusal>
        ensures value { result_err result ≡ name_refusal self.now user.now name.now }
        ensures name { OnOk result (is_name name.now ≡ true) }
    {
        refuse_name(name)?;
        self.refuse_taken(user, name)
    }

    // Refuses a query of this user and length that would pass a limit.
    #[tactic(auto, unfolding(crate::specs::Standing::query_limits))]
    fn refuse_query(&self, user: &[u8], len: usize) -> Result<(), Refusal>
        ensures value { result_err result ≡ first_refusal (query_limits self.now user.now len) }
        ensures few { OnOk result (length self.now.queries < QUERY_LIMIT) }
        ensures bytes { OnOk result (self.now.bytes + len < 2 ^ 64) }
    {
        refuse_more(
            LimitName::Queries,
            USER_QUERY_LIMIT,
            self.queries.count(user),
            1,
        )?;
        refuse_more(LimitName::AllQueries, QUERY_LIMIT, self.queries.len(), 1)?;
        refuse_more(
            LimitName::Users,
            USER_LIMIT,
            self.owners.len(),
            self.new_users(user),
        )?;
        refuse_more(LimitName::Store, STORE_LIMIT, self.bytes, len)
    }

    // Makes the row of a new query and its condition, or gives the first refusal.
    fn new_query(
        &self,
        alloc: Global,
        name: Text,
        source: Text,
    ) -> Result<(QueryRow, Cond), Refusal>
        ensures checks { OnOk result (define_refusal self.now name source ≡ None) }
        ensures row { IfOk result (λ made. made.0 ≡ record {
          num = record { 0 = length self.now.queries + 1 };
          owner = user_of self.now.session;
          name = name;
          source = stored_source source;
          arrival = moment_or_zero self.now.session;
        }) }
        ensures cond { IfOk result (λ made. condition made.1 ≡ condition_by made.0) }
        ensures scoped { IfOk result (λ made. IsQuery (condition made.1)) }
        ensures bounded { IfOk result (λ made. are_bounded (condition made.1) ≡ true) }
        ensures refusal { IfErr result (λ refusal. RefusedAfter (early_define self.now name)
            (define_refusal self.now name source) refusal) }
        ensures bytes { IfOk result (λ made. self.now.bytes + length made.0.source < 2 ^ 64) }
        ensures name { OnOk result (is_name name ≡ true) }
    {
        let Some(moment) = self.session.moment else {
            return Err(Refusal::NoMoment);
        };
        let Some(user) = &self.session.user else {
            return Err(Refusal::NoUser);
        };
        self.refuse_query_name(user.as_slice(), name.as_slice())?;
        let (source, cond) = read_source(alloc, source)?;
        self.refuse_query(user.as_slice(), source.len())?;
        let row = QueryRow {
            num: QueryNum(self.queries.len() as u32 + 1),
            owner: user.copy()?,
            name,
            source,
            arrival: moment,
        };
        Ok((row, cond))
    }

    // Defines a query, which covers the seconds from 0 on, or from the session's moment on if its
    // text is `FROM NOW`.
    pub(crate) fn define(
        &mut self,
        alloc: Global,
        name: Text,
        source: Text,
    ) -> Result<Prepared, Refusal>
        requires ready { IsReady self.old }
        ensures ok { IfOk result (Prepares self.old (Command.Define name source) self.new) }
        ensures refusal { IfErr result (RefusesAsModel self.old (Command.Define name source)) }
        ensures err { OnErr result (self.new ≡ self.old) }
    {
        let undo = Undo::Query {
            len: self.queries.len(),
            owners: self.owners.len(),
            bytes: self.bytes,
        };
        let (row, cond) = self.new_query(alloc, name, source)?;
        let shown = row.name.copy()?;
        let change = self.add_query(alloc, row, cond)?;
        Ok(Prepared {
            reply: Reply::Defined(shown),
            change: Some(change),
            undo,
        })
    }
}

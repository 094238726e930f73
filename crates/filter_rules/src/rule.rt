//! A rule of a filter.
ghost use Rattle.std.specs.Prelude.{◌≡◌, pos, Some, false};
ghost use Rattle.tap_base.specs.declared.numbers.Op.TheVariants.{Le, Gt};
ghost use Rattle.tap_rows.specs.Tables.{no_rows};
ghost use Rattle.tql_core.specs.Condition.{condition};
ghost use Rattle.tql_core.specs.Values.{both, value};
ghost use Rattle.tql_core.specs.Holds.{truth};
ghost use Rattle.filter_rules.specs.Rules.{rule_view};
ghost use Rattle.filter_rules.specs.Ratings.{holds_for};

use tap_base::Text;
use tap_rows::KeptDoc;
use tql_core::{Cond, Env, RowRef, Term, Var, true_atom, value};

/// A rule of a filter. A document that its condition holds for has this priority at least, and the
/// class of the first such rule. The condition names neither now nor other rows.
#[derive(Drop)]
pub struct KeptRule {
    pub(crate) cond: Cond,
    pub(crate) priority: u32,
    pub(crate) class: Text,
}

// Is the second 0 at the term or later?
fn is_at_least(term: Term, env: &Env) -> bool
    ensures { result ≡ both Le (value term env.now) (Some (pos 0)) }
{
    match value(term, env) {
        None => false,
        Some(x) => x <= 0,
    }
}

// Is the second 0 before the term?
fn is_before(term: Term, env: &Env) -> bool
    ensures { result ≡ both Gt (value term env.now) (Some (pos 0)) }
{
    match value(term, env) {
        None => false,
        Some(x) => x > 0,
    }
}

// Evaluates a condition over no rows at the second 0. A rule's condition names neither now nor
// other rows, so any second and any rows give the same.
fn holds<'a>(cond: &'a Cond, env: &Env<'a>) -> bool
    ensures { result ≡ truth no_rows (pos 0) (condition cond.now) env.now }
{
    match cond {
        Cond::True => true,
        Cond::False => false,
        Cond::Plain(atom) => true_atom(atom, env),
        Cond::NowAtLeast(term) => is_at_least(*term, env),
        Cond::NowBefore(term) => is_before(*term, env),
        Cond::All(l, r) => holds(l, env) && holds(r, env),
        Cond::Either(l, r) => holds(l, env) || holds(r, env),
        Cond::Not(x) => !holds(x, env),
        Cond::Exists(_, _, _) => false,
    }
}

impl KeptRule {
    // Does the rule hold for the document?
    pub(crate) fn holds_for<'a>(&'a self, doc: &'a KeptDoc) -> bool
        ensures { result ≡ holds_for doc.now (rule_view self.now) }
    {
        let env = Env::new().bind(Var(0), RowRef::OfDoc(doc));
        holds(&self.cond, &env)
    }
}

//! The step that is looked for next, found once for all rows of a level.

ghost use Rattle.std.specs.Prelude.{◌≡◌, Option, List, Some, IfSome};
ghost use Rattle.access_plan.specs.Views.{option_access, option_reach};
ghost use Rattle.access_plan.specs.Nearest.{nearest};
ghost use Rattle.time_marks.specs.declared.mark.Step.{Step};
ghost use Rattle.tql_core.specs.Values.{Env};
ghost use Rattle.access_plan.specs.declared.reach.Reach.{Reach};
ghost use Rattle.probe_eval.specs.Nexts.{IsFoundNearest, IsNearestIfKnown, IsSole};

use crate::given::sole_access;
use access_plan::{AccessRef, ReachRef, nearest};
use time_marks::Step;
use tql_core::Env;

/// The step that is looked for next beside rows of the same variables, once it was asked for.
#[derive(Clone, Copy)]
pub enum Next<'a> {
    Unknown,
    Known(Option<ReachRef<'a>>, Option<AccessRef<'a>>),
}

// Returns the access by which the rows of the step are walked, if guards don't give several.
fn sole_of<'a>(path: &'a [Step], reach: Option<ReachRef<'a>>, env: &Env) -> Option<AccessRef<'a>>
    ensures { IfSome (option_reach reach.entry) (λ r.
        IsSole path.now env.now r (option_access result)) }
{
    match reach {
        None => None,
        Some(reach) => sole_access(path, reach, env),
    }
}

impl<'a> Next<'a> {
    /// Returns the step of the path that is looked for next beside the rows of `env`. It is found
    /// the first time, and known from then on.
    pub fn get(&mut self, path: &'a [Step], env: &Env) -> Option<ReachRef<'a>>
        requires { IsNearestIfKnown path.now env.now self.old }
        ensures reach { option_reach result ≡ nearest path.now env.now }
        ensures next { IsNearestIfKnown path.now env.now self.new }
        ensures found { IsFoundNearest path.now env.now self.new }
    {
        match *self {
            Next::Known(reach, _sole) => reach,
            Next::Unknown => {
                let reach = nearest(path, env);
                *self = Next::Known(reach, sole_of(path, reach, env));
                reach
            }
        }
    }

    /// Returns the access by which the rows of the step that was found are walked. `None` comes if
    /// and only if guards give several beside rows of the same variables.
    pub fn sole(&self) -> Option<AccessRef<'a>>
        ensures { (path : List Step) (env : Env) (r : Reach) → IsFoundNearest path env self.now
            → nearest path env ≡ Some r → IsSole path env r (option_access result) }
    {
        match *self {
            Next::Known(_reach, sole) => sole,
            Next::Unknown => None,
        }
    }
}

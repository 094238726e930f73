//! Which conjuncts stay in the scope of an EXISTS, and which stand beside it.

ghost use Rattle.std.specs.Prelude.{◌≡◌, IfOk};
ghost use Rattle.tql_core.specs.Condition.{condition};
ghost use Rattle.query_form.specs.Form.{place_of, same_place, only_if};
ghost use Rattle.query_form.specs.Form.{conjuncts, beside, narrowed};

use crate::build::{conjoined, copied, exists};
use crate::names::{has_exists, names};
use crate::place::Place;
use std::alloc::Global;
use tap_base::Memory;
use tql_core::{Cond, Var};
use tql_tree::Table;

// Returns where a conjunct stands: inside the EXISTS if it names the variable. Otherwise it stands
// after the EXISTS if an EXISTS stands in it, too, and before it if not.
fn place_of(var: Var, part: &Cond) -> Place
    ensures { result ≡ place_of var (condition part.now) }
{
    if names(var, part) {
        Place::Inside
    } else if has_exists(part) {
        Place::After
    } else {
        Place::Before
    }
}

// Returns whether the places are the same.
fn same_place(p: Place, q: Place) -> bool
    ensures { result ≡ same_place p q }
{
    match (p, q) {
        (Place::Before, Place::Before) => true,
        (Place::Inside, Place::Inside) => true,
        (Place::After, Place::After) => true,
        _ => false,
    }
}

// Copies a conjunct, or makes TRUE if the flag isn't set.
fn only_if(alloc: Global, flag: bool, part: &Cond) -> Result<Cond, Memory>
    ensures { IfOk result (λ made. condition made ≡ only_if flag (condition part.now)) }
{
    if flag {
        copied(alloc, part)
    } else {
        Ok(Cond::True)
    }
}

// Copies the conjuncts that stand in a place.
pub(crate) fn conjuncts(alloc: Global, var: Var, place: Place, cond: &Cond) -> Result<Cond, Memory>
    ensures { IfOk result (λ made. condition made ≡ conjuncts var place (condition cond.now)) }
{
    match cond {
        Cond::All(l, r) => {
            let l = conjuncts(alloc, var, place, l)?;
            let r = conjuncts(alloc, var, place, r)?;
            conjoined(alloc, l, r)
        }
        _ => only_if(alloc, same_place(place, place_of(var, cond)), cond),
    }
}

// Makes the conjunction of what replaces an EXISTS and the conjuncts before and after it.
pub(crate) fn beside(alloc: Global, var: Var, cond: &Cond, made: Cond) -> Result<Cond, Memory>
    ensures { IfOk result (λ x. condition x ≡ beside var (condition cond.now) (condition made)) }
{
    let before = conjuncts(alloc, var, Place::Before, cond)?;
    let after = conjuncts(alloc, var, Place::After, cond)?;
    conjoined(alloc, before, conjoined(alloc, made, after)?)
}

// Makes an EXISTS around the conjuncts that name its variable, with the others beside it.
pub(crate) fn narrowed(alloc: Global, var: Var, table: Table, cond: &Cond) -> Result<Cond, Memory>
    ensures { IfOk result (λ made. condition made ≡ narrowed var table (condition cond.now)) }
{
    let inside = conjuncts(alloc, var, Place::Inside, cond)?;
    beside(alloc, var, cond, exists(alloc, var, table, inside)?)
}

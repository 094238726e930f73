//! How many nodes and how many alternatives a condition has.

ghost use Rattle.std.specs.Prelude.{◌≡◌, ◌-◌, ◌≤◌, nat_le};
ghost use Rattle.tql_core.specs.Condition.{condition};
ghost use Rattle.query_form.specs.Form.{at_most, alternatives, node_count};

use crate::keys::has_key;
use tql_core::{Cond, Var};

// The most nodes of a form.
const MOST_NODES: u32 = 128;

// The most alternatives that get an EXISTS each.
const MOST_ALTERNATIVES: u32 = 16;

// Returns the number, or the limit if the number is greater.
fn at_most(limit: u32, n: u32) -> u32
    ensures { result ≡ at_most limit n }
{
    if n <= limit { n } else { limit }
}

// Returns how many alternatives with a key there are: 17 if there are more than 16.
fn alternatives(var: Var, cond: &Cond) -> u32
    ensures value { result ≡ alternatives var (condition cond.now) }
    ensures few { result ≤ 17 }
{
    match cond {
        Cond::All(l, r) => at_most(
            MOST_ALTERNATIVES + 1,
            alternatives(var, l) * alternatives(var, r),
        ),
        Cond::Either(l, r) => {
            if has_key(var, l) && has_key(var, r) {
                at_most(
                    MOST_ALTERNATIVES + 1,
                    alternatives(var, l) + alternatives(var, r),
                )
            } else {
                1
            }
        }
        _ => 1,
    }
}

// Returns whether there are at most 16 alternatives.
pub(crate) fn are_few(var: Var, cond: &Cond) -> bool
    ensures { result ≡ nat_le (alternatives var (condition cond.now)) 16 }
{
    alternatives(var, cond) <= MOST_ALTERNATIVES
}

// Returns how many further nodes have room if this many have, 0 if a condition has more.
fn room_after(room: u32, cond: &Cond) -> u32
    ensures { result ≡ room - node_count (condition cond.now) }
{
    let room = room.saturating_sub(1);
    match cond {
        Cond::All(l, r) | Cond::Either(l, r) => room_after(room_after(room, l), r),
        Cond::Not(x) => room_after(room, x),
        Cond::Exists(_, _, x) => room_after(room, x),
        _ => room,
    }
}

// Returns whether a condition has at most 128 nodes.
pub(crate) fn is_small(cond: &Cond) -> bool
    ensures { result ≡ nat_le (node_count (condition cond.now)) 128 }
{
    0 < room_after(MOST_NODES + 1, cond)
}

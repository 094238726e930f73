//! The check of a limit.

ghost use Rattle.std.specs.Prelude.{◌≡◌, ◌≤◌, ◌+◌, max, OnOk};
ghost use Rattle.std.specs.Result.{result_err};
ghost use Rattle.tap_model.specs.Limits.{limit_refusal};

use script_lang::{LimitName, Refusal};

// Refuses that many more if there would be more than the limit. Adding none is never refused.
pub(crate) fn refuse_more(
    name: LimitName,
    limit: usize,
    count: usize,
    more: usize,
) -> Result<(), Refusal>
    ensures value { result_err result ≡ limit_refusal name limit count more }
    ensures room { OnOk result (count + more ≤ max count limit) }
{
    if more == 0 || (count <= limit && more <= limit - count) {
        Ok(())
    } else {
        Err(Refusal::Limit(name))
    }
}

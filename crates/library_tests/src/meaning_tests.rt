//! What a condition gives over no rows.
use snapshot_meaning::gives;
use tap_base::Memory;
use tql_core::Cond;

#[test]
fn no_rows_give_nothing(rt: HostRuntime) -> Result<(), Memory> {
    let cond = Cond::True;
    let nums = gives(rt.alloc(), &cond, &[], &[], 5);
    drop(cond);
    let nums = nums?;
    assert_eq!(rt; nums.len(), 0);
    drop(nums);
    Ok(())
}

//! Where rows in order are cut in two: what is asked for is mostly among the last.

ghost use Rattle.std.specs.Prelude.{◌≡◌, ◌≤◌, Bool, true, false, length};
ghost use Rattle.std.specs.Fn.{ComputesKey};
ghost use Rattle.std.specs.List.Sorted.{IsPartitionPoint, IsPartitionedBy};

/// Returns how many rows pass the test, of rows of which those that pass come before those that
/// don't. It looks near the end first, in steps that double, and then halves: few rows are read if
/// few don't pass, however many do.
pub(crate) fn partition_point_from_end<T, P: FnMut(&T) -> bool>(rows: &[T], mut pred: P) -> usize
    requires { P.IsAlwaysCallable pred }
    ensures bound { result ≤ length rows.now }
    ensures partitioned { (p : T → Bool) → ComputesKey P.FnMut p pred → IsPartitionedBy p rows.now
        → IsPartitionPoint (λ y. p y ≡ true) (λ y. p y ≡ false) rows.now result }
{
    let mut end = rows.len();
    let mut width = 1;
    while width < end {
        let start = end - width;
        if pred(&rows[start]) {
            return start + 1 + rows[start + 1..end].partition_point(pred);
        }
        end = start;
        width += width;
    }
    rows[..end].partition_point(pred)
}

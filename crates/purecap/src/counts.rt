//! Counts of faults.

ghost use Rattle.std.specs.Prelude.{◌≤◌};
ghost use Rattle.cap_base.specs.Outside.{Rose, count_of};

use cap_base::Failed;

/// One more fault is counted. The count stops at its last value.
pub(crate) fn raise(count: &mut u64) -> Failed
    ensures later { count_of count.old ≤ count_of count.new }
    ensures rose { Rose (count_of count.old) (count_of count.new) }
{
    *count = count.saturating_add(1);
    Failed
}

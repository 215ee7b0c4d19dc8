//! Where an end stands among intervals in the order of their starts.

ghost use Rattle.std.specs.Prelude.{◌<◌, ◌≤◌, length};
ghost use Rattle.std.specs.List.{AllWithin};
ghost use Rattle.std.specs.List.Sorted.{IsNonDecreasingBy};
ghost use Rattle.cap_intervals.specs.declared.interval.Interval.{Interval};

use crate::interval::Interval;

/// How many intervals start before an end.
pub(crate) fn count_before(xs: &[Interval], end: u64) -> usize
    requires { IsNonDecreasingBy (λ (y : Interval). y.start) xs.now }
    ensures bound { result ≤ length xs.now }
    ensures below { AllWithin (λ y. y.start < end) xs.now 0 result }
    ensures above { AllWithin (λ y. end ≤ y.start) xs.now result (length xs.now) }
{
    xs.partition_point(|y| y.start < end)
}

//! Taken intervals that came in ascending order.

ghost use Rattle.std.specs.Prelude.{◌≡◌, ◌<◌, ◌≤◌, All, length, false, nat_le, Bool, OnOk, ◌||◌};
ghost use Rattle.std.specs.List.{list_any, AllPairs};

use crate::interval::Interval;
use crate::search::count_before;
use std::alloc::{AllocError, Global};

/// Taken intervals that have a number, each at or behind the end of the one before it.
#[derive(Drop)]
pub(crate) struct Ascending {
    pub(crate) items: Vec<Interval>,
    // No end is above it.
    pub(crate) top: u64,
    ghost solid: { All (λ y. y.start < y.end) items.items },
    ghost apart: { AllPairs (λ y z. y.end ≤ z.start) items.items },
    ghost below: { All (λ y. y.end ≤ top) items.items },
}

impl Ascending {
    ghost use Rattle.cap_intervals.specs.Clash.{clash};

    pub(crate) fn new(alloc: Global) -> Ascending
        ensures { (b : Bool) (q : Interval) → list_any (clash b q) result.items.items ≡ false }
    {
        Ascending {
            items: Vec::new(alloc),
            top: 0,
        }
    }

    /// Whether an interval stands at or behind the end of each.
    pub(crate) fn is_next(&self, x: Interval) -> bool
        ensures { result ≡ nat_le self.now.top x.start }
    {
        self.top <= x.start
    }

    /// Whether an interval clashes with a taken one.
    pub(crate) fn clashes(&self, aliases: bool, x: Interval) -> bool
        ensures { result ≡ list_any (clash aliases x) self.now.items.items }
    {
        if self.top <= x.start || x.end <= x.start {
            return false;
        }
        let count = count_before(&self.items, x.end);
        if count == 0 {
            return false;
        }
        x.clashes(aliases, self.items[count - 1])
    }

    /// Takes the next interval.
    pub(crate) fn push(&mut self, x: Interval) -> Result<(), AllocError>
        requires solid { x.start < x.end }
        requires next { self.old.top ≤ x.start }
        ensures { OnOk result ((b : Bool) (q : Interval) → list_any (clash b q) self.new.items.items ≡ (clash b q x || list_any (clash b q) self.old.items.items)) }
    {
        self.top = x.end;
        self.items.push(x)?;
        Ok(())
    }
}

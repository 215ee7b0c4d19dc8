//! Taken intervals that came in any order, none of which shares a number with another.

ghost use Rattle.std.specs.Prelude.{◌≡◌, ℕ, ◌<◌, ◌≤◌, Some, All, false, Bool, OnOk, ◌||◌};
ghost use Rattle.std.specs.Ordering.{nat_cmp};
ghost use Rattle.std.specs.BTreeMap.{get};
ghost use Rattle.std.specs.Map.{values_of};

use crate::interval::Interval;
use std::alloc::{AllocError, Global};
use std::collections::BTreeMap;

/// Taken intervals that have a number: from start to end.
#[derive(Drop)]
pub(crate) struct Scattered {
    pub(crate) ends: BTreeMap<u64, u64>,
    // No end is above it.
    pub(crate) top: u64,
    ghost solid: { (a e : ℕ) → get nat_cmp ends a ≡ Some e → a < e },
    ghost apart: { (a e b f : ℕ) → get nat_cmp ends a ≡ Some e → get nat_cmp ends b ≡ Some f → a < b → e ≤ b },
    ghost below: { All (λ e. e ≤ top) (values_of ends.entries) },
}

impl Scattered {
    ghost use Rattle.cap_intervals.specs.Clash.{clash};
    ghost use Rattle.cap_intervals.specs.Entries.{any_clashes};

    pub(crate) fn new(alloc: Global) -> Scattered
        ensures { (b : Bool) (q : Interval) → any_clashes b q result.ends.entries ≡ false }
    {
        Scattered {
            ends: BTreeMap::new(alloc),
            top: 0,
        }
    }

    /// Whether an interval clashes with a taken one.
    pub(crate) fn clashes(&self, aliases: bool, x: Interval) -> bool
        ensures { result ≡ any_clashes aliases x self.now.ends.entries }
    {
        if self.top <= x.start || x.end <= x.start {
            return false;
        }
        match self.ends.range(..x.end).next_back() {
            Some((start, end)) => x.clashes(
                aliases,
                Interval {
                    start: *start,
                    end: *end,
                },
            ),
            None => false,
        }
    }

    /// Takes an interval that clashes with none.
    pub(crate) fn add(&mut self, aliases: bool, x: Interval) -> Result<(), AllocError>
        requires solid { x.start < x.end }
        requires free { any_clashes aliases x self.old.ends.entries ≡ false }
        ensures { OnOk result ((b : Bool) (q : Interval) → any_clashes b q self.new.ends.entries ≡ (clash b q x || any_clashes b q self.old.ends.entries)) }
    {
        self.top = self.top.max(x.end);
        self.ends.insert(x.start, x.end)?;
        Ok(())
    }
}

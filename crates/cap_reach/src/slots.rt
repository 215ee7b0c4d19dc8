//! The granules that are reached.

use std::marker::Model;

/// Granules in ascending order, each by its address.
#[derive(Debug, Drop)]
pub struct Slots {
    granules: Vec<u64>,
}

impl Model for Slots {
    ghost use Rattle.std.specs.Prelude.{List, ℕ};
    ghost use Rattle.std.specs.List.Sorted.{IsStrictlyIncreasing};

    ghost Value = { List ℕ };

    ghost view = { λ slots. slots.granules.items };

    ghost invariant = { λ slots. IsStrictlyIncreasing slots.granules.items };
}

impl Slots {
    ghost use Rattle.std.specs.Prelude.{◌≡◌, ◌<◌, length, slice_index, ◌==◌};
    ghost use Rattle.std.specs.List.Sorted.{IsStrictlyIncreasing};

    /// These granules.
    pub(crate) fn of(granules: Vec<u64>) -> Slots
        requires { IsStrictlyIncreasing granules.items }
        ensures { result ≡ granules.items }
    {
        Slots { granules }
    }

    /// How many there are.
    pub fn len(&self) -> usize
        ensures { result ≡ length self.now }
    {
        self.granules.len()
    }

    /// Whether there are none.
    pub fn is_empty(&self) -> bool
        ensures { result ≡ (length self.now == 0) }
    {
        self.granules.is_empty()
    }

    /// The address of granule `i`.
    pub fn get(&self, i: usize) -> u64
        requires { i < length self.now }
        ensures { result ≡ slice_index self.now i }
    {
        self.granules[i]
    }

    /// All of them.
    pub fn as_slice(&self) -> &[u64]
        ensures value { result.now ≡ self.now }
        ensures ascending { IsStrictlyIncreasing self.now }
    {
        &self.granules
    }
}

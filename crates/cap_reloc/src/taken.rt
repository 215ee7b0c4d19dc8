// The slots that were taken so far, of which no two share a byte.
ghost use Rattle.std.specs.Prelude.{◌≡◌, ℕ, ◌+◌, ◌<◌, ◌≤◌, ◌^◌, Some, false, OnOk, ◌||◌};
ghost use Rattle.std.specs.Ordering.{nat_cmp};
ghost use Rattle.std.specs.BTreeMap.{get};
ghost use Rattle.cap_base.specs.Lists.{share_byte as share_byte_of};

use std::alloc::{AllocError, Global};
use std::collections::BTreeMap;

/// Whether two slots, each a place and a length, share a byte.
fn share_byte(at: u64, len: u64, start: u64, n: u64) -> bool
    requires { at + len < 2 ^ 64 }
    ensures { result ≡ share_byte_of (at, len) (start, n) }
{
    at.max(start) < (at + len).min(start.saturating_add(n))
}

/// Taken slots that have a byte, from their places to their lengths.
#[derive(Drop)]
pub(crate) struct Taken {
    pub(crate) lens: BTreeMap<u64, u64>,
    ghost solid: { (a n : ℕ) → get nat_cmp lens a ≡ Some n → 0 < n },
    ghost apart: { (a n b m : ℕ) → get nat_cmp lens a ≡ Some n → get nat_cmp lens b ≡ Some m → a < b → a + n ≤ b },
}

impl Taken {
    ghost use Rattle.cap_reloc.specs.Taken.{is_touched as touches};

    /// None is taken.
    pub(crate) fn new(alloc: Global) -> Taken
        ensures { (q : ℕ × ℕ) → touches result q ≡ false }
    {
        Taken {
            lens: BTreeMap::new(alloc),
        }
    }

    /// Whether the `len` bytes from a place on share one with a taken slot. The last slot that begins before their end
    /// decides.
    pub(crate) fn is_touched(&self, at: u64, len: u64) -> bool
        requires { at + len < 2 ^ 64 }
        ensures { result ≡ touches self.now (at, len) }
    {
        if len == 0 {
            return false;
        }
        match self.lens.range(..at + len).next_back() {
            Some((start, n)) => share_byte(at, len, *start, *n),
            None => false,
        }
    }

    /// Takes a slot that shares no byte with a taken one.
    pub(crate) fn add(&mut self, at: u64, len: u64) -> Result<(), AllocError>
        requires { touches self.old (at, len) ≡ false }
        ensures { OnOk result ((q : ℕ × ℕ) → touches self.new q ≡ (share_byte_of q (at, len) || touches self.old q)) }
    {
        if len > 0 {
            self.lens.insert(at, len)?;
        }
        Ok(())
    }
}

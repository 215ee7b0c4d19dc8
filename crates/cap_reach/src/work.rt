//! The places that were found so far, and the next that was not.

ghost use Rattle.std.specs.Prelude.{◌≡◌, ℕ, ◌+◌, ◌^◌, ◌<◌, ◌≤◌, [], ◌∷◌, ◌++◌, length, IfOk, OnOk, ◌↔◌, Contains, IsTrue, slice_index};
ghost use Rattle.std.specs.List.Sorted.{IsStrictlyIncreasing};
ghost use Rattle.cap_reach.specs.Jumps.{AreJumps, TakesSame, IsFirstFree};
ghost use Rattle.cap_reach.specs.Work.{IsWork, Grows};

use std::alloc::{AllocError, Global};

/// The bytes of a granule: it holds one word.
const GRANULE: u128 = 16;

/// The places of a list that were found, in the order in which they were.
#[derive(Drop)]
pub(crate) struct Work {
    /// 0 at a place that wasn't found; else a later place, up to which all were.
    pub(crate) next: Vec<u32>,
    pub(crate) found: Vec<u32>,
}

/// The first place from here on that isn't taken, or the end. Each second place that it passes then leads twice as far.
fn first_free(next: &mut Vec<u32>, from: usize) -> usize
    requires jumps { AreJumps next.old.items }
    requires within { from ≤ length next.old.items }
    ensures jumps { AreJumps next.new.items }
    ensures same { TakesSame next.old.items next.new.items }
    ensures first { IsFirstFree next.new.items from result }
{
    let mut at = from;
    'hops: while at < next.len() {
        let hop = next[at] as usize;
        if hop == 0 {
            return at;
        }
        if hop == next.len() {
            return hop;
        }
        let far = next[hop];
        if far == 0 {
            return hop;
        }
        next[at] = far;
        at = far as usize;
    }
    at
}

/// Nothing found, of so many places.
pub(crate) fn no_work(alloc: Global, size: usize) -> Result<Work, AllocError>
    requires { size < 2 ^ 32 }
    ensures work { IfOk result (λ w. IsWork w.next.items w.found.items) }
    ensures none { IfOk result (λ w. w.found.items ≡ []) }
    ensures size { IfOk result (λ w. length w.next.items ≡ size) }
{
    Ok(Work {
        next: vec![in alloc; 0u32; size]?,
        found: Vec::new(alloc),
    })
}

/// Finds one place that wasn't found.
pub(crate) fn find_one(work: &mut Work, at: usize) -> Result<(), AllocError>
    requires work { IsWork work.old.next.items work.old.found.items }
    requires within { at < length work.old.next.items }
    requires free { slice_index work.old.next.items at ≡ 0 }
    ensures work { IsWork work.new.next.items work.new.found.items }
    ensures size { length work.new.next.items ≡ length work.old.next.items }
    ensures found { OnOk result (work.new.found.items ≡ work.old.found.items ++ at ∷ []) }
{
    let place = at as u32;
    work.found.push(place)?;
    work.next[at] = place + 1;
    Ok(())
}

/// Whether the granule at a place ends at or below an address.
fn ends_within(granules: &[u64], at: usize, top: u128) -> bool
    ensures { IsTrue result ↔ ((at < length granules.now) × (slice_index granules.now at + 16 ≤ top)) }
{
    at < granules.len() && u128::from(granules[at]) + GRANULE <= top
}

/// Finds all places from `low` on whose granules end at or below an address.
pub(crate) fn find_within(
    granules: &[u64],
    low: usize,
    top: u128,
    work: &mut Work,
) -> Result<(), AllocError>
    requires ascending { IsStrictlyIncreasing granules.now }
    requires work { IsWork work.old.next.items work.old.found.items }
    requires size { length work.old.next.items ≡ length granules.now }
    requires low { low ≤ length granules.now }
    ensures work { OnOk result (IsWork work.new.next.items work.new.found.items) }
    ensures size { length work.new.next.items ≡ length work.old.next.items }
    ensures found { OnOk result (Grows (λ k. (low ≤ k) × (slice_index granules.now k + 16 ≤ top)) (length granules.now) work.old.found.items work.new.found.items) }
{
    let mut at = first_free(&mut work.next, low);
    'span: while ends_within(granules, at, top) {
        find_one(work, at)?;
        at = first_free(&mut work.next, at + 1);
    }
    Ok(())
}

/// The places found, in ascending order.
pub(crate) fn ascending(alloc: Global, next: &Vec<u32>) -> Result<Vec<u32>, AllocError>
    requires { length next.now.items < 2 ^ 32 }
    ensures ascending { IfOk result (λ xs. IsStrictlyIncreasing xs.items) }
    ensures each { IfOk result (λ xs. (k : ℕ) → Contains xs.items k ↔ (0 < slice_index next.now.items k)) }
{
    let mut found = Vec::new(alloc);
    for i in 0..next.len() {
        if next[i] != 0 {
            found.push(i as u32)?;
        }
    }
    Ok(found)
}

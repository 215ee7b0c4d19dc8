//! From addresses to places in the list of granules, and back.

ghost use Rattle.std.specs.Prelude.{◌≡◌, ◌↔◌, ◌<◌, All, Contains, IfOk, IsTrue, MatchOption, length, map, slice_index};
ghost use Rattle.std.specs.List.Sorted.{IsStrictlyIncreasing};

use cap_base::NoMemory;
use cap_image::granules_below;
use std::alloc::Global;

/// Whether a granule stands at a place.
fn is_at(granules: &[u64], i: usize, slot: u64) -> bool
    ensures { IsTrue result ↔ ((i < length granules.now) × (slice_index granules.now i ≡ slot)) }
{
    i < granules.len() && granules[i] == slot
}

/// The place of a granule, if it is one of these.
pub(crate) fn place_of(granules: &[u64], slot: u64) -> Option<usize>
    requires { IsStrictlyIncreasing granules.now }
    ensures { MatchOption result (Contains granules.now slot → ⊥) (λ i. (i < length granules.now) × (slice_index granules.now i ≡ slot)) }
{
    let i = granules_below(granules, slot);
    if is_at(granules, i, slot) {
        Some(i)
    } else {
        None
    }
}

/// The granules at these places.
#[tactic(auto, using(std::proofs::lemmas::List::map_more))]
pub(crate) fn granules_at(
    alloc: Global,
    granules: &[u64],
    places: &[u32],
) -> Result<Vec<u64>, NoMemory>
    requires { All (λ place. place < length granules.now) places.now }
    ensures { IfOk result (λ slots. slots.items ≡ map (slice_index granules.now) places.now) }
{
    let mut slots = Vec::with_capacity(alloc, places.len())?;
    for place in places {
        slots.push(granules[*place as usize])?;
    }
    Ok(slots)
}

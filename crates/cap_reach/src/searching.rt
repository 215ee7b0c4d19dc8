//! All places that are reached from one.

ghost use Rattle.std.specs.Prelude.{◌≡◌, ◌^◌, ◌<◌, All, IfOk, length};
ghost use Rattle.std.specs.List.Sorted.{IsStrictlyIncreasing};
ghost use Rattle.cap_reach.specs.Places.{AreReachedAt};

use crate::loading::follow;
use crate::work::{ascending, find_one, no_work};
use cap_base::NoMemory;
use cap_conc::Word;
use std::alloc::Global;

/// The places of all granules that are reached from the one at `start`, in ascending order: `words` has the word of
/// each.
pub(crate) fn places_reached(
    alloc: Global,
    granules: &[u64],
    words: &[Word],
    start: usize,
) -> Result<Vec<u32>, NoMemory>
    requires ascending { IsStrictlyIncreasing granules.now }
    requires few { length granules.now < 2 ^ 32 }
    requires as_many { length words.now ≡ length granules.now }
    requires start { start < length granules.now }
    ensures reached { IfOk result (λ places. AreReachedAt granules.now words.now start places.items) }
    ensures inside { IfOk result (λ places. All (λ place. place < length granules.now) places.items) }
{
    let mut work = no_work(alloc, granules.len())?;
    find_one(&mut work, start)?;
    let mut at = 0;
    'all: while at < work.found.len() {
        let place = work.found[at];
        follow(granules, words, place as usize, &mut work)?;
        at += 1;
    }
    Ok(ascending(alloc, &work.next)?)
}

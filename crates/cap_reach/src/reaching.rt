//! All that is reached from one tagged word of an image.

ghost use Rattle.std.specs.Prelude.{◌≡◌, ◌<◌, ◌^◌, IfOk, length, slice_index};
ghost use Rattle.std.specs.List.Sorted.{IsStrictlyIncreasing};
ghost use Rattle.cap_reach.specs.Reach.{IsReach, words_of};
ghost use Rattle.cap_reach.specs.Computed.{reach_of};
ghost use Rattle.cap_reach.specs.Collecting.{placed};
ghost use Rattle.cap_reach.specs.Ending.{AreTagged, Reaches};

use crate::places::{granules_at, place_of};
use crate::searching::places_reached;
use crate::slots::Slots;
use crate::words::tagged_words;
use cap_base::NoMemory;
use cap_conc::Word;
use cap_image::{Image, granule_laws};
use std::alloc::Global;

/// Why nothing is reached.
#[derive(Clone, Copy, Debug, PartialEq, Eq)]
pub enum ReachRefusal {
    /// The slot is no multiple of 16, or its granule isn't tagged.
    NotTagged { slot: u64 },
    /// There was not enough memory.
    NoMemory,
}

impl From<NoMemory> for ReachRefusal {
    ghost use Rattle.std.specs.Prelude.{◌≡◌};
    ghost use Rattle.cap_reach.specs.declared.reaching.ReachRefusal.TheVariants as refusals;

    ghost from_gives = { λ _ refusal. refusal ≡ refusals.NoMemory };

    fn from(_: NoMemory) -> ReachRefusal {
        ReachRefusal::NoMemory
    }
}

/// All that is reached from the granule at place `start` of these.
fn slots_reached(
    alloc: Global,
    granules: &[u64],
    words: &[Word],
    start: usize,
) -> Result<Slots, NoMemory>
    requires ascending { IsStrictlyIncreasing granules.now }
    requires few { length granules.now < 2 ^ 32 }
    requires as_many { length words.now ≡ length granules.now }
    requires start { start < length granules.now }
    ensures { IfOk result (IsReach (placed granules.now words.now) (slice_index granules.now start)) }
{
    let places = places_reached(alloc, granules, words, start)?;
    Ok(Slots::of(granules_at(alloc, granules, &places)?))
}

/// The granules of all tagged words that can be loaded, step by step, from the word at `slot`, and `slot` itself, in
/// ascending order. `NoMemory` may come in place of any answer.
pub fn reach(alloc: Global, image: &Image, slot: u64) -> Result<Slots, ReachRefusal>
    ensures reach { Reaches image.now slot result }
    ensures value { IfOk result (λ slots. slots ≡ reach_of (words_of image.now) slot) }
    ensures tagged { IfOk result (AreTagged image.now) }
{
    granule_laws();
    let all = tagged_words(alloc, image)?;
    match place_of(&all.granules, slot) {
        Some(start) => Ok(slots_reached(alloc, &all.granules, &all.words, start)?),
        None => Err(ReachRefusal::NotTagged { slot }),
    }
}

//! The tagged granules of an image.

ghost use Rattle.std.specs.Prelude.{◌≡◌, ◌↔◌, ℕ, ◌+◌, ◌-◌, ◌<◌, ◌≤◌, All, IfOk, length, slice_index, slice_index_or};
ghost use Rattle.std.specs.List.Sorted.{IsStrictlyIncreasing};
ghost use Rattle.cap_image.specs.Parts.{no_object, tagged_granules};
ghost use Rattle.cap_image.specs.Report.{word_count, word_in as word_in_of, IsGranuleOf};
ghost use Rattle.cap_image.specs.GranuleLaws.{GranulesAscend, GranulesAreFew, GranulesAreTagged, GranulesHaveObjects, HeldHaveObjects};

use crate::image::Image;
use crate::tags::{count_tags, tagged};
use cap_base::{NoMemory, u64_in};
use cap_conc::Word;
use std::alloc::Global;

/// The tagged granules of object `i`, in ascending order.
#[tactic(auto, using(crate::proofs::TagLemmas::bytes_tagged, crate::proofs::TagLemmas::granules_tagged))]
pub fn tagged_in(alloc: Global, image: &Image, i: u32) -> Result<Vec<u64>, NoMemory>
    requires { i < length image.now.objects }
    ensures value { IfOk result (λ granules. granules.items ≡ tagged_granules (slice_index_or image.now.objects i no_object)) }
    ensures inside { IfOk result (λ granules. All (IsGranuleOf (slice_index_or image.now.objects i no_object)) granules.items) }
{
    tagged(alloc, image.base(i), image.tags(i))
}

/// How many granules of an image are tagged.
#[tactic(auto, using(crate::proofs::Tallies::tally_more, crate::proofs::Tallies::tally_few))]
pub fn count_tagged(image: &Image) -> usize
    ensures { result ≡ word_count image.now }
{
    let mut count = 0;
    for i in 0..image.len() {
        count += count_tags(image.tags(i));
    }
    count
}

/// The word of a granule of object `i`.
pub fn word_at(image: &Image, i: u32, granule: u64) -> Word
    requires object { i < length image.now.objects }
    requires granule { IsGranuleOf (slice_index_or image.now.objects i no_object) granule }
    ensures { result ≡ word_in_of (slice_index_or image.now.objects i no_object).bytes (granule - (slice_index_or image.now.objects i no_object).base) }
{
    word_in(image.bytes(i), (granule - image.base(i)) as usize)
}

fn word_in(bytes: &[u8], at: usize) -> Word
    requires { at + 16 ≤ length bytes.now }
    ensures { result ≡ word_in_of bytes.now at }
{
    Word {
        address: u64_in(bytes, at),
        meta: u64_in(bytes, at + 8),
    }
}

/// How many of ascending granules are below an address: so the others are those from that place on.
pub fn granules_below(granules: &[u64], address: u64) -> usize
    requires { IsStrictlyIncreasing granules.now }
    ensures within { result ≤ length granules.now }
    ensures each { (k : ℕ) → k < length granules.now → (address ≤ slice_index granules.now k) ↔ (result ≤ k) }
{
    granules.partition_point(|granule| *granule < address)
}

/// States what the list of all tagged granules of an image has. It computes nothing.
pub fn granule_laws()
    ensures ascend { GranulesAscend }
    ensures few { GranulesAreFew }
    ensures tagged { GranulesAreTagged }
    ensures objects { GranulesHaveObjects }
    ensures held { HeldHaveObjects }
{}

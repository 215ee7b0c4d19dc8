//! The tags of an object.

ghost use Rattle.std.specs.Prelude.{◌≡◌, ◌+◌, ◌*◌, ◌/◌, ◌<◌, ◌≤◌, ◌^◌, All, OnOk, IfOk, length};
ghost use Rattle.cap_image.specs.Parts.{has_tag as has_tag_of, tagged_below};
ghost use Rattle.cap_image.specs.Words.{tag_count};
ghost use Rattle.cap_image.specs.Report.{IsGranule};

use cap_base::NoMemory;
use std::alloc::Global;

/// Whether the granule is tagged that holds the byte at an offset of the object.
pub fn has_tag(tags: &[u8], offset: u64) -> bool
    requires { offset / 128 < length tags.now }
    ensures { result ≡ has_tag_of tags.now offset }
{
    let byte = tags[(offset / 128) as usize];
    (byte >> (offset / 16 % 8)) & 1 == 1
}

/// How many granules are tagged.
pub(crate) fn count_tags(tags: &[u8]) -> usize
    requires { length tags.now < 2 ^ 32 }
    ensures { result ≡ tag_count tags.now }
{
    let mut count = 0;
    for byte in tags {
        count += byte.count_ones() as usize;
    }
    count
}

/// The tagged granules of an object that is mapped from a base on.
#[tactic(auto, using(crate::proofs::TagLemmas::tagged_none, crate::proofs::TagLemmas::tagged_skip))]
pub(crate) fn tagged(alloc: Global, base: u64, tags: &[u8]) -> Result<Vec<u64>, NoMemory>
    requires { base + 128 * length tags.now < 2 ^ 64 }
    ensures value { IfOk result (λ granules. granules.items ≡ tagged_below base tags.now (8 * length tags.now)) }
    ensures inside { IfOk result (λ granules. All (IsGranule base (128 * length tags.now)) granules.items) }
{
    let mut granules = Vec::new(alloc);
    for j in 0..tags.len() {
        if tags[j] != 0 {
            push_eight(&mut granules, base, tags, j)?;
        }
    }
    Ok(granules)
}

/// Appends the granules that are tagged by the tag byte of this number.
fn push_eight(granules: &mut Vec<u64>, base: u64, tags: &[u8], j: usize) -> Result<(), NoMemory>
    requires j { j < length tags.now }
    requires base { base + 128 * length tags.now < 2 ^ 64 }
    requires value { granules.old.items ≡ tagged_below base tags.now (8 * j) }
    requires inside { All (IsGranule base (128 * length tags.now)) granules.old.items }
    ensures value { OnOk result (granules.new.items ≡ tagged_below base tags.now (8 * j + 8)) }
    ensures inside { OnOk result (All (IsGranule base (128 * length tags.now)) granules.new.items) }
{
    for n in 8 * j..8 * j + 8 {
        push_granule(granules, base, tags, n)?;
    }
    Ok(())
}

/// Appends the granule of this number, where it is tagged.
#[tactic(auto, using(crate::proofs::TagLemmas::tagged_more, crate::proofs::TagLemmas::tagged_less))]
fn push_granule(granules: &mut Vec<u64>, base: u64, tags: &[u8], n: usize) -> Result<(), NoMemory>
    requires n { n < 8 * length tags.now }
    requires base { base + 128 * length tags.now < 2 ^ 64 }
    requires value { granules.old.items ≡ tagged_below base tags.now n }
    requires inside { All (IsGranule base (128 * length tags.now)) granules.old.items }
    ensures value { OnOk result (granules.new.items ≡ tagged_below base tags.now (n + 1)) }
    ensures inside { OnOk result (All (IsGranule base (128 * length tags.now)) granules.new.items) }
{
    let offset = 16 * n as u64;
    if has_tag(tags, offset) {
        granules.push(base + offset)?;
    }
    Ok(())
}

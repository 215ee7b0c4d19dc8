//! The lines of some granules of an image.
//!
//! Granules ascend as objects do, so those of an object stand together: its table of word records is made once.

ghost use Rattle.std.specs.Prelude.{◌≡◌, ◌++◌, ◌<◌, true, All, OnOk, length, slice_index_or};
ghost use Rattle.std.specs.List.Sorted.{IsStrictlyIncreasing};
ghost use Rattle.cap_image.specs.Parts.{no_object, IsImage};
ghost use Rattle.cap_image.specs.Report.{IsGranuleOf};
ghost use Rattle.cap_image.specs.Granules.{is_tagged_at, word_lines};

use crate::entries::entries_of;
use crate::granules::granules_below;
use crate::image::Image;
use crate::reporting::push_lines;
use cap_base::NoMemory;
use std::alloc::Global;

/// Appends the lines of granules of object `i`.
#[tactic(auto, using(crate::proofs::Runs::lines_in))]
fn push_object_words(
    alloc: Global,
    text: &mut Vec<u8>,
    image: &Image,
    i: u32,
    granules: &[u64],
) -> Result<(), NoMemory>
    requires sound { IsImage image.now }
    requires object { i < length image.now.objects }
    requires inside { All (IsGranuleOf (slice_index_or image.now.objects i no_object)) granules.now }
    ensures { OnOk result (text.new.items ≡ text.old.items ++ word_lines image.now granules.now) }
{
    let entries = entries_of(alloc, image, i)?;
    push_lines(text, image, i, &entries, granules)
}

/// Appends the lines of tagged granules of an image, which ascend, as its report has them.
pub fn push_word_lines(
    alloc: Global,
    text: &mut Vec<u8>,
    image: &Image,
    granules: &[u64],
) -> Result<(), NoMemory>
    requires ascending { IsStrictlyIncreasing granules.now }
    requires tagged { All (λ granule. is_tagged_at image.now granule ≡ true) granules.now }
    ensures { OnOk result (text.new.items ≡ text.old.items ++ word_lines image.now granules.now) }
{
    let mut at = 0;
    for i in 0..image.len() {
        let to = granules_below(granules, image.base(i) + image.size(i));
        push_object_words(alloc, text, image, i, &granules[at..to])?;
        at = to;
    }
    Ok(())
}

//! The tagged words of an image.

ghost use Rattle.std.specs.Prelude.{◌≡◌, ◌++◌, ◌<◌, All, IfOk, OnOk, map, length, slice_index_or};
ghost use Rattle.cap_image.specs.Parts.{no_object, tagged_granules, IsImage};
ghost use Rattle.cap_image.specs.Report.{IsGranuleOf};
ghost use Rattle.cap_image.specs.Granules.{tagged_of};
ghost use Rattle.cap_reach.specs.Collecting.{word_in_object, raw_words_in, raw_words_of};

use cap_base::NoMemory;
use cap_conc::Word;
use cap_image::{Image, tagged_in, word_at};
use std::alloc::Global;

/// The granules of tagged words, and the word of each.
#[derive(Drop)]
pub(crate) struct TaggedWords {
    pub(crate) granules: Vec<u64>,
    pub(crate) words: Vec<Word>,
}

impl TaggedWords {
    /// Appends the words of granules of object `i`.
    #[tactic(auto, using(std::proofs::lemmas::List::map_more))]
    fn push_words(&mut self, image: &Image, i: u32, granules: &[u64]) -> Result<(), NoMemory>
        requires object { i < length image.now.objects }
        requires inside { All (IsGranuleOf (slice_index_or image.now.objects i no_object)) granules.now }
        ensures granules { OnOk result (self.new.granules.items ≡ self.old.granules.items ++ granules.now) }
        ensures words { OnOk result (self.new.words.items ≡ self.old.words.items ++ map (word_in_object (slice_index_or image.now.objects i no_object)) granules.now) }
    {
        for granule in granules {
            self.words.push(word_at(image, i, *granule))?;
        }
        self.granules.extend_from_slice(granules)?;
        Ok(())
    }

    /// Appends the tagged words of object `i`.
    fn push_object(&mut self, alloc: Global, image: &Image, i: u32) -> Result<(), NoMemory>
        requires { i < length image.now.objects }
        ensures granules { OnOk result (self.new.granules.items ≡ self.old.granules.items ++ tagged_granules (slice_index_or image.now.objects i no_object)) }
        ensures words { OnOk result (self.new.words.items ≡ self.old.words.items ++ raw_words_in (slice_index_or image.now.objects i no_object)) }
    {
        let granules = tagged_in(alloc, image, i)?;
        self.push_words(image, i, &granules)
    }
}

/// The tagged words of an image, in ascending order.
#[tactic(auto, using(cap_image::proofs::Growing::flat_map_more))]
pub(crate) fn tagged_words(alloc: Global, image: &Image) -> Result<TaggedWords, NoMemory>
    ensures granules { IfOk result (λ all. all.granules.items ≡ tagged_of image.now) }
    ensures words { IfOk result (λ all. all.words.items ≡ raw_words_of image.now) }
    ensures sound { IsImage image.now }
{
    let mut all = TaggedWords {
        granules: Vec::new(alloc),
        words: Vec::new(alloc),
    };
    for i in 0..image.len() {
        all.push_object(alloc, image, i)?;
    }
    Ok(all)
}

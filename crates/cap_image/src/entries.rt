//! Which word record of an object is that of a granule.
//!
//! Word records stand in order of owners, the lines of a report in order of addresses. A table with an entry for each
//! granule leads from the one to the other.

ghost use Rattle.std.specs.Prelude.{◌≡◌, ◌+◌, ◌<◌, IfOk, length, slice_index_or};
ghost use Rattle.cap_image.specs.Parts.{no_object};
ghost use Rattle.cap_image.specs.Report.{word_of, IsGranuleOf};
ghost use Rattle.cap_image.specs.Entries.{numbered, IsNumber, AreEntries};

use crate::image::Image;
use crate::words::GRANULE;
use cap_base::NoMemory;
use std::alloc::Global;

/// The number of its word record, for each granule of object `i`.
pub fn entries_of(alloc: Global, image: &Image, i: u32) -> Result<Vec<Option<u32>>, NoMemory>
    requires { i < length image.now.objects }
    ensures { IfOk result (λ entries. AreEntries (slice_index_or image.now.objects i no_object) 0 entries.items) }
{
    let mut entries = no_entries(alloc, image, i)?;
    for k in (0..image.words_len(i)).rev() {
        enter(&mut entries, image, i, k);
    }
    Ok(entries)
}

/// No entry for any granule.
#[tactic(auto, using(crate::proofs::Entering::none_entered))]
fn no_entries(alloc: Global, image: &Image, i: u32) -> Result<Vec<Option<u32>>, NoMemory>
    requires { i < length image.now.objects }
    ensures { IfOk result (λ entries. AreEntries (slice_index_or image.now.objects i no_object) (length (slice_index_or image.now.objects i no_object).words) entries.items) }
{
    Ok(vec![in alloc; None; (image.size(i) / GRANULE) as usize]?)
}

/// Enters word record `k`, where all behind it are entered.
#[tactic(auto, using(crate::proofs::Entering::entered))]
fn enter(entries: &mut Vec<Option<u32>>, image: &Image, i: u32, k: u32)
    requires object { i < length image.now.objects }
    requires word { k < length (slice_index_or image.now.objects i no_object).words }
    requires entries { AreEntries (slice_index_or image.now.objects i no_object) (k + 1) entries.old.items }
    ensures { AreEntries (slice_index_or image.now.objects i no_object) k entries.new.items }
{
    let granule = image.word(i, k).granule;
    entries[((granule - image.base(i)) / GRANULE) as usize] = Some(k);
}

/// The number of the word record of a granule of object `i`.
#[tactic(auto, using(crate::proofs::Entering::entry))]
pub(crate) fn entry_of(entries: &[Option<u32>], image: &Image, i: u32, granule: u64) -> Option<u32>
    requires object { i < length image.now.objects }
    requires granule { IsGranuleOf (slice_index_or image.now.objects i no_object) granule }
    requires entries { AreEntries (slice_index_or image.now.objects i no_object) 0 entries.now }
    ensures value { numbered (slice_index_or image.now.objects i no_object) result ≡ word_of (slice_index_or image.now.objects i no_object) granule }
    ensures inside { IsNumber (slice_index_or image.now.objects i no_object) result }
{
    entries[((granule - image.base(i)) / GRANULE) as usize]
}

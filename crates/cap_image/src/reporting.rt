//! The report of an image.

ghost use Rattle.std.specs.Prelude.{◌≡◌, ◌++◌, ◌+◌, ◌<◌, ◌≤◌, IfOk, OnOk, All, flat_map, length, slice_index_or};
ghost use Rattle.cap_image.specs.Parts.{no_object, tagged_granules};
ghost use Rattle.cap_image.specs.Report.{cap_line, cap_lines, report_of, IsGranuleOf};
ghost use Rattle.cap_image.specs.Entries.{AreEntries};

use crate::entries::entries_of;
use crate::granules::tagged_in;
use crate::image::Image;
use crate::lines::{push_cap_line, push_last_line, push_object_line};
use cap_base::NoMemory;
use std::alloc::Global;

/// The report of an image: a line for each object, a line for each tagged granule in ascending order of addresses, and
/// a last line with the numbers of both.
#[tactic(auto, unfolding(crate::specs::Report::report_of), using(crate::proofs::Growing::flat_map_more))]
pub fn report(alloc: Global, image: &Image) -> Result<Vec<u8>, NoMemory>
    ensures { IfOk result (λ text. text.items ≡ report_of image.now) }
{
    let mut text = Vec::new(alloc);
    for i in 0..image.len() {
        push_object_line(&mut text, image, i)?;
    }
    let mut words = 0;
    for i in 0..image.len() {
        words += push_cap_lines(alloc, &mut text, image, i)?;
    }
    push_last_line(&mut text, image.len(), words)?;
    Ok(text)
}

/// Appends the lines of the tagged granules of object `i`: how many they are.
fn push_cap_lines(
    alloc: Global,
    text: &mut Vec<u8>,
    image: &Image,
    i: u32,
) -> Result<usize, NoMemory>
    requires { i < length image.now.objects }
    ensures lines { IfOk result (λ _. text.new.items ≡ text.old.items ++ cap_lines (slice_index_or image.now.objects i no_object)) }
    ensures count { IfOk result (λ n. n ≡ length (tagged_granules (slice_index_or image.now.objects i no_object))) }
    ensures longer { IfOk result (λ n. length text.old.items + n ≤ length text.new.items) }
{
    let granules = tagged_in(alloc, image, i)?;
    let entries = entries_of(alloc, image, i)?;
    push_lines(text, image, i, &entries, &granules)?;
    Ok(granules.len())
}

/// Appends the lines of granules of object `i`.
#[tactic(auto, using(crate::proofs::Growing::flat_map_more))]
pub(crate) fn push_lines(
    text: &mut Vec<u8>,
    image: &Image,
    i: u32,
    entries: &[Option<u32>],
    granules: &[u64],
) -> Result<(), NoMemory>
    requires object { i < length image.now.objects }
    requires entries { AreEntries (slice_index_or image.now.objects i no_object) 0 entries.now }
    requires inside { All (IsGranuleOf (slice_index_or image.now.objects i no_object)) granules.now }
    ensures lines { OnOk result (text.new.items ≡ text.old.items ++ flat_map (cap_line (slice_index_or image.now.objects i no_object)) granules.now) }
    ensures longer { OnOk result (length text.old.items + length granules.now ≤ length text.new.items) }
{
    for granule in granules {
        push_cap_line(text, image, i, entries, *granule)?;
    }
    Ok(())
}

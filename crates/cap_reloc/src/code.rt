// The range of addresses that a capability to code of an object covers.
ghost use Rattle.std.specs.Prelude.{◌≡◌, ◌<◌, ◌≤◌, ◌^◌, [], ◌∷◌, map, All, IfOk, IfErr};
ghost use Rattle.cap_elf.specs.IsRead.{IsRead};
ghost use Rattle.cap_reloc.specs.declared.refusal.RelocRefusal.TheVariants.{NoMemory};
ghost use Rattle.cap_elf.specs.Ends.{end_of, writes as writes_of};
ghost use Rattle.cap_fits.specs.Places.{code_range as code_range_of, unless_empty};
ghost use Rattle.cap_reloc.specs.Hulls.{hull_from, fixed_part};

use crate::RelocRefusal;
use cap_elf::{DynFile, Segment};
use cap_scope::Object;
use std::alloc::Global;

/// The first address, and the one behind the last.
pub(crate) type Range = (u64, u64);

/// The least range that holds both.
fn hull(range: Option<Range>, part: Range) -> Option<Range>
    ensures { result ≡ hull_from range (part ∷ []) }
{
    match range {
        Some((from, to)) => Some((from.min(part.0), to.max(part.1))),
        None => Some(part),
    }
}

/// With a segment, if it has addresses and is never written.
fn with_segment(range: Option<Range>, segment: Segment) -> Option<Range>
    requires { end_of segment ≤ 2 ^ 62 }
    ensures { result ≡ hull_from range (fixed_part segment) }
{
    if segment.flags & 2 != 2 && segment.memsz > 0 {
        hull(range, (segment.vaddr, segment.vaddr + segment.memsz))
    } else {
        range
    }
}

/// With a part, if it isn't empty.
fn with_part(range: Option<Range>, part: Option<Range>) -> Option<Range>
    ensures { result ≡ hull_from range (unless_empty part) }
{
    match part {
        Some(part) => {
            if part.0 < part.1 {
                hull(range, part)
            } else {
                range
            }
        }
        None => range,
    }
}

/// The least range that holds all that isn't written once the object is relocated.
#[tactic(auto, using(crate::proofs::Hulling::hull_more, crate::proofs::Hulling::hull_done, crate::proofs::Hulling::hull_begins))]
fn code_range(file: &DynFile) -> Option<Range>
    ensures value { result ≡ code_range_of file.now.records }
    ensures sound { IsRead file.now.records }
{
    let mut range = None;
    for segment in file.segments() {
        range = with_segment(range, *segment);
    }
    with_part(range, file.relro())
}

/// The range of code of each object, once for all references to it.
pub(crate) fn code_ranges(
    alloc: Global,
    objects: &[Object],
) -> Result<Vec<Option<Range>>, RelocRefusal>
    ensures value { IfOk result (λ ranges. ranges.items ≡ map (λ o. code_range_of o.records) objects.now) }
    ensures sound { IfOk result (λ ranges. All (λ o. IsRead o.records) objects.now) }
    ensures err { IfErr result (λ e. e ≡ NoMemory) }
{
    let mut ranges = Vec::new(alloc);
    for i in 0..objects.len() {
        ranges.push(code_range(objects[i].file()))?;
    }
    Ok(ranges)
}

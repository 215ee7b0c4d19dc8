// Where an interval of addresses stands among the segments of an object, which ascend: one of them decides.
ghost use Rattle.std.specs.Prelude.{◌≡◌, ◌+◌, ◌<◌, ◌≤◌, ◌^◌, nat_le, length, option_map, ◌&&◌, IfSome, IsTrue};
ghost use Rattle.cap_own.specs.Cap.{IsSubset};
ghost use Rattle.std.specs.List.{AllWithin};
ghost use Rattle.cap_elf.specs.Ends.{writes as writes_of, spans as spans_of};
ghost use Rattle.cap_elf.specs.IsRead.{Ascend, IsRead};
ghost use Rattle.cap_fits.specs.Places.{executes as executes_of, has_address as has_address_of, is_in_code as is_in_code_of, is_in_writable as is_in_writable_of, data_permissions as data_permissions_of, permissions_in as permissions_in_of, permissions_of_part as permissions_of, is_inside as is_inside_of, is_clear_of as is_clear};
ghost use Rattle.cap_reloc.specs.Holding.{EndsBelow, passes_in, if_passes};

use cap_base::is_inside as ends_by;
use cap_elf::{DynFile, Segment};
use cap_own::Perms;

/// How many segments begin at an address or below it.
fn count_from(segments: &[Segment], at: u64) -> usize
    requires { Ascend segments.now }
    ensures bound { result ≤ length segments.now }
    ensures below { AllWithin (λ s. s.vaddr ≤ at) segments.now 0 result }
    ensures above { AllWithin (λ s. at < s.vaddr) segments.now result (length segments.now) }
{
    segments.partition_point(
        |s: &Segment| -> bool
            ensures { result ≡ nat_le s.now.vaddr at }
        { s.vaddr <= at },
    )
}

/// The last segment that begins at an address or below it.
fn last_below(segments: &[Segment], at: u64) -> Option<Segment>
    requires { Ascend segments.now }
    ensures { EndsBelow segments.now at result }
{
    let count = count_from(segments, at);
    if count == 0 {
        return None;
    }
    Some(segments[count - 1])
}

/// The last segment of an object that begins at an address or below it.
fn last_in(file: &DynFile, at: u64) -> Option<Segment>
    ensures last { EndsBelow file.now.records.segments at result }
    ensures sound { IsRead file.now.records }
{
    last_below(file.segments(), at)
}

/// Whether its bytes can be executed (PF_X).
fn executes(segment: Segment) -> bool
    ensures { result ≡ executes_of segment }
{
    segment.flags & 1 == 1
}

/// Whether it may be written (PF_W).
fn writes(segment: Segment) -> bool
    ensures { result ≡ writes_of segment }
{
    segment.flags & 2 == 2
}

/// Whether it has the address.
fn has_address(segment: Segment, at: u64) -> bool
    ensures { result ≡ has_address_of segment at }
{
    segment.vaddr <= at && at - segment.vaddr < segment.memsz
}

/// Whether it has all `len` addresses from one on.
fn spans(segment: Segment, at: u64, len: u64) -> bool
    ensures { result ≡ spans_of segment at len }
{
    segment.vaddr <= at && ends_by(at - segment.vaddr, len, segment.memsz)
}

/// Whether it is a segment of code that has the address.
fn is_code_at(found: Option<Segment>, at: u64) -> bool
    ensures { result ≡ passes_in (λ s. executes_of s && has_address_of s at) found }
{
    match found {
        Some(segment) => executes(segment) && has_address(segment, at),
        None => false,
    }
}

/// Whether it is a segment that may be written and has the interval.
fn is_writable_at(found: Option<Segment>, at: u64, len: u64) -> bool
    ensures { result ≡ passes_in (λ s. writes_of s && spans_of s at len) found }
{
    match found {
        Some(segment) => writes(segment) && spans(segment, at, len),
        None => false,
    }
}

/// The segment, if it has the interval.
fn if_spanning(found: Option<Segment>, at: u64, len: u64) -> Option<Segment>
    ensures { result ≡ if_passes (λ s. spans_of s at len) found }
{
    match found {
        Some(segment) => {
            if spans(segment, at, len) {
                Some(segment)
            } else {
                None
            }
        }
        None => None,
    }
}

/// Whether an address is in a segment of code.
#[tactic(auto, using(crate::proofs::Holding::code_by_last))]
pub(crate) fn is_in_code(file: &DynFile, at: u64) -> bool
    ensures value { result ≡ is_in_code_of file.now.records at }
    ensures sound { IsRead file.now.records }
{
    is_code_at(last_in(file, at), at)
}

/// Whether an interval, which isn't empty, is in one segment that may be written.
pub(crate) fn is_in_writable(file: &DynFile, at: u64, len: u64) -> bool
    requires { 0 < len }
    ensures value { result ≡ is_in_writable_of file.now.records at len }
    ensures within { IsTrue result → at + len ≤ file.now.records.span }
    ensures low { file.now.records.span ≤ 2 ^ 62 }
{
    is_writable_at(last_in(file, at), at, len)
}

/// Whether an interval begins in a range, and ends there at the latest.
fn is_inside(range: Option<(u64, u64)>, at: u64, len: u64) -> bool
    ensures { result ≡ is_inside_of range at len }
{
    match range {
        Some((from, to)) => from <= at && at < to && ends_by(at, len, to),
        None => false,
    }
}

/// Whether an interval ends before a range, or begins behind it.
fn is_clear_of(range: Option<(u64, u64)>, at: u64, len: u64) -> bool
    ensures { result ≡ is_clear range at len }
{
    match range {
        Some((from, to)) => ends_by(at, len, from) || to <= at,
        None => true,
    }
}

/// The permissions to the data of an interval of a segment.
fn permissions_in(file: &DynFile, segment: Segment, at: u64, len: u64) -> Option<Perms>
    ensures value { option_map (λ p. p.0) result ≡ permissions_in_of file.now.records at len segment }
    ensures rights { IfSome result (λ p. IsSubset p.0 0x7D) }
{
    if !writes(segment) || is_inside(file.relro(), at, len) {
        return Some(Perms::READ);
    }
    if is_clear_of(file.relro(), at, len) {
        return Some(Perms::DATA);
    }
    None
}

/// The permissions to the data of an interval that belongs to this segment, if to any.
fn permissions_of_part(file: &DynFile, part: Option<Segment>, at: u64, len: u64) -> Option<Perms>
    ensures value { option_map (λ p. p.0) result ≡ permissions_of file.now.records at len part }
    ensures rights { IfSome result (λ p. IsSubset p.0 0x7D) }
{
    match part {
        Some(segment) => permissions_in(file, segment, at, len),
        None => None,
    }
}

/// The permissions to the data of an interval. None exactly where no segment holds it, or it is neither read-only nor
/// writable.
pub(crate) fn data_permissions(file: &DynFile, at: u64, len: u64) -> Option<Perms>
    ensures value { option_map (λ p. p.0) result ≡ data_permissions_of file.now.records at len }
    ensures rights { IfSome result (λ p. IsSubset p.0 0x7D) }
    ensures within { IfSome result (λ p. at + len ≤ file.now.records.span) }
{
    let found = last_in(file, at);
    permissions_of_part(file, if_spanning(found, at, len), at, len)
}

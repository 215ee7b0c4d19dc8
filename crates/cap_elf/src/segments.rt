//! The segments that are mapped.

ghost use Rattle.std.specs.Prelude.{◌≡◌, ◌+◌, ◌≤◌, ◌^◌, [], All};
ghost use Rattle.cap_elf.specs.Ends.{highest_end, IsInFile, holds as holds_of, is_writable_at as is_writable_at_of, spans as spans_of};

use crate::decode::ProgramHeader;
use crate::program::load;
use crate::records::Segment;
use cap_base::Stop;
use std::alloc::Global;

/// The segments in order, and the highest address at which one ends.
#[derive(Drop)]
pub(crate) struct Loads {
    pub(crate) file_len: u64,
    pub(crate) segments: Vec<Segment>,
    pub(crate) end: u64,
    ghost highest: { end ≡ highest_end segments.items },
    ghost low: { end ≤ 2 ^ 62 },
    ghost in_file: { All (IsInFile file_len) segments.items },
}

impl Loads {
    ghost use Rattle.std.specs.Prelude.{IfSome};
    ghost use Rattle.cap_base.specs.Steps.{Gives};
    ghost use Rattle.cap_elf.specs.Segments.{load_step};
    ghost use Rattle.cap_elf.specs.Ends.{file_place as file_place_of, table_place as table_place_of, writable_range as writable_range_of, has_memory as has_memory_of, is_in_memory as is_in_memory_of};
    ghost use Rattle.std.specs.List.{list_any};

    pub(crate) fn new(alloc: Global, file_len: u64) -> Loads
        ensures items { result.segments.items ≡ [] }
        ensures file_len { result.file_len ≡ file_len }
    {
        Loads {
            file_len,
            segments: Vec::new(alloc),
            end: 0,
        }
    }

    /// Takes the next program header.
    #[tactic(auto, unfolding(crate::specs::Segments::load_step))]
    pub(crate) fn add(&mut self, header: &ProgramHeader) -> Result<(), Stop>
        ensures value { Gives (λ _. self.new.segments.items) result
            (load_step self.old.file_len self.old.segments.items header.now) }
        ensures file_len { self.new.file_len ≡ self.old.file_len }
    {
        if let Some(segment) = load(self.file_len, self.end, header)? {
            self.segments.push(segment)?;
            self.end = segment.vaddr + segment.memsz;
        }
        Ok(())
    }

    /// The file offset of a range of addresses, where it is in the file bytes of one segment.
    #[tactic(auto, using(cap_base::proofs::Walk::find_skip, cap_base::proofs::Walk::find_hit, cap_base::proofs::Walk::find_none))]
    pub(crate) fn file_place(&self, address: u64, size: u64) -> Option<u64>
        ensures value { result ≡ file_place_of self.now.segments.items address size }
        ensures inside { IfSome result (λ at. at + size ≤ self.now.file_len) }
    {
        for segment in &self.segments {
            if holds(segment, address, size) {
                return Some(segment.offset + (address - segment.vaddr));
            }
        }
        None
    }

    /// The same for an address that may be missing.
    pub(crate) fn table_place(&self, address: Option<u64>, size: u64) -> Option<u64>
        ensures value { result ≡ table_place_of self.now.segments.items address size }
        ensures inside { IfSome result (λ at. at + size ≤ self.now.file_len) }
    {
        match address {
            Some(address) => self.file_place(address, size),
            None => None,
        }
    }

    /// The range from an address of a writable segment on, cut at the segment's end.
    #[tactic(auto, using(cap_base::proofs::Walk::find_skip, cap_base::proofs::Walk::find_hit, cap_base::proofs::Walk::find_none))]
    pub(crate) fn writable_range(&self, address: u64, size: u64) -> Option<(u64, u64)>
        ensures { result ≡ writable_range_of self.now.segments.items address size }
    {
        for segment in &self.segments {
            if is_writable_at(segment, address) {
                let room = segment.memsz - (address - segment.vaddr);
                return Some((address, address + size.min(room)));
            }
        }
        None
    }

    /// Whether a range of addresses is in the memory of one segment.
    pub(crate) fn is_in_memory(&self, address: u64, size: u64) -> bool
        ensures { result ≡ is_in_memory_of self.now.segments.items address size }
    {
        self.segments
            .iter()
            .any(|segment| spans(segment, address, size))
    }

    /// Whether a segment has memory.
    pub(crate) fn has_memory(&self) -> bool
        ensures { result ≡ list_any has_memory_of self.now.segments.items }
    {
        self.segments.iter().any(|segment| segment.memsz > 0)
    }
}

/// Whether a range of addresses is in the file bytes of the segment.
fn holds(segment: &Segment, address: u64, size: u64) -> bool
    ensures { result ≡ holds_of segment.now address size }
{
    segment.vaddr <= address
        && address - segment.vaddr <= segment.filesz
        && size <= segment.filesz - (address - segment.vaddr)
}

/// Whether the segment has this address, and may be written.
fn is_writable_at(segment: &Segment, address: u64) -> bool
    ensures { result ≡ is_writable_at_of segment.now address }
{
    segment.vaddr <= address && address - segment.vaddr < segment.memsz && segment.flags & 2 == 2
}

/// Whether a range of addresses is in the memory of the segment.
fn spans(segment: &Segment, address: u64, size: u64) -> bool
    ensures { result ≡ spans_of segment.now address size }
{
    segment.vaddr <= address
        && address - segment.vaddr <= segment.memsz
        && size <= segment.memsz - (address - segment.vaddr)
}

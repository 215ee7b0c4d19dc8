//! Mapping the segments of an object.

ghost use Rattle.std.specs.Prelude.{◌≡◌, ◌+◌, ◌^◌, ◌≤◌, ◌%◌, [], ◌∷◌, length, All, IfOk, Ok};
ghost use Rattle.cap_own.specs.Interval.{interval, Cover, IsNextMultiple};
ghost use Rattle.cap_elf.specs.DynView.{dyn_view};
ghost use Rattle.cap_map.specs.Stores.{PartFits, with_segment, with_segments};
ghost use Rattle.cap_map.specs.Placing.{CarvesFor, Places, object_memory};

use cap_base::{NoMemory, Refusal};
use cap_elf::{DynFile, Segment};
use cap_mem::Memory;
use cap_own::{Full, Root, Space, Span};
use std::alloc::Global;

/// An object in memory, before it is relocated: the pad before it, the root of its capabilities, and its bytes.
pub struct Placed {
    pub pad: Span,
    pub root: Root,
    pub memory: Memory,
}

/// Places an object at the next multiple of its alignment, with this owner: the file's bytes of each segment (PT_LOAD)
/// at their p_vaddr from there on, zeros elsewhere, and no tag. `bytes` are those that the object was read from.
///
/// `Full` comes where the object would end past the limit of the space, with the addresses that it asks for and those
/// that are left, pads included; or `NoMemory`. A refusal leaves the space as it was.
pub fn place(
    alloc: Global,
    file: &DynFile,
    bytes: &[u8],
    space: &mut Space,
    owner: u32,
) -> Result<Placed, Refusal>
    requires { dyn_view bytes.now ≡ Ok file.now.records }
    ensures placed { Places file.now.records bytes.now space.old space.new owner result }
    ensures aligned { IfOk result (λ p. IsNextMultiple file.now.records.align space.old.next p.root.base) }
    ensures whole { IfOk result (λ p. Cover space.old.next (p.pad ∷ interval p.root.base p.root.len ∷ []) space.new.next) }
{
    let (pad, body) = carve_for(space, file)?;
    let root = Root::new(body, owner);
    match map_object(alloc, file, bytes, &root) {
        Ok(memory) => Ok(Placed { pad, root, memory }),
        Err(NoMemory) => {
            space.give_back(pad.join(root.into_span()));
            Err(Refusal::NoMemory)
        }
    }
}

/// The pad and the body of an object.
fn carve_for(space: &mut Space, file: &DynFile) -> Result<(Span, Span), Refusal>
    ensures own { IfOk result (λ parts. space.new.start ≤ parts.0.base) }
    ensures carved { CarvesFor file.now.records space.old space.new result }
    ensures aligned { IfOk result (λ parts. IsNextMultiple file.now.records.align space.old.next parts.1.base) }
    ensures whole { IfOk result (λ parts. Cover space.old.next (parts.0 ∷ parts.1 ∷ []) space.new.next) }
{
    match space.carve(file.align(), file.span()) {
        Ok(parts) => Ok(parts),
        Err(Full { asked, left }) => Err(Refusal::Full { asked, left }),
    }
}

/// The memory of an object's mapping, with its bytes.
fn map_object(alloc: Global, file: &DynFile, bytes: &[u8], root: &Root) -> Result<Memory, NoMemory>
    requires read { dyn_view bytes.now ≡ Ok file.now.records }
    requires base { root.now.base % file.now.records.align ≡ 0 }
    requires len { root.now.len ≡ file.now.records.span }
    ensures { IfOk result (λ m. m ≡ object_memory bytes.now file.now.records root.now.base) }
{
    let segments = file.segments();
    let base = root.base();
    let mut memory = Memory::map(alloc, root)?;
    store_segments(&mut memory, base, segments, bytes);
    Ok(memory)
}

/// Stores the file's bytes of each segment.
#[tactic(auto, using(crate::proofs::Bytes::fold_more, crate::proofs::Bytes::fold_done))]
fn store_segments(memory: &mut Memory, base: u64, segments: &[Segment], bytes: &[u8])
    requires base { base ≡ memory.old.base }
    requires low { base + length memory.old.bytes ≤ 2 ^ 62 }
    requires fit { All (PartFits (length memory.old.bytes) (length bytes.now)) segments.now }
    ensures { memory.new ≡ with_segments bytes.now memory.old segments.now }
{
    for segment in segments {
        store_segment(memory, base, segment, bytes);
    }
}

/// Stores the file's bytes of a segment, p_filesz from p_offset on, at its p_vaddr.
fn store_segment(memory: &mut Memory, base: u64, segment: &Segment, bytes: &[u8])
    requires base { base ≡ memory.old.base }
    requires low { base + length memory.old.bytes ≤ 2 ^ 62 }
    requires fits { PartFits (length memory.old.bytes) (length bytes.now) segment.now }
    ensures value { memory.new ≡ with_segment bytes.now memory.old segment.now }
    ensures len { length memory.new.bytes ≡ length memory.old.bytes }
{
    let from = segment.offset as usize;
    let end = from + segment.filesz as usize;
    memory.store_bytes(base + segment.vaddr, &bytes[from..end]);
}

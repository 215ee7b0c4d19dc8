//! An image is written as the format says.

ghost use Rattle.std.specs.Prelude.{◌≡◌, ◌+◌, ◌%◌, ◌<◌, ◌≤◌, ◌^◌, [], false, length, slice_index_or, All, IfOk};

use crate::by_hand::image_by_hand;
use cap_base::{NameList, NoMemory};
use cap_image::write;
use cap_mem::Memory;
use cap_own::{Derived, Perms, Root, Space};
use std::alloc::Global;
use std::process::Abort;
use std::slice::from_ref;
use std::test::Fail;

/// A capability to 16 bytes of the mapping, with its cursor at the first.
fn pointer<'r>(rt: &impl Abort, root: &'r Root, base: u64) -> Derived<'r> {
    let start = root.base();
    assert!(rt; start <= base && base <= 1 << 62);
    assert!(rt; base + 16 <= start + root.len());
    let part = root.data(base, 16, Perms::READ);
    part.narrow(base, 16, Perms::READ)
        .expect(rt, "the bounds are exact")
        .at(base)
}

/// The memory of a mapping of object 0, with a capability of symbol 0 in its first granule.
fn memory_of(rt: &impl Abort, alloc: Global, root: &Root) -> Result<Memory, NoMemory>
    ensures { IfOk result (λ m. All (λ w. (w.cap.owner ≡ 0) × (w.note ≡ 0)) m.words) }
{
    let base = root.base();
    assert!(rt; base % 4096 == 0 && root.len() % 4096 == 0);
    let mut memory = Memory::map(alloc, root)?;
    assert!(rt; memory.base() == base);
    assert!(rt; memory.len() >= 16);
    let cap = pointer(rt, root, base + 0x100);
    assert!(rt; cap.owner() == 0);
    memory.store_cap(base, cap, 0);
    Ok(memory)
}

fn expect_one(rt: &impl Abort, names: &NameList)
    ensures count { length names.now ≡ 1 }
    ensures some { 0 < length (slice_index_or names.now 0 ([], false)).0 }
    ensures short { length (slice_index_or names.now 0 ([], false)).0 ≤ 255 }
{
    assert!(rt; names.len() == 1);
    assert!(rt; names.name(0).len() > 0 && names.name(0).len() <= 255);
}

fn expect_pages(rt: &impl Abort, memory: &Memory)
    ensures pages { length memory.now.bytes % 4096 ≡ 0 }
    ensures size { length memory.now.bytes < 2 ^ 36 }
    ensures end { memory.now.base + length memory.now.bytes ≤ 2 ^ 64 }
{
    let base = memory.base();
    let len = memory.len();
    assert!(rt; base <= 1 << 62);
    assert!(rt; len % 4096 == 0 && len < 1 << 36);
}

/// The image of one memory, whose words are of symbol 0 of object 0.
fn write_one(
    rt: &impl Abort,
    alloc: Global,
    names: &NameList,
    symbols: &NameList,
    memory: &Memory,
) -> Result<Vec<u8>, NoMemory>
    requires { All (λ w. (w.cap.owner ≡ 0) × (w.note ≡ 0)) memory.now.words }
{
    expect_one(rt, names);
    expect_one(rt, symbols);
    expect_pages(rt, memory);
    write(alloc, names, from_ref(symbols), from_ref(memory))
}

fn image_of(rt: &impl Abort, alloc: Global, root: &Root) -> Result<Vec<u8>, NoMemory> {
    let memory = memory_of(rt, alloc, root)?;
    let mut names = NameList::new(alloc);
    names.push(b"app", true)?;
    let mut symbols = NameList::new(alloc);
    symbols.push(b"count", true)?;
    write_one(rt, alloc, &names, &symbols, &memory)
}

#[test]
fn a_memory_is_written_with_the_name_of_its_word(rt: HostRuntime) -> Result<(), Fail> {
    let alloc = rt.alloc();
    let mut space = Space::new(0x4000_0000, 0x4400_0000);
    assert!(rt; 4096u64.is_power_of_two());
    let (pad, body) = space.carve(4096, 0x1000).expect(&rt, "there is room");
    let root = Root::new(body, 0);
    let image = image_of(&rt, alloc, &root).expect(&rt, "there is memory");
    space.give_back(pad.join(root.into_span()));
    space.end();
    let by_hand = image_by_hand(alloc)?;
    assert_eq!(rt; image.as_slice(), by_hand.as_slice());
    Ok(())
}

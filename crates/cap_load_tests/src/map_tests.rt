//! A small object, placed twice, and then where there is no room for it.

use cap_base::Refusal;
use cap_elf::read_dyn;
use cap_map::{Placed, place};
use cap_mem::Memory;
use cap_own::Space;
use std::alloc::{AllocError, Global};
use std::process::Abort;
use std::test::Fail;

/// The bytes of the object by their places; all others are zeros.
const PARTS: [(usize, &[u8]); 12] = [
    // the header
    (0, b"\x7fELF\x02\x01\x01\0\0\0\0\0\0\0\0\0\x03\0\xf3\0\x01"),
    (0x20, b"@\0\0\0\0\0\0\0\0\0\0\0\0\0\0\0\0\0\x03\0@\08\0\x04"),
    // a segment that is read, at 0, with an alignment of 0x2000
    (0x40, b"\x01\0\0\0\x04\0\0\0"),
    (0x60, b"\0\x02\0\0\0\0\0\0\0\x02\0\0\0\0\0\0\0 "),
    // a segment of code, at 0x1000: 16 bytes of the file from 0x200 on, 32 in memory
    (0x78, b"\x01\0\0\0\x05\0\0\0\0\x02\0\0\0\0\0\0\0\x10"),
    (0x98, b"\x10\0\0\0\0\0\0\0 \0\0\0\0\0\0\0\x10"),
    // a segment that is written, at 0x2010: 8 bytes of the file from 0x210 on, 24 in memory
    (0xb0, b"\x01\0\0\0\x06\0\0\0\x10\x02\0\0\0\0\0\0\x10 "),
    (0xd0, b"\x08\0\0\0\0\0\0\0\x18\0\0\0\0\0\0\0\x10"),
    // the dynamic table, of six entries at 0x120
    (
        0xe8,
        b"\x02\0\0\0\x06\0\0\0 \x01\0\0\0\0\0\0 \x01\0\0\0\0\0\0 \x01\0\0\0\0\0\0`\0\0\0\0\0\0\0`\0\0\0\0\0\0\0\x08",
    ),
    (
        0x120,
        b"\x04\0\0\0\0\0\0\0\xa0\x01\0\0\0\0\0\0\x05\0\0\0\0\0\0\0\x80\x01\0\0\0\0\0\0\x06\0\0\0\0\0\0\0\x88\x01\0\0\0\0\0\0\x0a\0\0\0\0\0\0\0\x01\0\0\0\0\0\0\0\x0b\0\0\0\0\0\0\0\x18",
    ),
    // the hash table: one bucket, one chain
    (0x1a0, b"\x01\0\0\0\x01"),
    // the code and the data
    (0x200, b"ABCDEFGHIJKLMNOPabcdefgh"),
];

fn object(alloc: Global) -> Result<Vec<u8>, AllocError> {
    let mut bytes = vec![in alloc; 0u8; 0x218]?;
    for &(at, part) in &PARTS {
        for i in 0..part.len() {
            if let Some(slot) = bytes.get_mut(at.saturating_add(i)) {
                *slot = part[i];
            }
        }
    }
    Ok(bytes)
}

/// 32 bytes of the memory, from an offset on.
fn expect_bytes(rt: &impl Abort, memory: &Memory, offset: u64, bytes: &[u8; 32]) {
    let base = memory.base();
    assert!(rt; offset <= 0x3000 && base <= 1 << 62);
    assert!(rt; offset + 32 <= memory.len());
    let mut found = [0; 32];
    memory.load_bytes(base + offset, &mut found);
    assert_eq!(rt; found, *bytes);
}

fn expect_placed(rt: &impl Abort, placed: &Placed, pad: (u64, u64), base: u64, owner: u32) {
    assert_eq!(rt; (placed.pad.base(), placed.pad.len()), pad);
    assert_eq!(rt; (placed.root.base(), placed.root.len()), (base, 0x3000));
    assert_eq!(rt; placed.root.owner(), owner);
    let memory = &placed.memory;
    assert_eq!(rt; (memory.base(), memory.len()), (base, 0x3000));
    assert_eq!(rt; memory.tagged(0), None);
    expect_bytes(rt, memory, 0x1f0, &[0; 32]);
    expect_bytes(
        rt,
        memory,
        0x1000,
        b"ABCDEFGHIJKLMNOP\0\0\0\0\0\0\0\0\0\0\0\0\0\0\0\0",
    );
    expect_bytes(
        rt,
        memory,
        0x2000,
        b"\0\0\0\0\0\0\0\0\0\0\0\0\0\0\0\0abcdefgh\0\0\0\0\0\0\0\0",
    );
}

#[test]
fn an_object_is_placed_twice(rt: HostRuntime) -> Result<(), Fail> {
    let bytes = object(rt.alloc())?;
    let file = read_dyn(rt.alloc(), 5, &bytes)?;
    let mut space = Space::new(0x4000_0000, 0x4000_9000);
    let first = place(rt.alloc(), &file, &bytes, &mut space, 0).expect(&rt, "there is room");
    expect_placed(&rt, &first, (0x4000_0000, 0), 0x4000_0000, 0);
    let second = place(rt.alloc(), &file, &bytes, &mut space, 7).expect(&rt, "there is room");
    expect_placed(&rt, &second, (0x4000_3000, 0x1000), 0x4000_4000, 7);
    let full = Refusal::Full {
        asked: 0x3000,
        left: 0x2000,
    };
    match place(rt.alloc(), &file, &bytes, &mut space, 8) {
        Ok(_) => panic!(&rt; "there was no room"),
        Err(refusal) => assert_eq!(rt; refusal, full),
    }
    assert_eq!(rt; space.next(), 0x4000_7000);
    let Placed {
        pad,
        root,
        memory: _,
    } = second;
    space.give_back(pad.join(root.into_span()));
    let Placed {
        pad,
        root,
        memory: _,
    } = first;
    space.give_back(pad.join(root.into_span()));
    space.end();
    Ok(())
}

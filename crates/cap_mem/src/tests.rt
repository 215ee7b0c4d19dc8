ghost use Rattle.std.specs.Prelude.{◌+◌, ◌^◌, ◌≤◌, ◌<◌, ◌%◌, ◌≡◌};
ghost use Rattle.cap_mem.specs.Tagged.{IsInside, is_tagged};

use super::*;
use cap_conc::Word;
use cap_own::{Derived, Perms, Root, Space};
use std::process::Abort;
use std::test::Fail;

/// A capability to data of the mapping, with a cursor.
fn data<'r>(
    rt: &impl Abort,
    root: &'r Root,
    base: u64,
    len: u64,
    cursor: u64,
    perms: Perms,
) -> Derived<'r> {
    let start = root.base();
    assert!(rt; start <= base && base <= cursor && cursor <= 1 << 62 && len <= 1 << 62);
    assert!(rt; cursor <= base + len && base + len <= start + root.len());
    assert!(rt; perms == Perms::DATA || perms == Perms::READ);
    let part = root.data(base, len, perms);
    part.narrow(base, len, perms)
        .expect(rt, "the bounds are exact")
        .at(cursor)
}

fn check_inside(rt: &impl Abort, memory: &Memory, at: u64, len: u64)
    ensures { IsInside memory.now at len }
{
    assert!(rt; memory.base() <= at && at <= 1 << 62 && len <= 1 << 62);
    assert!(rt; at + len - memory.base() <= memory.len());
}

fn store(rt: &impl Abort, memory: &mut Memory, at: u64, cap: Derived<'_>, note: u32) {
    assert!(rt; at % 16 == 0 && cap.owner() < 256);
    check_inside(rt, memory, at, 16);
    memory.store_cap(at, cap, note);
}

fn store_byte(rt: &impl Abort, memory: &mut Memory, at: u64, byte: u8) {
    check_inside(rt, memory, at, 1);
    memory.store_bytes(at, &[byte]);
}

fn expect_word(rt: &impl Abort, memory: &Memory, at: u64, word: Word, note: Option<Note>) {
    assert!(rt; at % 16 == 0);
    check_inside(rt, memory, at, 16);
    assert_eq!(rt; memory.word_at(at), (word, note.is_some()));
    assert_eq!(rt; memory.note_at(at), note);
}

fn next(rt: &impl Abort, memory: &Memory, at: u64) -> Option<u64> {
    assert!(rt; at % 16 == 0);
    check_inside(rt, memory, at, 16);
    assert!(rt; memory.word_at(at).1);
    memory.next_of(at)
}

#[test]
fn a_byte_store_clears_the_tag_of_its_granule_alone(rt: HostRuntime) -> Result<(), Fail> {
    let mut space = Space::new(0x4000_0000, 0x4400_0000);
    assert!(rt; 4096u64.is_power_of_two());
    let (pad, body) = space.carve(4096, 4096).expect(&rt, "there is room");
    let root = Root::new(body, 0);
    let mut memory = Memory::map(rt.alloc(), &root).expect(&rt, "there is memory");
    assert_eq!(rt; memory.base(), 0x4000_0000);
    assert_eq!(rt; memory.len(), 4096);
    assert_eq!(rt; memory.tagged(0), None);
    let whole = data(&rt, &root, 0x4000_0000, 4096, 0x4000_0000, Perms::DATA);
    store(&rt, &mut memory, 0x4000_0000, whole, 0);
    let whole = data(&rt, &root, 0x4000_0000, 4096, 0x4000_0000, Perms::DATA);
    store(&rt, &mut memory, 0x4000_0ff0, whole, 0);
    assert_eq!(rt; memory.tagged(0x4000_0001), Some(0x4000_0ff0));
    store_byte(&rt, &mut memory, 0x4000_0fff, 7);
    assert_eq!(rt; memory.tagged(0x4000_0001), None);
    assert_eq!(rt; memory.tagged(0x4000_0000), Some(0x4000_0000));
    space.give_back(pad.join(root.into_span()));
    space.end();
    Ok(())
}

#[test]
fn known_words_stand_with_their_notes(rt: HostRuntime) -> Result<(), Fail> {
    let mut space = Space::new(0x4000_0000, 0x4400_0000);
    assert!(rt; 4096u64.is_power_of_two());
    let (pad, body) = space.carve(4096, 0x4000).expect(&rt, "there is room");
    let root = Root::new(body, 3);
    let mut memory = Memory::map(rt.alloc(), &root).expect(&rt, "there is memory");
    let cap = data(&rt, &root, 0x4000_3000, 32, 0x4000_3020, Perms::DATA);
    store(&rt, &mut memory, 0x4000_2000, cap, 9);
    let code = root.code(0x4000_0000, 0x2000);
    let cap = code
        .narrow(0x4000_0000, 0x2000, Perms::CODE)
        .expect(&rt, "the bounds are exact");
    store(
        &rt,
        &mut memory,
        0x4000_2010,
        cap.at(0x4000_1004).seal_entry(),
        8,
    );
    let cap = data(&rt, &root, 0x4000_0100, 16, 0x4000_0100, Perms::READ);
    store(&rt, &mut memory, 0x4000_2020, cap, 7);
    let word = Word {
        address: 0x4000_3020,
        meta: 0x007D_0000_0409_B004,
    };
    expect_word(
        &rt,
        &memory,
        0x4000_2000,
        word,
        Some(Note {
            owner: 3,
            symbol: 9,
        }),
    );
    let word = Word {
        address: 0x4000_1004,
        meta: 0x0017_2000_0801_8005,
    };
    expect_word(
        &rt,
        &memory,
        0x4000_2010,
        word,
        Some(Note {
            owner: 3,
            symbol: 8,
        }),
    );
    let word = Word {
        address: 0x4000_0100,
        meta: 0x0015_0000_0445_8104,
    };
    expect_word(
        &rt,
        &memory,
        0x4000_2020,
        word,
        Some(Note {
            owner: 3,
            symbol: 7,
        }),
    );
    expect_word(
        &rt,
        &memory,
        0x4000_2030,
        Word {
            address: 0,
            meta: 0,
        },
        None,
    );
    let mut bytes = [0; 16];
    check_inside(&rt, &memory, 0x4000_2000, 16);
    memory.load_bytes(0x4000_2000, &mut bytes);
    assert_eq!(rt;
        bytes,
        [
            0x20, 0x30, 0, 0x40, 0, 0, 0, 0, 0x04, 0xb0, 0x09, 0x04, 0, 0, 0x7d, 0
        ]
    );
    space.give_back(pad.join(root.into_span()));
    space.end();
    Ok(())
}

#[test]
fn the_lists_go_by_owner_and_in_the_order_of_the_stores(rt: HostRuntime) -> Result<(), Fail> {
    let mut space = Space::new(0x4000_0000, 0x4400_0000);
    assert!(rt; 4096u64.is_power_of_two());
    let (pad, body) = space.carve(4096, 0x2000).expect(&rt, "there is room");
    let (low, high) = body.split(0x4000_1000);
    let first = Root::new(low, 0);
    let second = Root::new(high, 1);
    let mut memory = Memory::map(rt.alloc(), &first).expect(&rt, "there is memory");
    let cap = data(&rt, &first, 0x4000_0000, 16, 0x4000_0000, Perms::DATA);
    store(&rt, &mut memory, 0x4000_0020, cap, 5);
    let cap = data(&rt, &second, 0x4000_1000, 16, 0x4000_1000, Perms::DATA);
    store(&rt, &mut memory, 0x4000_0010, cap, 6);
    let cap = data(&rt, &first, 0x4000_0000, 16, 0x4000_0000, Perms::DATA);
    store(&rt, &mut memory, 0x4000_0000, cap, 7);
    assert_eq!(rt; memory.first_of(0), Some(0x4000_0020));
    assert_eq!(rt; next(&rt, &memory, 0x4000_0020), Some(0x4000_0000));
    assert_eq!(rt; next(&rt, &memory, 0x4000_0000), None);
    assert_eq!(rt; memory.first_of(1), Some(0x4000_0010));
    assert_eq!(rt; next(&rt, &memory, 0x4000_0010), None);
    assert_eq!(rt; memory.first_of(2), None);
    assert_eq!(rt; memory.first_of(256), None);
    let cap = data(&rt, &second, 0x4000_1000, 16, 0x4000_1000, Perms::DATA);
    store(&rt, &mut memory, 0x4000_0020, cap, 8);
    assert_eq!(rt; memory.first_of(0), Some(0x4000_0000));
    assert_eq!(rt; next(&rt, &memory, 0x4000_0010), Some(0x4000_0020));
    assert_eq!(rt; next(&rt, &memory, 0x4000_0020), None);
    store_byte(&rt, &mut memory, 0x4000_0010, 1);
    assert_eq!(rt; memory.first_of(1), Some(0x4000_0020));
    space.give_back(pad.join(first.into_span().join(second.into_span())));
    space.end();
    Ok(())
}

//! The worked values of entries and records, for an object that is made of bytes here.

ghost use Rattle.std.specs.Prelude.{◌≡◌, ◌<◌, ◌≤◌, ◌+◌, ◌%◌, [], ◌∷◌, length, map};
ghost use Rattle.cap_reloc.specs.Binding.{AreMappings, IsUnrelocated};

use cap_conc::Word;
use cap_elf::{DynFile, read_dyn};
use cap_mem::Memory;
use cap_own::{Root, Space};
use cap_reloc::{RelocRefusal, relocate};
use cap_scope::{Hit, Object, Rule};
use std::alloc::Global;
use std::process::Abort;
use std::test::Fail;

/// The symbol `d`: its first 8 bytes (name, info, other, section index), its value and its size.
type Definition = (u64, u64, u64);

/// GLOBAL data in section 1, and GLOBAL absolute (SHN_ABS).
const DATA: u64 = 0x0001_0011_0000_0001;

const ABSOLUTE: u64 = 0xfff1_0011_0000_0001;

/// A record: its slot, kind, symbol and addend.
type Record = (u64, u64, u64, u64);

/// The object's bytes by their places; all others are zeros. It has segments for reading at 0, of code at 0x1000, and for
/// writing at 0x2000 to 0x5000, and the symbols `d` and `w`, which is WEAK and undefined.
const PARTS: [(usize, &[u8]); 9] = [
    // the header
    (0, b"\x7fELF\x02\x01\x01\0\0\0\0\0\0\0\0\0\x03\0\xf3\0\x01"),
    (0x20, b"@\0\0\0\0\0\0\0\0\0\0\0\0\0\0\0\0\0\x03\0@\08\0\x04"),
    // the segments, each with the alignment 0x1000
    (
        0x40,
        b"\x01\0\0\0\x04\0\0\0\0\0\0\0\0\0\0\0\0\0\0\0\0\0\0\0\0\0\0\0\0\0\0\0\0\x03\0\0\0\0\0\0\0\x10\0\0\0\0\0\0\0\x10",
    ),
    (
        0x78,
        b"\x01\0\0\0\x05\0\0\0\0\0\0\0\0\0\0\0\0\x10\0\0\0\0\0\0\0\0\0\0\0\0\0\0\0\0\0\0\0\0\0\0\0\x10\0\0\0\0\0\0\0\x10",
    ),
    (
        0xb0,
        b"\x01\0\0\0\x06\0\0\0\0\0\0\0\0\0\0\0\0\x20\0\0\0\0\0\0\0\0\0\0\0\0\0\0\0\0\0\0\0\0\0\0\0\x30\0\0\0\0\0\0\0\x10",
    ),
    // where the dynamic table stands
    (
        0xe8,
        b"\x02\0\0\0\x04\0\0\0\x20\x01\0\0\0\0\0\0\x20\x01\0\0\0\0\0\0\x20\x01\0\0\0\0\0\0\xb0\0\0\0\0\0\0\0\xb0\0\0\0\0\0\0\0\x08",
    ),
    // the hash table: one bucket, which leads to 1
    (0x260, b"\x01\0\0\0\x03\0\0\0\x01"),
    // the symbol `w`
    (0x2b0, b"\x03\0\0\0\x20"),
    // the names
    (0x2d0, b"\0d\0w"),
];

/// The dynamic table: the tags and values of the hash table, the names, the symbols, the records and the entries.
const DYNAMIC: [u64; 20] = [
    4,
    0x260,
    5,
    0x2d0,
    10,
    5,
    6,
    0x280,
    11,
    24,
    7,
    0x1d8,
    9,
    24,
    0x7000_c000,
    0x200,
    8,
    0,
    0x7000_c001,
    0,
];

fn put(bytes: &mut [u8], at: usize, new: &[u8]) {
    for i in 0..new.len() {
        if let Some(slot) = bytes.get_mut(at.saturating_add(i)) {
            *slot = new[i];
        }
    }
}

fn put_numbers(bytes: &mut [u8], at: usize, numbers: &[u64]) {
    for i in 0..numbers.len() {
        put(
            bytes,
            at.saturating_add(i.saturating_mul(8)),
            &numbers[i].to_le_bytes(),
        );
    }
}

/// The object with these entries, this symbol and these records.
fn read(
    alloc: Global,
    entries: &[[u64; 5]],
    definition: Definition,
    records: &[Record],
) -> Result<DynFile, Fail> {
    let mut bytes = vec![in alloc; 0u8; 0x300]?;
    for &(at, part) in &PARTS {
        put(&mut bytes, at, part);
    }
    put_numbers(&mut bytes, 0x120, &DYNAMIC);
    put_numbers(
        &mut bytes,
        0x1a8,
        &[(records.len() as u64).saturating_mul(24)],
    );
    put_numbers(
        &mut bytes,
        0x1b8,
        &[(entries.len() as u64).saturating_mul(40)],
    );
    for i in 0..entries.len() {
        put_numbers(
            &mut bytes,
            i.saturating_mul(40).saturating_add(0x200),
            &entries[i],
        );
    }
    for &(slot, kind, symbol, addend) in records {
        put_numbers(
            &mut bytes,
            0x1d8,
            &[slot, kind | symbol.wrapping_mul(1 << 32), addend],
        );
    }
    let (first, value, size) = definition;
    put_numbers(&mut bytes, 0x298, &[first, value, size]);
    Ok(read_dyn(alloc, 0, &bytes)?)
}

/// The answer of relocating the first of these objects alone, and the word that stands at a place then.
fn answer_of(
    rt: &impl Abort,
    alloc: Global,
    objects: &[Object],
    roots: &[Root],
    at: u64,
) -> (Result<(), RelocRefusal>, (Word, bool))
    requires few { length objects.now ≤ 256 }
    requires mappings { AreMappings (map (λ o. o.records) objects.now) 0 roots.now }
    requires some { 0 < length objects.now }
    requires root { 0 < length roots.now }
{
    let root = &roots[0];
    assert!(rt; root.base() % 4096 == 0 && root.len() % 4096 == 0);
    let mut memory = Memory::map(alloc, root).expect(rt, "there is memory");
    let answer = relocate(alloc, objects, roots, 0, &[0], Rule::NonWeak, &mut memory);
    assert!(rt; at % 16 == 0 && memory.base() <= at && at <= 1 << 62);
    assert!(rt; at + 16 <= memory.base().saturating_add(memory.len()));
    (answer, memory.word_at(at))
}

/// The same for the object of this file, at 0x40000000.
fn relocated(
    rt: &impl Abort,
    alloc: Global,
    file: DynFile,
    at: u64,
) -> (Result<(), RelocRefusal>, (Word, bool)) {
    let mut space = Space::new(0x4000_0000, 0x4400_0000);
    let (pad, body) = space
        .carve(file.align(), file.span())
        .expect(rt, "there is room");
    assert!(rt; body.base() % file.align() == 0);
    assert!(rt; body.len() == file.span());
    let roots = [Root::new(body, 0)];
    let objects = [Object::new(alloc, file).expect(rt, "the table is sound")];
    let answer = answer_of(rt, alloc, &objects, &roots, at);
    let [root] = roots;
    space.give_back(pad.join(root.into_span()));
    space.end();
    answer
}

fn expect(
    rt: &impl Abort,
    found: (Result<(), RelocRefusal>, (Word, bool)),
    answer: Result<(), RelocRefusal>,
    word: (u64, u64),
    is_tagged: bool,
) {
    let (address, meta) = word;
    assert_eq!(rt; found.0, answer);
    assert_eq!(rt; found.1, (Word { address, meta }, is_tagged));
}

#[test]
fn entries_have_their_words(rt: HostRuntime) -> Result<(), Fail> {
    let alloc = rt.alloc();
    let definition = (DATA, 0x3000, 32);
    for (entry, word) in [
        (
            [0x2000, 0x3000, 32, 32, 0],
            (0x4000_3020, 0x007D_0000_0409_B004),
        ),
        (
            [0x2010, 0x1004, 0, 0, 1 << 63],
            (0x4000_1004, 0x0017_2000_0801_8005),
        ),
        (
            [0x2020, 0x100, 0, 16, 1 << 62],
            (0x4000_0100, 0x0015_0000_0445_8104),
        ),
    ] {
        let file = read(alloc, &[entry], definition, &[])?;
        let found = relocated(&rt, alloc, file, entry[0].saturating_add(0x4000_0000));
        expect(&rt, found, Ok(()), word, true);
    }
    for (entry, check) in [
        ([0x2000, 0x3000, 33, 32, 0], 42),
        ([0x2000, 0x100, 0, 16, 0], 43),
        ([0x2000, 0x1004, 1, 0, 1 << 63], 42),
        ([0x2000, 0x3000, 0, 32, 1], 43),
        ([0x2000, 0x2000, 0, 0, 1 << 63], 41),
        ([0x1000, 0x3000, 0, 32, 0], 40),
        ([0x2008, 0x3000, 0, 32, 0], 40),
    ] {
        let file = read(alloc, &[entry], definition, &[])?;
        let found = relocated(&rt, alloc, file, 0x4000_2000);
        expect(
            &rt,
            found,
            Err(RelocRefusal::Malformed { check, at: 0x200 }),
            (0, 0),
            false,
        );
    }
    let entry = [0x2000, 0x3000, 0, 32, 0];
    let file = read(alloc, &[entry, entry], definition, &[])?;
    let found = relocated(&rt, alloc, file, 0x4000_2000);
    expect(
        &rt,
        found,
        Err(RelocRefusal::Malformed {
            check: 40,
            at: 0x228,
        }),
        (0, 0),
        false,
    );
    Ok(())
}

#[test]
fn records_have_their_words(rt: HostRuntime) -> Result<(), Fail> {
    let alloc = rt.alloc();
    for (definition, record, word, is_tagged) in [
        (
            (DATA, 0x3000, 32),
            (193, 1, 32),
            (0x4000_3020, 0x007D_0000_0409_B004),
            true,
        ),
        (
            (DATA, 0x3008, 4096),
            (193, 1, 0),
            (0x4000_3008, 0x007D_0000_0003_B00C),
            true,
        ),
        ((ABSOLUTE, 5, 0), (193, 1, 0), (5, 0), false),
        ((DATA, 0x3000, 32), (193, 2, 0), (0, 0), false),
        ((DATA, 0x3000, 32), (2, 1, 1), (0x4000_3001, 0), false),
        ((DATA, 0x3000, 32), (3, 0, 0x10), (0x4000_0010, 0), false),
        ((DATA, 0x3000, 32), (0, 0, 0), (0, 0), false),
    ] {
        let (kind, symbol, addend) = record;
        let file = read(alloc, &[], definition, &[(0x2000, kind, symbol, addend)])?;
        let found = relocated(&rt, alloc, file, 0x4000_2000);
        expect(&rt, found, Ok(()), word, is_tagged);
    }
    let hit = Some(Hit {
        object: 0,
        symbol: 1,
    });
    let inexact = RelocRefusal::Inexact {
        hit,
        base: 0x4000_3004,
        len: 0x1000,
    };
    for (definition, record, refusal) in [
        (
            (DATA, 0x3000, 32),
            (193, 1, 33),
            RelocRefusal::Malformed {
                check: 42,
                at: 0x1d8,
            },
        ),
        ((DATA, 0x3004, 4096), (193, 1, 0), inexact),
        (
            (0x0010_0000_0001, 0, 0),
            (193, 1, 0),
            RelocRefusal::Unresolved { symbol: 1 },
        ),
        (
            (DATA, 0x3000, 32),
            (1, 1, 0),
            RelocRefusal::Unsupported {
                check: 39,
                at: 0x1d8,
            },
        ),
    ] {
        let (kind, symbol, addend) = record;
        let file = read(alloc, &[], definition, &[(0x2000, kind, symbol, addend)])?;
        let found = relocated(&rt, alloc, file, 0x4000_2000);
        expect(&rt, found, Err(refusal), (0, 0), false);
    }
    Ok(())
}

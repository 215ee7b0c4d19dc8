//! The reader of shared objects on bytes that are made here: one good object, and a fault in it for some of the checks.
//! `tests/shared_object_rows.py` has one for each.

mod good;

use cap_base::Refusal;
use cap_elf::{Arrays, CapReloc, DynFile, DynReloc, Place, Segment, Symbol, read_dyn};
use cap_names::system_v_hash;
use good::{GOOD, GOOD_LEN};
use std::alloc::{AllocError, Global};
use std::process::Abort;
use std::test::*;

/// Bytes that are put at a place.
pub(crate) type Write = (usize, &'static [u8]);

/// The length of the file, what is put into the good object, and the number of the check that then fails, and where.
pub(crate) type Case = (usize, &'static [Write], u8, u64);

/// In the order of the checks.
const FAULTS: [Case; 9] = [
    // 63 bytes
    (63, &[], 1, 0x3f),
    // file bytes outside the file
    (0x60f, &[], 12, 0x78),
    // no end of the dynamic table
    (GOOD_LEN, &[(0x108, b"0\x01\0\0\0\0\0\0")], 19, 0x440),
    // a needed name with a slash
    (GOOD_LEN, &[(0x288, b"/")], 29, 0x440),
    // a symbol's name outside the strings
    (GOOD_LEN, &[(0x1d8, b"\x12\x01\0\0")], 31, 0x1d8),
    // two definitions of one name
    (GOOD_LEN, &[(0x1f0, b"\x01\0\0\0")], 36, 0x1f0),
    // two definitions of one name, and then a symbol's name outside the strings
    (
        GOOD_LEN,
        &[(0x1f0, b"\x01\0\0\0"), (0x208, b"\x12\x01\0\0")],
        36,
        0x1f0,
    ),
    // a symbol's name outside the strings, and then a second definition of the name before it
    (
        GOOD_LEN,
        &[(0x1f0, b"\x12\x01\0\0"), (0x208, b"\x01\0\0\0\x11\0\x01")],
        31,
        0x1f0,
    ),
    // a relocation by no symbol
    (GOOD_LEN, &[(0x3cc, b"\x04\0\0\0")], 38, 0x3c0),
];

pub(crate) fn zeros(alloc: Global, len: usize) -> Result<Vec<u8>, AllocError> {
    vec![in alloc; 0u8; len]
}

pub(crate) fn put(bytes: &mut [u8], at: usize, new: &[u8]) {
    for i in 0..new.len() {
        if let Some(slot) = bytes.get_mut(at.saturating_add(i)) {
            *slot = new[i];
        }
    }
}

/// The good object with this length, and with these changes.
fn object(alloc: Global, len: usize, writes: &[Write]) -> Result<Vec<u8>, AllocError> {
    let mut bytes = zeros(alloc, len)?;
    for &(at, new) in &GOOD {
        put(&mut bytes, at, new);
    }
    for &(at, new) in writes {
        put(&mut bytes, at, new);
    }
    Ok(bytes)
}

/// The number of the check that fails, and where; 0 for another answer.
fn fault(answer: Result<DynFile, Refusal>) -> (u8, u64) {
    match answer {
        Err(Refusal::Malformed { file: 5, check, at }) => (check, at),
        Err(Refusal::Unsupported { file: 5, check, at }) => (check, at),
        Err(Refusal::Limit { check }) => (check, 0),
        _ => (0, 0),
    }
}

fn refuses(rt: &impl Abort, alloc: Global, cases: &[Case]) -> Result<(), AllocError> {
    for &(len, writes, check, at) in cases {
        let bytes = object(alloc, len, writes)?;
        assert_eq!(rt; fault(read_dyn(alloc, 5, &bytes)), (check, at));
    }
    Ok(())
}

#[test]
fn names_the_first_fault(rt: HostRuntime) -> Result<(), Fail> {
    refuses(&rt, rt.alloc(), &FAULTS)?;
    Ok(())
}

fn symbol(kind: u8, value: u64, size: u64, at: u64) -> Symbol {
    Symbol {
        binding: 1,
        kind,
        visibility: 0,
        place: Place::Section(1),
        value,
        size,
        at,
    }
}

fn reloc(slot: u64, kind: u32, symbol: u32, addend: i64, at: u64) -> DynReloc {
    DynReloc {
        slot,
        kind,
        symbol,
        addend,
        at,
    }
}

fn segment(vaddr: u64, memsz: u64, offset: u64, filesz: u64, flags: u32, align: u64) -> Segment {
    Segment {
        vaddr,
        memsz,
        offset,
        filesz,
        flags,
        align,
    }
}

#[test]
fn reads_all_records(rt: HostRuntime) -> Result<(), Fail> {
    let bytes = object(rt.alloc(), GOOD_LEN, &[])?;
    let file = read_dyn(rt.alloc(), 5, &bytes)?;
    assert_eq!(rt; file.number(), 5);
    assert_eq!(rt; file.flags(), 0x30000);
    let segments = [
        segment(0, 0x600, 0, 0x600, 4, 4096),
        segment(0x1000, 16, 0x600, 16, 5, 16),
        segment(0x2000, 0x200, 0, 0, 6, 0x2000),
    ];
    assert_eq!(rt; file.segments(), segments.as_slice());
    assert_eq!(rt; file.relro(), Some((0x2000, 0x2100)));
    let null = Symbol {
        binding: 0,
        kind: 0,
        visibility: 0,
        place: Place::Undefined,
        value: 0,
        size: 0,
        at: 0x1c0,
    };
    let weak = Symbol {
        binding: 2,
        at: 0x208,
        ..null
    };
    let symbols = [
        null,
        symbol(1, 0x2000, 32, 0x1d8),
        symbol(2, 0x1000, 4, 0x1f0),
        weak,
    ];
    assert_eq!(rt; file.symbols(), symbols.as_slice());
    let relocs = [
        reloc(0x2000, 193, 1, 0, 0x3c0),
        reloc(0x2010, 193, 2, -1, 0x3d8),
        reloc(0x2020, 5, 2, 0, 0x3f8),
    ];
    assert_eq!(rt; file.relocs(), relocs.as_slice());
    Ok(())
}

#[test]
fn reads_names_and_words(rt: HostRuntime) -> Result<(), Fail> {
    let bytes = object(rt.alloc(), GOOD_LEN, &[])?;
    let file = read_dyn(rt.alloc(), 5, &bytes)?;
    let cap_relocs = [CapReloc {
        location: 0x2030,
        object: 0x2000,
        offset: 4,
        size: 32,
        permissions: 1 << 62,
        at: 0x410,
    }];
    assert_eq!(rt; file.cap_relocs(), cap_relocs.as_slice());
    let arrays = Arrays {
        init_at: 0x2040,
        init_size: 16,
        fini_at: 0x2050,
        fini_size: 32,
    };
    assert_eq!(rt; file.arrays(), arrays);
    assert_eq!(rt; file.hash_words(), [2, 4, 2, 3, 0, 0, 0, 1].as_slice());
    assert_eq!(rt; file.hash_at(), 0x240);
    assert!(rt; !file.symbolic());
    assert_eq!(rt; file.span(), 0x3000);
    assert_eq!(rt; file.align(), 0x2000);
    assert_eq!(rt; file.symbols().len(), 4);
    assert_eq!(rt; file.name(0), b"".as_slice());
    assert_eq!(rt; file.name(1), b"a".as_slice());
    assert_eq!(rt; file.name(3), b"u".as_slice());
    assert_eq!(rt; file.needed_len(), 1);
    assert_eq!(rt; file.needed(0), b"n.so".as_slice());
    assert!(rt; file.soname() == Some(b"m.so".as_slice()));
    Ok(())
}

fn find(file: &DynFile, name: &[u8]) -> Option<u32> {
    file.find_exported(name, system_v_hash(name))
}

#[test]
fn finds_exported_names(rt: HostRuntime) -> Result<(), Fail> {
    let bytes = object(rt.alloc(), GOOD_LEN, &[])?;
    let file = read_dyn(rt.alloc(), 5, &bytes)?;
    assert_eq!(rt; find(&file, b"a"), Some(1));
    assert_eq!(rt; find(&file, b"f"), Some(2));
    // undefined
    assert_eq!(rt; find(&file, b"u"), None);
    // absent, and the name of the null symbol
    assert_eq!(rt; find(&file, b"b"), None);
    assert_eq!(rt; find(&file, b""), None);
    Ok(())
}

#[test]
fn counts_no_local_symbol(rt: HostRuntime) -> Result<(), Fail> {
    // `f` is a local `a`
    let bytes = object(rt.alloc(), GOOD_LEN, &[(0x1f0, b"\x01\0\0\0\x02")])?;
    let file = read_dyn(rt.alloc(), 5, &bytes)?;
    assert_eq!(rt; find(&file, b"a"), Some(1));
    assert_eq!(rt; find(&file, b"f"), None);
    Ok(())
}

//! The reader of relocatable objects on bytes that are made here: one good object, and a fault in it for some of the
//! checks. `tests/object_rows.py` has one for each.

use crate::dyn_tests::{Case, Write, put, zeros};
use cap_base::Refusal;
use cap_elf::{Class, Place, RelFile, Reloc, Section, Symbol, read_rel};
use std::alloc::{AllocError, Global};
use std::process::Abort;
use std::test::*;

const LEN: usize = 0x3c0;

/// One good object: its bytes by their places. All other bytes are zeros.
const GOOD: [Write; 19] = [
    // the header
    (
        0x0,
        b"\x7fELF\x02\x01\x01\0\0\0\0\0\0\0\0\0\x01\0\xf3\0\x01\0\0\0\0\0\0\0\0\0\0\0\0\0\0\0\0\0\0\0\x80\x01\0\0\0\0\0\0\0\0\x03\0@\0\0\0\0\0@\0\x09\0\x08",
    ),
    // code
    (0x40, b"\x82\x80\x01"),
    // data
    (
        0x50,
        b"\x01\x02\x03\x04\x05\x06\x07\x08\x09\x0a\x0b\x0c\x0d\x0e\x0f\x10",
    ),
    // a relocation with the addend -1
    (
        0x80,
        b"\0\0\0\0\0\0\0\0\xc1\0\0\0\x01\0\0\0\xff\xff\xff\xff\xff\xff\xff\xff",
    ),
    // the null symbol, whose bytes are passed over
    (0xa0, b"wwwwwwwwwwwwwwwwwwwwwwww"),
    // `f`, a function
    (0xb8, b"\x01\0\0\0\x12\0\x01\0\0\0\0\0\0\0\0\0\x04"),
    // `d`, hidden data
    (0xd0, b"\x03\0\0\0\x11\x02\x02\0\x10\0\0\0\0\0\0\0\x10"),
    // `c`, a common symbol
    (0xe8, b"\x05\0\0\0\x11\0\xf2\xff\x10\0\0\0\0\0\0\0 "),
    // `u`, weak and undefined
    (0x100, b"\x07\0\0\0 "),
    // the names of symbols
    (0x120, b"\0f\0d\0c\0u"),
    // the names of sections
    (
        0x130,
        b"\0.text\0.data\0.bss\0.init_array\0.rela.data\0.symtab\0.strtab\0.shstrtab",
    ),
    // `.text`
    (
        0x1c0,
        b"\x01\0\0\0\x01\0\0\0\x06\0\0\0\0\0\0\0\0\0\0\0\0\0\0\0@\0\0\0\0\0\0\0\x04\0\0\0\0\0\0\0\0\0\0\0\0\0\0\0\x02",
    ),
    // `.data`
    (
        0x200,
        b"\x07\0\0\0\x01\0\0\0\x03\0\0\0\0\0\0\0\0\0\0\0\0\0\0\0P\0\0\0\0\0\0\0 \0\0\0\0\0\0\0\0\0\0\0\0\0\0\0\x10",
    ),
    // `.bss`, whose alignment is 0
    (
        0x240,
        b"\x0d\0\0\0\x08\0\0\0\x03\0\0\0\0\0\0\0\0\0\0\0\0\0\0\0P\0\0\0\0\0\0\0@",
    ),
    // `.init_array`
    (
        0x280,
        b"\x12\0\0\0\x0e\0\0\0\x03\0\0\0\0\0\0\0\0\0\0\0\0\0\0\0p\0\0\0\0\0\0\0\x10\0\0\0\0\0\0\0\0\0\0\0\0\0\0\0\x10\0\0\0\0\0\0\0\x10",
    ),
    // `.rela.data`
    (
        0x2c0,
        b"\x1e\0\0\0\x04\0\0\0\0\0\0\0\0\0\0\0\0\0\0\0\0\0\0\0\x80\0\0\0\0\0\0\0\x18\0\0\0\0\0\0\0\x06\0\0\0\x02\0\0\0\x08\0\0\0\0\0\0\0\x18",
    ),
    // `.symtab`
    (
        0x300,
        b")\0\0\0\x02\0\0\0\0\0\0\0\0\0\0\0\0\0\0\0\0\0\0\0\xa0\0\0\0\0\0\0\0x\0\0\0\0\0\0\0\x07\0\0\0\x01\0\0\0\x08\0\0\0\0\0\0\0\x18",
    ),
    // `.strtab`
    (
        0x340,
        b"1\0\0\0\x03\0\0\0\0\0\0\0\0\0\0\0\0\0\0\0\0\0\0\0 \x01\0\0\0\0\0\0\x09\0\0\0\0\0\0\0\0\0\0\0\0\0\0\0\x01",
    ),
    // `.shstrtab`
    (
        0x380,
        b"9\0\0\0\x03\0\0\0\0\0\0\0\0\0\0\0\0\0\0\0\0\0\0\00\x01\0\0\0\0\0\0C\0\0\0\0\0\0\0\0\0\0\0\0\0\0\0\x01",
    ),
];

/// In the order of the checks.
const FAULTS: [Case; 6] = [
    // no section headers
    (LEN, &[(0x3c, b"\0\0")], 50, 0x28),
    // data behind the file
    (LEN, &[(0x218, b"\xa1\x03\0\0\0\0\0\0")], 54, 0x200),
    // a symbol's name outside the strings
    (LEN, &[(0xb8, b"\x09\0\0\0")], 31, 0xb8),
    // a function in data
    (LEN, &[(0xbe, b"\x02\0")], 60, 0xb8),
    // relocations by other symbols
    (LEN, &[(0x2e8, b"\x07\0\0\0")], 62, 0x2c0),
    // a relocation by no symbol
    (LEN, &[(0x8c, b"\x05\0\0\0")], 38, 0x80),
];

fn object(alloc: Global, writes: &[Write]) -> Result<Vec<u8>, AllocError> {
    let mut bytes = zeros(alloc, LEN)?;
    for &(at, new) in &GOOD {
        put(&mut bytes, at, new);
    }
    for &(at, new) in writes {
        put(&mut bytes, at, new);
    }
    Ok(bytes)
}

/// The number of the check that fails, and where; 0 for another answer.
fn fault(answer: Result<RelFile, Refusal>) -> (u8, u64) {
    match answer {
        Err(Refusal::Malformed { file: 5, check, at }) => (check, at),
        Err(Refusal::Unsupported { file: 5, check, at }) => (check, at),
        Err(Refusal::Limit { check }) => (check, 0),
        _ => (0, 0),
    }
}

fn refuses(rt: &impl Abort, alloc: Global, cases: &[Case]) -> Result<(), AllocError> {
    for &(_, writes, check, at) in cases {
        let bytes = object(alloc, writes)?;
        assert_eq!(rt; fault(read_rel(alloc, 5, bytes)), (check, at));
    }
    Ok(())
}

#[test]
fn names_the_first_fault(rt: HostRuntime) -> Result<(), Fail> {
    refuses(&rt, rt.alloc(), &FAULTS)?;
    Ok(())
}

fn section(class: Class, size: u64, align: u64, offset: u64, at: u64) -> Section {
    Section {
        class,
        size,
        align,
        offset,
        at,
    }
}

#[test]
fn reads_sections(rt: HostRuntime) -> Result<(), Fail> {
    let file = read_rel(rt.alloc(), 5, object(rt.alloc(), &[])?)?;
    assert_eq!(rt; file.number(), 5);
    assert_eq!(rt; file.flags(), 0x30000);
    let sections = [
        section(Class::Dropped, 0, 1, 0, 0x180),
        section(Class::Code, 4, 2, 0x40, 0x1c0),
        section(Class::Data, 32, 16, 0x50, 0x200),
        section(Class::Bss, 64, 1, 0x50, 0x240),
        section(Class::Init, 16, 16, 0x70, 0x280),
        section(Class::Dropped, 24, 8, 0x80, 0x2c0),
        section(Class::Dropped, 120, 8, 0xa0, 0x300),
        section(Class::Dropped, 9, 1, 0x120, 0x340),
        section(Class::Dropped, 67, 1, 0x130, 0x380),
    ];
    assert_eq!(rt; file.sections(), sections.as_slice());
    if file.sections().len() > 1 && file.sections()[1].class == Class::Code {
        assert_eq!(rt; file.content(1), b"\x82\x80\x01\0".as_slice());
    }
    Ok(())
}

fn symbol(kind: u8, place: Place, value: u64, size: u64, at: u64) -> Symbol {
    Symbol {
        binding: 1,
        kind,
        visibility: 0,
        place,
        value,
        size,
        at,
    }
}

#[test]
fn reads_symbols(rt: HostRuntime) -> Result<(), Fail> {
    let file = read_rel(rt.alloc(), 5, object(rt.alloc(), &[])?)?;
    let null = Symbol {
        binding: 0,
        ..symbol(0, Place::Undefined, 0, 0, 0xa0)
    };
    let weak = Symbol {
        binding: 2,
        at: 0x100,
        ..null
    };
    let hidden = Symbol {
        visibility: 2,
        ..symbol(1, Place::Section(2), 16, 16, 0xd0)
    };
    let symbols = [
        null,
        symbol(2, Place::Section(1), 0, 4, 0xb8),
        hidden,
        symbol(1, Place::Common, 16, 32, 0xe8),
        weak,
    ];
    assert_eq!(rt; file.symbols(), symbols.as_slice());
    assert_eq!(rt; file.symbols().len(), 5);
    assert_eq!(rt; file.name(0), b"".as_slice());
    assert_eq!(rt; file.name(3), b"c".as_slice());
    Ok(())
}

#[test]
fn reads_relocations(rt: HostRuntime) -> Result<(), Fail> {
    let file = read_rel(rt.alloc(), 5, object(rt.alloc(), &[])?)?;
    let relocs = [Reloc {
        section: 2,
        offset: 0,
        kind: 193,
        symbol: 1,
        addend: -1,
        at: 0x80,
    }];
    assert_eq!(rt; file.relocs(), relocs.as_slice());
    Ok(())
}

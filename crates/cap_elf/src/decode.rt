//! The records of a file as they stand in its bytes.

ghost use Rattle.std.specs.Prelude.{◌≡◌, ◌≤◌, ◌+◌, length};
ghost use Rattle.cap_elf.specs.Records.{program_header_at, dyn_entry_at, place_of as place_at, symbol_entry_at, null_symbol as null_symbol_at, reloc_at, cap_reloc_at};

use crate::records::{CapReloc, DynReloc, Place, Segment, Symbol};
use cap_base::{u16_in, u32_in, u64_in};

/// Where records of one size stand in the file, and how many they are.
#[derive(Clone, Copy, Debug, PartialEq, Eq)]
pub struct Table {
    pub at: usize,
    pub count: usize,
}

/// A program header (Elf64_Phdr): its type, the segment that it tells of, and its own place in the file.
#[derive(Clone, Copy, Debug, PartialEq, Eq)]
pub struct ProgramHeader {
    pub kind: u32,
    pub segment: Segment,
    pub at: u64,
}

#[tactic(auto, unfolding(crate::specs::Records::program_header_at))]
pub(crate) fn program_header(bytes: &[u8], at: usize) -> ProgramHeader
    requires { at + 56 ≤ length bytes.now }
    ensures { result ≡ program_header_at bytes.now at }
{
    let segment = Segment {
        vaddr: u64_in(bytes, at + 16),
        memsz: u64_in(bytes, at + 40),
        offset: u64_in(bytes, at + 8),
        filesz: u64_in(bytes, at + 32),
        flags: u32_in(bytes, at + 4),
        align: u64_in(bytes, at + 48),
    };
    ProgramHeader {
        kind: u32_in(bytes, at),
        segment,
        at: at as u64,
    }
}

/// An entry of the dynamic table (Elf64_Dyn), and its own place in the file.
#[derive(Clone, Copy, Debug, PartialEq, Eq)]
pub struct DynEntry {
    pub tag: u64,
    pub value: u64,
    pub at: u64,
}

#[tactic(auto, unfolding(crate::specs::Records::dyn_entry_at))]
pub(crate) fn dyn_entry(bytes: &[u8], at: usize) -> DynEntry
    requires { at + 16 ≤ length bytes.now }
    ensures { result ≡ dyn_entry_at bytes.now at }
{
    DynEntry {
        tag: u64_in(bytes, at),
        value: u64_in(bytes, at + 8),
        at: at as u64,
    }
}

/// A symbol (Elf64_Sym), and where its name stands in the string table.
#[derive(Clone, Copy, Debug, PartialEq, Eq)]
pub struct SymbolEntry {
    pub name: u32,
    pub symbol: Symbol,
}

fn place_of(section: u16) -> Place
    ensures { result ≡ place_at section }
{
    if section == 0 {
        Place::Undefined
    } else if section == 0xfff1 {
        Place::Absolute
    } else {
        Place::Section(section as u32)
    }
}

#[tactic(auto, unfolding(crate::specs::Records::symbol_entry_at))]
pub(crate) fn symbol_entry(bytes: &[u8], at: usize) -> SymbolEntry
    requires { at + 24 ≤ length bytes.now }
    ensures { result ≡ symbol_entry_at bytes.now at }
{
    let info = bytes[at + 4];
    let symbol = Symbol {
        binding: info / 16,
        kind: info % 16,
        visibility: bytes[at + 5] % 4,
        place: place_of(u16_in(bytes, at + 6)),
        value: u64_in(bytes, at + 8),
        size: u64_in(bytes, at + 16),
        at: at as u64,
    };
    SymbolEntry {
        name: u32_in(bytes, at),
        symbol,
    }
}

/// The symbol of index 0, whatever its bytes are.
pub(crate) fn null_symbol(at: u64) -> Symbol
    ensures { result ≡ null_symbol_at at }
{
    Symbol {
        binding: 0,
        kind: 0,
        visibility: 0,
        place: Place::Undefined,
        value: 0,
        size: 0,
        at,
    }
}

/// A relocation (Elf64_Rela).
#[tactic(auto, unfolding(crate::specs::Records::reloc_at))]
pub(crate) fn reloc(bytes: &[u8], at: usize) -> DynReloc
    requires { at + 24 ≤ length bytes.now }
    ensures { result ≡ reloc_at bytes.now at }
{
    DynReloc {
        slot: u64_in(bytes, at),
        kind: u32_in(bytes, at + 8),
        symbol: u32_in(bytes, at + 12),
        addend: u64_in(bytes, at + 16).cast_signed(),
        at: at as u64,
    }
}

#[tactic(auto, unfolding(crate::specs::Records::cap_reloc_at))]
pub(crate) fn cap_reloc(bytes: &[u8], at: usize) -> CapReloc
    requires { at + 40 ≤ length bytes.now }
    ensures { result ≡ cap_reloc_at bytes.now at }
{
    CapReloc {
        location: u64_in(bytes, at),
        object: u64_in(bytes, at + 8),
        offset: u64_in(bytes, at + 16),
        size: u64_in(bytes, at + 24),
        permissions: u64_in(bytes, at + 32),
        at: at as u64,
    }
}

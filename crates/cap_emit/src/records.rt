//! The records of a linked file, each appended to it.

ghost use Rattle.std.specs.Prelude.{◌≡◌, ◌++◌, OnOk};
ghost use Rattle.cap_emit.specs.Records.{field_bytes, ident, file_header, sizes_header, segment_header, symbol_bytes, rela_bytes, cap_reloc_bytes, entry_bytes};

use cap_base::NoMemory;
use cap_elf::{CapReloc, DynReloc, Segment};
use cap_table::{DynEntry, DynSymbol};

/// ELFMAG, ELFCLASS64, ELFDATA2LSB, EV_CURRENT, and zeros.
const IDENT: &[u8; 16] = b"\x7FELF\x02\x01\x01\0\0\0\0\0\0\0\0\0";
/// A shared object.
const ET_DYN: u16 = 3;

const EM_RISCV: u16 = 243;

const EV_CURRENT: u32 = 1;
/// How many bytes the header of the file has, and where those of the segments begin.
const HEADER_SIZE: u16 = 64;

const SEGMENT_SIZE: u16 = 56;

const SEGMENT_COUNT: u16 = 6;

const SECTION_SIZE: u16 = 64;

#[tactic(auto, unfolding(crate::specs::Records::field_bytes))]
fn push_u16(file: &mut Vec<u8>, number: u16) -> Result<(), NoMemory>
    ensures { OnOk result (file.new.items ≡ file.old.items ++ field_bytes 2 number) }
{
    file.extend_from_slice(&number.to_le_bytes())?;
    Ok(())
}

#[tactic(auto, unfolding(crate::specs::Records::field_bytes))]
pub(crate) fn push_u32(file: &mut Vec<u8>, number: u32) -> Result<(), NoMemory>
    ensures { OnOk result (file.new.items ≡ file.old.items ++ field_bytes 4 number) }
{
    file.extend_from_slice(&number.to_le_bytes())?;
    Ok(())
}

#[tactic(auto, unfolding(crate::specs::Records::field_bytes))]
fn push_u64(file: &mut Vec<u8>, number: u64) -> Result<(), NoMemory>
    ensures { OnOk result (file.new.items ≡ file.old.items ++ field_bytes 8 number) }
{
    file.extend_from_slice(&number.to_le_bytes())?;
    Ok(())
}

/// Appends what the header of the file says of the sizes of headers: of its own, of the segments' and of the sections',
/// of which there are none.
#[tactic(auto, unfolding(crate::specs::Records::sizes_header))]
fn push_sizes(file: &mut Vec<u8>) -> Result<(), NoMemory>
    ensures { OnOk result (file.new.items ≡ file.old.items ++ sizes_header) }
{
    push_u16(file, HEADER_SIZE)?;
    push_u16(file, SEGMENT_SIZE)?;
    push_u16(file, SEGMENT_COUNT)?;
    push_u16(file, SECTION_SIZE)?;
    push_u16(file, 0)?;
    push_u16(file, 0)?;
    Ok(())
}

/// Appends what every ELF file of 64 bits begins with.
#[tactic(auto, unfolding(crate::specs::Records::ident))]
fn push_ident(file: &mut Vec<u8>) -> Result<(), NoMemory>
    ensures { OnOk result (file.new.items ≡ file.old.items ++ ident) }
{
    file.extend_from_slice(IDENT)?;
    Ok(())
}

/// Appends the header of the file.
#[tactic(auto, unfolding(crate::specs::Records::file_header))]
pub(crate) fn push_file_header(file: &mut Vec<u8>, flags: u32, entry: u64) -> Result<(), NoMemory>
    ensures { OnOk result (file.new.items ≡ file.old.items ++ file_header flags entry) }
{
    push_ident(file)?;
    push_u16(file, ET_DYN)?;
    push_u16(file, EM_RISCV)?;
    push_u32(file, EV_CURRENT)?;
    push_u64(file, entry)?;
    push_u64(file, u64::from(HEADER_SIZE))?;
    push_u64(file, 0)?;
    push_u32(file, flags)?;
    push_sizes(file)?;
    Ok(())
}

/// Appends the header of a segment of a type.
#[tactic(auto, unfolding(crate::specs::Records::segment_header))]
pub(crate) fn push_segment(file: &mut Vec<u8>, kind: u32, segment: Segment) -> Result<(), NoMemory>
    ensures { OnOk result (file.new.items ≡ file.old.items ++ segment_header kind segment) }
{
    push_u32(file, kind)?;
    push_u32(file, segment.flags)?;
    push_u64(file, segment.offset)?;
    push_u64(file, segment.vaddr)?;
    push_u64(file, segment.vaddr)?;
    push_u64(file, segment.filesz)?;
    push_u64(file, segment.memsz)?;
    push_u64(file, segment.align)?;
    Ok(())
}

/// Appends a symbol whose name begins at an offset of the names.
#[tactic(auto, unfolding(crate::specs::Records::symbol_bytes))]
pub(crate) fn push_symbol(
    file: &mut Vec<u8>,
    offset: u32,
    symbol: &DynSymbol<'_>,
) -> Result<(), NoMemory>
    ensures { OnOk result (file.new.items ≡ file.old.items ++ symbol_bytes (offset, symbol.now)) }
{
    push_u32(file, offset)?;
    file.push((symbol.binding & 0xf) * 16 + (symbol.kind & 0xf))?;
    file.push(symbol.visibility)?;
    push_u16(file, symbol.section)?;
    push_u64(file, symbol.value)?;
    push_u64(file, symbol.size)?;
    Ok(())
}

/// Appends a relocation.
#[tactic(auto, unfolding(crate::specs::Records::rela_bytes))]
pub(crate) fn push_rela(file: &mut Vec<u8>, rela: DynReloc) -> Result<(), NoMemory>
    ensures { OnOk result (file.new.items ≡ file.old.items ++ rela_bytes rela) }
{
    push_u64(file, rela.slot)?;
    push_u64(file, (u64::from(rela.symbol) << 32) + u64::from(rela.kind))?;
    push_u64(file, rela.addend.cast_unsigned())?;
    Ok(())
}

/// Appends a description of a capability.
#[tactic(auto, unfolding(crate::specs::Records::cap_reloc_bytes))]
pub(crate) fn push_cap_reloc(file: &mut Vec<u8>, cap_reloc: CapReloc) -> Result<(), NoMemory>
    ensures { OnOk result (file.new.items ≡ file.old.items ++ cap_reloc_bytes cap_reloc) }
{
    push_u64(file, cap_reloc.location)?;
    push_u64(file, cap_reloc.object)?;
    push_u64(file, cap_reloc.offset)?;
    push_u64(file, cap_reloc.size)?;
    push_u64(file, cap_reloc.permissions)?;
    Ok(())
}

/// Appends an entry of the dynamic table.
#[tactic(auto, unfolding(crate::specs::Records::entry_bytes))]
pub(crate) fn push_entry(file: &mut Vec<u8>, entry: DynEntry) -> Result<(), NoMemory>
    ensures { OnOk result (file.new.items ≡ file.old.items ++ entry_bytes entry) }
{
    push_u64(file, entry.tag)?;
    push_u64(file, entry.value)?;
    Ok(())
}

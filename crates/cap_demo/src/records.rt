//! The records of an object, each appended to it.

ghost use Rattle.std.specs.Prelude.{◌≡◌, ◌+◌, ◌++◌, OnOk};
ghost use Rattle.cap_demo.specs.Records.{field_bytes, ident, sizes_header, file_header, section_header, symbol_bytes, capability_bytes};

use crate::symbols::Symbol;
use cap_base::NoMemory;

/// ELFMAG, ELFCLASS64, ELFDATA2LSB, EV_CURRENT, and zeros.
const IDENT: &[u8; 16] = b"\x7FELF\x02\x01\x01\0\0\0\0\0\0\0\0\0";
/// A relocatable object.
const ET_REL: u16 = 1;

const EM_RISCV: u16 = 243;

const EV_CURRENT: u32 = 1;
/// Pure-capability code, and the mode of capabilities.
const PURE_CAPABILITY: u32 = 0x30000;
/// How many bytes the header of the file and that of a section have.
const HEADER_SIZE: u16 = 64;

const SECTION_SIZE: u16 = 64;
/// How many sections there are, the null section too, and which of them has their names.
const SECTION_COUNT: u16 = 6;

const NAME_SECTION: u16 = 5;
/// The binding of a symbol that other objects see, above its type.
const STB_GLOBAL: u8 = 1;
/// The visibility of a symbol that other objects may define too.
const STV_DEFAULT: u8 = 0;
/// A relocation by a capability (R_RISCV_CHERI_CAPABILITY).
const CAPABILITY: u64 = 193;

/// What the header of a section says but for its place and its size.
#[derive(Clone, Copy, Debug)]
pub(crate) struct Section {
    /// Where its name begins in the names.
    pub(crate) name: u32,
    pub(crate) kind: u32,
    pub(crate) flags: u64,
    pub(crate) link: u32,
    pub(crate) info: u32,
    pub(crate) align: u64,
    /// The size of one of its records.
    pub(crate) entry: u64,
}

#[tactic(auto, unfolding(crate::specs::Records::field_bytes))]
fn push_u16(file: &mut Vec<u8>, number: u16) -> Result<(), NoMemory>
    ensures { OnOk result (file.new.items ≡ file.old.items ++ field_bytes 2 number) }
{
    file.extend_from_slice(&number.to_le_bytes())?;
    Ok(())
}

#[tactic(auto, unfolding(crate::specs::Records::field_bytes))]
pub(crate) fn push_u32(file: &mut Vec<u8>, number: u32) -> Result<(), NoMemory>
    ensures { OnOk result (file.new.items ≡ file.old.items ++ field_bytes 4 number) }
{
    file.extend_from_slice(&number.to_le_bytes())?;
    Ok(())
}

#[tactic(auto, unfolding(crate::specs::Records::field_bytes))]
fn push_u64(file: &mut Vec<u8>, number: u64) -> Result<(), NoMemory>
    ensures { OnOk result (file.new.items ≡ file.old.items ++ field_bytes 8 number) }
{
    file.extend_from_slice(&number.to_le_bytes())?;
    Ok(())
}

/// Appends what every ELF file of 64 bits begins with.
#[tactic(auto, unfolding(crate::specs::Records::ident, crate::specs::Records::zeros))]
fn push_ident(file: &mut Vec<u8>) -> Result<(), NoMemory>
    ensures { OnOk result (file.new.items ≡ file.old.items ++ ident) }
{
    file.extend_from_slice(IDENT)?;
    Ok(())
}

/// Appends what the header of the file says of the sizes of headers: of its own, of the segments', of which there are
/// none, and of the sections'.
#[tactic(auto, unfolding(crate::specs::Records::sizes_header))]
fn push_sizes(file: &mut Vec<u8>) -> Result<(), NoMemory>
    ensures { OnOk result (file.new.items ≡ file.old.items ++ sizes_header) }
{
    push_u16(file, HEADER_SIZE)?;
    push_u16(file, 0)?;
    push_u16(file, 0)?;
    push_u16(file, SECTION_SIZE)?;
    push_u16(file, SECTION_COUNT)?;
    push_u16(file, NAME_SECTION)?;
    Ok(())
}

/// Appends the header of a file whose section headers begin at an offset.
#[tactic(auto, unfolding(crate::specs::Records::file_header))]
pub(crate) fn push_file_header(file: &mut Vec<u8>, sections_at: u64) -> Result<(), NoMemory>
    ensures { OnOk result (file.new.items ≡ file.old.items ++ file_header sections_at) }
{
    push_ident(file)?;
    push_u16(file, ET_REL)?;
    push_u16(file, EM_RISCV)?;
    push_u32(file, EV_CURRENT)?;
    push_u64(file, 0)?;
    push_u64(file, 0)?;
    push_u64(file, sections_at)?;
    push_u32(file, PURE_CAPABILITY)?;
    push_sizes(file)?;
    Ok(())
}

/// Appends the header of a section of so many bytes from an offset on.
#[tactic(auto, unfolding(crate::specs::Records::section_header))]
pub(crate) fn push_section(
    headers: &mut Vec<u8>,
    section: Section,
    offset: u64,
    size: u64,
) -> Result<(), NoMemory>
    ensures { OnOk result (headers.new.items ≡ headers.old.items ++ section_header section offset size) }
{
    push_u32(headers, section.name)?;
    push_u32(headers, section.kind)?;
    push_u64(headers, section.flags)?;
    push_u64(headers, 0)?;
    push_u64(headers, offset)?;
    push_u64(headers, size)?;
    push_u32(headers, section.link)?;
    push_u32(headers, section.info)?;
    push_u64(headers, section.align)?;
    push_u64(headers, section.entry)?;
    Ok(())
}

/// Appends a symbol whose name begins at an offset of the names.
#[tactic(auto, unfolding(crate::specs::Records::symbol_bytes))]
pub(crate) fn push_symbol(table: &mut Vec<u8>, name_at: u32, symbol: Symbol) -> Result<(), NoMemory>
    ensures { OnOk result (table.new.items ≡ table.old.items ++ symbol_bytes name_at symbol) }
{
    push_u32(table, name_at)?;
    table.push(STB_GLOBAL * 16 + (symbol.kind & 0xf))?;
    table.push(STV_DEFAULT)?;
    push_u16(table, symbol.section)?;
    push_u64(table, symbol.value)?;
    push_u64(table, symbol.size)?;
    Ok(())
}

/// Appends a relocation: a capability to a symbol, at an offset.
#[tactic(auto, unfolding(crate::specs::Records::capability_bytes))]
pub(crate) fn push_capability(relas: &mut Vec<u8>, at: u64, symbol: u32) -> Result<(), NoMemory>
    ensures { OnOk result (relas.new.items ≡ relas.old.items ++ capability_bytes at symbol) }
{
    push_u64(relas, at)?;
    push_u64(relas, (u64::from(symbol) << 32) + CAPABILITY)?;
    push_u64(relas, 0)?;
    Ok(())
}

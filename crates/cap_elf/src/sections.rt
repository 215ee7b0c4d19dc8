//! The sections of a relocatable object.

ghost use Rattle.std.specs.Prelude.{◌≡◌, ◌≤◌, ◌<◌, ◌+◌, ◌*◌, ◌^◌, length, IfOk, OnOk};
ghost use Rattle.cap_base.specs.Steps.{Answers, Gives};
ghost use Rattle.cap_elf.specs.Records.{table};
ghost use Rattle.cap_elf.specs.SectionTypes.{has_flag as has_flag_of, is_calls as is_calls_of, is_loadable as is_loadable_of, type_fails as type_fails_of, has_priority as has_priority_of, memory_fails as memory_fails_of, flags_fail as flags_fail_of, is_relro_name as is_relro_name_of, class_of};
ghost use Rattle.cap_elf.specs.Sections.{section_table_of, section_header_at, no_header, header_at as header_at_of, strings_in as strings_in_of, records_in as records_in_of, section_names_of, section_of, section_step, sections_of};
ghost use Rattle.cap_elf.specs.NamePlaces.{strings_at};

use crate::decode::Table;
use crate::names::rest_at;
use crate::records::{Class, Section};
use crate::section_types::{
    ALLOC, COMPRESSED, EXECINSTR, FINI_ARRAY, GROUP, INIT_ARRAY, NOBITS, NOTE, PREINIT_ARRAY,
    PROGBITS, REL, STRTAB, SYMTAB_SHNDX, TLS, WRITE,
};
use cap_base::{Check, Fault, Stop, is_inside, refuse, u16_in, u32_in, u64_in};
use std::alloc::{AllocError, Global};

/// A section header (Elf64_Shdr), and its own place in the file.
#[derive(Clone, Copy, Debug, PartialEq, Eq)]
pub(crate) struct SectionHeader {
    pub(crate) name: u32,
    pub(crate) kind: u32,
    pub(crate) flags: u64,
    pub(crate) offset: u64,
    pub(crate) size: u64,
    pub(crate) link: u32,
    pub(crate) info: u32,
    pub(crate) align: u64,
    pub(crate) width: u64,
    pub(crate) at: u64,
}

/// Where the section headers stand (e_shoff, e_shentsize, e_shnum).
#[tactic(auto, unfolding(crate::specs::Sections::section_table_of))]
pub(crate) fn section_table(bytes: &[u8]) -> Result<Table, Fault>
    requires { 64 ≤ length bytes.now }
    ensures value { result ≡ section_table_of bytes.now }
    ensures inside { IfOk result (λ t. t.at + 64 * t.count ≤ length bytes.now) }
    ensures few { IfOk result (λ t. t.count < 2 ^ 16) }
{
    let at = u64_in(bytes, 40);
    let count = u16_in(bytes, 60) as u64;
    let outside = !is_inside(at, 64 * count, bytes.len() as u64);
    let no_names = u16_in(bytes, 62) as u64 >= count;
    refuse(
        count == 0 || u16_in(bytes, 58) != 64 || outside || no_names,
        Check::SectionHeaders,
        40,
    )?;
    Ok(Table {
        at: at as usize,
        count: count as usize,
    })
}

#[tactic(auto, unfolding(crate::specs::Sections::section_header_at))]
fn section_header(bytes: &[u8], at: usize) -> SectionHeader
    requires { at + 64 ≤ length bytes.now }
    ensures { result ≡ section_header_at bytes.now at }
{
    SectionHeader {
        name: u32_in(bytes, at),
        kind: u32_in(bytes, at + 4),
        flags: u64_in(bytes, at + 8),
        offset: u64_in(bytes, at + 24),
        size: u64_in(bytes, at + 32),
        link: u32_in(bytes, at + 40),
        info: u32_in(bytes, at + 44),
        align: u64_in(bytes, at + 48),
        width: u64_in(bytes, at + 56),
        at: at as u64,
    }
}

/// The section headers.
#[tactic(auto, using(crate::proofs::Walk::table_more))]
pub(crate) fn section_headers(
    alloc: Global,
    bytes: &[u8],
    place: Table,
) -> Result<Vec<SectionHeader>, AllocError>
    requires { place.at + 64 * place.count ≤ length bytes.now }
    ensures items { IfOk result (λ v. v.items ≡ table (section_header_at bytes.now) place.at 64 place.count) }
    ensures len { IfOk result (λ v. length v.items ≡ place.count) }
{
    let mut headers = Vec::with_capacity(alloc, place.count)?;
    for i in 0..place.count {
        headers.push(section_header(bytes, place.at + 64 * i))?;
    }
    Ok(headers)
}

/// The header of this index; past the end that of no section (SHT_NULL).
pub(crate) fn header_at(headers: &[SectionHeader], index: u32) -> SectionHeader
    ensures { result ≡ header_at_of headers.now index }
{
    match headers.get(index as usize) {
        Some(header) => *header,
        None => SectionHeader {
            name: 0,
            kind: 0,
            flags: 0,
            offset: 0,
            size: 0,
            link: 0,
            info: 0,
            align: 0,
            width: 0,
            at: 0,
        },
    }
}

/// Where a string table stands in the file.
#[derive(Clone, Copy, Debug, PartialEq, Eq)]
pub(crate) struct Strings {
    pub(crate) start: usize,
    pub(crate) end: usize,
}

/// Where the string table of a section stands.
#[tactic(auto, unfolding(crate::specs::Sections::strings_in))]
pub(crate) fn strings_place(
    bytes: &[u8],
    header: &SectionHeader,
    check: Check,
    at: u64,
) -> Result<Strings, Fault>
    ensures value { Answers (λ s. strings_at bytes.now s) result (strings_in_of bytes.now header.now check at) }
    ensures ordered { IfOk result (λ s. s.start ≤ s.end) }
    ensures inside { IfOk result (λ s. s.end ≤ length bytes.now) }
{
    let outside = !is_inside(header.offset, header.size, bytes.len() as u64);
    refuse(header.kind != STRTAB || outside, check, at)?;
    let place = Strings {
        start: header.offset as usize,
        end: (header.offset + header.size) as usize,
    };
    let strings = &bytes[place.start..place.end];
    let fails = header.size == 0 || strings[0] != 0 || strings[strings.len() - 1] != 0;
    refuse(fails, check, at)?;
    Ok(place)
}

/// The bytes of a string table.
fn strings_in<'a>(
    bytes: &'a [u8],
    header: &SectionHeader,
    check: Check,
    at: u64,
) -> Result<&'a [u8], Fault>
    ensures { Answers (λ s. s.now) result (strings_in_of bytes.now header.now check at) }
{
    let place = strings_place(bytes, header, check, at)?;
    Ok(&bytes[place.start..place.end])
}

/// Where the records of a section stand, which are symbols or relocations.
#[tactic(auto, unfolding(crate::specs::Sections::records_in))]
pub(crate) fn records_in(
    file_len: u64,
    header: &SectionHeader,
    check: Check,
) -> Result<Table, Fault>
    ensures value { result ≡ records_in_of file_len header.now check }
    ensures inside { IfOk result (λ t. t.at + 24 * t.count ≤ file_len) }
{
    let outside = !is_inside(header.offset, header.size, file_len);
    refuse(
        header.width != 24 || header.size % 24 != 0 || outside,
        check,
        header.at,
    )?;
    Ok(Table {
        at: header.offset as usize,
        count: (header.size / 24) as usize,
    })
}

/// The names of sections (e_shstrndx).
#[tactic(auto, unfolding(crate::specs::Sections::section_names_of))]
pub(crate) fn section_names<'a>(
    bytes: &'a [u8],
    headers: &[SectionHeader],
) -> Result<&'a [u8], Fault>
    requires { 64 ≤ length bytes.now }
    ensures { Answers (λ s. s.now) result (section_names_of bytes.now headers.now) }
{
    let header = header_at(headers, u16_in(bytes, 62) as u32);
    strings_in(bytes, &header, Check::SectionNames, header.at)
}

fn has_flag(header: &SectionHeader, flag: u64) -> bool
    ensures { result ≡ has_flag_of header.now flag }
{
    header.flags & flag == flag
}

fn is_calls(header: &SectionHeader) -> bool
    ensures { result ≡ is_calls_of header.now }
{
    header.kind == INIT_ARRAY || header.kind == FINI_ARRAY
}

#[tactic(auto, unfolding(crate::specs::SectionTypes::is_loadable))]
fn is_loadable(header: &SectionHeader) -> bool
    ensures { result ≡ is_loadable_of header.now }
{
    let kind = header.kind;
    kind == PROGBITS || kind == NOTE || kind == NOBITS || is_calls(header)
}

#[tactic(auto, unfolding(crate::specs::SectionTypes::type_fails))]
fn type_fails(header: &SectionHeader) -> bool
    ensures { result ≡ type_fails_of header.now }
{
    let kind = header.kind;
    kind == REL
        || kind == PREINIT_ARRAY
        || kind == GROUP
        || kind == SYMTAB_SHNDX
        || (has_flag(header, ALLOC) && !is_loadable(header))
}

#[tactic(auto, unfolding(crate::specs::SectionTypes::has_priority))]
fn has_priority(name: &[u8]) -> bool
    ensures { result ≡ has_priority_of name.now }
{
    name.starts_with(b".init_array.") || name.starts_with(b".fini_array.")
}

#[tactic(auto, unfolding(crate::specs::SectionTypes::memory_fails))]
fn memory_fails(header: &SectionHeader) -> bool
    ensures { result ≡ memory_fails_of header.now }
{
    has_flag(header, TLS)
        || has_flag(header, COMPRESSED)
        || (has_flag(header, WRITE) && has_flag(header, EXECINSTR))
        || (header.kind == NOBITS && !has_flag(header, WRITE))
}

#[tactic(auto, unfolding(crate::specs::SectionTypes::flags_fail))]
fn flags_fail(name: &[u8], header: &SectionHeader) -> bool
    ensures { result ≡ flags_fail_of name.now header.now }
{
    (has_flag(header, ALLOC) && memory_fails(header))
        || (is_calls(header) && (!has_flag(header, WRITE) || has_priority(name)))
}

#[tactic(auto, unfolding(crate::specs::SectionTypes::is_relro_name))]
fn is_relro_name(name: &[u8]) -> bool
    ensures { result ≡ is_relro_name_of name.now }
{
    name.starts_with(b".data.rel.ro\0") || name.starts_with(b".data.rel.ro.")
}

/// What a section holds.
#[tactic(auto, unfolding(crate::specs::SectionTypes::class_of))]
fn class(name: &[u8], header: &SectionHeader) -> Class
    ensures { result ≡ class_of name.now header.now }
{
    let kind = header.kind;
    if !has_flag(header, ALLOC) || kind == NOTE {
        Class::Dropped
    } else if kind == NOBITS {
        Class::Bss
    } else if has_flag(header, EXECINSTR) {
        Class::Code
    } else if kind == INIT_ARRAY {
        Class::Init
    } else if kind == FINI_ARRAY {
        Class::Fini
    } else if !has_flag(header, WRITE) {
        Class::Ro
    } else if is_relro_name(name) {
        Class::Relro
    } else {
        Class::Data
    }
}

/// A section that passes each check.
#[tactic(auto, unfolding(crate::specs::Sections::section_of))]
fn section(file_len: u64, names: &[u8], header: &SectionHeader) -> Result<Section, Fault>
    ensures { result ≡ section_of file_len names.now header.now }
{
    let at = header.at;
    refuse(type_fails(header), Check::SectionType, at)?;
    let unnamed = Fault {
        check: Check::SectionNames,
        at,
    };
    let name = rest_at(names, header.name as u64).ok_or(unnamed)?;
    refuse(flags_fail(name, header), Check::SectionFlags, at)?;
    let is_zeros = header.kind == NOBITS;
    let outside = !is_inside(header.offset, header.size, file_len);
    refuse(!is_zeros && outside, Check::SectionRange, at)?;
    let align = header.align.max(1);
    refuse(!align.is_power_of_two(), Check::SectionAlignment, at)?;
    refuse(header.align > 65536, Check::SectionAlignmentLimit, 0)?;
    let too_many_zeros = has_flag(header, ALLOC) && is_zeros && header.size > 1 << 26;
    refuse(too_many_zeros, Check::SectionSize, 0)?;
    Ok(Section {
        class: class(name, header),
        size: header.size,
        align,
        offset: header.offset,
        at,
    })
}

#[tactic(auto, unfolding(crate::specs::Sections::section_step))]
fn add_section(
    sections: &mut Vec<Section>,
    file_len: u64,
    names: &[u8],
    header: &SectionHeader,
) -> Result<(), Stop>
    ensures value { Gives (λ _. sections.new.items) result (section_step file_len names.now sections.old.items header.now) }
    ensures len { OnOk result (length sections.new.items ≡ length sections.old.items + 1) }
{
    sections.push(section(file_len, names, header)?)?;
    Ok(())
}

/// The sections by their indices.
#[tactic(auto, using(cap_base::proofs::Walk::steps_more, cap_base::proofs::Walk::steps_stop))]
pub(crate) fn read_sections(
    alloc: Global,
    file_len: u64,
    names: &[u8],
    headers: &[SectionHeader],
) -> Result<Vec<Section>, Stop>
    ensures value { Gives (λ v. v.items) result (sections_of file_len names.now headers.now) }
    ensures len { IfOk result (λ v. length v.items ≡ length headers.now) }
{
    let mut sections = Vec::with_capacity(alloc, headers.len())?;
    for header in headers {
        add_section(&mut sections, file_len, names, header)?;
    }
    Ok(sections)
}

//! A relocatable object that was read.

ghost use Rattle.std.specs.Prelude.{◌≡◌, ◌<◌, [], length, slice_index_or, IfOk};
ghost use Rattle.cap_base.specs.Steps.{Reads};
ghost use Rattle.cap_elf.specs.RelView.{rel_view};
ghost use Rattle.cap_elf.specs.IsRelRead.{IsRelRead};
ghost use Rattle.cap_elf.specs.NamePlaces.{strings_at, names_at, AreNamesInside};

use crate::records::{Reloc, Section, Symbol};
use crate::rel_named::NamePlace;
use crate::rel_reading::{RelRecords, read_rel_records};
use crate::sections::Strings;
use cap_base::Refusal;
use std::alloc::Global;
use std::marker::Model;

/// A relocatable object (ET_REL) that passed every check: its records, the bytes of its file, in which its sections and
/// the names of its symbols stand, and the number that the file was given.
#[derive(Drop)]
pub struct RelFile {
    number: u32,
    flags: u32,
    sections: Vec<Section>,
    symbols: Vec<Symbol>,
    strings: Strings,
    names: Vec<NamePlace>,
    relocs: Vec<Reloc>,
    bytes: Vec<u8>,
}

impl Model for RelFile {
    ghost use Rattle.cap_elf.specs.RelObject.{RelObject, contents_of, rel_object};

    ghost Value = { RelObject };

    ghost use Rattle.std.specs.Prelude.{length};
    ghost use Rattle.cap_elf.specs.IsRelRead.{IsRelRead, AreInside};
    ghost use Rattle.cap_elf.specs.NamePlaces.{strings_at, names_at, AreNamesInside};

    ghost view = { λ f. rel_object f.number f.flags f.sections.items f.symbols.items (names_at (strings_at f.bytes.items f.strings) f.names.items) f.relocs.items f.bytes.items };

    ghost invariant = { λ f. IsRelRead (rel_object f.number f.flags f.sections.items f.symbols.items (names_at (strings_at f.bytes.items f.strings) f.names.items) f.relocs.items f.bytes.items) × AreInside (length f.bytes.items) f.sections.items × AreNamesInside (length f.bytes.items) f.strings f.names.items };
}

/// The name of this index, among the strings of a file.
#[tactic(auto, using(crate::proofs::ByName::name_of_place))]
fn name_in<'a>(bytes: &'a [u8], strings: Strings, names: &[NamePlace], i: usize) -> &'a [u8]
    requires names { AreNamesInside (length bytes.now) strings names.now }
    requires inside { i < length names.now }
    ensures { result.now ≡ slice_index_or (names_at (strings_at bytes.now strings) names.now) i [] }
{
    let strings = &bytes[strings.start..strings.end];
    let place = names[i];
    let start = place.offset as usize;
    &strings[start..start + place.len as usize]
}

/// Reads a relocatable object (ET_REL) of the pure-capability RISC-V profile, whose file is given this number. The
/// bytes are kept, and neither a section nor a name is copied.
///
/// The refusal is Malformed, Unsupported or Limit by the first check that fails, with the file's number and the offset
/// of what is at fault; or NoMemory, also for a file of more than 2^62 bytes. The checks in their order, with what the
/// System V gABI says of each:
///
/// - The header, as for a shared object, but of type ET_REL.
/// - The section header table (e_shoff, e_shentsize, e_shnum), and e_shstrndx, "the section header table index of the
///   entry associated with the section name string table". It is a string table, whose first and last bytes are 0.
/// - Each section: no SHT_REL, SHT_PREINIT_ARRAY, SHT_GROUP or SHT_SYMTAB_SHNDX, and with SHF_ALLOC no type but
///   SHT_PROGBITS, SHT_NOTE, SHT_NOBITS, SHT_INIT_ARRAY and SHT_FINI_ARRAY. Its name is in the table of names. With
///   SHF_ALLOC it is neither SHF_TLS nor SHF_COMPRESSED, nor code that is written, nor zeros that aren't; an array of
///   calls is written, and has no priority in its name. It "occupies no space in the file" or lies in it. Its alignment
///   is 0 or one of the "positive integral powers of two", 65,536 at most; and zeros in memory are 2^26 at most.
/// - The symbol table: "an object file may have only one section of each type". Its sh_link is "the section header index
///   of the associated string table", its entries have their size. At most 2^20 symbols; a file without a table has the
///   null symbol alone.
/// - Each symbol but the first: its name, type, binding and section index, of which those from SHN_LORESERVE on are
///   reserved, SHN_ABS and SHN_COMMON aside. A symbol lies in its section: "st_value holds a section offset". A common
///   one is global, its "st_value holds alignment constraints", up to 65,536, and its size is 2^26 at most. A function
///   lies in code and data elsewhere, in an array of calls there are only labels, and symbols of sections that aren't
///   kept are local.
/// - Each SHT_RELA section: its entries have their size, its sh_link is "the section header index of the associated
///   symbol table", and its sh_info "the section header index of the section to which the relocation applies", which no
///   other one applies to. At most 2^20 relocations of kept sections.
/// - Each relocation of a kept section: ELF64_R_SYM is the index of an entry of the symbol table.
#[tactic(auto, unfolding(crate::specs::RelView::rel_view), using(crate::proofs::RelWalk::refuses_on))]
pub fn read_rel(alloc: Global, number: u32, bytes: Vec<u8>) -> Result<RelFile, Refusal>
    ensures value { Reads (λ f. f) number result (rel_view number bytes.items) }
    ensures sound { IfOk result IsRelRead }
{
    if bytes.len() as u64 > 1 << 62 {
        return Err(Refusal::NoMemory);
    }
    match read_rel_records(alloc, &bytes) {
        Ok(records) => {
            let RelRecords {
                flags,
                sections,
                symbols,
                strings,
                names,
                relocs,
            } = records;
            Ok(RelFile {
                number,
                flags,
                sections,
                symbols,
                strings,
                names,
                relocs,
                bytes,
            })
        }
        Err(stop) => Err(stop.refusal(number)),
    }
}

impl RelFile {
    ghost use Rattle.std.specs.Prelude.{◌<◌, [], length, slice_index_or, IsTrue};
    ghost use Rattle.cap_elf.specs.RelObject.{has_content, section_of, bytes_of};

    /// The number that the file was given when it was read.
    pub fn number(&self) -> u32
        ensures { result ≡ self.now.number }
    {
        self.number
    }

    /// The flags of the file's header (e_flags).
    pub fn flags(&self) -> u32
        ensures { result ≡ self.now.flags }
    {
        self.flags
    }

    /// The sections by their indices, those that aren't kept too.
    pub fn sections(&self) -> &[Section]
        ensures sections { result.now ≡ self.now.sections }
        ensures sound { IsRelRead self.now }
    {
        self.sections.as_slice()
    }

    /// The symbols by their indices; the first is the null symbol.
    pub fn symbols(&self) -> &[Symbol]
        ensures symbols { result.now ≡ self.now.symbols }
        ensures sound { IsRelRead self.now }
    {
        self.symbols.as_slice()
    }

    /// The relocations of kept sections, by the sections that they change, and as they stand in the file.
    pub fn relocs(&self) -> &[Reloc]
        ensures relocs { result.now ≡ self.now.relocs }
        ensures sound { IsRelRead self.now }
    {
        self.relocs.as_slice()
    }

    /// The name of the symbol of this index.
    pub fn name(&self, symbol: u32) -> &[u8]
        requires { symbol < length self.now.symbols }
        ensures name { result.now ≡ slice_index_or self.now.names symbol [] }
        ensures sound { IsRelRead self.now }
    {
        name_in(&self.bytes, self.strings, &self.names, symbol as usize)
    }

    /// The bytes of a section that is kept and has bytes in the file.
    pub fn content(&self, section: u32) -> &[u8]
        requires inside { section < length self.now.sections }
        requires some { IsTrue (has_content (section_of self.now section)) }
        ensures content { result.now ≡ bytes_of self.now section }
        ensures long { length result.now ≡ (section_of self.now section).size }
    {
        let section = &self.sections[section as usize];
        let start = section.offset as usize;
        &self.bytes[start..start + section.size as usize]
    }
}

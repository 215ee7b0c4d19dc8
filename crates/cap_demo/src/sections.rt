//! What the sections of an object hold, and their headers.

ghost use Rattle.std.specs.Prelude.{◌≡◌, ◌+◌, ◌*◌, ◌<◌, ◌≤◌, ◌^◌, length, sum, IfOk, OnOk};
ghost use Rattle.cap_demo.specs.Choices.{AreSizes};
ghost use Rattle.cap_demo.specs.Sections.{code_bytes as code_of, data_bytes as data_of, capabilities_from, with_symbol, no_symbols, named_symbols as named_of, code_section as code_header, data_section as data_header, rela_section as rela_header, symbol_section as symbol_header, name_section as name_header};

use crate::names::SymbolName;
use crate::records::{Section, push_capability, push_symbol, push_u32};
use crate::symbols::{Symbol, TABLE_SIZE, place};
use cap_base::NoMemory;
use std::alloc::Global;
use std::marker::Model;

/// An instruction that does nothing (`addi x0, x0, 0`).
const NOP: u32 = 0x0000_0013;
/// How many bytes a capability and a symbol have, a relocation too.
const CAPABILITY_SIZE: u64 = 16;

const RECORD_SIZE: usize = 24;
/// The names of the sections behind the empty name, and where each begins.
const SECTION_NAMES: &[u8; 40] = b"\0.text\0.data\0.rela.data\0.symtab\0.strtab\0";

const CODE_NAME: u32 = 1;

const DATA_NAME: u32 = 7;

const RELA_NAME: u32 = 13;

const SYMBOL_NAME: u32 = 24;

const STRING_NAME: u32 = 32;
/// The types of sections.
const SHT_PROGBITS: u32 = 1;

const SHT_SYMTAB: u32 = 2;

const SHT_STRTAB: u32 = 3;

const SHT_RELA: u32 = 4;
/// What a section is in memory: SHF_ALLOC with SHF_EXECINSTR, and with SHF_WRITE.
const RUN: u64 = 6;

const WRITTEN: u64 = 3;
/// The sections that others name.
const DATA: u32 = 2;

const SYMBOLS: u32 = 4;

const STRINGS: u32 = 5;
/// How code, records and names are aligned; data as a capability is.
const CODE_ALIGN: u64 = 4;

const RECORD_ALIGN: u64 = 8;

const BYTE_ALIGN: u64 = 1;
/// The first symbol that isn't local: only the null symbol is.
const FIRST_GLOBAL: u32 = 1;
/// No name of a symbol has more bytes, with its zero byte.
const LONGEST_NAME: usize = 83;

#[tactic(auto, unfolding(crate::specs::Sections::code_section, crate::specs::Sections::names_before, crate::specs::Sections::section_names, crate::specs::Sections::ended))]
pub(crate) fn code_section() -> Section
    ensures { result ≡ code_header }
{
    Section {
        name: CODE_NAME,
        kind: SHT_PROGBITS,
        flags: RUN,
        link: 0,
        info: 0,
        align: CODE_ALIGN,
        entry: 0,
    }
}

#[tactic(auto, unfolding(crate::specs::Sections::data_section, crate::specs::Sections::names_before, crate::specs::Sections::section_names, crate::specs::Sections::ended))]
pub(crate) fn data_section() -> Section
    ensures { result ≡ data_header }
{
    Section {
        name: DATA_NAME,
        kind: SHT_PROGBITS,
        flags: WRITTEN,
        link: 0,
        info: 0,
        align: CAPABILITY_SIZE,
        entry: 0,
    }
}

#[tactic(auto, unfolding(crate::specs::Sections::rela_section, crate::specs::Sections::names_before, crate::specs::Sections::section_names, crate::specs::Sections::ended))]
pub(crate) fn rela_section() -> Section
    ensures { result ≡ rela_header }
{
    Section {
        name: RELA_NAME,
        kind: SHT_RELA,
        flags: 0,
        link: SYMBOLS,
        info: DATA,
        align: RECORD_ALIGN,
        entry: RECORD_SIZE as u64,
    }
}

#[tactic(auto, unfolding(crate::specs::Sections::symbol_section, crate::specs::Sections::names_before, crate::specs::Sections::section_names, crate::specs::Sections::ended))]
pub(crate) fn symbol_section() -> Section
    ensures { result ≡ symbol_header }
{
    Section {
        name: SYMBOL_NAME,
        kind: SHT_SYMTAB,
        flags: 0,
        link: STRINGS,
        info: FIRST_GLOBAL,
        align: RECORD_ALIGN,
        entry: RECORD_SIZE as u64,
    }
}

#[tactic(auto, unfolding(crate::specs::Sections::name_section, crate::specs::Sections::names_before, crate::specs::Sections::section_names, crate::specs::Sections::ended))]
pub(crate) fn name_section() -> Section
    ensures { result ≡ name_header }
{
    Section {
        name: STRING_NAME,
        kind: SHT_STRTAB,
        flags: 0,
        link: 0,
        info: 0,
        align: BYTE_ALIGN,
        entry: 0,
    }
}

/// The code: a function that does nothing.
#[tactic(auto, unfolding(crate::specs::Sections::code_bytes))]
pub(crate) fn code_bytes(alloc: Global) -> Result<Vec<u8>, NoMemory>
    ensures { IfOk result (λ bytes. bytes.items ≡ code_of) }
{
    let mut bytes = Vec::new(alloc);
    push_u32(&mut bytes, NOP)?;
    Ok(bytes)
}

/// How many bytes the table and the data have.
#[tactic(auto, using(crate::proofs::Sizes::sum_more))]
fn data_size(sizes: &[u64]) -> usize
    requires { AreSizes sizes.now }
    ensures value { result ≡ 1040 + sum sizes.now }
    ensures bound { result ≤ 1040 + 64 * 9000 }
{
    let mut size = TABLE_SIZE;
    for datum in sizes {
        size += *datum;
    }
    size as usize
}

/// The table and the data, before the table is relocated.
#[tactic(auto, unfolding(crate::specs::Sections::data_bytes, crate::specs::Records::zeros))]
pub(crate) fn data_bytes(alloc: Global, sizes: &[u64]) -> Result<Vec<u8>, NoMemory>
    requires { AreSizes sizes.now }
    ensures value { IfOk result (λ bytes. bytes.items ≡ data_of sizes.now) }
    ensures short { IfOk result (λ bytes. length bytes.items ≤ 1040 + 64 * 9000) }
{
    let mut bytes = Vec::new(alloc);
    bytes.resize(data_size(sizes), 0)?;
    Ok(bytes)
}

/// The relocations: a capability in the table for each target.
pub(crate) fn capabilities(
    alloc: Global,
    symbols: &[Symbol],
    targets: &[SymbolName],
) -> Result<Vec<u8>, NoMemory>
    requires symbols { length symbols.now ≤ 256 }
    requires targets { length targets.now ≤ 256 }
    ensures value { IfOk result (λ bytes. bytes.items ≡ capabilities_from 0 symbols.now targets.now) }
    ensures short { IfOk result (λ bytes. length bytes.items ≡ 24 * length targets.now) }
{
    let mut relas = Vec::with_capacity(alloc, RECORD_SIZE * targets.len())?;
    for (i, target) in targets.iter().enumerate() {
        let symbol = 1 + place(symbols, *target);
        push_capability(&mut relas, CAPABILITY_SIZE * i as u64, symbol as u32)?;
    }
    Ok(relas)
}

/// The table of symbols, and the names of sections and symbols.
#[derive(Debug, Drop)]
pub(crate) struct NamedSymbols {
    pub(crate) table: Vec<u8>,
    pub(crate) names: Vec<u8>,
}

impl Model for NamedSymbols {
    ghost use Rattle.cap_demo.specs.Sections.{NamedSymbols as NamedValue};

    ghost Value = { NamedValue };

    ghost view = { λ n. record { table = n.table.items; names = n.names.items } };
}

impl NamedSymbols {
    /// The null symbol, and the names of the sections. There is room for so many symbols.
    #[tactic(auto, unfolding(crate::specs::Sections::no_symbols, crate::specs::Sections::names_before, crate::specs::Sections::section_names, crate::specs::Sections::ended, crate::specs::Records::zeros))]
    fn new(alloc: Global, count: usize) -> Result<NamedSymbols, NoMemory>
        requires { count ≤ 256 }
        ensures value { IfOk result (λ named. named ≡ no_symbols) }
        ensures table { IfOk result (λ named. length named.table ≡ 24) }
        ensures names { IfOk result (λ named. length named.names ≡ 40) }
    {
        let mut table = Vec::with_capacity(alloc, RECORD_SIZE * (1 + count))?;
        table.resize(RECORD_SIZE, 0)?;
        let mut names = Vec::with_capacity(alloc, SECTION_NAMES.len() + LONGEST_NAME * count)?;
        names.extend_from_slice(SECTION_NAMES)?;
        Ok(NamedSymbols { table, names })
    }

    /// Appends a symbol and its name.
    #[tactic(auto, unfolding(crate::specs::Sections::with_symbol, crate::specs::Sections::ended), using(crate::proofs::Lengths::length_symbol))]
    fn push(&mut self, symbol: Symbol) -> Result<(), NoMemory>
        requires { length self.old.names < 2 ^ 32 }
        ensures value { OnOk result (self.new ≡ with_symbol self.old symbol) }
        ensures table { OnOk result (length self.new.table ≡ length self.old.table + 24) }
        ensures names { OnOk result (length self.new.names ≤ length self.old.names + 83) }
    {
        push_symbol(&mut self.table, self.names.len() as u32, symbol)?;
        symbol.name.push(&mut self.names)?;
        self.names.push(0)?;
        Ok(())
    }
}

/// The table of symbols, and the names of sections and symbols.
#[tactic(auto, unfolding(crate::specs::Sections::named_symbols), using(crate::proofs::Folding::fold_more, crate::proofs::Folding::fold_done))]
pub(crate) fn named_symbols(alloc: Global, symbols: &[Symbol]) -> Result<NamedSymbols, NoMemory>
    requires { length symbols.now ≤ 256 }
    ensures value { IfOk result (λ named. named ≡ named_of symbols.now) }
    ensures table { IfOk result (λ named. length named.table ≡ 24 + 24 * length symbols.now) }
    ensures names { IfOk result (λ named. length named.names ≤ 40 + 83 * length symbols.now) }
{
    let mut named = NamedSymbols::new(alloc, symbols.len())?;
    for symbol in symbols {
        named.push(*symbol)?;
    }
    Ok(named)
}

//! The relocations of a relocatable object.

ghost use Rattle.std.specs.Prelude.{ℕ, ◌≡◌, ◌≤◌, ◌<◌, ◌+◌, ◌*◌, ◌^◌, ◌++◌, length, map, All, IfOk, IfSome, OnOk};
ghost use Rattle.cap_base.specs.Steps.{Answers, Gives};
ghost use Rattle.cap_elf.specs.Records.{table};
ghost use Rattle.cap_elf.specs.RelRelocs.{target_at, targets_at, target_step, targets_of, kept_relocs as kept_relocs_of, rel_reloc_at, relocs_step, relocs_at, names_symbol as names_symbol_of, name_symbols as name_symbols_of, rel_relocs_of};

use crate::decode::Table;
use crate::records::{Reloc, Section};
use crate::section_types::{RELA, SYMTAB};
use crate::sections::{SectionHeader, header_at, records_in};
use cap_base::{Check, Fault, Stop, refuse, u32_in, u64_in};
use std::alloc::{AllocError, Global};

/// A section, and where the relocations stand that change it.
#[derive(Clone, Copy, Debug, PartialEq, Eq)]
pub(crate) struct Target {
    pub(crate) section: u32,
    pub(crate) is_kept: bool,
    pub(crate) relocs: Option<Table>,
}

/// A section that no relocations change yet.
fn untouched(sections: &[Section], i: usize) -> Target
    requires inside { i < length sections.now }
    requires few { length sections.now < 2 ^ 16 }
    ensures { result ≡ target_at sections.now i }
{
    Target {
        section: i as u32,
        is_kept: sections[i].class.is_kept(),
        relocs: None,
    }
}

/// The sections, which no relocations change yet.
#[tactic(auto, using(crate::proofs::RelWalk::items_more))]
fn targets(alloc: Global, sections: &[Section]) -> Result<Vec<Target>, AllocError>
    requires { length sections.now < 2 ^ 16 }
    ensures { IfOk result (λ v. v.items ≡ targets_at sections.now) }
{
    let mut targets = Vec::with_capacity(alloc, sections.len())?;
    for i in 0..sections.len() {
        targets.push(untouched(sections, i))?;
    }
    Ok(targets)
}

/// The sections with their relocations so far, and with those of one more section.
#[tactic(auto, unfolding(crate::specs::RelRelocs::target_step))]
fn with_relocs(
    mut targets: Vec<Target>,
    file_len: u64,
    headers: &[SectionHeader],
    header: &SectionHeader,
) -> Result<Vec<Target>, Fault>
    requires { All (λ t. IfSome t.relocs (λ p. p.at + 24 * p.count ≤ file_len)) targets.items }
    ensures value { Answers (λ v. v.items) result (target_step file_len headers.now targets.items header.now) }
    ensures inside { IfOk result (λ v. All (λ t. IfSome t.relocs (λ p. p.at + 24 * p.count ≤ file_len)) v.items) }
{
    if header.kind != RELA {
        return Ok(targets);
    }
    let place = records_in(file_len, header, Check::RelocationSection)?;
    let symbols = header_at(headers, header.link);
    refuse(symbols.kind != SYMTAB, Check::RelocationSection, header.at)?;
    let section = header.info as usize;
    let is_none = section == 0 || section >= targets.len();
    refuse(is_none, Check::RelocationSection, header.at)?;
    let target = targets[section];
    refuse(target.relocs.is_some(), Check::RelocationSection, header.at)?;
    targets[section] = Target {
        relocs: Some(place),
        ..target
    };
    Ok(targets)
}

/// The sections with their relocations, by their indices.
#[tactic(auto, using(cap_base::proofs::Walk::steps_more, cap_base::proofs::Walk::steps_stop, crate::proofs::RelWalk::untouched))]
fn read_targets(
    alloc: Global,
    file_len: u64,
    headers: &[SectionHeader],
    sections: &[Section],
) -> Result<Vec<Target>, Stop>
    requires { length sections.now < 2 ^ 16 }
    ensures value { Gives (λ v. v.items) result (targets_of file_len headers.now sections.now) }
    ensures inside { IfOk result (λ v. All (λ t. IfSome t.relocs (λ p. p.at + 24 * p.count ≤ file_len)) v.items) }
{
    let mut targets = targets(alloc, sections)?;
    for header in headers {
        targets = with_relocs(targets, file_len, headers, header)?;
    }
    Ok(targets)
}

/// Where the relocations of a section stand: nowhere, where it isn't kept.
#[tactic(auto, unfolding(crate::specs::RelRelocs::kept_relocs))]
fn kept_relocs(target: &Target) -> Table
    ensures value { result ≡ kept_relocs_of target.now }
    ensures inside { (file_len : ℕ) → IfSome target.now.relocs (λ p. p.at + 24 * p.count ≤ file_len) → result.at + 24 * result.count ≤ file_len }
{
    let none = Table { at: 0, count: 0 };
    if target.is_kept {
        target.relocs.unwrap_or(none)
    } else {
        none
    }
}

#[tactic(auto, unfolding(crate::specs::RelRelocs::rel_reloc_at))]
fn rel_reloc(bytes: &[u8], section: u32, at: usize) -> Reloc
    requires { at + 24 ≤ length bytes.now }
    ensures { result ≡ rel_reloc_at bytes.now section at }
{
    Reloc {
        section,
        offset: u64_in(bytes, at),
        kind: u32_in(bytes, at + 8),
        symbol: u32_in(bytes, at + 12),
        addend: u64_in(bytes, at + 16).cast_signed(),
        at: at as u64,
    }
}

#[tactic(auto, using(crate::proofs::Walk::table_after))]
fn add_table(
    relocs: &mut Vec<Reloc>,
    bytes: &[u8],
    section: u32,
    place: Table,
) -> Result<(), AllocError>
    requires { place.at + 24 * place.count ≤ length bytes.now }
    ensures { OnOk result (relocs.new.items ≡ relocs.old.items ++ table (rel_reloc_at bytes.now section) place.at 24 place.count) }
{
    relocs.reserve(place.count)?;
    for i in 0..place.count {
        relocs.push(rel_reloc(bytes, section, place.at + 24 * i))?;
    }
    Ok(())
}

#[tactic(auto, unfolding(crate::specs::RelRelocs::relocs_step))]
fn add_relocs(relocs: &mut Vec<Reloc>, bytes: &[u8], target: &Target) -> Result<(), Stop>
    requires { IfSome target.now.relocs (λ p. p.at + 24 * p.count ≤ length bytes.now) }
    ensures { Gives (λ _. relocs.new.items) result (relocs_step bytes.now relocs.old.items target.now) }
{
    let place = kept_relocs(target);
    let count = relocs.len() + place.count;
    refuse(count > 1 << 20, Check::RelocationCount, 0)?;
    add_table(relocs, bytes, target.section, place)?;
    Ok(())
}

#[tactic(auto, using(cap_base::proofs::Walk::steps_more, cap_base::proofs::Walk::steps_stop))]
fn relocs_of_targets(alloc: Global, bytes: &[u8], targets: &[Target]) -> Result<Vec<Reloc>, Stop>
    requires { All (λ t. IfSome t.relocs (λ p. p.at + 24 * p.count ≤ length bytes.now)) targets.now }
    ensures { Gives (λ v. v.items) result (relocs_at bytes.now targets.now) }
{
    let mut relocs = Vec::new(alloc);
    for target in targets {
        add_relocs(&mut relocs, bytes, target)?;
    }
    Ok(relocs)
}

#[tactic(auto, unfolding(crate::specs::RelRelocs::names_symbol))]
fn names_symbol(symbols: usize, reloc: &Reloc) -> Result<(), Fault>
    ensures { result ≡ names_symbol_of symbols tt reloc.now }
{
    refuse(
        reloc.symbol as usize >= symbols,
        Check::RelocationSymbol,
        reloc.at,
    )
}

/// Whether each relocation names a symbol.
#[tactic(auto, using(cap_base::proofs::Walk::steps_more, cap_base::proofs::Walk::steps_fault, cap_base::proofs::Walk::steps_done))]
fn name_symbols(symbols: usize, relocs: &[Reloc]) -> Result<(), Fault>
    ensures { result ≡ name_symbols_of symbols relocs.now }
{
    for reloc in relocs {
        names_symbol(symbols, reloc)?;
    }
    Ok(())
}

/// The relocations of kept sections, by the sections that they change.
#[tactic(auto, unfolding(crate::specs::RelRelocs::rel_relocs_of))]
pub(crate) fn read_rel_relocs(
    alloc: Global,
    bytes: &[u8],
    headers: &[SectionHeader],
    sections: &[Section],
    symbols: usize,
) -> Result<Vec<Reloc>, Stop>
    requires { length sections.now < 2 ^ 16 }
    ensures { Gives (λ v. v.items) result (rel_relocs_of bytes.now headers.now sections.now symbols) }
{
    let targets = read_targets(alloc, bytes.len() as u64, headers, sections)?;
    let relocs = relocs_of_targets(alloc, bytes, &targets)?;
    name_symbols(symbols, &relocs)?;
    Ok(relocs)
}

//! The symbols of a relocatable object.

ghost use Rattle.std.specs.Prelude.{◌≡◌, ◌≤◌, ◌+◌, ◌*◌, length, IfOk};
ghost use Rattle.cap_base.specs.Steps.{Answers, Gives};
ghost use Rattle.cap_elf.specs.RelSymbols.{symtab_view, IsSymtabInside, symtab_step, symtab_in, symtab_of, with_common as with_common_of, rel_symbol_at, is_past as is_past_of, is_misplaced as is_misplaced_of, common_fails as common_fails_of, common_passes, section_passes, place_passes, rel_symbol_step, rel_named_in};
ghost use Rattle.cap_elf.specs.NamePlaces.{strings_at};

use crate::decode::{SymbolEntry, Table, symbol_entry};
use crate::records::{Place, Section, Symbol};
use crate::rel_named::RelNamed;
use crate::section_types::SYMTAB;
use crate::sections::{SectionHeader, Strings, header_at, records_in, strings_place};
use crate::symbols::checked_name;
use cap_base::{Check, Fault, Stop, is_inside, refuse};
use std::alloc::Global;

/// Where the symbols stand, and the strings of their names.
#[derive(Clone, Copy, Debug, PartialEq, Eq)]
pub(crate) struct Symtab {
    pub(crate) is_there: bool,
    pub(crate) place: Table,
    pub(crate) strings: Strings,
}

/// A file without a symbol table has the null symbol alone.
const NO_SYMTAB: Symtab = Symtab {
    is_there: false,
    place: Table { at: 0, count: 1 },
    strings: Strings { start: 0, end: 0 },
};

/// The symbol table so far, and that of one more section.
#[tactic(auto, unfolding(crate::specs::RelSymbols::symtab_step))]
fn with_section(
    found: Symtab,
    bytes: &[u8],
    headers: &[SectionHeader],
    header: &SectionHeader,
) -> Result<Symtab, Fault>
    requires { IsSymtabInside (length bytes.now) found }
    ensures value { Answers (symtab_view bytes.now) result (symtab_step bytes.now headers.now (symtab_view bytes.now found) header.now) }
    ensures inside { IfOk result (IsSymtabInside (length bytes.now)) }
{
    if header.kind != SYMTAB {
        return Ok(found);
    }
    refuse(found.is_there, Check::SymbolTable, header.at)?;
    let place = records_in(bytes.len() as u64, header, Check::SymbolTable)?;
    let names = header_at(headers, header.link);
    let strings = strings_place(bytes, &names, Check::SymbolTable, header.at)?;
    Ok(Symtab {
        is_there: true,
        place,
        strings,
    })
}

#[tactic(auto, using(cap_base::proofs::Walk::steps_more, cap_base::proofs::Walk::steps_fault, cap_base::proofs::Walk::steps_done))]
fn symtab_among(bytes: &[u8], headers: &[SectionHeader]) -> Result<Symtab, Fault>
    requires { 64 ≤ length bytes.now }
    ensures value { Answers (symtab_view bytes.now) result (symtab_in bytes.now headers.now) }
    ensures inside { IfOk result (IsSymtabInside (length bytes.now)) }
{
    let mut symtab = NO_SYMTAB;
    for header in headers {
        symtab = with_section(symtab, bytes, headers, header)?;
    }
    Ok(symtab)
}

/// The symbol table (SHT_SYMTAB).
#[tactic(auto, unfolding(crate::specs::RelSymbols::symtab_of))]
pub(crate) fn read_symtab(bytes: &[u8], headers: &[SectionHeader]) -> Result<Symtab, Fault>
    requires { 64 ≤ length bytes.now }
    ensures value { Answers (symtab_view bytes.now) result (symtab_of bytes.now headers.now) }
    ensures inside { IfOk result (IsSymtabInside (length bytes.now)) }
{
    let symtab = symtab_among(bytes, headers)?;
    refuse(symtab.place.count > 1 << 20, Check::SymbolCount, 0)?;
    Ok(symtab)
}

fn with_common(place: Place) -> Place
    ensures { result ≡ with_common_of place }
{
    match place {
        Place::Section(section) => {
            if section == 0xfff2 {
                Place::Common
            } else {
                Place::Section(section)
            }
        }
        _ => place,
    }
}

#[tactic(auto, unfolding(crate::specs::RelSymbols::rel_symbol_at))]
fn rel_symbol(bytes: &[u8], at: usize) -> SymbolEntry
    requires { at + 24 ≤ length bytes.now }
    ensures { result ≡ rel_symbol_at bytes.now at }
{
    let SymbolEntry { name, symbol } = symbol_entry(bytes, at);
    let place = with_common(symbol.place);
    SymbolEntry {
        name,
        symbol: Symbol { place, ..symbol },
    }
}

#[tactic(auto, unfolding(crate::specs::RelSymbols::is_past))]
fn is_past(home: &Section, symbol: &Symbol) -> bool
    ensures { result ≡ is_past_of home.now symbol.now }
{
    home.class.is_kept() && !is_inside(symbol.value, symbol.size, home.size)
}

#[tactic(auto, unfolding(crate::specs::RelSymbols::is_misplaced))]
fn is_misplaced(home: &Section, symbol: &Symbol) -> bool
    ensures { result ≡ is_misplaced_of home.now symbol.now }
{
    let class = home.class;
    (class.is_kept() && symbol.kind == 2 && !class.is_code())
        || (class.is_code() && symbol.kind == 1)
        || (class.is_array() && (symbol.kind == 1 || symbol.size != 0))
        || (!class.is_kept() && symbol.binding != 0)
}

#[tactic(auto, unfolding(crate::specs::RelSymbols::common_fails))]
fn common_fails(symbol: &Symbol) -> bool
    ensures { result ≡ common_fails_of symbol.now }
{
    symbol.binding != 1 || !symbol.value.is_power_of_two() || symbol.value > 65536
}

#[tactic(auto, unfolding(crate::specs::RelSymbols::common_passes))]
fn check_common(symbol: &Symbol) -> Result<(), Fault>
    ensures { result ≡ common_passes symbol.now }
{
    refuse(common_fails(symbol), Check::CommonSymbol, symbol.at)?;
    refuse(symbol.size > 1 << 26, Check::SectionSize, 0)
}

#[tactic(auto, unfolding(crate::specs::RelSymbols::section_passes))]
fn check_in_section(sections: &[Section], symbol: &Symbol, section: u32) -> Result<(), Fault>
    ensures { result ≡ section_passes sections.now symbol.now section }
{
    let section = section as usize;
    refuse(section >= sections.len(), Check::SymbolPlace, symbol.at)?;
    let home = sections[section];
    refuse(is_past(&home, symbol), Check::SymbolPlace, symbol.at)?;
    refuse(
        is_misplaced(&home, symbol),
        Check::SymbolKindPlace,
        symbol.at,
    )
}

/// Whether a symbol may be where it is.
fn check_place(sections: &[Section], symbol: &Symbol) -> Result<(), Fault>
    ensures { result ≡ place_passes sections.now symbol.now symbol.now.place }
{
    match symbol.place {
        Place::Undefined => Ok(()),
        Place::Absolute => Ok(()),
        Place::Common => check_common(symbol),
        Place::Section(section) => check_in_section(sections, symbol, section),
    }
}

#[tactic(auto, unfolding(crate::specs::RelSymbols::rel_symbol_step))]
fn add_symbol(
    named: &mut RelNamed<'_>,
    strings: &[u8],
    sections: &[Section],
    entry: &SymbolEntry,
) -> Result<(), Stop>
    requires { strings.now ≡ named.old.strings }
    ensures value { Gives (λ _. named.new.named) result (rel_symbol_step strings.now sections.now named.old.named entry.now) }
    ensures strings { named.new.strings ≡ named.old.strings }
{
    let symbol = entry.symbol;
    let name = checked_name(strings, entry)?;
    check_place(sections, &symbol)?;
    named.push(symbol, entry.name, name)?;
    Ok(())
}

/// The symbols of a symbol table.
#[tactic(auto, using(crate::proofs::RelWalk::steps_from, crate::proofs::RelWalk::steps_end, crate::proofs::RelWalk::steps_stop_from))]
pub(crate) fn read_rel_symbols<'a>(
    alloc: Global,
    bytes: &'a [u8],
    sections: &[Section],
    symtab: Symtab,
) -> Result<RelNamed<'a>, Stop>
    requires { IsSymtabInside (length bytes.now) symtab }
    ensures value { Gives (λ n. n.named) result (rel_named_in bytes.now sections.now (symtab_view bytes.now symtab)) }
    ensures strings { IfOk result (λ n. n.strings ≡ strings_at bytes.now symtab.strings) }
{
    let Table { at, count } = symtab.place;
    let strings = &bytes[symtab.strings.start..symtab.strings.end];
    let mut named = RelNamed::null_alone(alloc, strings, at as u64, count)?;
    for i in 1..count {
        add_symbol(
            &mut named,
            strings,
            sections,
            &rel_symbol(bytes, at + 24 * i),
        )?;
    }
    Ok(named)
}

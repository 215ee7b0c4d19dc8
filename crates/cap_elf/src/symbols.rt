//! The symbols of a shared object.

ghost use Rattle.std.specs.Prelude.{◌≡◌, ◌≤◌, ◌<◌, ◌+◌, ◌-◌, ◌*◌, ◌^◌, ◌∷◌, [], length, IfOk};
ghost use Rattle.cap_base.specs.Steps.{Answers, Gives};
ghost use Rattle.cap_elf.specs.Records.{table, symbol_entry_at};
ghost use Rattle.cap_elf.specs.NamePlaces.{IsNameAt};
ghost use Rattle.cap_elf.specs.Listed.{listed_from};
ghost use Rattle.cap_elf.specs.Symbols.{checked_name as checked_name_of, is_reserved as is_reserved_of, null_named, named_in};

use crate::decode::{SymbolEntry, Table, symbol_entry};
use crate::indexed::{IndexedSymbols, checked_symbols};
use crate::named::{Named, null_alone};
use crate::names::name_at;
use crate::records::Place;
use cap_base::{Check, Fault, NoMemory, Stop, is_plain, refuse};
use std::alloc::{AllocError, Global};

/// Whether a section index is reserved and no section's (from SHN_LORESERVE on), SHN_ABS aside.
fn is_reserved(place: Place) -> bool
    ensures { result ≡ is_reserved_of place }
{
    match place {
        Place::Section(section) => section >= 0xff00,
        _ => false,
    }
}

/// The name of a symbol that passes each check of its own.
#[tactic(auto, unfolding(crate::specs::Symbols::checked_name))]
pub(crate) fn checked_name<'a>(strings: &'a [u8], entry: &SymbolEntry) -> Result<&'a [u8], Fault>
    ensures value { Answers (λ n. n.now) result (checked_name_of strings.now entry.now) }
    ensures place { IfOk result (λ n. IsNameAt strings.now entry.now.name n.now) }
    ensures short { IfOk result (λ n. length n.now ≤ 255) }
{
    let symbol = entry.symbol;
    let fault = Fault {
        check: Check::SymbolName,
        at: symbol.at,
    };
    let name = name_at(strings, u64::from(entry.name)).ok_or(fault)?;
    let is_bad = !is_plain(name) || (name.is_empty() && symbol.binding != 0);
    refuse(is_bad, Check::SymbolName, symbol.at)?;
    refuse(name.len() > 255, Check::NameLength, 0)?;
    refuse(symbol.kind > 5, Check::SymbolType, symbol.at)?;
    refuse(symbol.binding > 2, Check::SymbolBinding, symbol.at)?;
    refuse(is_reserved(symbol.place), Check::SymbolSection, symbol.at)?;
    Ok(name)
}

#[tactic(auto, using(crate::proofs::Walk::table_more, crate::proofs::Walk::table_count))]
fn symbol_entries(alloc: Global, bytes: &[u8], place: Table) -> Result<Vec<SymbolEntry>, AllocError>
    requires { place.at + 24 * place.count ≤ length bytes.now }
    ensures table { IfOk result (λ v. v.items ≡ table (symbol_entry_at bytes.now) place.at 24 place.count) }
    ensures count { IfOk result (λ v. length v.items ≡ place.count) }
{
    let mut entries = Vec::with_capacity(alloc, place.count)?;
    for i in 0..place.count {
        entries.push(symbol_entry(bytes, place.at + 24 * i))?;
    }
    Ok(entries)
}

/// The symbols up to the first that fails a check of its own, and that fault.
#[tactic(auto, using(crate::proofs::Settled::listed_next, crate::proofs::Settled::listed_stop, crate::proofs::Settled::listed_done))]
pub(crate) fn list_symbols(
    alloc: Global,
    strings: &[u8],
    at: u64,
    entries: &[SymbolEntry],
) -> Result<(Named, Option<Fault>), NoMemory>
    ensures { IfOk result (λ l. (l.0, l.1) ≡ listed_from strings.now (null_named at ∷ []) entries.now) }
{
    let mut named = null_alone(alloc, at, entries.len() + 1)?;
    for entry in entries {
        match checked_name(strings, entry) {
            Ok(name) => named.push(entry.symbol, name)?,
            Err(fault) => return Ok((named, Some(fault))),
        }
    }
    Ok((named, None))
}

/// The symbols of a symbol table.
pub(crate) fn read_symbols(
    alloc: Global,
    bytes: &[u8],
    strings: &[u8],
    place: Table,
) -> Result<IndexedSymbols, Stop>
    requires inside { place.at + 24 * place.count ≤ length bytes.now }
    requires some { 0 < place.count }
    requires few { place.count ≤ 2 ^ 20 }
    ensures { Gives (λ n. n) result (named_in bytes.now strings.now place) }
{
    let others = Table {
        at: place.at + 24,
        count: place.count - 1,
    };
    let entries = symbol_entries(alloc, bytes, others)?;
    checked_symbols(alloc, strings, place.at as u64, &entries)
}

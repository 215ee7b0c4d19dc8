//! The stages of reading a shared object.

ghost use Rattle.std.specs.Prelude.{◌≡◌, ◌≤◌, ◌+◌, ◌*◌, length, IfOk};
ghost use Rattle.cap_base.specs.Steps.{Gives};
ghost use Rattle.cap_elf.specs.Stages.{mapped_of, mapped_view, tables_of, tables_view, AreInside};

use crate::decode::{DynEntry, Table};
use crate::dynamic::{listed, used_entries};
use crate::header::header;
use crate::program::{header_table, headers, loads, read_marks};
use crate::segments::Loads;
use crate::tables::{HashPlace, Lists, hash_place, relocation_lists, strings, symbol_table};
use cap_base::{Check, Fault, Stop, refuse};
use std::alloc::Global;

/// What the header and the program headers tell.
#[derive(Drop)]
pub(crate) struct Mapped {
    pub(crate) flags: u32,
    pub(crate) loads: Loads,
    pub(crate) relro: Option<(u64, u64)>,
    pub(crate) dynamic: Table,
}

#[tactic(auto, unfolding(crate::specs::Stages::mapped_of))]
pub(crate) fn read_mapped(alloc: Global, bytes: &[u8]) -> Result<Mapped, Stop>
    ensures value { Gives (λ m. mapped_view m) result (mapped_of bytes.now) }
    ensures file_len { IfOk result (λ m. m.loads.file_len ≡ length bytes.now) }
    ensures inside { IfOk result (λ m. m.dynamic.at + 16 * m.dynamic.count ≤ length bytes.now) }
{
    let flags = header(3, bytes)?;
    let place = header_table(bytes)?;
    let headers = headers(alloc, bytes, place)?;
    let loads = loads(alloc, bytes.len() as u64, &headers)?;
    refuse(!loads.has_memory(), Check::NoSegment, 32)?;
    let marks = read_marks(&loads, &headers)?;
    let missing = Fault {
        check: Check::DynamicHeader,
        at: 32,
    };
    let dynamic = marks.dynamic.ok_or(missing)?;
    Ok(Mapped {
        flags,
        loads,
        relro: marks.relro,
        dynamic,
    })
}

/// What the dynamic table tells.
#[derive(Drop)]
pub(crate) struct Tables<'a> {
    pub(crate) listed: Vec<DynEntry>,
    pub(crate) used: Vec<DynEntry>,
    pub(crate) strings: &'a [u8],
    pub(crate) hash: HashPlace,
    pub(crate) symbols: Table,
    pub(crate) lists: Lists,
}

#[tactic(auto, unfolding(crate::specs::Stages::tables_of))]
pub(crate) fn read_tables<'a>(
    alloc: Global,
    bytes: &'a [u8],
    mapped: &Mapped,
) -> Result<Tables<'a>, Stop>
    requires file_len { mapped.now.loads.file_len ≡ length bytes.now }
    requires inside { mapped.now.dynamic.at + 16 * mapped.now.dynamic.count ≤ length bytes.now }
    ensures value { Gives (λ t. tables_view t) result (tables_of bytes.now (mapped_view mapped.now)) }
    ensures inside { IfOk result (λ t. AreInside (length bytes.now) t) }
{
    let loads = &mapped.loads;
    let at = mapped.dynamic.at as u64;
    let listed = listed(alloc, bytes, mapped.dynamic)?;
    let used = used_entries(alloc, &listed)?;
    let strings = strings(bytes, loads, &used, at)?;
    let hash = hash_place(bytes, loads, &used, at)?;
    let symbols = symbol_table(loads, &used, hash.symbols, at)?;
    let lists = relocation_lists(loads, &used, at)?;
    Ok(Tables {
        listed,
        used,
        strings,
        hash,
        symbols,
        lists,
    })
}

//! The tables that the dynamic table names.

ghost use Rattle.std.specs.Prelude.{◌≡◌, ◌+◌, ◌*◌, ◌<◌, ◌≤◌, ◌^◌, length, IfOk};
ghost use Rattle.cap_base.specs.Steps.{Answers};
ghost use Rattle.cap_elf.specs.Tables.{strings_of, hash_of, symbols_of, list_of, lists_of};

use crate::decode::{DynEntry, Table};
use crate::dynamic::value_of;
use crate::segments::Loads;
use crate::tags::{
    CAP_RELOCS, CAP_RELOCSZ, HASH, JMPREL, PLTREL, PLTRELSZ, RELA, RELAENT, RELASZ, STRSZ, STRTAB,
    SYMENT, SYMTAB,
};
use cap_base::{Check, Fault, refuse, u32_in};

/// Where the words of the hash table stand, and how many symbols it tells of.
#[derive(Clone, Copy, Debug, PartialEq, Eq)]
pub struct HashPlace {
    pub words: Table,
    pub symbols: usize,
}

/// Where the three lists of relocations stand.
#[derive(Clone, Copy, Debug, PartialEq, Eq)]
pub struct Lists {
    pub cap_relocs: Table,
    pub relocs: Table,
    pub jumps: Table,
}

/// The bytes of the string table.
#[tactic(auto, unfolding(crate::specs::Tables::strings_of))]
pub(crate) fn strings<'a>(
    bytes: &'a [u8],
    loads: &Loads,
    used: &[DynEntry],
    table_at: u64,
) -> Result<&'a [u8], Fault>
    requires { loads.now.file_len ≡ length bytes.now }
    ensures { Answers (λ s. s.now) result (strings_of bytes.now loads.now.segments.items used.now table_at) }
{
    let fault = Fault {
        check: Check::StringTable,
        at: table_at,
    };
    let size = value_of(used, STRSZ).unwrap_or(0);
    let place = loads
        .table_place(value_of(used, STRTAB), size)
        .ok_or(fault)?;
    let strings = &bytes[place as usize..(place + size) as usize];
    let fails = size == 0 || strings[0] != 0 || strings[strings.len() - 1] != 0;
    refuse(fails, Check::StringTable, table_at)?;
    Ok(strings)
}

/// Where the hash table stands.
#[tactic(auto, unfolding(crate::specs::Tables::hash_of))]
pub(crate) fn hash_place(
    bytes: &[u8],
    loads: &Loads,
    used: &[DynEntry],
    table_at: u64,
) -> Result<HashPlace, Fault>
    requires { loads.now.file_len ≡ length bytes.now }
    ensures value { result ≡ hash_of bytes.now loads.now.segments.items used.now table_at }
    ensures inside { IfOk result (λ h. h.words.at + 4 * h.words.count ≤ length bytes.now) }
    ensures some { IfOk result (λ h. 0 < h.symbols) }
{
    let missing = Fault {
        check: Check::NoHashTable,
        at: table_at,
    };
    let fault = Fault {
        check: Check::HashTable,
        at: table_at,
    };
    let address = value_of(used, HASH).ok_or(missing)?;
    let head = loads.file_place(address, 8).ok_or(fault)? as usize;
    let buckets = u32_in(bytes, head) as u64;
    let chains = u32_in(bytes, head + 4) as u64;
    refuse(buckets == 0 || chains == 0, Check::HashTable, table_at)?;
    let place = loads
        .file_place(address, 8 + 4 * (buckets + chains))
        .ok_or(fault)?;
    let words = Table {
        at: place as usize,
        count: (2 + buckets + chains) as usize,
    };
    Ok(HashPlace {
        words,
        symbols: chains as usize,
    })
}

/// Where the symbols stand.
#[tactic(auto, unfolding(crate::specs::Tables::symbols_of))]
pub(crate) fn symbol_table(
    loads: &Loads,
    used: &[DynEntry],
    count: usize,
    table_at: u64,
) -> Result<Table, Fault>
    ensures value { result ≡ symbols_of loads.now.segments.items used.now count table_at }
    ensures inside { IfOk result (λ t. t.at + 24 * t.count ≤ loads.now.file_len) }
    ensures count { IfOk result (λ t. (t.count ≡ count) × (count ≤ 2 ^ 20)) }
{
    refuse(count > 1 << 20, Check::SymbolCount, 0)?;
    let fault = Fault {
        check: Check::SymbolTable,
        at: table_at,
    };
    let place = loads
        .table_place(value_of(used, SYMTAB), 24 * count as u64)
        .ok_or(fault)?;
    refuse(
        value_of(used, SYMENT).unwrap_or(0) != 24,
        Check::SymbolTable,
        table_at,
    )?;
    Ok(Table {
        at: place as usize,
        count,
    })
}

/// Where a list of records of this width stands: nowhere, if it has no address.
#[tactic(auto, unfolding(crate::specs::Tables::list_of))]
fn record_list(
    loads: &Loads,
    address: Option<u64>,
    size: Option<u64>,
    fits: bool,
    width: u64,
    table_at: u64,
) -> Result<Table, Fault>
    requires { 0 < width }
    ensures value { result ≡ list_of loads.now.segments.items address size fits width table_at }
    ensures inside { IfOk result (λ t. t.at + width * t.count ≤ loads.now.file_len) }
{
    match address {
        None => Ok(Table { at: 0, count: 0 }),
        Some(address) => {
            let fault = Fault {
                check: Check::RelocationTable,
                at: table_at,
            };
            let size = size.ok_or(fault)?;
            refuse(!fits || size % width != 0, Check::RelocationTable, table_at)?;
            let place = loads.file_place(address, size).ok_or(fault)?;
            Ok(Table {
                at: place as usize,
                count: (size / width) as usize,
            })
        }
    }
}

/// Where the relocations stand.
#[tactic(auto, unfolding(crate::specs::Tables::lists_of))]
pub(crate) fn relocation_lists(
    loads: &Loads,
    used: &[DynEntry],
    table_at: u64,
) -> Result<Lists, Fault>
    ensures value { result ≡ lists_of loads.now.segments.items used.now table_at }
    ensures inside { IfOk result (λ l. (l.relocs.at + 24 * l.relocs.count ≤ loads.now.file_len)
        × (l.jumps.at + 24 * l.jumps.count ≤ loads.now.file_len)
        × (l.cap_relocs.at + 40 * l.cap_relocs.count ≤ loads.now.file_len)) }
{
    let has_width = value_of(used, RELAENT) == Some(24);
    let relocs = record_list(
        loads,
        value_of(used, RELA),
        value_of(used, RELASZ),
        has_width,
        24,
        table_at,
    )?;
    let is_rela = value_of(used, PLTREL) == Some(7);
    let jumps = record_list(
        loads,
        value_of(used, JMPREL),
        value_of(used, PLTRELSZ),
        is_rela,
        24,
        table_at,
    )?;
    let cap_relocs = record_list(
        loads,
        value_of(used, CAP_RELOCS),
        value_of(used, CAP_RELOCSZ),
        true,
        40,
        table_at,
    )?;
    let count = relocs.count as u64 + jumps.count as u64 + cap_relocs.count as u64;
    refuse(count > 1 << 20, Check::RelocationCount, 0)?;
    Ok(Lists {
        cap_relocs,
        relocs,
        jumps,
    })
}

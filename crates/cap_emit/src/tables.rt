//! The headers of the segments and the tables of a linked file, each appended to it.

ghost use Rattle.std.specs.Prelude.{◌≡◌, ◌+◌, ◌*◌, ◌^◌, ◌<◌, ◌≤◌, ◌++◌, length, map, IfOk, OnOk};
ghost use Rattle.cap_names.specs.Hash.{system_v_hash_of};
ghost use Rattle.cap_chain.specs.Words.{built_words};
ghost use Rattle.cap_emit.specs.Records.{segment_from, segment_headers};
ghost use Rattle.cap_emit.specs.Written.{padded, symbol_table, rela_table, cap_reloc_table, hash_table, dynamic_table};

use crate::records::{push_cap_reloc, push_entry, push_rela, push_segment, push_symbol, push_u32};
use cap_base::NoMemory;
use cap_chain::words_of_hashes;
use cap_elf::Segment;
use cap_layout::Parts;
use cap_names::system_v_hash;
use cap_table::{CapTable, DynSymbol};
use std::alloc::Global;

/// The types of segments.
const PT_LOAD: u32 = 1;

const PT_DYNAMIC: u32 = 2;

const PT_GNU_RELRO: u32 = 0x6474_e552;

/// What a segment permits (p_flags): PF_R, with PF_X and with PF_W.
const READ: u32 = 4;

const RUN: u32 = 5;

const WRITE: u32 = 6;

/// How many bytes an entry of the dynamic table has, and how it is aligned.
const ENTRY_SIZE: u64 = 16;

/// Appends zeros up to an address; none where the file goes as far already.
#[tactic(auto, unfolding(crate::specs::Written::padded))]
pub(crate) fn pad_to(file: &mut Vec<u8>, at: u64) -> Result<(), NoMemory>
    ensures { OnOk result (file.new.items ≡ padded file.old.items at) }
{
    let end = file.len().max(at as usize);
    file.resize(end, 0)?;
    Ok(())
}

/// A segment whose addresses are its file offsets.
fn segment(flags: u32, align: u64, start: u64, file_end: u64, mem_end: u64) -> Segment
    ensures { result ≡ segment_from flags align start file_end mem_end }
{
    Segment {
        vaddr: start,
        memsz: mem_end.saturating_sub(start),
        offset: start,
        filesz: file_end.saturating_sub(start),
        flags,
        align,
    }
}

/// Appends the headers of the six segments: four that are mapped, the dynamic table with so many entries, and what is
/// read-only after loading.
#[tactic(auto, unfolding(crate::specs::Records::segment_headers))]
pub(crate) fn push_segments(file: &mut Vec<u8>, at: &Parts, count: usize) -> Result<(), NoMemory>
    requires { at.now.dynamic_at + 16 * count < 2 ^ 64 }
    ensures { OnOk result (file.new.items ≡ file.old.items ++ segment_headers at.now count) }
{
    let dynamic_end = at.dynamic_at + ENTRY_SIZE * count as u64;
    let read_only = segment(READ, at.align, 0, at.ro_end, at.ro_end);
    let code = segment(RUN, at.align, at.code_start, at.code_end, at.code_end);
    let once_written = segment(WRITE, at.align, at.table_start, at.table_end, at.table_end);
    let data = segment(WRITE, at.align, at.data_start, at.file_end, at.mem_end);
    let dynamic = segment(WRITE, ENTRY_SIZE, at.dynamic_at, dynamic_end, dynamic_end);
    let relro = segment(READ, 1, at.table_start, at.table_end, at.table_end);
    push_segment(file, PT_LOAD, read_only)?;
    push_segment(file, PT_LOAD, code)?;
    push_segment(file, PT_LOAD, once_written)?;
    push_segment(file, PT_LOAD, data)?;
    push_segment(file, PT_DYNAMIC, dynamic)?;
    push_segment(file, PT_GNU_RELRO, relro)?;
    Ok(())
}

/// Appends the symbols, each with the offset of its name (DT_SYMTAB).
#[tactic(auto, unfolding(crate::specs::Written::symbol_table))]
pub(crate) fn push_symbols(file: &mut Vec<u8>, lists: &CapTable<'_>) -> Result<(), NoMemory>
    ensures { OnOk result (file.new.items ≡ file.old.items ++ symbol_table lists.now) }
{
    for (offset, symbol) in lists.offsets().iter().zip(lists.symbols()) {
        push_symbol(file, *offset, symbol)?;
    }
    Ok(())
}

/// Appends the relocations (DT_RELA).
#[tactic(auto, unfolding(crate::specs::Written::rela_table))]
pub(crate) fn push_relas(file: &mut Vec<u8>, lists: &CapTable<'_>) -> Result<(), NoMemory>
    ensures { OnOk result (file.new.items ≡ file.old.items ++ rela_table lists.now) }
{
    for rela in lists.relas() {
        push_rela(file, *rela)?;
    }
    Ok(())
}

/// Appends the descriptions of capabilities (`__cap_relocs`).
#[tactic(auto, unfolding(crate::specs::Written::cap_reloc_table))]
pub(crate) fn push_cap_relocs(file: &mut Vec<u8>, lists: &CapTable<'_>) -> Result<(), NoMemory>
    ensures { OnOk result (file.new.items ≡ file.old.items ++ cap_reloc_table lists.now) }
{
    for cap_reloc in lists.cap_relocs() {
        push_cap_reloc(file, *cap_reloc)?;
    }
    Ok(())
}

/// The hashes of the names of symbols.
fn hashes_of(alloc: Global, symbols: &[DynSymbol<'_>]) -> Result<Vec<u32>, NoMemory>
    ensures { IfOk result (λ hashes. hashes.items ≡ map system_v_hash_of (map (λ s. s.name) symbols.now)) }
{
    let mut hashes = Vec::with_capacity(alloc, symbols.len())?;
    for symbol in symbols {
        hashes.push(system_v_hash(symbol.name))?;
    }
    Ok(hashes)
}

/// The words of the hash table of the names of symbols, that of the null symbol too.
fn words_of_symbols(alloc: Global, symbols: &[DynSymbol<'_>]) -> Result<Vec<u32>, NoMemory>
    requires some { 1 ≤ length symbols.now }
    requires few { length symbols.now ≤ 2 ^ 20 }
    ensures { IfOk result (λ words. words.items ≡ built_words (map (λ s. s.name) symbols.now)) }
{
    let hashes = hashes_of(alloc, symbols)?;
    words_of_hashes(alloc, &hashes)
}

/// Appends the words of the hash table (DT_HASH).
#[tactic(auto, unfolding(crate::specs::Written::hash_table))]
pub(crate) fn push_hash(
    alloc: Global,
    file: &mut Vec<u8>,
    lists: &CapTable<'_>,
) -> Result<(), NoMemory>
    requires some { 1 ≤ length lists.now.symbols }
    requires few { length lists.now.symbols ≤ 2 ^ 20 }
    ensures { OnOk result (file.new.items ≡ file.old.items ++ hash_table lists.now) }
{
    let words = words_of_symbols(alloc, lists.symbols())?;
    for word in &words {
        push_u32(file, *word)?;
    }
    Ok(())
}

/// Appends the entries of the dynamic table.
#[tactic(auto, unfolding(crate::specs::Written::dynamic_table))]
pub(crate) fn push_dynamics(file: &mut Vec<u8>, lists: &CapTable<'_>) -> Result<(), NoMemory>
    ensures { OnOk result (file.new.items ≡ file.old.items ++ dynamic_table lists.now) }
{
    for entry in lists.dynamics() {
        push_entry(file, *entry)?;
    }
    Ok(())
}

//! Reading a shared object, stage by stage.

ghost use Rattle.std.specs.Prelude.{◌≡◌};
ghost use Rattle.cap_base.specs.Steps.{Gives};
ghost use Rattle.cap_elf.specs.DynView.{dyn_view, span_of, align_of};
ghost use Rattle.cap_elf.specs.RecordsView.{records_view};

use crate::arrays::read_arrays;
use crate::dynamic::is_symbolic;
use crate::indexed::IndexedSymbols;
use crate::names::read_names;
use crate::records::{Arrays, CapReloc, DynReloc, Segment};
use crate::relocs::{read_cap_relocs, read_relocs, read_words, symbols_fit};
use crate::segments::Loads;
use crate::stages::{read_mapped, read_tables};
use crate::symbols::read_symbols;
use cap_base::{Name, Stop};
use std::alloc::Global;

/// What the bytes of a shared object tell.
#[derive(Drop)]
pub(crate) struct Records {
    pub(crate) flags: u32,
    pub(crate) segments: Vec<Segment>,
    pub(crate) relro: Option<(u64, u64)>,
    pub(crate) symbols: IndexedSymbols,
    pub(crate) relocs: Vec<DynReloc>,
    pub(crate) cap_relocs: Vec<CapReloc>,
    pub(crate) hash_words: Vec<u32>,
    pub(crate) hash_at: u64,
    pub(crate) arrays: Arrays,
    pub(crate) needed: Vec<Name>,
    pub(crate) soname: Option<Name>,
    pub(crate) symbolic: bool,
    pub(crate) span: u64,
    pub(crate) align: u64,
}

fn span(loads: &Loads) -> u64
    ensures { result ≡ span_of loads.now.segments.items }
{
    loads.end.next_multiple_of(4096)
}

fn align(loads: &Loads) -> u64
    ensures { result ≡ align_of loads.now.segments.items }
{
    loads
        .segments
        .iter()
        .fold(4096, |align, segment| segment.align.max(align))
}

/// The records of a shared object, or the first check that it fails.
#[tactic(auto, unfolding(crate::specs::DynView::dyn_view))]
pub(crate) fn read_records(alloc: Global, bytes: &[u8]) -> Result<Records, Stop>
    ensures { Gives records_view result (dyn_view bytes.now) }
{
    let mapped = read_mapped(alloc, bytes)?;
    let tables = read_tables(alloc, bytes, &mapped)?;
    let file_names = read_names(alloc, tables.strings, &tables.listed)?;
    let arrays = read_arrays(&mapped.loads, &tables.used, mapped.dynamic.at as u64)?;
    let symbols = read_symbols(alloc, bytes, tables.strings, tables.symbols)?;
    let relocs = read_relocs(alloc, bytes, &tables.lists)?;
    symbols_fit(tables.symbols.count, &relocs)?;
    let cap_relocs = read_cap_relocs(alloc, bytes, tables.lists.cap_relocs)?;
    let hash_words = read_words(alloc, bytes, tables.hash.words)?;
    let symbolic = is_symbolic(&tables.listed, &tables.used);
    let span = span(&mapped.loads);
    let align = align(&mapped.loads);
    Ok(Records {
        flags: mapped.flags,
        segments: mapped.loads.segments,
        relro: mapped.relro,
        symbols,
        relocs,
        cap_relocs,
        hash_words,
        hash_at: tables.hash.words.at as u64,
        arrays,
        needed: file_names.needed,
        soname: file_names.soname,
        symbolic,
        span,
        align,
    })
}

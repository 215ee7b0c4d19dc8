//! The relocations of a shared object, and the words of its hash table.

ghost use Rattle.std.specs.Prelude.{◌≡◌, ◌≤◌, ◌+◌, ◌*◌, ◌++◌, length, IfOk, OnOk};
ghost use Rattle.cap_base.specs.Field.{number_at};
ghost use Rattle.cap_elf.specs.Records.{table, reloc_at, cap_reloc_at};
ghost use Rattle.cap_elf.specs.Relocs.{relocs_in, symbol_fits as symbol_fits_of, symbols_fit as symbols_fit_of};

use crate::decode::{Table, cap_reloc, reloc};
use crate::records::{CapReloc, DynReloc};
use crate::tables::Lists;
use cap_base::{Check, Fault, refuse, u32_in};
use std::alloc::{AllocError, Global};

#[tactic(auto, using(crate::proofs::Walk::table_after))]
fn add_relocs(relocs: &mut Vec<DynReloc>, bytes: &[u8], place: Table) -> Result<(), AllocError>
    requires { place.at + 24 * place.count ≤ length bytes.now }
    ensures { OnOk result (relocs.new.items ≡ relocs.old.items ++ table (reloc_at bytes.now) place.at 24 place.count) }
{
    for i in 0..place.count {
        relocs.push(reloc(bytes, place.at + 24 * i))?;
    }
    Ok(())
}

/// The relocations of both lists, in order.
pub(crate) fn read_relocs(
    alloc: Global,
    bytes: &[u8],
    lists: &Lists,
) -> Result<Vec<DynReloc>, AllocError>
    requires relocs { lists.now.relocs.at + 24 * lists.now.relocs.count ≤ length bytes.now }
    requires jumps { lists.now.jumps.at + 24 * lists.now.jumps.count ≤ length bytes.now }
    ensures { IfOk result (λ v. v.items ≡ relocs_in bytes.now lists.now) }
{
    let count = lists.relocs.count + lists.jumps.count;
    let mut relocs = Vec::with_capacity(alloc, count)?;
    add_relocs(&mut relocs, bytes, lists.relocs)?;
    add_relocs(&mut relocs, bytes, lists.jumps)?;
    Ok(relocs)
}

#[tactic(auto, using(crate::proofs::Walk::table_more))]
pub(crate) fn read_cap_relocs(
    alloc: Global,
    bytes: &[u8],
    place: Table,
) -> Result<Vec<CapReloc>, AllocError>
    requires { place.at + 40 * place.count ≤ length bytes.now }
    ensures { IfOk result (λ v. v.items ≡ table (cap_reloc_at bytes.now) place.at 40 place.count) }
{
    let mut relocs = Vec::with_capacity(alloc, place.count)?;
    for i in 0..place.count {
        relocs.push(cap_reloc(bytes, place.at + 40 * i))?;
    }
    Ok(relocs)
}

#[tactic(auto, using(crate::proofs::Walk::table_more))]
pub(crate) fn read_words(alloc: Global, bytes: &[u8], place: Table) -> Result<Vec<u32>, AllocError>
    requires { place.at + 4 * place.count ≤ length bytes.now }
    ensures { IfOk result (λ v. v.items ≡ table (number_at 4 bytes.now) place.at 4 place.count) }
{
    let mut words = Vec::with_capacity(alloc, place.count)?;
    for i in 0..place.count {
        words.push(u32_in(bytes, place.at + 4 * i))?;
    }
    Ok(words)
}

#[tactic(auto, unfolding(crate::specs::Relocs::symbol_fits))]
fn symbol_fits(symbols: usize, reloc: &DynReloc) -> Result<(), Fault>
    ensures { result ≡ symbol_fits_of symbols tt reloc.now }
{
    refuse(
        reloc.symbol as usize >= symbols,
        Check::RelocationSymbol,
        reloc.at,
    )
}

/// Whether each relocation names a symbol.
#[tactic(auto, using(cap_base::proofs::Walk::steps_more, cap_base::proofs::Walk::steps_fault, cap_base::proofs::Walk::steps_done))]
pub(crate) fn symbols_fit(symbols: usize, relocs: &[DynReloc]) -> Result<(), Fault>
    ensures { result ≡ symbols_fit_of symbols relocs.now }
{
    for reloc in relocs {
        symbol_fits(symbols, reloc)?;
    }
    Ok(())
}

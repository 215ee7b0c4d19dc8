//! Planning the linked file.

ghost use Rattle.std.specs.Prelude.{◌≡◌, ◌+◌, ◌≤◌, ◌<◌, ◌^◌, not, ◌==◌, if◌then◌else◌, option_to_list, map, length, All, IfOk, OnOk, IfSome};
ghost use Rattle.cap_base.specs.Steps.{Yields};
ghost use Rattle.cap_syms.specs.Output.{soname_of};
ghost use Rattle.cap_syms.specs.Resolved.{row_of};
ghost use Rattle.cap_layout.specs.Laid.{AreSmall};
ghost use Rattle.cap_table.specs.Checks.{IsStep};
ghost use Rattle.cap_table.specs.Planned.{rela_count, cap_reloc_count, planned as planned_of, plan_of, symbol_names, all_names, name_bytes as name_bytes_of, terminated, table_tags};
ghost use Rattle.cap_table.specs.Counted.{limit_of, limits_of, IsCounted};

use crate::arrays::Arrays;
use crate::gathering::{Entries, field_entries, slot_entries, slots, stubs};
use crate::naming::{exported, names_size, needed_names, texts_size};
use crate::planned::Plan;
use crate::sources::Sources;
use crate::target::{Step, Target};
use crate::target_set::TargetSet;
use crate::walking::all_steps;
use cap_base::{Check, Kind, Name, NameList, NoMemory, Refusal, refuse};
use cap_layout::{Pieces, Sizes};
use cap_syms::Table;
use std::alloc::Global;

/// How many symbols the linked file has at most, and how many relocations in both lists.
const LIMIT: u64 = 1 << 20;

/// What is counted before the file is planned.
#[derive(Drop)]
struct Counts {
    symbols: Vec<u32>,
    slots: TargetSet,
    stubs: TargetSet,
    relas: u64,
    cap_relocs: u64,
}

fn limit(count: u64, check: Check) -> Result<(), Refusal>
    ensures value { result ≡ limit_of count check }
    ensures passed { OnOk result (count ≤ 2 ^ 20) }
{
    match refuse(count > LIMIT, check, 0) {
        Ok(()) => Ok(()),
        Err(fault) => Err(fault.refusal(0)),
    }
}

// How many relocations there are for the slots and the fields.
#[tactic(auto, using(crate::proofs::PlanCounts::relas))]
fn rela_entries(sources: &Sources<'_>, slots: &[Target], steps: &[Step]) -> u64
    requires steps { All (IsStep sources.now) steps.now }
    requires few_slots { length slots.now < 2 ^ 32 }
    requires few_steps { length steps.now < 2 ^ 32 }
    ensures value { result ≡ rela_count sources.now slots.now steps.now }
    ensures small { result < 2 ^ 33 }
{
    slot_entries(Entries::Relocated, slots) + field_entries(Entries::Relocated, sources, steps)
}

// How many descriptions of capabilities.
#[tactic(auto, using(crate::proofs::PlanCounts::cap_relocs))]
fn cap_reloc_entries(sources: &Sources<'_>, slots: &[Target], steps: &[Step]) -> u64
    requires steps { All (IsStep sources.now) steps.now }
    requires few_slots { length slots.now < 2 ^ 32 }
    requires few_steps { length steps.now < 2 ^ 32 }
    ensures value { result ≡ cap_reloc_count sources.now slots.now steps.now }
    ensures small { result < 2 ^ 33 }
{
    slot_entries(Entries::Described, slots) + field_entries(Entries::Described, sources, steps)
}

// The counts of these steps, or the first limit that one of them passes.
#[tactic(auto, unfolding(crate::specs::Counted::limits_of))]
fn counted(alloc: Global, sources: &Sources<'_>, steps: &[Step]) -> Result<Counts, Refusal>
    requires { All (IsStep sources.now) steps.now }
    ensures value { Yields (λ _. tt) result (limits_of sources.now steps.now) }
    ensures counted { IfOk result (IsCounted sources.now steps.now) }
{
    if steps.len() >= u32::MAX as usize {
        return Err(Refusal::NoMemory);
    }
    let symbols = exported(alloc, sources.table())?;
    limit(1 + symbols.len() as u64, Check::SymbolCount)?;
    let slots = slots(alloc, sources, steps)?;
    let stubs = stubs(alloc, sources, steps)?;
    let relas = rela_entries(sources, slots.as_slice(), steps);
    let cap_relocs = cap_reloc_entries(sources, slots.as_slice(), steps);
    limit(relas + cap_relocs, Check::RelocationCount)?;
    Ok(Counts {
        symbols,
        slots,
        stubs,
        relas,
        cap_relocs,
    })
}

// The file's own name.
fn soname(alloc: Global, kind: &Kind) -> Result<Option<Name>, NoMemory>
    ensures { IfOk result (λ name. name ≡ soname_of kind.now) }
{
    match kind {
        Kind::Program => Ok(None),
        Kind::Shared(name) => Ok(Some(Name::of(alloc, name.bytes())?)),
    }
}

// How many bytes it has among the names, with the zero byte behind it.
fn soname_size(soname: &Option<Name>) -> u64
    requires { IfSome soname.now (λ n. length n ≤ 255) }
    ensures value { result ≡ length (terminated (option_to_list soname.now)) }
    ensures small { result ≤ 256 }
{
    match soname {
        Some(name) => name.bytes().len() as u64 + 1,
        None => 0,
    }
}

// How many bytes the names have, the zero byte before the first too.
#[tactic(auto, using(crate::proofs::PlanNames::all_bytes))]
fn name_bytes(table: &Table<'_>, symbols: &[u32], soname: &Option<Name>, needed: &[Name]) -> u64
    requires rows { All (λ row. row < length table.now) symbols.now }
    requires short_rows { All (λ row. length (row_of table.now row).name ≤ 255) symbols.now }
    requires few_rows { length symbols.now ≤ 2 ^ 20 }
    requires short_soname { IfSome soname.now (λ n. length n ≤ 255) }
    requires few_needed { length needed.now ≤ 256 }
    requires short_needed { All (λ n. length n ≤ 255) needed.now }
    ensures value { result ≡ length (name_bytes_of (all_names (symbol_names table.now symbols.now) soname.now needed.now)) }
    ensures small { result ≤ 2 ^ 32 }
{
    1 + names_size(table, symbols) + soname_size(soname) + texts_size(needed)
}

fn count_if(has: bool, count: u64) -> u64
    ensures value { result ≡ (if has then count else 0) }
    ensures small { result ≤ count }
{
    if has { count } else { 0 }
}

// How many entries the dynamic table has: for each needed name, for the own name, and for the tables and arrays.
#[tactic(auto, using(crate::proofs::PlanNames::tags_length))]
fn dynamic_entries(
    needed: &[Name],
    soname: &Option<Name>,
    relas: u64,
    cap_relocs: u64,
    has_init: bool,
    has_fini: bool,
) -> u64
    requires few_needed { length needed.now ≤ 256 }
    ensures value { result ≡ length needed.now + length (option_to_list soname.now) + length (table_tags (not (relas == 0)) (not (cap_relocs == 0)) has_init has_fini) }
    ensures small { result ≤ 2 ^ 32 }
{
    let names = needed.len() as u64 + count_if(soname.is_some(), 1);
    let lists = count_if(relas != 0, 3) + count_if(cap_relocs != 0, 2);
    let arrays = count_if(has_init, 2) + count_if(has_fini, 2);
    names + (6 + lists + arrays)
}

// The plan of these steps and counts.
#[tactic(auto, unfolding(crate::specs::Planned::planned, crate::specs::Planned::sizes_of), using(crate::proofs::PlanLaw::short_rows))]
fn planned(
    sources: &Sources<'_>,
    arrays: &Arrays<'_>,
    steps: Vec<Step>,
    counts: Counts,
    soname: Option<Name>,
    needed: Vec<Name>,
) -> Plan
    requires counted { IsCounted sources.now steps.items counts }
    requires short_soname { IfSome soname (λ n. length n ≤ 255) }
    requires few_needed { length needed.items ≤ 256 }
    requires short_needed { All (λ n. length n ≤ 255) needed.items }
    ensures value { result ≡ planned_of sources.now arrays.now needed.items soname steps.items }
    ensures small { AreSmall result.sizes }
{
    let Counts {
        symbols,
        slots,
        stubs,
        relas,
        cap_relocs,
    } = counts;
    let has_init = arrays.has_init();
    let has_fini = arrays.has_fini();
    let sizes = Sizes {
        symbols: 1 + symbols.len() as u64,
        relas,
        cap_relocs,
        names: name_bytes(sources.table(), &symbols, &soname, &needed),
        slots: slots.as_slice().len() as u64,
        stubs: stubs.as_slice().len() as u64,
        dynamics: dynamic_entries(&needed, &soname, relas, cap_relocs, has_init, has_fini),
    };
    Plan {
        steps,
        slots,
        stubs,
        symbols,
        needed,
        soname,
        has_init,
        has_fini,
        sizes,
    }
}

/// Checks the relocations, and plans the file. `needed` are the names of the shared objects that it will need.
///
/// The relocations are those of the RISC-V ELF psABI, with those of pure capabilities. They are walked in order of
/// files, sections and records, and each is checked in this order: its kind is accepted in its section
/// (`RelocationKind`), its field lies in one piece (`RelocationOffset`), it may refer to its target (`RelocationKind`),
/// no slot before it shares a byte with it (`RelocationSlot`), and its addend names the target or its end (`Addend`).
/// The first check that fails refuses, with the number of the file and the file offset of the record. After all records
/// more than 2^20 symbols (`SymbolCount`), and then more than 2^20 relocations in both lists (`RelocationCount`), refuse.
#[tactic(auto, using(crate::proofs::PlanLaw::plan_is, crate::proofs::PlanLaw::short_names))]
pub fn plan(
    alloc: Global,
    sources: &Sources<'_>,
    pieces: &Pieces,
    needed: &NameList,
    kind: &Kind,
) -> Result<Plan, Refusal>
    requires few { length sources.now.rels ≤ 256 }
    requires few_needed { length needed.now ≤ 256 }
    requires short_needed { All (λ n. length n.0 ≤ 255) needed.now }
    requires short_soname { IfSome (soname_of kind.now) (λ n. length n ≤ 255) }
    ensures value { Yields (λ plan. plan) result (plan_of sources.now pieces.now.all (map (λ n. n.0) needed.now) (soname_of kind.now)) }
    ensures small { IfOk result (λ plan. AreSmall plan.sizes) }
{
    let arrays = Arrays::of(pieces);
    let steps = all_steps(alloc, sources, arrays.pieces())?;
    let counts = counted(alloc, sources, &steps)?;
    let soname = soname(alloc, kind)?;
    let needed = needed_names(alloc, needed)?;
    Ok(planned(sources, &arrays, steps, counts, soname, needed))
}

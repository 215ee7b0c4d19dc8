//! The dynamic table of the linked file.

ghost use Rattle.std.specs.Prelude.{◌≡◌, ◌++◌, ◌≤◌, ◌^◌, map, take, drop, length, IfOk, OnOk, option_to_list};
ghost use Rattle.cap_table.specs.Planned.{tags_of, tags_if};
ghost use Rattle.cap_table.specs.Lists.{tag_value as value_of, tag_entry, entries_with};

use crate::planned::Plan;
use crate::records::DynEntry;
use cap_base::NoMemory;
use cap_layout::{Parts, Sizes};
use std::alloc::Global;

const NULL: u64 = 0;

const NEEDED: u64 = 1;

const HASH: u64 = 4;

const STRTAB: u64 = 5;

const SYMTAB: u64 = 6;

const RELA: u64 = 7;

const RELASZ: u64 = 8;

const RELAENT: u64 = 9;

const STRSZ: u64 = 10;

const SYMENT: u64 = 11;

const SONAME: u64 = 14;

const INIT_ARRAY: u64 = 25;

const FINI_ARRAY: u64 = 26;

const INIT_ARRAYSZ: u64 = 27;

const FINI_ARRAYSZ: u64 = 28;

const CAP_RELOCS: u64 = 0x7000_c000;

const CAP_RELOCSSZ: u64 = 0x7000_c001;

/// The bytes of a symbol, of a relocation and of a description.
const SYMBOL_SIZE: u64 = 24;

const RELA_SIZE: u64 = 24;

const CAP_RELOC_SIZE: u64 = 40;

/// The dynamic table. `own` are the offsets of the file's own name, if it has one, and of the needed names.
pub(crate) fn dynamics(
    alloc: Global,
    plan: &Plan,
    own: &[u32],
    parts: &Parts,
) -> Result<Vec<DynEntry>, NoMemory>
    requires own { length (option_to_list plan.now.soname) ≤ length own.now }
    requires relas { plan.now.sizes.relas ≤ 2 ^ 20 }
    requires cap_relocs { plan.now.sizes.cap_relocs ≤ 2 ^ 20 }
    ensures { IfOk result (λ listed. listed.items ≡ entries_with 1 (drop (length (option_to_list plan.now.soname)) own.now) ++ entries_with 14 (take (length (option_to_list plan.now.soname)) own.now) ++ map (tag_entry plan.now parts.now) (tags_of plan.now)) }
{
    let sonames = soname_count(plan);
    let mut listed = Vec::new(alloc);
    push_offsets(&mut listed, NEEDED, &own[sonames..])?;
    push_offsets(&mut listed, SONAME, &own[..sonames])?;
    push_tables(&mut listed, plan, parts)?;
    Ok(listed)
}

fn soname_count(plan: &Plan) -> usize
    ensures { result ≡ length (option_to_list plan.now.soname) }
{
    match plan.soname() {
        Some(_) => 1,
        None => 0,
    }
}

/// Appends an entry for each of these names.
fn push_offsets(listed: &mut Vec<DynEntry>, tag: u64, offsets: &[u32]) -> Result<(), NoMemory>
    ensures { OnOk result (listed.new.items ≡ listed.old.items ++ entries_with tag offsets.now) }
{
    for offset in offsets {
        listed.push(DynEntry {
            tag,
            value: u64::from(*offset),
        })?;
    }
    Ok(())
}

/// Appends the entries of the tables.
fn push_tables(listed: &mut Vec<DynEntry>, plan: &Plan, parts: &Parts) -> Result<(), NoMemory>
    requires relas { plan.now.sizes.relas ≤ 2 ^ 20 }
    requires cap_relocs { plan.now.sizes.cap_relocs ≤ 2 ^ 20 }
    ensures { OnOk result (listed.new.items ≡ listed.old.items ++ map (tag_entry plan.now parts.now) (tags_of plan.now)) }
{
    let sizes = plan.sizes();
    push(listed, plan, parts, &[HASH, STRTAB, SYMTAB, STRSZ, SYMENT])?;
    push_if(
        sizes.relas != 0,
        listed,
        plan,
        parts,
        &[RELA, RELASZ, RELAENT],
    )?;
    push_if(
        sizes.cap_relocs != 0,
        listed,
        plan,
        parts,
        &[CAP_RELOCS, CAP_RELOCSSZ],
    )?;
    push_if(
        plan.has_init(),
        listed,
        plan,
        parts,
        &[INIT_ARRAY, INIT_ARRAYSZ],
    )?;
    push_if(
        plan.has_fini(),
        listed,
        plan,
        parts,
        &[FINI_ARRAY, FINI_ARRAYSZ],
    )?;
    push(listed, plan, parts, &[NULL])
}

/// Appends the entries of these tags, where the file has what they tell of.
fn push_if(
    has: bool,
    listed: &mut Vec<DynEntry>,
    plan: &Plan,
    parts: &Parts,
    tags: &[u64],
) -> Result<(), NoMemory>
    requires relas { plan.now.sizes.relas ≤ 2 ^ 20 }
    requires cap_relocs { plan.now.sizes.cap_relocs ≤ 2 ^ 20 }
    ensures { OnOk result (listed.new.items ≡ listed.old.items ++ map (tag_entry plan.now parts.now) (tags_if has tags.now)) }
{
    if has {
        push(listed, plan, parts, tags)
    } else {
        Ok(())
    }
}

/// Appends the entries of these tags.
fn push(
    listed: &mut Vec<DynEntry>,
    plan: &Plan,
    parts: &Parts,
    tags: &[u64],
) -> Result<(), NoMemory>
    requires relas { plan.now.sizes.relas ≤ 2 ^ 20 }
    requires cap_relocs { plan.now.sizes.cap_relocs ≤ 2 ^ 20 }
    ensures { OnOk result (listed.new.items ≡ listed.old.items ++ map (tag_entry plan.now parts.now) tags.now) }
{
    let sizes = plan.sizes();
    for tag in tags {
        listed.push(DynEntry {
            tag: *tag,
            value: tag_value(&sizes, plan, parts, *tag),
        })?;
    }
    Ok(())
}

/// The value of the entry of a tag.
#[tactic(auto, unfolding(crate::specs::Lists::tag_value))]
fn tag_value(sizes: &Sizes, plan: &Plan, parts: &Parts, tag: u64) -> u64
    requires sizes { sizes.now ≡ plan.now.sizes }
    requires relas { sizes.now.relas ≤ 2 ^ 20 }
    requires cap_relocs { sizes.now.cap_relocs ≤ 2 ^ 20 }
    ensures { result ≡ value_of plan.now parts.now tag }
{
    match tag {
        HASH => parts.hash_at,
        STRTAB => parts.names_at,
        SYMTAB => parts.symbols_at,
        STRSZ => sizes.names,
        SYMENT => SYMBOL_SIZE,
        RELA => parts.relas_at,
        RELASZ => RELA_SIZE * sizes.relas,
        RELAENT => RELA_SIZE,
        CAP_RELOCS => parts.cap_relocs_at,
        CAP_RELOCSSZ => CAP_RELOC_SIZE * sizes.cap_relocs,
        INIT_ARRAY => parts.init_at,
        INIT_ARRAYSZ => parts.init_size,
        FINI_ARRAY => parts.fini_at,
        FINI_ARRAYSZ => parts.fini_size,
        _ => 0,
    }
}

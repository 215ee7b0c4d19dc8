//! The entries of the dynamic table.

ghost use Rattle.std.specs.Prelude.{◌≡◌, ◌+◌, ◌*◌, ◌≤◌, ◌==◌, length, IfOk, position};
ghost use Rattle.std.specs.List.{find};
ghost use Rattle.cap_elf.specs.Records.{table, dyn_entry_at};
ghost use Rattle.cap_base.specs.Steps.{Gives};
ghost use Rattle.cap_elf.specs.Dynamic.{listed_of, tag_step, used_of, value_of as value_at, has_symbolic_flag as has_symbolic_flag_of, is_symbolic as is_symbolic_of};

use crate::decode::{DynEntry, Table, dyn_entry};
use crate::tags::{FLAGS, SYMBOLIC, is_refused, is_single};
use cap_base::{Check, Fault, Stop, refuse};
use std::alloc::{AllocError, Global};

#[tactic(auto, using(crate::proofs::Walk::table_more))]
fn entries(alloc: Global, bytes: &[u8], place: Table) -> Result<Vec<DynEntry>, AllocError>
    requires { place.at + 16 * place.count ≤ length bytes.now }
    ensures { IfOk result (λ v. v.items ≡ table (dyn_entry_at bytes.now) place.at 16 place.count) }
{
    let mut entries = Vec::with_capacity(alloc, place.count)?;
    for i in 0..place.count {
        entries.push(dyn_entry(bytes, place.at + 16 * i))?;
    }
    Ok(entries)
}

fn end_of(entries: &[DynEntry]) -> Option<usize>
    ensures { result ≡ position (λ e. e.tag == 0) entries.now }
{
    entries.iter().position(|entry| entry.tag == 0)
}

/// The entries before the one that ends the table.
#[tactic(auto, unfolding(crate::specs::Dynamic::listed_of))]
pub(crate) fn listed(alloc: Global, bytes: &[u8], place: Table) -> Result<Vec<DynEntry>, Stop>
    requires { place.at + 16 * place.count ≤ length bytes.now }
    ensures { Gives (λ v. v.items) result (listed_of bytes.now place) }
{
    let mut entries = entries(alloc, bytes, place)?;
    let no_end = Fault {
        check: Check::DynamicEnd,
        at: place.at as u64,
    };
    let end = end_of(&entries).ok_or(no_end)?;
    entries.truncate(end);
    Ok(entries)
}

/// The value of the entry of this tag.
#[tactic(auto, using(cap_base::proofs::Walk::find_skip, cap_base::proofs::Walk::find_hit, cap_base::proofs::Walk::find_none))]
pub(crate) fn value_of(entries: &[DynEntry], tag: u64) -> Option<u64>
    ensures { result ≡ value_at entries.now tag }
{
    for entry in entries {
        if entry.tag == tag {
            return Some(entry.value);
        }
    }
    None
}

#[tactic(auto, unfolding(crate::specs::Dynamic::tag_step))]
fn take_entry(used: &mut Vec<DynEntry>, entry: &DynEntry) -> Result<(), Stop>
    ensures { Gives (λ _. used.new.items) result (tag_step used.old.items entry.now) }
{
    refuse(is_refused(entry), Check::DynamicTag, entry.at)?;
    if is_single(entry.tag) {
        refuse(
            value_of(used, entry.tag).is_some(),
            Check::RepeatedTag,
            entry.at,
        )?;
        used.push(*entry)?;
    }
    Ok(())
}

/// The entries of tags that stand once.
#[tactic(auto, using(cap_base::proofs::Walk::steps_more, cap_base::proofs::Walk::steps_stop))]
pub(crate) fn used_entries(alloc: Global, listed: &[DynEntry]) -> Result<Vec<DynEntry>, Stop>
    ensures { Gives (λ v. v.items) result (used_of listed.now) }
{
    let mut used = Vec::new(alloc);
    for entry in listed {
        take_entry(&mut used, entry)?;
    }
    Ok(used)
}

fn has_symbolic_flag(listed: &[DynEntry]) -> bool
    ensures { result ≡ has_symbolic_flag_of listed.now }
{
    listed
        .iter()
        .any(|entry| entry.tag == FLAGS && entry.value & 2 == 2)
}

/// Whether the object looks a name up in itself first.
pub(crate) fn is_symbolic(listed: &[DynEntry], used: &[DynEntry]) -> bool
    ensures { result ≡ is_symbolic_of listed.now used.now }
{
    value_of(used, SYMBOLIC).is_some() || has_symbolic_flag(listed)
}

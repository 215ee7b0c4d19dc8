//! The slots and stubs that the steps of the walk need, and the entries of the linked file for them.

ghost use Rattle.std.specs.Prelude.{◌≡◌, ◌≤◌, ◌<◌, [], All, fold, length, IfOk, OnOk};
ghost use Rattle.cap_elf.specs.RelObject.{file_of};
ghost use Rattle.cap_table.specs.Checks.{IsStep, reloc_of, target_at};
ghost use Rattle.cap_table.specs.Planned.{needs_slot as needs_slot_of, needs_stub as needs_stub_of, is_field as is_field_of, slots_of, stubs_of, count};
ghost use Rattle.cap_table.specs.Gathered.{needs as needs_of, with_needed as with_needed_of, has_entry as has_entry_of, field_has_entry as field_has_entry_of};

use crate::kinds::{CAPABILITY, is_capability, is_slot, is_slot_high, is_transfer, is_word};
use crate::sources::Sources;
use crate::target::{Step, Target};
use crate::target_set::TargetSet;
use cap_base::NoMemory;
use cap_elf::Reloc;
use std::alloc::Global;

/// What the linked file has for a step.
#[derive(Clone, Copy, Debug, PartialEq, Eq)]
enum Need {
    /// A slot of the capability table.
    Slot,
    /// A stub, through which control goes to what is left to load.
    Stub,
}

/// The entries of the linked file for fields that change when it is loaded.
#[derive(Clone, Copy, Debug, PartialEq, Eq)]
pub(crate) enum Entries {
    /// The relocations (DT_RELA).
    Relocated,
    /// The descriptions of capabilities (`__cap_relocs`).
    Described,
}

// The relocation of a step.
fn reloc<'a>(sources: &Sources<'a>, step: &Step) -> &'a Reloc
    requires { IsStep sources.now step.now }
    ensures value { result.now ≡ reloc_of sources.now.rels step.now }
    ensures symbol { result.now.symbol < length (file_of sources.now.rels step.now.file).symbols }
{
    &sources.rels()[step.file as usize].relocs()[step.index as usize]
}

// What it refers to.
fn target<'a>(sources: &'a Sources<'_>, step: &Step) -> &'a Target
    requires { IsStep sources.now step.now }
    ensures { result.now ≡ target_at sources.now step.now }
{
    sources.target_ref(step.file, reloc(sources, step).symbol)
}

fn needs_stub(sources: &Sources<'_>, step: &Step) -> bool
    requires { IsStep sources.now step.now }
    ensures { result ≡ needs_stub_of sources.now step.now }
{
    is_transfer(reloc(sources, step).kind) && target(sources, step).is_dynamic()
}

fn needs_slot(sources: &Sources<'_>, step: &Step) -> bool
    requires { IsStep sources.now step.now }
    ensures { result ≡ needs_slot_of sources.now step.now }
{
    is_slot_high(reloc(sources, step).kind) || needs_stub(sources, step)
}

fn needs(need: Need, sources: &Sources<'_>, step: &Step) -> bool
    requires { IsStep sources.now step.now }
    ensures { result ≡ needs_of need sources.now step.now }
{
    match need {
        Need::Slot => needs_slot(sources, step),
        Need::Stub => needs_stub(sources, step),
    }
}

#[tactic(auto, unfolding(crate::specs::Gathered::with_needed))]
fn with_needed(
    need: Need,
    sources: &Sources<'_>,
    targets: &mut TargetSet,
    step: &Step,
) -> Result<(), NoMemory>
    requires { IsStep sources.now step.now }
    ensures { OnOk result (targets.new ≡ with_needed_of need sources.now targets.old step.now) }
{
    if needs(need, sources, step) {
        targets.add(target(sources, step))
    } else {
        Ok(())
    }
}

// The targets of all steps that need one, each once.
#[tactic(auto, using(crate::proofs::PlanGathered::fold_more, crate::proofs::PlanGathered::fold_done))]
fn needed(
    alloc: Global,
    need: Need,
    sources: &Sources<'_>,
    steps: &[Step],
) -> Result<TargetSet, NoMemory>
    requires { All (IsStep sources.now) steps.now }
    ensures { IfOk result (λ ts. ts ≡ fold (with_needed_of need sources.now) [] steps.now) }
{
    let mut targets = TargetSet::new(alloc);
    for step in steps {
        with_needed(need, sources, &mut targets, step)?;
    }
    Ok(targets)
}

/// The symbols that have a slot, in order of their slots.
#[tactic(auto, using(crate::proofs::PlanGathered::slots_gathered))]
pub(crate) fn slots(
    alloc: Global,
    sources: &Sources<'_>,
    steps: &[Step],
) -> Result<TargetSet, NoMemory>
    requires { All (IsStep sources.now) steps.now }
    ensures { IfOk result (λ ts. ts ≡ slots_of sources.now steps.now) }
{
    needed(alloc, Need::Slot, sources, steps)
}

/// The symbols that have a stub, in order of their stubs.
#[tactic(auto, using(crate::proofs::PlanGathered::stubs_gathered))]
pub(crate) fn stubs(
    alloc: Global,
    sources: &Sources<'_>,
    steps: &[Step],
) -> Result<TargetSet, NoMemory>
    requires { All (IsStep sources.now) steps.now }
    ensures { IfOk result (λ ts. ts ≡ stubs_of sources.now steps.now) }
{
    needed(alloc, Need::Stub, sources, steps)
}

fn has_entry(entries: Entries, kind: u32, target: &Target) -> bool
    ensures { result ≡ has_entry_of entries kind target.now }
{
    match entries {
        Entries::Relocated => target.is_dynamic() || is_word(kind) && target.is_address(),
        Entries::Described => is_capability(kind) && target.is_address(),
    }
}

fn field_has_entry(entries: Entries, sources: &Sources<'_>, step: &Step) -> bool
    requires { IsStep sources.now step.now }
    ensures { result ≡ field_has_entry_of entries sources.now step.now }
{
    let kind = reloc(sources, step).kind;
    is_slot(kind) && has_entry(entries, kind, target(sources, step))
}

/// How many slots have an entry.
#[tactic(auto, using(crate::proofs::PlanGathered::count_more, crate::proofs::PlanGathered::count_all))]
pub(crate) fn slot_entries(entries: Entries, slots: &[Target]) -> u64
    ensures value { result ≡ count (has_entry_of entries 193) slots.now }
    ensures few { result ≤ length slots.now }
{
    let mut total = 0;
    for slot in slots {
        if has_entry(entries, CAPABILITY, slot) {
            total += 1;
        }
    }
    total
}

/// How many fields have an entry.
#[tactic(auto, using(crate::proofs::PlanGathered::count_more, crate::proofs::PlanGathered::count_all))]
pub(crate) fn field_entries(entries: Entries, sources: &Sources<'_>, steps: &[Step]) -> u64
    requires { All (IsStep sources.now) steps.now }
    ensures value { result ≡ count (field_has_entry_of entries sources.now) steps.now }
    ensures few { result ≤ length steps.now }
{
    let mut total = 0;
    for step in steps {
        if field_has_entry(entries, sources, step) {
            total += 1;
        }
    }
    total
}

//! The value of each relocation with its checks: a low part has a partner, and a value fits its field.

ghost use Rattle.std.specs.Prelude.{◌≡◌, ◌+◌, ◌^◌, ◌<◌, IfOk};
ghost use Rattle.cap_base.specs.Steps.{in_file};
ghost use Rattle.cap_elf.specs.RelObject.{file_of};
ghost use Rattle.cap_code.specs.Values as values;
ghost use Rattle.cap_code.specs.Steps.{IsStepIn};
ghost use Rattle.cap_code.specs.Partners.{AreFirsts};

use crate::kinds;
use crate::partners::Partners;
use crate::scene::Scene;
use cap_base::{Check, Fault, Refusal, refuse};
use cap_elf::{Place, Symbol};
use cap_table::Step;

/// Whether a value, read as a signed number, is from -low up to high, without high.
fn is_from_to(low: u64, high: u64, value: u64) -> bool
    requires { low + high < 2 ^ 64 }
    ensures { result ≡ values.is_from_to low high value }
{
    value.wrapping_add(low) < low + high
}

/// Whether a value is even, and from -reach up to reach, without reach.
fn is_reached(reach: u64, value: u64) -> bool
    requires { reach < 2 ^ 63 }
    ensures { result ≡ values.is_reached reach value }
{
    value % 2 != 1 && is_from_to(reach, reach, value)
}

/// Whether the value fits its field: a branch reaches even distances, a pair of a high and a low part 2^31 with the
/// carry.
#[tactic(auto, unfolding(crate::specs::Values::value_passes))]
pub(crate) fn value_passes(kind: u32, value: u64) -> bool
    ensures { result ≡ values.value_passes kind value }
{
    if kind == kinds::JAL {
        is_reached(0x10_0000, value)
    } else if kind == kinds::BRANCH {
        is_reached(0x1000, value)
    } else if kind == kinds::RVC_BRANCH {
        is_reached(0x100, value)
    } else if kind == kinds::RVC_JUMP {
        is_reached(0x800, value)
    } else if kinds::is_call(kind) || kinds::is_high(kind) {
        is_from_to(0x8000_0800, 0x7fff_f800, value)
    } else if kinds::is_distance(kind) {
        is_from_to(0x8000_0000, 0x8000_0000, value)
    } else {
        true
    }
}

/// The offset of a symbol that is defined in a section.
fn label_in(symbol: &Symbol, section: u32) -> Option<u64>
    ensures { result ≡ values.label_in symbol.now.place section symbol.now.value }
{
    match symbol.place {
        Place::Section(n) => {
            if n == section {
                Some(symbol.value)
            } else {
                None
            }
        }
        Place::Undefined | Place::Absolute | Place::Common => None,
    }
}

/// The label that a low part names: the symbol of its own file, in its own section.
fn label_of(scene: &Scene<'_>, step: &Step) -> Option<u64>
    requires { IsStepIn scene.now step.now }
    ensures { result ≡ values.label_of scene.now.named.rels step.now }
{
    let reloc = scene.reloc(step);
    let label = &scene.file(step).symbols()[reloc.symbol as usize];
    label_in(label, reloc.section)
}

/// The partner of a low part: the first high part in the same section at its label.
#[tactic(auto, unfolding(crate::specs::Values::partner_of))]
fn partner_of(scene: &Scene<'_>, partners: &Partners, step: &Step) -> Option<Step>
    requires step { IsStepIn scene.now step.now }
    requires partners { AreFirsts partners.now.firsts scene.now.named.rels scene.now.lists.plan.steps }
    ensures { result ≡ values.partner_of scene.now.named.rels scene.now.lists.plan.steps step.now }
{
    let section = scene.reloc(step).section;
    match label_of(scene, step) {
        Some(offset) => partners.find(scene, step.file, section, offset),
        None => None,
    }
}

/// The relocation whose value a step takes: a low part that of its partner.
#[tactic(auto, unfolding(crate::specs::Values::giver_of))]
fn giver_of(scene: &Scene<'_>, partners: &Partners, step: &Step) -> Result<Step, Fault>
    requires step { IsStepIn scene.now step.now }
    requires partners { AreFirsts partners.now.firsts scene.now.named.rels scene.now.lists.plan.steps }
    ensures value { result ≡ values.giver_of scene.now step.now }
    ensures there { IfOk result (IsStepIn scene.now) }
{
    let reloc = scene.reloc(step);
    if kinds::is_low(reloc.kind) {
        partner_of(scene, partners, step).ok_or(Fault {
            check: Check::NoPartner,
            at: reloc.at,
        })
    } else {
        Ok(*step)
    }
}

/// The value of a relocation, which passes its checks.
#[tactic(auto, unfolding(crate::specs::Values::checked_value))]
fn checked_value(scene: &Scene<'_>, partners: &Partners, step: &Step) -> Result<u64, Fault>
    requires step { IsStepIn scene.now step.now }
    requires partners { AreFirsts partners.now.firsts scene.now.named.rels scene.now.lists.plan.steps }
    ensures { result ≡ values.checked_value scene.now step.now }
{
    let giver = giver_of(scene, partners, step)?;
    let value = scene.own_value(&giver);
    let reloc = scene.reloc(step);
    refuse(
        !value_passes(reloc.kind, value),
        Check::BranchRange,
        reloc.at,
    )?;
    Ok(value)
}

/// The same, refused with the number of the step's file.
pub(crate) fn value_of(scene: &Scene<'_>, partners: &Partners, step: &Step) -> Result<u64, Refusal>
    requires step { IsStepIn scene.now step.now }
    requires partners { AreFirsts partners.now.firsts scene.now.named.rels scene.now.lists.plan.steps }
    ensures { result ≡ in_file (file_of scene.now.named.rels step.now.file).number (values.checked_value scene.now step.now) }
{
    match checked_value(scene, partners, step) {
        Ok(value) => Ok(value),
        Err(fault) => Err(fault.refusal(scene.file(step).number())),
    }
}

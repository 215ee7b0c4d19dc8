//! Relocating code.

ghost use Rattle.std.specs.Prelude.{◌≡◌, ◌+◌, ◌<◌, false, length, drop, filter, Ok, Err, IfOk, IfErr, OnOk};
ghost use Rattle.cap_base.specs.Steps.{Yields, steps};
ghost use Rattle.cap_table.specs.Kinds as kinds_of;
ghost use Rattle.cap_table.specs.Checks.{reloc_of};
ghost use Rattle.cap_table.specs.Lists.{AreListsOf};
ghost use Rattle.cap_table.specs.Bodies.{AreLong};
ghost use Rattle.cap_code.specs.Values.{is_patched};
ghost use Rattle.cap_code.specs.Steps.{IsStepIn};
ghost use Rattle.cap_code.specs.Partners.{AreFirsts};
ghost use Rattle.cap_code.specs.Patched.{patch_of, patch_step as patch_step_of};

use crate::checking::value_of;
use crate::kinds;
use crate::partners::Partners;
use crate::scene::Scene;
use crate::writing::{write_stubs, write_value};
use cap_base::Refusal;
use cap_layout::Layout;
use cap_table::{Bodies, CapTable, Sources, Step, plain};
use std::alloc::Global;

/// Writes the value of a step into its field, where it passes its checks.
#[tactic(auto, unfolding(crate::specs::Patched::patch_step))]
fn patch_step(
    scene: &Scene<'_>,
    partners: &Partners,
    step: &Step,
    bodies: &mut Bodies,
) -> Result<(), Refusal>
    requires step { IsStepIn scene.now step.now }
    requires code { kinds_of.is_slot (reloc_of scene.now.named.rels step.now).kind ≡ false }
    requires partners { AreFirsts partners.now.firsts scene.now.named.rels scene.now.lists.plan.steps }
    requires long { AreLong scene.now.laid.pieces.all scene.now.lists.plan bodies.old }
    ensures passed { OnOk result (patch_step_of scene.now bodies.old.pieces step.now ≡ Ok bodies.new.pieces) }
    ensures refused { IfErr result (λ refusal. patch_step_of scene.now bodies.old.pieces step.now ≡ Err refusal) }
    ensures rest { bodies.new ≡ record bodies.old { pieces = bodies.new.pieces } }
    ensures long { AreLong scene.now.laid.pieces.all scene.now.lists.plan bodies.new }
{
    let value = value_of(scene, partners, step)?;
    write_value(scene, step, value, bodies);
    Ok(())
}

/// The same for the step of a number, unless it changes a slot.
fn visit_step(
    scene: &Scene<'_>,
    partners: &Partners,
    k: usize,
    bodies: &mut Bodies,
) -> Result<(), Refusal>
    requires inside { k < length scene.now.lists.plan.steps }
    requires partners { AreFirsts partners.now.firsts scene.now.named.rels scene.now.lists.plan.steps }
    requires long { AreLong scene.now.laid.pieces.all scene.now.lists.plan bodies.old }
    ensures passed { OnOk result (steps (patch_step_of scene.now) bodies.new.pieces (filter (is_patched scene.now.named) (drop (k + 1) scene.now.lists.plan.steps)) ≡ steps (patch_step_of scene.now) bodies.old.pieces (filter (is_patched scene.now.named) (drop k scene.now.lists.plan.steps))) }
    ensures refused { IfErr result (λ refusal. steps (patch_step_of scene.now) bodies.old.pieces (filter (is_patched scene.now.named) (drop k scene.now.lists.plan.steps)) ≡ Err refusal) }
    ensures rest { bodies.new ≡ record bodies.old { pieces = bodies.new.pieces } }
    ensures long { AreLong scene.now.laid.pieces.all scene.now.lists.plan bodies.new }
{
    let step = scene.step(k);
    if kinds::is_slot(scene.reloc(&step).kind) {
        return Ok(());
    }
    patch_step(scene, partners, &step, bodies)
}

/// Writes the values of all steps that change no slot, in order, up to the first that fails a check.
fn patch_pieces(scene: &Scene<'_>, partners: &Partners, bodies: &mut Bodies) -> Result<(), Refusal>
    requires partners { AreFirsts partners.now.firsts scene.now.named.rels scene.now.lists.plan.steps }
    requires long { AreLong scene.now.laid.pieces.all scene.now.lists.plan bodies.old }
    ensures passed { OnOk result (steps (patch_step_of scene.now) bodies.old.pieces (filter (is_patched scene.now.named) scene.now.lists.plan.steps) ≡ Ok bodies.new.pieces) }
    ensures refused { IfErr result (λ refusal. steps (patch_step_of scene.now) bodies.old.pieces (filter (is_patched scene.now.named) scene.now.lists.plan.steps) ≡ Err refusal) }
    ensures rest { bodies.new ≡ record bodies.old { pieces = bodies.new.pieces } }
    ensures long { AreLong scene.now.laid.pieces.all scene.now.lists.plan bodies.new }
{
    for k in 0..scene.len() {
        visit_step(scene, partners, k, bodies)?;
    }
    Ok(())
}

/// The bytes of the linked file's pieces, stubs and slots, with code relocated (RISC-V ELF psABI, "Relocations").
///
/// Each field is a number of 1, 2, 4 or 8 bytes, the lowest byte first, and addresses count bytes from 0 at the ELF
/// header. Values are taken modulo 2^64. A stub has 16 bytes.
///
/// Refusals, by the first relocation that fails in order of files, sections and records, with its file and the file offset
/// of its record:
/// - `Malformed`, no partner: a low part (PCREL_LO12_I, PCREL_LO12_S) names no label of its own section at which a high
///   part stands. It is tried before the range.
/// - `Malformed`, branch range: a distance is odd, or beyond the reach of its branch or jump; or it is beyond 2^31, with
///   the carry of the low part where there is one.
/// - `NoMemory`.
#[tactic(auto, unfolding(crate::specs::Patched::patch_of))]
pub fn patch(
    alloc: Global,
    sources: &Sources<'_>,
    layout: &Layout<'_>,
    lists: &CapTable<'_>,
) -> Result<Bodies, Refusal>
    requires lists { AreListsOf sources.now layout.now lists.now }
    ensures value { Yields (λ bodies. bodies) result (patch_of (record { named = sources.now; laid = layout.now; lists = lists.now })) }
    ensures long { IfOk result (AreLong layout.now.pieces.all lists.now.plan) }
{
    let scene = Scene::new(sources, layout, lists);
    let partners = Partners::new(alloc, &scene)?;
    let mut bodies = plain(alloc, sources, layout, lists)?;
    patch_pieces(&scene, &partners, &mut bodies)?;
    write_stubs(&scene, &mut bodies);
    Ok(bodies)
}

//! The descriptions and the relocations of the fields that want values.

ghost use Rattle.std.specs.Prelude.{◌≡◌, ◌+◌, ◌*◌, ◌^◌, ◌≤◌, [], ◌∷◌, map, filter, length, All, IfOk, OnOk};
ghost use Rattle.cap_table.specs.Planned.{is_field};
ghost use Rattle.cap_table.specs.Lists.{wants, slot_wants, field_want as field_want_of, field_wants};
ghost use Rattle.cap_table.specs.Entered.{none_entered, entered};
ghost use Rattle.cap_table.specs.Facts.{IsStepOf, ArePlanned};

use crate::describing::{cap_reloc, is_capability_to_address};
use crate::numbers::SymbolNumbers;
use crate::planned::Plan;
use crate::relocating::{dyn_reloc, is_left};
use crate::sources::Sources;
use crate::target::Step;
use crate::wants::{Want, field_want, is_field_kind, reloc_at, slot_want};
use cap_base::NoMemory;
use cap_elf::{CapReloc, DynReloc};
use cap_layout::Layout;
use std::alloc::Global;
use std::marker::Model;

/// The descriptions of capabilities, and the relocations. Each list has the piece that was found last for it: the next is
/// sought there first, and nothing rests on it.
#[derive(Drop)]
pub(crate) struct Entered {
    pub(crate) cap_relocs: Vec<CapReloc>,
    pub(crate) relas: Vec<DynReloc>,
    described_piece: u32,
    relocated_piece: u32,
}

impl Model for Entered {
    ghost use Rattle.cap_table.specs.Entered.{EnteredValue};

    ghost Value = { EnteredValue };

    ghost view = { λ e. record { cap_relocs = e.cap_relocs.items; relas = e.relas.items } };
}

impl Entered {
    /// None, and room for those of a plan.
    #[tactic(auto, unfolding(crate::specs::Entered::none_entered))]
    fn with_room(alloc: Global, plan: &Plan) -> Result<Entered, NoMemory>
        ensures { IfOk result (λ e. e ≡ none_entered) }
    {
        let sizes = plan.sizes();
        Ok(Entered {
            cap_relocs: Vec::with_capacity(alloc, sizes.cap_relocs as usize)?,
            relas: Vec::with_capacity(alloc, sizes.relas as usize)?,
            described_piece: 0,
            relocated_piece: 0,
        })
    }

    /// Appends what a field needs: a description, a relocation, or neither.
    #[tactic(auto, unfolding(crate::specs::Entered::entered))]
    fn enter(
        &mut self,
        numbers: &SymbolNumbers<'_>,
        sources: &Sources<'_>,
        layout: &Layout<'_>,
        want: &Want<'_>,
    ) -> Result<(), NoMemory>
        requires { layout.now.rels ≡ sources.now.rels }
        ensures { OnOk result (self.new ≡ entered numbers.now layout.now self.old (want.now ∷ [])) }
    {
        if is_capability_to_address(want) {
            let guess = &mut self.described_piece;
            let entry = cap_reloc(sources, layout, want, guess);
            self.cap_relocs.push(entry)?;
        }
        if is_left(want) {
            let guess = &mut self.relocated_piece;
            let entry = dyn_reloc(numbers, sources, layout, want, guess);
            self.relas.push(entry)?;
        }
        Ok(())
    }
}

/// The descriptions and the relocations of all fields: each slot in order, and then each field in order of the walk.
#[tactic(auto, using(crate::proofs::FillEntered::entered_more))]
pub(crate) fn all_entered(
    alloc: Global,
    numbers: &SymbolNumbers<'_>,
    plan: &Plan,
    sources: &Sources<'_>,
    layout: &Layout<'_>,
) -> Result<Entered, NoMemory>
    requires { ArePlanned sources.now layout.now plan.now }
    ensures { IfOk result (λ e. e ≡ entered numbers.now layout.now none_entered (wants sources.now plan.now layout.now)) }
{
    let mut lists = Entered::with_room(alloc, plan)?;
    enter_slots(&mut lists, numbers, plan, sources, layout)?;
    enter_fields(&mut lists, numbers, plan, sources, layout)?;
    Ok(lists)
}

/// Appends those of each slot.
fn enter_slots(
    lists: &mut Entered,
    numbers: &SymbolNumbers<'_>,
    plan: &Plan,
    sources: &Sources<'_>,
    layout: &Layout<'_>,
) -> Result<(), NoMemory>
    requires rels { layout.now.rels ≡ sources.now.rels }
    requires low { layout.now.parts.slots_at + 16 * length plan.now.slots ≤ 2 ^ 26 }
    ensures { OnOk result (lists.new ≡ entered numbers.now layout.now lists.old (slot_wants plan.now layout.now)) }
{
    for (k, target) in plan.slots().iter().enumerate() {
        let want = slot_want(layout, k, target);
        lists.enter(numbers, sources, layout, &want)?;
    }
    Ok(())
}

/// Appends those of each relocated field.
fn enter_fields(
    lists: &mut Entered,
    numbers: &SymbolNumbers<'_>,
    plan: &Plan,
    sources: &Sources<'_>,
    layout: &Layout<'_>,
) -> Result<(), NoMemory>
    requires rels { layout.now.rels ≡ sources.now.rels }
    requires steps { All (IsStepOf sources.now layout.now.pieces.all) plan.now.steps }
    ensures { OnOk result (lists.new ≡ entered numbers.now layout.now lists.old (field_wants sources.now plan.now layout.now)) }
{
    for step in plan.steps() {
        enter_field(lists, numbers, sources, layout, step)?;
    }
    Ok(())
}

/// Appends those of the field of a step, where it is relocated when the file is loaded, or holds a fixed value.
#[tactic(auto, using(crate::proofs::FillEntered::entered_none))]
fn enter_field(
    lists: &mut Entered,
    numbers: &SymbolNumbers<'_>,
    sources: &Sources<'_>,
    layout: &Layout<'_>,
    step: &Step,
) -> Result<(), NoMemory>
    requires rels { layout.now.rels ≡ sources.now.rels }
    requires step { IsStepOf sources.now layout.now.pieces.all step.now }
    ensures { OnOk result (lists.new ≡ entered numbers.now layout.now lists.old (map (field_want_of sources.now layout.now) (filter (is_field sources.now) (step.now ∷ [])))) }
{
    let reloc = reloc_at(sources, layout, step);
    if is_field_kind(reloc.kind) {
        let want = field_want(sources, layout, step, &reloc);
        lists.enter(numbers, sources, layout, &want)?;
    }
    Ok(())
}

//! The inputs, the layout and the lists, and the values of relocations in them.

ghost use Rattle.std.specs.Prelude.{◌≡◌, if◌then◌else◌};
ghost use Rattle.cap_table.specs.Targets as targets;
ghost use Rattle.cap_code.specs.Values as values;

use crate::kinds;
use cap_elf::{Place, RelFile, Reloc};
use cap_layout::{Layout, Piece};
use cap_syms::Bound;
use cap_table::{CapTable, Sources, Step, Target};
use std::marker::Model;

/// The inputs, the layout and the lists.
#[derive(Drop)]
pub(crate) struct Scene<'a> {
    sources: &'a Sources<'a>,
    rels: &'a [RelFile],
    layout: &'a Layout<'a>,
    pieces: &'a [Piece],
    lists: &'a CapTable<'a>,
}

impl<'a> Model for Scene<'a> {
    ghost use Rattle.cap_code.specs.Values.{Scene as SceneValue};
    ghost use Rattle.cap_code.specs.Steps.{IsScene};

    ghost Value = { SceneValue };

    ghost view = { λ s. record { named = s.sources.now; laid = s.layout.now; lists = s.lists.now } };

    ghost use Rattle.std.specs.Prelude.{◌≡◌};

    ghost invariant = { λ s. IsScene (record { named = s.sources.now; laid = s.layout.now; lists = s.lists.now }) × (s.rels.now ≡ s.sources.now.rels) × (s.pieces.now ≡ s.layout.now.pieces.all) };
}

fn is_absolute(place: Place) -> bool
    ensures { result ≡ targets.is_absolute_at place }
{
    matches!(place, Place::Absolute)
}

fn is_zero(bound: Bound) -> bool
    ensures { result ≡ targets.is_zero bound }
{
    matches!(bound, Bound::Zero)
}

fn is_here(bound: Bound) -> bool
    ensures { result ≡ targets.is_here bound }
{
    matches!(bound, Bound::Local)
}

/// Whether the target is left to load.
fn is_dynamic(target: &Target) -> bool
    ensures { result ≡ targets.is_dynamic target.now }
{
    matches!(target.bound, Bound::Dynamic)
}

/// Whether the target is a fixed number.
fn is_fixed(target: &Target) -> bool
    ensures { result ≡ targets.is_fixed target.now }
{
    is_zero(target.bound) || is_here(target.bound) && is_absolute(target.as_is.place)
}

fn value_of(target: &Target) -> u64
    ensures { result ≡ (if targets.is_zero target.now.bound then 0 else target.now.as_is.value) }
{
    if is_zero(target.bound) {
        0
    } else {
        target.as_is.value
    }
}

/// The value of a fixed target and an addend.
fn fixed_value(target: &Target, addend: i64) -> u64
    ensures { result ≡ targets.fixed_value target.now addend }
{
    value_of(target).wrapping_add_signed(addend)
}

/// How far `to` is from `from`.
fn distance(to: u64, from: u64) -> u64
    ensures { result ≡ values.distance to from }
{
    to.wrapping_sub(from)
}

impl<'a> Scene<'a> {
    ghost use Rattle.std.specs.Prelude.{◌<◌, length, slice_index_or};
    ghost use Rattle.cap_elf.specs.RelObject.{file_of};
    ghost use Rattle.cap_table.specs.Checks.{reloc_of, target_at};
    ghost use Rattle.cap_table.specs.Lists.{AreListsOf};
    ghost use Rattle.cap_table.specs.Bodies.{offset_in_piece};
    ghost use Rattle.cap_code.specs.Steps.{IsScene, IsStepIn, IsTargetIn};
    ghost use Rattle.cap_code.specs.Patched.{stub_value as stub_value_of};
    ghost use Rattle.cap_code.specs.Values.{aim_at as aim_at_of, aim as aim_of, transfer_aim as transfer_aim_of, slot_aim as slot_aim_of, place_of_field, own_value as own_value_of};

    /// They are looked at together.
    pub(crate) fn new(
        sources: &'a Sources<'a>,
        layout: &'a Layout<'a>,
        lists: &'a CapTable<'a>,
    ) -> Scene<'a>
        requires { AreListsOf sources.now layout.now lists.now }
        ensures { result ≡ record { named = sources.now; laid = layout.now; lists = lists.now } }
    {
        Scene {
            sources,
            rels: sources.rels(),
            layout,
            pieces: layout.pieces().all(),
            lists,
        }
    }

    /// How many steps there are.
    pub(crate) fn len(&self) -> usize
        ensures { result ≡ length self.now.lists.plan.steps }
    {
        self.lists.plan().steps().len()
    }

    /// The step of this number.
    pub(crate) fn step(&self, k: usize) -> Step
        requires { k < length self.now.lists.plan.steps }
        ensures value { result ≡ slice_index_or self.now.lists.plan.steps k result }
        ensures there { IsStepIn self.now result }
    {
        self.lists.plan().steps()[k]
    }

    /// The targets that have a stub, in order of their stubs.
    pub(crate) fn stubs(&self) -> &'a [Target]
        ensures { result.now ≡ self.now.lists.plan.stubs }
    {
        self.lists.plan().stubs()
    }

    /// How far the slot of a target is from its stub.
    pub(crate) fn stub_value(&self, target: &Target) -> u64
        ensures { result ≡ stub_value_of self.now.lists target.now }
    {
        let slot = self.lists.slot(target.file, target.symbol).unwrap_or(0);
        let stub = self.lists.stub(target.file, target.symbol).unwrap_or(0);
        distance(slot, stub)
    }

    /// The file of a step.
    pub(crate) fn file(&self, step: &Step) -> &'a RelFile
        requires { IsStepIn self.now step.now }
        ensures { result.now ≡ file_of self.now.named.rels step.now.file }
    {
        &self.rels[step.file as usize]
    }

    /// The relocation of a step.
    pub(crate) fn reloc(&self, step: &Step) -> Reloc
        requires { IsStepIn self.now step.now }
        ensures value { result ≡ reloc_of self.now.named.rels step.now }
        ensures symbol { result.symbol < length (file_of self.now.named.rels step.now.file).symbols }
        ensures sound { IsScene self.now }
    {
        self.rels[step.file as usize].relocs()[step.index as usize]
    }

    /// Where the field of a step begins in its piece.
    pub(crate) fn offset(&self, step: &Step) -> u64
        requires { IsStepIn self.now step.now }
        ensures { result ≡ offset_in_piece self.now.named.rels self.now.laid.pieces.all step.now }
    {
        self.reloc(step).offset - self.pieces[step.piece as usize].start
    }

    /// What the relocation of a step refers to.
    pub(crate) fn target(&self, step: &Step) -> Target
        requires { IsStepIn self.now step.now }
        ensures value { result ≡ target_at self.now.named step.now }
        ensures there { IsTargetIn self.now result }
    {
        self.sources.target(step.file, self.reloc(step).symbol)
    }

    /// The address that a target and an addend name, sought first in the guessed piece.
    #[tactic(auto, unfolding(crate::specs::Values::aim_at))]
    fn aim_at(&self, guess: u32, target: &Target, addend: i64) -> u64
        requires { IsTargetIn self.now target.now }
        ensures { result ≡ aim_at_of self.now target.now addend }
    {
        if is_fixed(target) {
            fixed_value(target, addend)
        } else {
            self.layout
                .point_near(guess, target.file, target.symbol, addend)
                .unwrap_or(0)
        }
    }

    /// The address that the target of a step and its addend name.
    #[tactic(auto, unfolding(crate::specs::Values::aim))]
    fn aim(&self, step: &Step) -> u64
        requires { IsStepIn self.now step.now }
        ensures { result ≡ aim_of self.now step.now }
    {
        self.aim_at(step.piece, &self.target(step), self.reloc(step).addend)
    }

    /// The same for a call or a branch, which goes to the stub of what is left to load.
    #[tactic(auto, unfolding(crate::specs::Values::transfer_aim))]
    fn transfer_aim(&self, step: &Step) -> u64
        requires { IsStepIn self.now step.now }
        ensures { result ≡ transfer_aim_of self.now step.now }
    {
        let target = self.target(step);
        if is_dynamic(&target) {
            self.lists.stub(target.file, target.symbol).unwrap_or(0)
        } else {
            self.aim(step)
        }
    }

    /// The address of the slot of the target of a step.
    fn slot_aim(&self, step: &Step) -> u64
        requires { IsStepIn self.now step.now }
        ensures { result ≡ slot_aim_of self.now step.now }
    {
        let target = self.target(step);
        self.lists.slot(target.file, target.symbol).unwrap_or(0)
    }

    /// The address of the field of a step.
    fn place(&self, step: &Step) -> u64
        requires { IsStepIn self.now step.now }
        ensures { result ≡ place_of_field self.now step.now }
    {
        let reloc = self.reloc(step);
        self.layout
            .place_near(step.piece, step.file, reloc.section, reloc.offset)
            .unwrap_or(0)
    }

    /// The value of a relocation that isn't a low part.
    #[tactic(auto, unfolding(crate::specs::Values::own_value))]
    pub(crate) fn own_value(&self, step: &Step) -> u64
        requires { IsStepIn self.now step.now }
        ensures { result ≡ own_value_of self.now step.now }
    {
        let kind = self.reloc(step).kind;
        if kinds::is_transfer(kind) {
            distance(self.transfer_aim(step), self.place(step))
        } else if kinds::is_slot_high(kind) {
            distance(self.slot_aim(step), self.place(step))
        } else if kinds::is_place_high(kind) || kinds::is_distance(kind) {
            distance(self.aim(step), self.place(step))
        } else {
            self.aim(step)
        }
    }
}

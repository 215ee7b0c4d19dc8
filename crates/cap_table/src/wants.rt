//! The fields of the linked file that want values: the slots of the capability table, and the relocated fields.

ghost use Rattle.std.specs.Prelude.{◌≡◌, ◌+◌, ◌*◌, ◌^◌, ◌<◌, ◌≤◌, length, unwrap_or};
ghost use Rattle.cap_elf.specs.RelObject.{file_of};
ghost use Rattle.cap_table.specs.Kinds.{is_slot};
ghost use Rattle.cap_table.specs.Checks.{reloc_of};
ghost use Rattle.cap_table.specs.Lists.{slot_want as slot_want_of, field_want as field_want_of};
ghost use Rattle.cap_table.specs.Facts.{IsStepOf};
ghost use Rattle.cap_layout.specs.Points.{place_address};

use crate::sources::Sources;
use crate::target::{Step, Target};
use cap_elf::Reloc;
use cap_layout::Layout;
use std::marker::Model;

/// R_RISCV_64: an address of eight bytes.
pub(crate) const WORD: u32 = 2;

/// R_RISCV_CHERI_CAPABILITY: a capability of sixteen bytes.
pub(crate) const CAPABILITY: u32 = 193;

/// The bytes of a slot, and of a stub.
pub(crate) const SLOT_SIZE: u64 = 16;

/// A field of the linked file that wants a value: its type of relocation, its address, and what it refers to.
#[derive(Drop)]
pub(crate) struct Want<'a> {
    pub(crate) kind: u32,
    pub(crate) address: u64,
    pub(crate) target: &'a Target,
    pub(crate) addend: i64,
}

impl<'a> Model for Want<'a> {
    ghost use Rattle.cap_table.specs.Lists.{Want as Wanted};

    ghost Value = { Wanted };

    ghost view = { λ w. record { kind = w.kind; address = w.address; target = w.target.now; addend = w.addend } };
}

/// The slot of this number.
pub(crate) fn slot_want<'a>(layout: &Layout<'_>, k: usize, target: &'a Target) -> Want<'a>
    requires { layout.now.parts.slots_at + 16 * k ≤ 2 ^ 26 }
    ensures { result ≡ slot_want_of layout.now (k, target.now) }
{
    Want {
        kind: CAPABILITY,
        address: layout.parts().slots_at + SLOT_SIZE * k as u64,
        target,
        addend: 0,
    }
}

/// The field of a step's relocation.
pub(crate) fn field_want<'a>(
    sources: &'a Sources<'_>,
    layout: &Layout<'_>,
    step: &Step,
    reloc: &Reloc,
) -> Want<'a>
    requires step { IsStepOf sources.now layout.now.pieces.all step.now }
    requires reloc { reloc.now ≡ reloc_of sources.now.rels step.now }
    requires file { step.now.file < length sources.now.rels }
    requires symbol { reloc.now.symbol < length (file_of sources.now.rels step.now.file).symbols }
    ensures { result ≡ field_want_of sources.now layout.now step.now }
{
    Want {
        kind: reloc.kind,
        address: address_in(layout, step, reloc),
        target: sources.target_ref(step.file, reloc.symbol),
        addend: reloc.addend,
    }
}

/// The address of the field of a step's relocation.
fn address_in(layout: &Layout<'_>, step: &Step, reloc: &Reloc) -> u64
    ensures { result ≡ unwrap_or (place_address layout.now step.now.file reloc.now.section reloc.now.offset) 0 }
{
    layout
        .place_near(step.piece, step.file, reloc.section, reloc.offset)
        .unwrap_or(0)
}

/// The relocation of a step.
pub(crate) fn reloc_at(sources: &Sources<'_>, layout: &Layout<'_>, step: &Step) -> Reloc
    requires { IsStepOf sources.now layout.now.pieces.all step.now }
    ensures reloc { result ≡ reloc_of sources.now.rels step.now }
    ensures file { step.now.file < length sources.now.rels }
    ensures symbol { result.symbol < length (file_of sources.now.rels step.now.file).symbols }
{
    sources.rels()[step.file as usize].relocs()[step.index as usize]
}

/// The kind of a field that is relocated when the file is loaded, or holds a fixed value.
pub(crate) fn is_field_kind(kind: u32) -> bool
    ensures { result ≡ is_slot kind }
{
    kind == CAPABILITY || kind == WORD
}

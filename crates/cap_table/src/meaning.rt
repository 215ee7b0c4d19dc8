//! What a target is, and where it stands.

ghost use Rattle.std.specs.Prelude.{◌≡◌, ◌<◌, ◌&&◌, ◌||◌, ◌==◌, false, if◌then◌else◌, length, IsTrue};
ghost use Rattle.cap_elf.specs.Classes.{is_split as is_split_class};
ghost use Rattle.cap_elf.specs.Records.{null_symbol};
ghost use Rattle.cap_elf.specs.RelObject.{file_of, symbol_of};
ghost use Rattle.cap_layout.specs.Points.{interval_of, point_of};
ghost use Rattle.cap_table.specs.Targets.{is_loose_target, is_address as is_address_of, is_dynamic as is_dynamic_of, is_fixed as is_fixed_of, is_absolute_at, is_zero, fixed_value as fixed_value_of};

use crate::sources::Sources;
use crate::target::Target;
use cap_elf::{Class, Place};
use cap_layout::Layout;
use cap_syms::Bound;

/// A symbol type: that of a section (STT_SECTION).
const SECTION: u8 = 3;

/// Whether the target's value is no address (SHN_ABS).
pub(crate) fn is_absolute(place: Place) -> bool
    ensures { result ≡ is_absolute_at place }
{
    matches!(place, Place::Absolute)
}

/// Whether it is a fixed number.
pub(crate) fn is_fixed(target: &Target) -> bool
    ensures { result ≡ is_fixed_of target.now }
{
    match target.bound {
        Bound::Local => is_absolute(target.as_is.place),
        Bound::Zero => true,
        Bound::Dynamic => false,
    }
}

/// Whether it is left to load.
pub(crate) fn is_dynamic(target: &Target) -> bool
    ensures { result ≡ is_dynamic_of target.now }
{
    matches!(target.bound, Bound::Dynamic)
}

/// Whether it is an address of the linked file.
pub(crate) fn is_address(target: &Target) -> bool
    ensures { result ≡ is_address_of target.now }
{
    match target.bound {
        Bound::Local => !is_absolute(target.as_is.place),
        Bound::Zero | Bound::Dynamic => false,
    }
}

/// Whether it stands for places of a split section, and not for an interval of it.
pub(crate) fn is_loose(target: &Target) -> bool
    ensures { result ≡ is_loose_target target.now }
{
    match target.as_is.place {
        Place::Section(_) => is_split(target.class) && stands_for_places(target),
        Place::Undefined | Place::Absolute | Place::Common => false,
    }
}

fn is_split(class: Class) -> bool
    ensures { result ≡ is_split_class class }
{
    match class {
        Class::Ro | Class::Relro | Class::Data | Class::Bss => true,
        Class::Code | Class::Init | Class::Fini | Class::Dropped => false,
    }
}

/// Whether it is the symbol of a section, or local and without bytes.
fn stands_for_places(target: &Target) -> bool
    ensures { result ≡ (target.now.as_is.kind == 3 || (target.now.as_is.binding == 0 && (target.now.as_is.size == 0))) }
{
    let symbol = target.as_is;
    symbol.kind == SECTION || (symbol.binding == 0 && symbol.size == 0)
}

/// The value of a fixed number and an addend, modulo 2^64.
pub(crate) fn fixed_value(target: &Target, addend: i64) -> u64
    ensures { result ≡ fixed_value_of target.now addend }
{
    fixed_base(target).wrapping_add_signed(addend)
}

fn fixed_base(target: &Target) -> u64
    ensures { result ≡ (if is_zero target.now.bound then 0 else target.now.as_is.value) }
{
    match target.bound {
        Bound::Zero => 0,
        Bound::Local | Bound::Dynamic => target.as_is.value,
    }
}

/// Whether an input has the symbol that decides on the target.
fn is_in_inputs(sources: &Sources<'_>, target: &Target) -> bool
    ensures file { IsTrue result → target.now.file < length sources.now.rels }
    ensures symbol { IsTrue result → target.now.symbol < length (file_of sources.now.rels target.now.file).symbols }
    ensures isnt { result ≡ false → symbol_of (file_of sources.now.rels target.now.file) target.now.symbol ≡ null_symbol 0 }
{
    match sources.rels().get(target.file as usize) {
        Some(rel) => (target.symbol as usize) < rel.symbols().len(),
        None => false,
    }
}

/// Makes the piece of a symbol the next guess, where it has one.
fn seek(layout: &Layout<'_>, file: u32, symbol: u32, guess: &mut u32)
    requires file { file < length layout.now.rels }
    requires symbol { symbol < length (file_of layout.now.rels file).symbols }
{
    if let Some(piece) = layout.piece_near(*guess, file, symbol) {
        *guess = piece;
    }
}

/// The address and the size of a target; None where it has no address. The guess is the piece that was found last.
pub(crate) fn interval(
    sources: &Sources<'_>,
    layout: &Layout<'_>,
    target: &Target,
    guess: &mut u32,
) -> Option<(u64, u64)>
    requires { layout.now.rels ≡ sources.now.rels }
    ensures { result ≡ interval_of layout.now target.now.file target.now.symbol }
{
    if is_in_inputs(sources, target) {
        seek(layout, target.file, target.symbol, guess);
        layout.interval_near(*guess, target.file, target.symbol)
    } else {
        None
    }
}

/// The address that a target and an addend name; None where it has no address. The guess is the piece that was found
/// last.
pub(crate) fn point(
    sources: &Sources<'_>,
    layout: &Layout<'_>,
    target: &Target,
    addend: i64,
    guess: &mut u32,
) -> Option<u64>
    requires { layout.now.rels ≡ sources.now.rels }
    ensures { result ≡ point_of layout.now target.now.file target.now.symbol addend }
{
    if is_in_inputs(sources, target) {
        seek(layout, target.file, target.symbol, guess);
        layout.point_near(*guess, target.file, target.symbol, addend)
    } else {
        None
    }
}

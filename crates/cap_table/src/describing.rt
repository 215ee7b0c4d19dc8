//! The descriptions of capabilities in `__cap_relocs`.

ghost use Rattle.std.specs.Prelude.{◌≡◌};
ghost use Rattle.std.specs.Option.{option_map_or};
ghost use Rattle.cap_layout.specs.Points.{offset_of};
ghost use Rattle.cap_table.specs.Planned.{is_described};
ghost use Rattle.cap_table.specs.Lists.{permissions_of, nothing_described, described, loose_described, interval_described, section_number, cap_reloc_of};

use crate::meaning::{interval, is_address, is_loose};
use crate::sources::Sources;
use crate::target::Target;
use crate::wants::{CAPABILITY, Want};
use cap_elf::{CapReloc, Class, Place};
use cap_layout::{Layout, Piece};

/// What a description says: where the object begins, the offset in it, and its size.
#[derive(Clone, Copy, Debug, PartialEq, Eq)]
pub struct Described {
    pub object: u64,
    pub offset: u64,
    pub size: u64,
}

const NOTHING: Described = Described {
    object: 0,
    offset: 0,
    size: 0,
};

/// A function; data that is only read.
const CODE: u64 = 1 << 63;

const READ_ONLY: u64 = 1 << 62;

/// Whether a capability is made when the file is loaded, from a description.
pub(crate) fn is_capability_to_address(want: &Want<'_>) -> bool
    ensures { result ≡ is_described want.now.kind want.now.target }
{
    want.kind == CAPABILITY && is_address(want.target)
}

/// The description of a capability. The guess is the piece that was found last.
#[tactic(auto, unfolding(crate::specs::Lists::cap_reloc_of))]
pub(crate) fn cap_reloc(
    sources: &Sources<'_>,
    layout: &Layout<'_>,
    want: &Want<'_>,
    guess: &mut u32,
) -> CapReloc
    requires { layout.now.rels ≡ sources.now.rels }
    ensures { result ≡ cap_reloc_of layout.now want.now }
{
    let is = describe(sources, layout, want.target, want.addend, guess);
    CapReloc {
        location: want.address,
        object: is.object,
        offset: is.offset,
        size: is.size,
        permissions: permissions(want.target.class),
        at: 0,
    }
}

fn permissions(class: Class) -> u64
    ensures { result ≡ permissions_of class }
{
    match class {
        Class::Code => CODE,
        Class::Data | Class::Bss => 0,
        Class::Ro | Class::Init | Class::Fini | Class::Relro | Class::Dropped => READ_ONLY,
    }
}

/// The object of a target, and the place of the addend in it. The guess is the piece that was found last.
#[tactic(auto, unfolding(crate::specs::Lists::described))]
fn describe(
    sources: &Sources<'_>,
    layout: &Layout<'_>,
    target: &Target,
    addend: i64,
    guess: &mut u32,
) -> Described
    requires { layout.now.rels ≡ sources.now.rels }
    ensures { result ≡ described layout.now target.now addend }
{
    if is_loose(target) {
        describe_place(layout, target, addend, guess)
    } else {
        describe_symbol(sources, layout, target, addend, guess)
    }
}

/// A symbol that stands for places of its section: the piece of the place that the addend names.
fn describe_place(layout: &Layout<'_>, target: &Target, addend: i64, guess: &mut u32) -> Described
    ensures { result ≡ option_map_or (loose_described layout.now target.now.file (section_number target.now.as_is.place)) (offset_of target.now.as_is.value addend) nothing_described }
{
    let pieces = layout.pieces().all();
    let section = section_of(target.as_is.place);
    match target.as_is.value.checked_add_signed(addend) {
        Some(offset) => describe_piece(layout, pieces, target.file, section, offset, guess),
        None => NOTHING,
    }
}

/// The piece of an offset of a section.
#[tactic(auto, using(crate::proofs::FillPieces::found_below, crate::proofs::FillPieces::found_from))]
fn describe_piece(
    layout: &Layout<'_>,
    pieces: &[Piece],
    file: u32,
    section: u32,
    offset: u64,
    guess: &mut u32,
) -> Described
    requires { pieces.now ≡ layout.now.pieces.all }
    ensures { result ≡ loose_described layout.now file section offset }
{
    match layout.pieces().find_near(*guess, file, section, offset) {
        Some(i) => {
            *guess = i;
            Described {
                object: layout.address(i),
                offset: offset - pieces[i as usize].start,
                size: pieces[i as usize].padded,
            }
        }
        None => NOTHING,
    }
}

fn section_of(place: Place) -> u32
    ensures { result ≡ section_number place }
{
    match place {
        Place::Section(section) => section,
        Place::Undefined | Place::Absolute | Place::Common => 0,
    }
}

/// A symbol with an interval of its own.
fn describe_symbol(
    sources: &Sources<'_>,
    layout: &Layout<'_>,
    target: &Target,
    addend: i64,
    guess: &mut u32,
) -> Described
    requires { layout.now.rels ≡ sources.now.rels }
    ensures { result ≡ interval_described layout.now target.now.file target.now.symbol addend }
{
    match interval(sources, layout, target, guess) {
        Some((object, size)) => Described {
            object,
            offset: addend.unsigned_abs(),
            size,
        },
        None => NOTHING,
    }
}

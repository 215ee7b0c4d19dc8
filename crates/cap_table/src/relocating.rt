//! The relocations of the linked file (DT_RELA).

ghost use Rattle.std.specs.Prelude.{◌≡◌, unwrap_or};
ghost use Rattle.std.specs.Int.{cast_signed, w64};
ghost use Rattle.cap_layout.specs.Points.{point_of};
ghost use Rattle.cap_table.specs.Planned.{is_relocated};
ghost use Rattle.cap_table.specs.Lists.{dyn_reloc_of};

use crate::meaning::{is_address, is_dynamic, point};
use crate::numbers::SymbolNumbers;
use crate::sources::Sources;
use crate::wants::{WORD, Want};
use cap_elf::DynReloc;
use cap_layout::Layout;

/// R_RISCV_RELATIVE: the addend, counted from where the file is loaded.
const RELATIVE: u32 = 3;

/// Whether a relocation is left to load.
pub(crate) fn is_left(want: &Want<'_>) -> bool
    ensures { result ≡ is_relocated want.now.kind want.now.target }
{
    is_dynamic(want.target) || (want.kind == WORD && is_address(want.target))
}

/// The relocation of a field. The guess is the piece that was found last.
#[tactic(auto, unfolding(crate::specs::Lists::dyn_reloc_of))]
pub(crate) fn dyn_reloc(
    numbers: &SymbolNumbers<'_>,
    sources: &Sources<'_>,
    layout: &Layout<'_>,
    want: &Want<'_>,
    guess: &mut u32,
) -> DynReloc
    requires { layout.now.rels ≡ sources.now.rels }
    ensures { result ≡ dyn_reloc_of numbers.now layout.now want.now }
{
    if is_dynamic(want.target) {
        DynReloc {
            slot: want.address,
            kind: want.kind,
            symbol: numbers.of(want.target.row),
            addend: want.addend,
            at: 0,
        }
    } else {
        DynReloc {
            slot: want.address,
            kind: RELATIVE,
            symbol: 0,
            addend: address(sources, layout, want, guess),
            at: 0,
        }
    }
}

/// The address that a want names, as an addend. The guess is the piece that was found last.
fn address(sources: &Sources<'_>, layout: &Layout<'_>, want: &Want<'_>, guess: &mut u32) -> i64
    requires { layout.now.rels ≡ sources.now.rels }
    ensures { result ≡ cast_signed w64 (unwrap_or (point_of layout.now want.now.target.file want.now.target.symbol want.now.addend) 0) }
{
    point(sources, layout, want.target, want.addend, guess)
        .unwrap_or(0)
        .cast_signed()
}

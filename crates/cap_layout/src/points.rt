//! The addresses of symbols, and of places beside them.

ghost use Rattle.std.specs.Prelude.{◌≡◌, IfSome, ◌+ℤ◌, pos};
ghost use Rattle.cap_elf.specs.RelObject.{section_of};
ghost use Rattle.cap_layout.specs.Pieces.{piece_at};
ghost use Rattle.cap_layout.specs.Points.{is_loose as is_loose_in, wrapped};
ghost use Rattle.cap_layout.specs.Found.{Holds};

use crate::classes::is_split;
use crate::piece_list::Pieces;
use cap_elf::{Class, RelFile, Symbol};

/// The type of the symbols of sections (STT_SECTION).
const STT_SECTION: u8 = 3;

/// The binding of local symbols (STB_LOCAL).
const STB_LOCAL: u8 = 0;

/// The piece of an offset of a section: it holds the offset, or ends there.
pub(crate) fn find_near(
    pieces: &Pieces,
    guess: u32,
    file: u32,
    section: u32,
    offset: u64,
) -> Option<u32>
    ensures piece { result ≡ piece_at pieces.now.all file section offset }
    ensures holds { IfSome result (Holds pieces.now.all offset) }
{
    pieces.find_near(guess, file, section, offset)
}

/// The class of a section.
pub(crate) fn class_of(object: &RelFile, section: u32) -> Class
    ensures { result ≡ (section_of object.now section).class }
{
    match object.sections().get(section as usize) {
        Some(section) => section.class,
        None => Class::Dropped,
    }
}

/// Whether the symbol stands for the places of its section, and not for an interval.
pub(crate) fn is_loose(class: Class, symbol: &Symbol) -> bool
    ensures { result ≡ is_loose_in class symbol.now }
{
    is_split(class)
        && (symbol.kind == STT_SECTION || (symbol.binding == STB_LOCAL && symbol.size == 0))
}

/// The address that is an addend away, modulo 2^64.
pub(crate) fn moved(address: u64, addend: i64) -> u64
    ensures { result ≡ wrapped (pos address +ℤ addend) }
{
    address.wrapping_add_signed(addend)
}

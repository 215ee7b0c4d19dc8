//! Finding the pieces of a section among all pieces, which stand in order.

ghost use Rattle.std.specs.Prelude.{◌≡◌, ◌≤◌, ◌<◌, ℕ, true, false, length, MatchOption, All, ◌^◌};
ghost use Rattle.std.specs.List.{AllWithin};
ghost use Rattle.cap_layout.specs.Pieces.{piece_of, piece_at, field_piece};
ghost use Rattle.cap_layout.specs.IsPiece.{IsPiece};
ghost use Rattle.cap_layout.specs.PieceOrder.{rank as rank_of, Before, class_at, is_up_to as is_up_to_of, AreOrdered, IsLastFrom, NoneFrom};

use crate::classes::FileClasses;
use crate::piece::Piece;
use cap_elf::Class;

/// The place of a class in the order of the pieces.
pub(crate) fn rank(class: Class) -> u8
    ensures { result ≡ rank_of class }
{
    match class {
        Class::Ro => 0,
        Class::Code => 1,
        Class::Init => 2,
        Class::Fini => 3,
        Class::Relro => 4,
        Class::Data => 5,
        Class::Bss => 6,
        Class::Dropped => 7,
    }
}

/// Whether a piece begins at this offset of this section, or stands before it.
fn is_up_to(order: u8, file: u32, section: u32, offset: u64, piece: &Piece) -> bool
    ensures { result ≡ is_up_to_of order file section offset piece.now }
{
    let own = rank(piece.class);
    if own != order {
        own < order
    } else if piece.file != file {
        piece.file < file
    } else if piece.place != section {
        piece.place < section
    } else {
        piece.start <= offset
    }
}

/// How many pieces begin at this offset of this section, or stand before it.
fn count_up_to(pieces: &[Piece], order: u8, file: u32, section: u32, offset: u64) -> usize
    requires { (i j : ℕ) → i < j → j < length pieces.now → Before (piece_of pieces.now i) (piece_of pieces.now j) }
    ensures bound { result ≤ length pieces.now }
    ensures below { AllWithin (λ p. is_up_to_of order file section offset p ≡ true) pieces.now 0 result }
    ensures above { AllWithin (λ p. is_up_to_of order file section offset p ≡ false) pieces.now result (length pieces.now) }
{
    pieces.partition_point(
        |piece: &Piece| -> bool
            ensures { result ≡ is_up_to_of order file section offset piece.now }
        { is_up_to(order, file, section, offset, piece) },
    )
}

/// The class of a section of a file; past the ends none is kept.
fn class_of(classes: &[FileClasses], file: u32, section: u32) -> Class
    ensures { result ≡ class_at classes.now file section }
{
    match classes.get(file as usize) {
        Some(file) => file.of(section),
        None => Class::Dropped,
    }
}

/// The last piece of a section that begins at an offset or before it. The first `sections` of the pieces are those of
/// sections, of these classes.
pub(crate) fn last_from(
    pieces: &[Piece],
    sections: u32,
    classes: &[FileClasses],
    file: u32,
    section: u32,
    offset: u64,
) -> Option<usize>
    requires { AreOrdered pieces.now sections classes.now }
    ensures { MatchOption result (NoneFrom pieces.now file section offset) (IsLastFrom pieces.now file section offset) }
{
    let order = rank(class_of(classes, file, section));
    let front = &pieces[..sections as usize];
    let count = count_up_to(front, order, file, section, offset);
    if count == 0 {
        return None;
    }
    let last = front[count - 1];
    if last.file == file && last.place == section {
        Some(count - 1)
    } else {
        None
    }
}

/// The piece of an offset of a section, by the last that begins there or before.
pub(crate) fn find_at(
    pieces: &[Piece],
    last: Option<usize>,
    file: u32,
    section: u32,
    offset: u64,
) -> Option<u32>
    requires few { length pieces.now < 2 ^ 32 }
    requires pieces { All IsPiece pieces.now }
    requires last { MatchOption last (NoneFrom pieces.now file section offset) (IsLastFrom pieces.now file section offset) }
    ensures { result ≡ piece_at pieces.now file section offset }
{
    let Some(i) = last else {
        return None;
    };
    if offset <= pieces[i].start + pieces[i].size {
        Some(i as u32)
    } else {
        None
    }
}

/// The piece that holds a field, by the last that begins at the field's offset or before.
pub(crate) fn find_field(
    pieces: &[Piece],
    last: Option<usize>,
    file: u32,
    section: u32,
    offset: u64,
    size: u64,
) -> Option<u32>
    requires some { 0 < size }
    requires few { length pieces.now < 2 ^ 32 }
    requires pieces { All IsPiece pieces.now }
    requires last { MatchOption last (NoneFrom pieces.now file section offset) (IsLastFrom pieces.now file section offset) }
    ensures { result ≡ field_piece pieces.now file section offset size }
{
    let Some(i) = last else {
        return None;
    };
    let end = pieces[i].start + pieces[i].size;
    if offset <= end && size <= end - offset {
        Some(i as u32)
    } else {
        None
    }
}

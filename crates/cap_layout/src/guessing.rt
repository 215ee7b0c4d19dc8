//! Finding the pieces of a section by a guess.

ghost use Rattle.std.specs.Prelude.{◌≡◌, ◌<◌, ◌≤◌, ◌^◌, length, IsTrue, MatchOption};
ghost use Rattle.cap_layout.specs.PieceOrder.{AreOrdered, IsLastFrom, NoneFrom, begins_by};

use crate::classes::FileClasses;
use crate::finding::last_from;
use crate::piece::Piece;

/// Whether the piece of this number is one of this section, and begins at an offset or before it.
fn begins_at(
    pieces: &[Piece],
    sections: u32,
    i: usize,
    file: u32,
    section: u32,
    offset: u64,
) -> bool
    requires { sections ≤ length pieces.now }
    ensures { result ≡ begins_by pieces.now sections file section offset i }
{
    i < sections as usize
        && pieces[i].file == file
        && pieces[i].place == section
        && pieces[i].start <= offset
}

/// Whether the piece of this number is the last of this section that begins at an offset or before it.
fn is_last(
    pieces: &[Piece],
    sections: u32,
    classes: &[FileClasses],
    i: usize,
    file: u32,
    section: u32,
    offset: u64,
) -> bool
    requires ordered { AreOrdered pieces.now sections classes.now }
    requires low { i < 2 ^ 63 }
    ensures { IsTrue result → IsLastFrom pieces.now file section offset i }
{
    begins_at(pieces, sections, i, file, section, offset)
        && !begins_at(pieces, sections, i + 1, file, section, offset)
}

/// The last piece of a section that begins at an offset or before it, as `last_from` finds it. The guess, or the number
/// after it, is likely that of the piece.
pub(crate) fn last_near(
    pieces: &[Piece],
    sections: u32,
    classes: &[FileClasses],
    guess: u32,
    file: u32,
    section: u32,
    offset: u64,
) -> Option<usize>
    requires { AreOrdered pieces.now sections classes.now }
    ensures { MatchOption result (NoneFrom pieces.now file section offset) (IsLastFrom pieces.now file section offset) }
{
    let first = guess as usize;
    if is_last(pieces, sections, classes, first, file, section, offset) {
        return Some(first);
    }
    if is_last(pieces, sections, classes, first + 1, file, section, offset) {
        return Some(first + 1);
    }
    last_from(pieces, sections, classes, file, section, offset)
}

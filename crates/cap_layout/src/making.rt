//! Making the pieces of one section, and those of common symbols.

ghost use Rattle.std.specs.Prelude.{◌≡◌, ◌∷◌, [], ◌++◌, ◌+◌, ◌^◌, ◌≤◌, OnOk, ℕ, ◌<◌, true, length, slice_index, map, zip, drop};
ghost use Rattle.cap_elf.specs.Classes.{is_split as splits};
ghost use Rattle.cap_syms.specs.declared.entries.Shape.TheVariants.{Common};
ghost use Rattle.cap_layout.specs.Pieces.{own_alignment as own_alignment_of, split_piece as split_piece_of, whole_piece as whole_piece_of, shared_piece};
ghost use Rattle.cap_layout.specs.Marked.{cut_pieces, AreMarksOf};

use crate::classes::is_split;
use crate::listed::Listed;
use crate::piece::Piece;
use cap_base::NoMemory;
use cap_conc::{repr_align, repr_len};
use cap_elf::{Class, Section};
use cap_syms::Entry;

/// The alignment that a piece has by its place in its section.
pub(crate) fn own_alignment(align: u64, start: u64) -> u64
    ensures { result ≡ own_alignment_of align start }
{
    if start == 0 {
        align
    } else {
        align.min(1 << start.trailing_zeros())
    }
}

/// The piece of a split section from one mark to the next.
pub(crate) fn split_piece(file: u32, place: u32, section: &Section, start: u64, end: u64) -> Piece
    requires order { start ≤ end }
    requires high { end ≤ 2 ^ 62 }
    ensures { result ≡ split_piece_of file place section.now (start, end) }
{
    let size = end - start;
    let padded = repr_len(size);
    Piece {
        file,
        place,
        common: false,
        class: section.class,
        start,
        size,
        align: own_alignment(section.align, start).max(repr_align(size)),
        padded,
    }
}

/// The piece of a section that isn't split.
fn whole_piece(file: u32, place: u32, section: &Section) -> Piece
    ensures { result ≡ whole_piece_of file place section.now }
{
    Piece {
        file,
        place,
        common: false,
        class: section.class,
        start: 0,
        size: section.size,
        align: section.align,
        padded: section.size,
    }
}

/// The piece of the common symbols of a name, by the one that decides on it, and their size and alignment.
pub(crate) fn common_piece(entry: Entry, size: u64, align: u64) -> Piece
    requires { size ≤ 2 ^ 26 }
    ensures { result ≡ shared_piece entry size align }
{
    Piece {
        file: entry.file,
        place: entry.symbol,
        common: true,
        class: Class::Bss,
        start: 0,
        size,
        align: align.max(repr_align(size)),
        padded: repr_len(size),
    }
}

/// Adds the pieces between neighbouring marks.
fn add_between(
    all: &mut Listed,
    file: u32,
    place: u32,
    section: &Section,
    marks: &[u64],
) -> Result<(), NoMemory>
    requires { AreMarksOf (2 ^ 62) marks.now }
    ensures { OnOk result (all.new ≡ all.old ++ map (split_piece_of file place section.now) (zip marks.now (drop 1 marks.now))) }
{
    for i in 1..marks.len() {
        all.push(split_piece(file, place, section, marks[i - 1], marks[i]))?;
    }
    Ok(())
}

/// Adds the pieces of a section, which these marks cut if it is split.
pub(crate) fn add_section(
    all: &mut Listed,
    file: u32,
    place: u32,
    section: &Section,
    marks: &[u64],
) -> Result<(), NoMemory>
    requires { splits section.now.class ≡ true → AreMarksOf (2 ^ 62) marks.now }
    ensures { OnOk result (all.new ≡ all.old ++ cut_pieces file place section.now marks.now) }
{
    if !is_split(section.class) {
        all.push(whole_piece(file, place, section))
    } else if section.size == 0 {
        all.push(split_piece(file, place, section, 0, 0))
    } else {
        add_between(all, file, place, section, marks)
    }
}

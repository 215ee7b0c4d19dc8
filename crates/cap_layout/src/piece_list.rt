//! The pieces of the inputs.

ghost use Rattle.std.specs.Prelude.{◌≡◌, ℕ, All, length};

use crate::classes::FileClasses;
use crate::finding::{find_at, find_field};
use crate::guessing::last_near;
use crate::listed::Listed;
use crate::piece::Piece;
use cap_elf::Class;
use std::marker::Model;

/// The pieces of all inputs, by class, then by file, section and start; those of common symbols last, in the order of
/// their names.
#[derive(Drop)]
pub struct Pieces {
    all: Listed,
    commons: Vec<Option<u32>>,
    /// How many of them are parts of sections.
    sections: u32,
    classes: Vec<FileClasses>,
}

impl Model for Pieces {
    ghost use Rattle.cap_layout.specs.Pieces.{PieceList};
    ghost use Rattle.cap_layout.specs.PieceOrder.{AreOrdered};

    ghost Value = { PieceList };

    ghost view = { λ p. record { all = p.all; commons = p.commons.items } };

    ghost invariant = { λ p. AreOrdered p.all p.sections p.classes.items };
}

impl Pieces {
    ghost use Rattle.std.specs.Prelude.{◌<◌, ◌≤◌, Bool, true, false, None, [], slice_index_or};
    ghost use Rattle.std.specs.List.{AllWithin};
    ghost use Rattle.cap_layout.specs.IsPiece.{IsPiece};
    ghost use Rattle.cap_layout.specs.Places.{InClassOrder};
    ghost use Rattle.cap_layout.specs.Pieces.{piece_of, piece_at, field_piece};
    ghost use Rattle.cap_layout.specs.PieceOrder.{AreOrdered};

    /// The pieces with what finds them.
    pub(crate) fn new(
        all: Listed,
        commons: Vec<Option<u32>>,
        sections: u32,
        classes: Vec<FileClasses>,
    ) -> Pieces
        requires { AreOrdered all sections classes.items }
        ensures { result ≡ record { all = all; commons = commons.items } }
    {
        Pieces {
            all,
            commons,
            sections,
            classes,
        }
    }

    /// How many pieces there are.
    pub fn len(&self) -> u32
        ensures { result ≡ length self.now.all }
    {
        self.all.len()
    }

    /// The pieces in order.
    pub fn all(&self) -> &[Piece]
        ensures all { result.now ≡ self.now.all }
        ensures sound { All IsPiece self.now.all }
        ensures order { InClassOrder self.now.all }
    {
        self.all.as_slice()
    }

    /// The piece of this number.
    pub fn get(&self, i: u32) -> Piece
        requires { i < length self.now.all }
        ensures piece { result ≡ piece_of self.now.all i }
        ensures sound { IsPiece result }
    {
        self.all.as_slice()[i as usize]
    }

    /// The piece of an offset of a section: None exactly where the section isn't kept or the offset is above its size.
    /// Where one piece ends and the next begins it is the next.
    /// It is found at once where the guess or the number after it is its number. Any number may be guessed.
    pub fn find_near(&self, guess: u32, file: u32, section: u32, offset: u64) -> Option<u32>
        ensures { result ≡ piece_at self.now.all file section offset }
    {
        let pieces = self.all.as_slice();
        find_at(
            pieces,
            last_near(
                pieces,
                self.sections,
                &self.classes,
                guess,
                file,
                section,
                offset,
            ),
            file,
            section,
            offset,
        )
    }

    /// The piece that holds the `size` bytes from an offset of a section on, where one does. It is found at once where the
    /// guess or the number after it is its number. Any number may be guessed.
    pub fn holding_near(
        &self,
        guess: u32,
        file: u32,
        section: u32,
        offset: u64,
        size: u64,
    ) -> Option<u32>
        requires some { 0 < size }
        ensures { result ≡ field_piece self.now.all file section offset size }
    {
        let pieces = self.all.as_slice();
        find_field(
            pieces,
            last_near(
                pieces,
                self.sections,
                &self.classes,
                guess,
                file,
                section,
                offset,
            ),
            file,
            section,
            offset,
            size,
        )
    }

    /// The piece of the name of a row: None exactly where it isn't common.
    pub fn common(&self, row: u32) -> Option<u32>
        requires { row < length self.now.commons }
        ensures { result ≡ slice_index_or self.now.commons row None }
    {
        self.commons[row as usize]
    }
}

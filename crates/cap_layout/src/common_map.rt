//! Finding the piece of a common symbol.

ghost use Rattle.std.specs.Prelude.{◌≡◌, ℕ, ◌<◌, ◌≤◌, length, if◌then◌else◌, OnOk, IfOk, Some};
ghost use Rattle.cap_layout.specs.Pieces.{common_index, is_common_of};
ghost use Rattle.cap_layout.specs.CommonMap.{common_in};

use crate::piece::Piece;
use crate::piece_list::Pieces;
use std::alloc::{AllocError, Global};
use std::collections::BTreeMap;

/// The numbers of the pieces of common symbols, by the file and the symbol that decide on each.
#[derive(Drop)]
pub(crate) struct CommonMap {
    pub(crate) numbers: BTreeMap<(u32, u32), u32>,
}

impl CommonMap {
    // The piece with a number: it stands before all later ones.
    fn note(&mut self, number: u32, piece: &Piece) -> Result<(), AllocError>
        ensures { OnOk result ((file symbol : ℕ) → common_in self.new file symbol ≡ (if is_common_of file symbol piece.now then Some number else common_in self.old file symbol)) }
    {
        if piece.common {
            self.numbers.insert((piece.file, piece.place), number)?;
        }
        Ok(())
    }

    /// Those of all pieces.
    pub(crate) fn of(alloc: Global, pieces: &Pieces) -> Result<CommonMap, AllocError>
        ensures { IfOk result (λ commons. (file symbol : ℕ) → common_in commons file symbol ≡ common_index pieces.now.all file symbol) }
    {
        let mut commons = CommonMap {
            numbers: BTreeMap::new(alloc),
        };
        for number in (0..pieces.len()).rev() {
            commons.note(number, &pieces.get(number))?;
        }
        Ok(commons)
    }

    /// The piece of the common symbol that decides on its name.
    pub(crate) fn find(&self, file: u32, symbol: u32) -> Option<u32>
        ensures { result ≡ common_in self.now file symbol }
    {
        self.numbers.get(&(file, symbol)).copied()
    }
}

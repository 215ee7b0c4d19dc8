//! A list of pieces that their numbers can name.

ghost use Rattle.std.specs.Prelude.{◌≡◌, ◌∷◌, [], ◌++◌, ◌^◌, ◌<◌, length, OnOk};

use crate::piece::Piece;
use cap_base::NoMemory;
use std::alloc::Global;
use std::marker::Model;

/// Pieces in order, each of which has a number of 32 bits.
#[derive(Drop)]
pub(crate) struct Listed {
    items: Vec<Piece>,
}

impl Model for Listed {
    ghost use Rattle.std.specs.Prelude.{List, length, ◌<◌, ◌^◌};
    ghost use Rattle.cap_layout.specs.declared.piece.Piece.{Piece};

    ghost Value = { List Piece };

    ghost view = { λ l. l.items.items };

    ghost invariant = { λ l. length l.items.items < 2 ^ 32 };
}

impl Listed {
    /// No piece.
    pub(crate) fn new(alloc: Global) -> Listed
        ensures { result ≡ [] }
    {
        Listed {
            items: Vec::new(alloc),
        }
    }

    /// Adds a piece at the end. There is no room for more than 2^32 - 1.
    pub(crate) fn push(&mut self, piece: Piece) -> Result<(), NoMemory>
        ensures { OnOk result (self.new ≡ self.old ++ piece ∷ []) }
    {
        if self.items.len() >= u32::MAX as usize {
            return Err(NoMemory);
        }
        self.items.push(piece)?;
        Ok(())
    }

    /// How many pieces there are.
    pub(crate) fn len(&self) -> u32
        ensures len { result ≡ length self.now }
    {
        self.items.len() as u32
    }

    /// The pieces in order.
    pub(crate) fn as_slice(&self) -> &[Piece]
        ensures items { result.now ≡ self.now }
        ensures few { length self.now < 2 ^ 32 }
    {
        self.items.as_slice()
    }
}

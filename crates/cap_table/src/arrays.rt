//! Which arrays of calls the linked file has.

ghost use Rattle.std.specs.Prelude.{◌≡◌, All};
ghost use Rattle.cap_elf.specs.declared.records.Class.TheVariants.{Init, Fini};
ghost use Rattle.cap_layout.specs.IsPiece.{IsPiece};
ghost use Rattle.cap_layout.specs.Parts.{has_bytes as has_bytes_of};
ghost use Rattle.cap_layout.specs.Places.{of_class};

use crate::naming::has_bytes;
use cap_elf::Class;
use cap_layout::Pieces;
use std::marker::Model;

/// Pieces, and whether those of the arrays of initial and of final calls have bytes.
#[derive(Drop)]
pub(crate) struct Arrays<'a> {
    pieces: &'a Pieces,
    has_init: bool,
    has_fini: bool,
}

impl<'a> Model for Arrays<'a> {
    ghost use Rattle.std.specs.Prelude.{◌≡◌, List};
    ghost use Rattle.cap_elf.specs.declared.records.Class.TheVariants.{Init, Fini};
    ghost use Rattle.cap_layout.specs.declared.piece.Piece.{Piece};
    ghost use Rattle.cap_layout.specs.Parts.{has_bytes};
    ghost use Rattle.cap_layout.specs.Places.{of_class};

    ghost Value = { List Piece };

    ghost view = { λ a. a.pieces.now.all };

    ghost invariant = { λ a. (a.has_init ≡ has_bytes (of_class Init a.pieces.now.all)) × (a.has_fini ≡ has_bytes (of_class Fini a.pieces.now.all)) };
}

impl<'a> Arrays<'a> {
    /// The arrays among these pieces.
    pub(crate) fn of(pieces: &'a Pieces) -> Arrays<'a>
        ensures value { result ≡ pieces.now.all }
        ensures sound { All IsPiece pieces.now.all }
    {
        Arrays {
            pieces,
            has_init: has_bytes(pieces, Class::Init),
            has_fini: has_bytes(pieces, Class::Fini),
        }
    }

    /// The pieces.
    pub(crate) fn pieces(&self) -> &'a Pieces
        ensures { result.now.all ≡ self.now }
    {
        self.pieces
    }

    /// Whether there are initial calls.
    pub(crate) fn has_init(&self) -> bool
        ensures { result ≡ has_bytes_of (of_class Init self.now) }
    {
        self.has_init
    }

    /// Whether there are final calls.
    pub(crate) fn has_fini(&self) -> bool
        ensures { result ≡ has_bytes_of (of_class Fini self.now) }
    {
        self.has_fini
    }
}

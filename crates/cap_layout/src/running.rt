//! Placing pieces one after another.

ghost use Rattle.std.specs.Prelude.{◌≡◌, ◌≤◌, ◌^◌, All, OnOk};
ghost use Rattle.cap_base.specs.Steps.{Yields};
ghost use Rattle.cap_layout.specs.IsPiece.{IsPiece};
ghost use Rattle.cap_layout.specs.Running.{AreLow};

use crate::by_class::ByClass;
use crate::piece::Piece;
use cap_base::Refusal;
use cap_elf::Class;
use std::alloc::Global;
use std::marker::Model;

/// The last address at which anything may end.
const SPAN_LIMIT: u64 = 1 << 26;

/// The addresses of the pieces that were placed so far, and the padded end of the last.
#[derive(Drop)]
pub(crate) struct Running {
    addresses: Vec<u64>,
    end: u64,
    ghost end_low: { end ≤ 2 ^ 26 },
    ghost all_low: { AreLow addresses.items },
}

impl Model for Running {
    ghost use Rattle.cap_layout.specs.Running.{Placed};

    ghost Value = { Placed };

    ghost view = { λ r. record { addresses = r.addresses.items; end = r.end } };
}

impl Running {
    ghost use Rattle.std.specs.Prelude.{[]};
    ghost use Rattle.std.specs.Int.{next_multiple_of};
    ghost use Rattle.cap_layout.specs.Running.{reached, with_piece, with_one, with_class};

    /// The addresses of the pieces that were placed.
    pub(crate) fn into_addresses(self) -> Vec<u64>
        ensures addresses { result.items ≡ self.addresses }
        ensures low { AreLow result.items }
        ensures end_low { self.end ≤ 2 ^ 26 }
    {
        self.addresses
    }

    /// Nothing is placed, from 0 on.
    pub(crate) fn new(alloc: Global) -> Running
        ensures { result ≡ record { addresses = []; end = 0 } }
    {
        Running {
            addresses: Vec::new(alloc),
            end: 0,
        }
    }

    /// Where the last of what was placed ends.
    pub(crate) fn end(&self) -> u64
        ensures end { result ≡ self.now.end }
        ensures low { result ≤ 2 ^ 26 }
    {
        self.end
    }

    /// Goes on to the next multiple of 16.
    pub(crate) fn align(&mut self)
        ensures { self.new ≡ record { addresses = self.old.addresses; end = next_multiple_of self.old.end 16 } }
    {
        self.end = self.end.next_multiple_of(16);
    }

    /// Goes on to the next padded end.
    #[tactic(auto, unfolding(crate::specs::Running::reached, crate::specs::Laid::ends_low))]
    pub(crate) fn reach(&mut self, end: u64) -> Result<(), Refusal>
        ensures value { Yields (λ _. self.new) result (reached self.old end) }
        ensures low { OnOk result (end ≤ 2 ^ 26) }
        ensures at { OnOk result (self.new.end ≡ end) }
    {
        if end > SPAN_LIMIT {
            return Err(Refusal::Full {
                asked: end,
                left: 0,
            });
        }
        self.end = end;
        Ok(())
    }

    /// Places a piece.
    #[tactic(auto, unfolding(crate::specs::Running::with_piece))]
    fn put(&mut self, piece: &Piece) -> Result<(), Refusal>
        requires { IsPiece piece.now }
        ensures value { Yields (λ _. self.new) result (with_piece self.old piece.now) }
        ensures grows { OnOk result (self.old.end ≤ self.new.end) }
    {
        let address = self.end.next_multiple_of(piece.align);
        self.reach(address + piece.padded)?;
        self.addresses.push(address)?;
        Ok(())
    }

    /// Places the piece if it is of the class.
    fn put_if(&mut self, class: Class, piece: &Piece) -> Result<(), Refusal>
        requires { IsPiece piece.now }
        ensures value { Yields (λ _. self.new) result (with_one class self.old piece.now) }
        ensures grows { OnOk result (self.old.end ≤ self.new.end) }
    {
        if piece.class == class {
            self.put(piece)?;
        }
        Ok(())
    }

    /// Places the pieces of a class.
    #[tactic(auto, unfolding(crate::specs::Running::with_class), using(cap_base::proofs::Walk::steps_more, crate::proofs::PlaceWalk::yields_stop))]
    fn put_class(&mut self, class: Class, pieces: &[Piece]) -> Result<(), Refusal>
        requires { All IsPiece pieces.now }
        ensures value { Yields (λ _. self.new) result (with_class class pieces.now self.old) }
        ensures grows { OnOk result (self.old.end ≤ self.new.end) }
    {
        for piece in pieces {
            self.put_if(class, piece)?;
        }
        Ok(())
    }

    /// The same, without going through the pieces before the first and behind the last of the class.
    #[tactic(auto, using(crate::proofs::PlaceClasses::class_alone))]
    pub(crate) fn put_of(&mut self, class: Class, pieces: &ByClass<'_>) -> Result<(), Refusal>
        requires { All IsPiece pieces.now }
        ensures value { Yields (λ _. self.new) result (with_class class pieces.now self.old) }
        ensures grows { OnOk result (self.old.end ≤ self.new.end) }
    {
        self.put_class(class, pieces.of(class))
    }
}

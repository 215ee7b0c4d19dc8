//! The layout of the linked file.

ghost use Rattle.std.specs.Prelude.{◌≡◌, ◌≤◌, ◌^◌, IfOk, All};
ghost use Rattle.cap_base.specs.Steps.{Yields, each};
ghost use Rattle.cap_layout.specs.Laid.{lay_of, laid_as, ends_low, AreSmall};
ghost use Rattle.cap_layout.specs.Parts.{padded_ends};
ghost use Rattle.cap_layout.specs.IsPiece.{IsPieceOf, IsLaid};
ghost use Rattle.cap_layout.specs.Exact.{IsExactlyLaid};

use crate::alignment::check_files;
use crate::classes::is_split;
use crate::common_map::CommonMap;
use crate::parts::{Parts, Sizes};
use crate::piece_list::Pieces;
use crate::points::{class_of, find_near, is_loose, moved};
use crate::segments::place_all;
use cap_base::Refusal;
use cap_elf::{Place, RelFile, Symbol};
use std::alloc::Global;
use std::marker::Model;

/// The addresses of the pieces, and where each part of the linked file stands.
#[derive(Drop)]
pub struct Layout<'a> {
    rels: &'a [RelFile],
    pieces: &'a Pieces,
    addresses: Vec<u64>,
    commons: CommonMap,
    parts: Parts,
}

impl<'a> Model for Layout<'a> {
    ghost use Rattle.cap_layout.specs.Points.{Laid};
    ghost use Rattle.cap_layout.specs.Held.{IsHeld};

    ghost Value = { Laid };

    ghost view = { λ l. record { rels = l.rels.now; pieces = l.pieces.now; addresses = l.addresses.items; parts = l.parts } };

    ghost invariant = { λ l. IsHeld (record { rels = l.rels.now; pieces = l.pieces.now; addresses = l.addresses.items; parts = l.parts }) l.commons };
}

// The places, before the capabilities are looked at.
fn place<'a>(
    alloc: Global,
    rels: &'a [RelFile],
    pieces: &'a Pieces,
    sizes: &Sizes,
) -> Result<Layout<'a>, Refusal>
    requires small { AreSmall sizes.now }
    requires of_inputs { All (IsPieceOf rels.now) pieces.now.all }
    ensures ends { Yields (λ _. tt) result (each ends_low (padded_ends pieces.now.all sizes.now)) }
    ensures laid { IfOk result (λ laid. laid ≡ laid_as rels.now pieces.now sizes.now) }
{
    let (running, parts) = place_all(alloc, pieces.all(), sizes)?;
    let commons = CommonMap::of(alloc, pieces)?;
    Ok(Layout {
        rels,
        pieces,
        addresses: running.into_addresses(),
        commons,
        parts,
    })
}

/// Lays the pieces out behind tables of these sizes. Addresses and sizes count bytes, from 0 at the ELF header.
///
/// Each piece has the least multiple of its alignment that isn't below the padded end of the piece before it, class by
/// class. Four segments follow one another (gABI, "Program Header"): what is read alone, from the headers and tables on;
/// instructions, from the next page on; the dynamic section, the slots, the arrays of calls and what is read alone once it
/// is relocated; and data that may be written. The third ends so far that a capability for all up to it is exact (CHERI
/// ISA v9, CRoundRepresentableLength), and the fourth begins there.
///
/// Refusals:
/// - `Full`: an end is above 2^26. The first such end, in the order of the file, is asked for.
/// - `Malformed`, capability alignment: a capability (R_RISCV_CHERI_CAPABILITY) has an address that is no multiple of 16.
///   It is the first such in order of files and records, and the offset is that of its record.
/// - `NoMemory`.
#[tactic(auto, unfolding(crate::specs::Laid::lay_of))]
pub fn lay<'a>(
    alloc: Global,
    rels: &'a [RelFile],
    pieces: &'a Pieces,
    sizes: &Sizes,
) -> Result<Layout<'a>, Refusal>
    requires small { AreSmall sizes.now }
    requires of_inputs { All (IsPieceOf rels.now) pieces.now.all }
    ensures value { Yields (λ laid. laid) result (lay_of rels.now pieces.now sizes.now) }
    ensures sound { IfOk result IsLaid }
    ensures exact { IfOk result IsExactlyLaid }
{
    let layout = place(alloc, rels, pieces, sizes)?;
    check_files(&layout, rels)?;
    Ok(layout)
}

impl<'a> Layout<'a> {
    ghost use Rattle.std.specs.Prelude.{◌<◌, length, IfSome};
    ghost use Rattle.cap_elf.specs.RelObject.{file_of};
    ghost use Rattle.std.specs.Option.{option_map, option_and_then};
    ghost use Rattle.cap_layout.specs.Pieces.{common_index};
    ghost use Rattle.cap_layout.specs.Points.{address_of, place_address, offset_of, section_point as section_point_of, common_point as common_point_of, point_of, symbol_piece as symbol_piece_of, piece_interval as piece_interval_of, section_interval as section_interval_of, interval_of};

    /// The pieces that were laid out.
    pub fn pieces(&self) -> &Pieces
        ensures pieces { result.now ≡ self.now.pieces }
        ensures of_inputs { All (IsPieceOf self.now.rels) self.now.pieces.all }
    {
        self.pieces
    }

    /// The address of a piece.
    pub fn address(&self, piece: u32) -> u64
        requires { piece < length self.now.pieces.all }
        ensures address { result ≡ address_of self.now piece }
        ensures low { result ≤ 2 ^ 26 }
        ensures sound { IsLaid self.now }
    {
        self.addresses[piece as usize]
    }

    /// The address of an offset of a section: None exactly where the section isn't kept or the offset is above its size.
    /// The piece is found at once where the guess or the number after it is its number. Any number may be guessed.
    pub fn place_near(&self, guess: u32, file: u32, section: u32, offset: u64) -> Option<u64>
        ensures { result ≡ place_address self.now file section offset }
    {
        let piece = find_near(self.pieces, guess, file, section, offset)?;
        let beyond = offset - self.pieces.get(piece).start;
        Some(self.address(piece) + beyond)
    }

    /// The address of the place that is an addend away from an offset of a section.
    fn place_beside(
        &self,
        guess: u32,
        file: u32,
        section: u32,
        value: u64,
        addend: i64,
    ) -> Option<u64>
        ensures { result ≡ option_and_then (place_address self.now file section) (offset_of value addend) }
    {
        // Every piece ends below 2^62, so none holds an offset that has more than 64 bits. This is known of the layout
        // once its pieces are read.
        let _ = &self.pieces;
        match value.checked_add_signed(addend) {
            Some(offset) => self.place_near(guess, file, section, offset),
            None => None,
        }
    }

    /// The piece of the common symbol that decides on its name.
    fn common(&self, file: u32, symbol: u32) -> Option<u32>
        ensures piece { result ≡ common_index self.now.pieces.all file symbol }
        ensures inside { IfSome result (λ i. i < length self.now.pieces.all) }
    {
        self.commons.find(file, symbol)
    }

    /// The point of a symbol of a section.
    fn section_point(
        &self,
        guess: u32,
        file: u32,
        section: u32,
        symbol: &Symbol,
        addend: i64,
    ) -> Option<u64>
        requires { file < length self.now.rels }
        ensures { result ≡ section_point_of self.now file section symbol.now addend }
    {
        let class = class_of(&self.rels[file as usize], section);
        if is_loose(class, symbol) {
            self.place_beside(guess, file, section, symbol.value, addend)
        } else {
            let address = self.place_near(guess, file, section, symbol.value)?;
            Some(moved(address, addend))
        }
    }

    /// The point of a common symbol.
    fn common_point(&self, file: u32, symbol: u32, addend: i64) -> Option<u64>
        ensures { result ≡ common_point_of self.now file symbol addend }
    {
        let piece = self.common(file, symbol)?;
        Some(moved(self.address(piece), addend))
    }

    /// The address and the padded size of a piece.
    fn piece_interval(&self, piece: u32) -> (u64, u64)
        requires { piece < length self.now.pieces.all }
        ensures { result ≡ piece_interval_of self.now piece }
    {
        (self.address(piece), self.pieces.get(piece).padded)
    }

    /// The interval of a symbol of a section.
    fn section_interval(
        &self,
        guess: u32,
        file: u32,
        section: u32,
        symbol: &Symbol,
    ) -> Option<(u64, u64)>
        requires { file < length self.now.rels }
        ensures { result ≡ section_interval_of self.now file section symbol.now }
    {
        let class = class_of(&self.rels[file as usize], section);
        if is_split(class) && symbol.size != 0 {
            let piece = find_near(self.pieces, guess, file, section, symbol.value)?;
            Some(self.piece_interval(piece))
        } else {
            let address = self.place_near(guess, file, section, symbol.value)?;
            Some((address, symbol.size))
        }
    }

    /// The interval of a common symbol.
    fn common_interval(&self, file: u32, symbol: u32) -> Option<(u64, u64)>
        ensures { result ≡ option_map (piece_interval_of self.now) (common_index self.now.pieces.all file symbol) }
    {
        let piece = self.common(file, symbol)?;
        Some(self.piece_interval(piece))
    }

    /// The piece in which a symbol stands; None exactly where the symbol isn't defined in a kept section and isn't the one
    /// that decides on a common name, or its value is outside its section. It is found at once where the guess or the
    /// number after it is its number. Any number may be guessed.
    pub fn piece_near(&self, guess: u32, file: u32, symbol: u32) -> Option<u32>
        requires file { file < length self.now.rels }
        requires symbol { symbol < length (file_of self.now.rels file).symbols }
        ensures { result ≡ symbol_piece_of self.now file symbol }
    {
        let found = self.rels[file as usize].symbols()[symbol as usize];
        match found.place {
            Place::Section(section) => self.pieces.find_near(guess, file, section, found.value),
            Place::Common => self.common(file, symbol),
            Place::Undefined | Place::Absolute => None,
        }
    }

    /// The address that a symbol and an addend name, modulo 2^64. The symbol of a split section, and a local symbol
    /// without bytes in one, name the place of the section at their value and the addend; another symbol names its own
    /// address, and the addend is added to that. None exactly where the symbol isn't defined in a kept section and isn't
    /// the one that decides on a common name, or the place is outside its section.
    pub fn point(&self, file: u32, symbol: u32, addend: i64) -> Option<u64>
        requires file { file < length self.now.rels }
        requires symbol { symbol < length (file_of self.now.rels file).symbols }
        ensures { result ≡ point_of self.now file symbol addend }
    {
        self.point_near(0, file, symbol, addend)
    }

    /// The same, found at once where the guess or the number after it is that of the piece. Any number may be guessed.
    pub fn point_near(&self, guess: u32, file: u32, symbol: u32, addend: i64) -> Option<u64>
        requires file { file < length self.now.rels }
        requires symbol { symbol < length (file_of self.now.rels file).symbols }
        ensures { result ≡ point_of self.now file symbol addend }
    {
        let found = self.rels[file as usize].symbols()[symbol as usize];
        match found.place {
            Place::Section(section) => self.section_point(guess, file, section, &found, addend),
            Place::Common => self.common_point(file, symbol, addend),
            Place::Undefined | Place::Absolute => None,
        }
    }

    /// The address and the size of a symbol: the padded size of its piece where it has bytes in a split section, else its
    /// own. None exactly where the symbol isn't defined in a kept section and isn't the one that decides on a common
    /// name. The piece is found at once where the guess or the number after it is its number. Any number may be guessed.
    pub fn interval_near(&self, guess: u32, file: u32, symbol: u32) -> Option<(u64, u64)>
        requires file { file < length self.now.rels }
        requires symbol { symbol < length (file_of self.now.rels file).symbols }
        ensures { result ≡ interval_of self.now file symbol }
    {
        let found = self.rels[file as usize].symbols()[symbol as usize];
        match found.place {
            Place::Section(section) => self.section_interval(guess, file, section, &found),
            Place::Common => self.common_interval(file, symbol),
            Place::Undefined | Place::Absolute => None,
        }
    }

    /// Where each part of the file stands.
    pub fn parts(&self) -> Parts
        ensures { result ≡ self.now.parts }
    {
        self.parts
    }
}

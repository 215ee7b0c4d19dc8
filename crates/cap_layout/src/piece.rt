//! Pieces.

use cap_elf::Class;

/// A part of a section that is placed by itself; or a common symbol.
#[derive(Clone, Copy, Debug, PartialEq, Eq)]
pub struct Piece {
    /// The place of its file among the relocatable inputs.
    pub file: u32,
    /// The index of the section; of a common piece that of the symbol that decides on its name.
    pub place: u32,
    pub common: bool,
    pub class: Class,
    /// Where it begins in its section.
    pub start: u64,
    /// How many bytes it has there.
    pub size: u64,
    /// A power of two, of which its address is a multiple.
    pub align: u64,
    /// How many bytes it takes in the linked file.
    pub padded: u64,
}

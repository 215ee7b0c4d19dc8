//! The pieces of the inputs' sections, and where each stands in the linked file.
//!
//! - `pieces` cuts each section of data at its symbols, so that an object, an unnamed gap between two, and each common
//!   symbol is a piece by itself. Its alignment and its padded size let a capability for the piece be exact and reach
//!   nothing else (CHERI ISA v9, CRepresentableAlignmentMask and CRoundRepresentableLength). It refuses symbols that
//!   overlap. `Pieces` finds the piece of an offset, and that of a field.
//! - `lay` gives each piece its address, and each part of the file its place, in the four segments of `Parts`. It refuses
//!   a file that would be too long, and capabilities that would stand at no multiple of 16. `Layout` answers the address
//!   and the interval that a symbol names.
//!
//! What is hard:
//! - The definition looks at all symbols for each section, and for an overlap at all earlier symbols. The code passes over
//!   the symbols of a file once, keeps the ends of the cuts section by section, sorts each list, and asks a set of
//!   intervals for overlaps. It finds pieces by halving: in the order of class, file, section and start, those of one
//!   section stand together, although sections of all classes alternate in a file (specs/PieceOrder).
//! - The ends of what is laid out are tried while it is laid out, and the first that is too far refuses. The definition
//!   tries all of them in the order of the file, and has the places beside them (specs/Parts); the walk has the same ends
//!   in the same order (specs/Segments).
//! - Each piece of data has bounds that are exact and reach no other piece, wherever the file is loaded (`IsExactlyLaid`):
//!   the file's alignment is a power of two that isn't below any piece's, so that each address stays a multiple of its
//!   piece's representable alignment.
//!
//! Which symbols are kept, which sections lie in a file, and that relocations name what there is, is known from `cap_elf`;
//! which definition a name has, and how large a common symbol is, from `cap_syms`. What the slots and the tables hold,
//! whose sizes `lay` is given, is decided in `cap_table`, and written in `cap_code` and `cap_emit`.
#![tactic(auto)]

mod alignment;
mod by_class;
mod classes;
mod common_map;
mod commons;
mod cutting;
mod finding;
mod guessing;
mod laws;
mod layout;
mod listed;
mod making;
mod marks;
mod overlap;
mod parts;
mod piece;
mod piece_list;
mod points;
mod running;
mod segments;
mod stages;

pub use by_class::ByClass;
pub use cutting::pieces;
pub use laws::layout_laws;
pub use layout::{Layout, lay};
pub use parts::{Parts, Sizes};
pub use piece::Piece;
pub use piece_list::Pieces;

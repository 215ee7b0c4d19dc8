//! Relocating code and numbers where a file is linked, and the stubs through which calls leave it (RISC-V ELF psABI,
//! "Relocations"; the kinds 192, 193 and 198 are those of pure capabilities).
//!
//! `patch` gives the bytes of all pieces, stubs and slots of the linked file. It starts from the bytes that `cap_table`
//! makes of the sections, and goes once through the relocations of the plan in order, those of slots left out:
//!
//! - The value of a relocation is a distance from its field, to a place, a slot of the capability table or a stub, or it is
//!   the place itself. A low part takes the value of its partner, the high part that its label names; a map leads from
//!   places to high parts, so that the work is near to linear.
//! - The value is checked against the reach of its kind, and the first that fails ends the walk.
//! - It goes into the bits of the field that the kind names: the forms of instructions stand in one table of the
//!   definitions, `Forms`, and the code beside them line for line.
//!
//! What a relocation refers to, and whether its kind may stand where it does, is decided in `cap_table`; which addresses
//! places have, in `cap_layout`.
#![tactic(auto)]

mod checking;
mod field;
mod instructions;
mod kinds;
mod partners;
mod patching;
mod scene;
mod writing;

pub use patching::patch;

//! The linker: relocatable objects and shared objects become one position-independent object, a program or a shared
//! object, whose bytes are a stated function of the inputs (`linked_file` of the definitions).
//!
//! The passes, in order, and what holds from each on:
//!
//! | Pass | What it does | What holds from then on |
//! |---|---|---|
//! | `read_files` (`read_dyn`, `read_rel`) | reads the inputs | each object is sound: its symbols lie in its sections, its relocations name symbols |
//! | `resolve` | decides on each name | each name that isn't local has one row, with the symbol that decides on it and how it is bound |
//! | `pieces` | cuts sections at their symbols | no two symbols of a section overlap without being equal; each piece has the size and the alignment that a capability can bound exactly |
//! | `plan` | checks the relocations in order | each field lies in one piece; slots, stubs, symbols and names of the file are known, and so is how long its tables are |
//! | `lay` | places the pieces | each piece has its address, all within 2^26 bytes; capabilities stand at multiples of 16 |
//! | `fill` | makes the lists | descriptions of capabilities, relocations, symbols and dynamic entries |
//! | `patch` (over `plain`) | makes the bytes | fixed values stand in their fields, code is relocated, stubs are written |
//! | `emit` | writes the file | each part stands at its address, with zeros between |
//!
//! The first pass that refuses decides, and in it the first check that fails. The crate decides nothing else: each pass
//! stands in its own crate. That a written file is read back as it was planned is the law of `cap_readback`.
#![tactic(auto)]

mod inputs;
mod laws;
mod linking;
mod reading;
mod refusal;

pub use inputs::Inputs;
pub use laws::link_laws;
pub use linking::link;
pub use refusal::LinkRefusal;

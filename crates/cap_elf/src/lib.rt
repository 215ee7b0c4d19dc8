//! The readers of ELF files of the pure-capability RISC-V profile (CheriABI, ELF64, little-endian).
//!
//! - `read_dyn` reads a shared object as it is loaded: through its program headers and its dynamic table (gABI, "Program
//!   Loading" and "Dynamic Linking"), never through section headers. `dyn_view` of the definitions says what its bytes
//!   are: the records, or the first check that fails, in one order.
//! - `read_rel` reads a relocatable object as it is linked: through its section headers (gABI, "Sections", "Symbol Table"
//!   and "Relocation"). `rel_view` says the same of it. The bytes of its sections stay where they are, in the file.
//! - What is hard is that no number of the file is trusted. Each stage takes what the earlier ones checked; a table is
//!   first read as a list of records, each with its own place in the file, and then its records are checked in order.
//!   No stage takes much longer than its tables are long, whatever numbers stand in them.
//! - `IsRead` says what holds of each shared object that was read: its segments ascend within the span, its names are
//!   plain and short, exported names are distinct, the hash words have their shape, each relocation names a symbol.
//!   `IsRelRead` says it of relocatable objects: kept sections lie in the file, symbols lie in their sections and are of
//!   a kind that may stand there, each relocation is of a kept section and names a symbol. The layers above stand on
//!   them, through the readers of `DynFile` and `RelFile`.
//! - It places nothing, relocates nothing, resolves no name, and does not walk the chains of the hash table: that is for
//!   the layers above.
#![tactic(auto)]

mod arrays;
mod decode;
mod dyn_file;
mod dynamic;
mod header;
mod indexed;
mod laws;
mod named;
mod names;
mod program;
mod reading;
mod records;
mod rel_file;
mod rel_named;
mod rel_reading;
mod rel_relocs;
mod rel_symbols;
mod relocs;
mod section_types;
mod sections;
mod segments;
mod stages;
mod symbols;
mod tables;
pub mod tags;

pub use decode::{DynEntry, ProgramHeader, SymbolEntry, Table};
pub use dyn_file::{DynFile, read_dyn};
pub use laws::read_laws;
pub use program::Marks;
pub use records::{Arrays, CapReloc, Class, DynReloc, Place, Reloc, Section, Segment, Symbol};
pub use rel_file::{RelFile, read_rel};
pub use tables::{HashPlace, Lists};

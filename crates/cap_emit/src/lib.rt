//! The bytes of the linked file: an ELF shared object (System V gABI) without section headers, in which each part stands
//! at the file offset that is its address.
//!
//! The parts in order, with zeros between:
//!
//! 1. the header of the file, 64 bytes, and those of its six segments, 56 bytes each: four that are mapped (PT_LOAD: read,
//!    run, written once, written), the dynamic table (PT_DYNAMIC), and what is read-only after loading (PT_GNU_RELRO);
//! 2. the symbols, 24 bytes each, the relocations, 24 each, the descriptions of capabilities (`__cap_relocs`), 40 each,
//!    the words of the hash table, 4 each, and the names; then the read-only pieces. Here the first segment ends;
//! 3. the stubs, 16 bytes each, and the pieces of code: the second segment;
//! 4. the dynamic table, 16 bytes an entry, the slots of the capability table, 16 each, the arrays of initial and of final
//!    calls, and the data that is written once: the third segment, filled with zeros up to its end;
//! 5. the data: the file's part of the fourth segment. The data without bytes (`.bss`, common symbols) takes only
//!    addresses behind it.
//!
//! `emit` writes them. `emit_laws` is the law that in a layout with its own lists no part begins before the end of the
//! one before, which `emit` asks for. Where the parts stand is decided in `cap_layout`, what the lists hold in
//! `cap_table`, and what relocated code holds in `cap_code`; here are only the bytes of each record.
#![tactic(auto)]

mod emitting;
mod laws;
mod pieces;
mod records;
mod tables;

pub use emitting::emit;
pub use laws::emit_laws;

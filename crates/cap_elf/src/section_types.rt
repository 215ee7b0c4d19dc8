//! The types and the flags of sections.

// sh_type (gABI, "Sections")
pub(crate) const PROGBITS: u32 = 1;

pub(crate) const SYMTAB: u32 = 2;

pub(crate) const STRTAB: u32 = 3;

pub(crate) const RELA: u32 = 4;

pub(crate) const NOTE: u32 = 7;

pub(crate) const NOBITS: u32 = 8;

pub(crate) const INIT_ARRAY: u32 = 14;

pub(crate) const FINI_ARRAY: u32 = 15;

// Refused wherever they stand.
pub(crate) const REL: u32 = 9;

pub(crate) const PREINIT_ARRAY: u32 = 16;

pub(crate) const GROUP: u32 = 17;

pub(crate) const SYMTAB_SHNDX: u32 = 18;

// sh_flags
pub(crate) const WRITE: u64 = 1;

pub(crate) const ALLOC: u64 = 2;

pub(crate) const EXECINSTR: u64 = 4;

pub(crate) const TLS: u64 = 0x400;

pub(crate) const COMPRESSED: u64 = 0x800;

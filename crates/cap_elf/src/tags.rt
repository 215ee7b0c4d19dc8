//! The tags of the dynamic table.

ghost use Rattle.std.specs.Prelude.{◌≡◌};
ghost use Rattle.cap_elf.specs.Tags.{is_single as is_single_of, is_refused as is_refused_of};

use crate::decode::DynEntry;

// Used, and may stand more than once: a needed library, and flags.
pub const NEEDED: u64 = 1;

pub const FLAGS: u64 = 30;

// Used, and stand once at most (gABI, "Dynamic Section").
pub const PLTRELSZ: u64 = 2;

pub const HASH: u64 = 4;

pub const STRTAB: u64 = 5;

pub const SYMTAB: u64 = 6;

pub const RELA: u64 = 7;

pub const RELASZ: u64 = 8;

pub const RELAENT: u64 = 9;

pub const STRSZ: u64 = 10;

pub const SYMENT: u64 = 11;

pub const SONAME: u64 = 14;

pub const SYMBOLIC: u64 = 16;

pub const PLTREL: u64 = 20;

pub const JMPREL: u64 = 23;

pub const INIT_ARRAY: u64 = 25;

pub const FINI_ARRAY: u64 = 26;

pub const INIT_ARRAYSZ: u64 = 27;

pub const FINI_ARRAYSZ: u64 = 28;

// The address and the size of `__cap_relocs` (CheriABI, RISC-V).
pub const CAP_RELOCS: u64 = 0x7000_c000;

pub const CAP_RELOCSZ: u64 = 0x7000_c001;

// Refused: they ask for what isn't supported.
pub const REL: u64 = 17;

pub const TEXTREL: u64 = 22;

pub const PREINIT_ARRAY: u64 = 32;

pub const RELR: u64 = 36;

pub const VERSYM: u64 = 0x6fff_fff0;

pub const VERDEF: u64 = 0x6fff_fffc;

pub const VERNEED: u64 = 0x6fff_fffe;

/// Whether a tag may stand once only.
#[tactic(auto, unfolding(crate::specs::Tags::is_single))]
pub(crate) fn is_single(tag: u64) -> bool
    ensures { result ≡ is_single_of tag }
{
    tag == HASH
        || tag == STRTAB
        || tag == SYMTAB
        || tag == RELA
        || tag == RELASZ
        || tag == RELAENT
        || tag == STRSZ
        || tag == SYMENT
        || tag == SONAME
        || tag == SYMBOLIC
        || tag == PLTRELSZ
        || tag == PLTREL
        || tag == JMPREL
        || tag == INIT_ARRAY
        || tag == FINI_ARRAY
        || tag == INIT_ARRAYSZ
        || tag == FINI_ARRAYSZ
        || tag == CAP_RELOCS
        || tag == CAP_RELOCSZ
}

/// Whether an entry asks for what isn't supported: by its tag, or by DF_TEXTREL of DT_FLAGS.
#[tactic(auto, unfolding(crate::specs::Tags::is_refused))]
pub(crate) fn is_refused(entry: &DynEntry) -> bool
    ensures { result ≡ is_refused_of entry.now }
{
    entry.tag == REL
        || entry.tag == TEXTREL
        || entry.tag == PREINIT_ARRAY
        || entry.tag == RELR
        || entry.tag == VERSYM
        || entry.tag == VERDEF
        || entry.tag == VERNEED
        || (entry.tag == FLAGS && entry.value & 4 == 4)
}

//! A shared object that was read.

ghost use Rattle.std.specs.Prelude.{◌≡◌, IfOk};
ghost use Rattle.cap_base.specs.Steps.{Reads};
ghost use Rattle.cap_elf.specs.DynView.{dyn_view};
ghost use Rattle.cap_elf.specs.IsRead.{IsRead};

use crate::reading::{Records, read_records};
use crate::records::{Arrays, CapReloc, DynReloc, Segment, Symbol};
use cap_base::Refusal;
use std::alloc::Global;
use std::marker::Model;

/// A shared object (ET_DYN) that passed every check: its records, and the number that its file was given.
#[derive(Drop)]
pub struct DynFile {
    number: u32,
    records: Records,
}

impl Model for DynFile {
    ghost use Rattle.cap_elf.specs.DynView.{DynValue};

    ghost Value = { DynValue };

    ghost use Rattle.cap_elf.specs.RecordsView.{records_view};
    ghost use Rattle.cap_elf.specs.IsRead.{IsRead};

    ghost view = { λ f. record { number = f.number; records = records_view f.records } };

    ghost invariant = { λ f. IsRead (records_view f.records) };
}

/// Reads a shared object (ET_DYN) of the pure-capability RISC-V profile, whose file is given this number.
///
/// The refusal is Malformed, Unsupported or Limit by the first check that fails, with the file's number and the offset
/// of what is at fault; or NoMemory. The checks in their order, with what the System V gABI says of each:
///
/// - The header: e_ident holds 0x7f, `ELF`, ELFCLASS64, ELFDATA2LSB, EV_CURRENT; then e_machine (EM_RISCV), e_version,
///   e_type (ET_DYN), and both flags of the pure-capability profile. All entries of the program header table have the
///   size e_phentsize.
/// - Each program header: no PT_TLS. Of a PT_LOAD, "the file size may not be larger than the memory size"; "p_align
///   should be a positive, integral power of 2, and p_vaddr should equal p_offset, modulo p_align" where it isn't 0;
///   "loadable segment entries appear in ascending order, sorted on p_vaddr". None is both writable and executable. One
///   at least has memory.
/// - PT_DYNAMIC, which stands once; PT_GNU_RELRO, at most once and in a writable segment.
/// - The dynamic table: "an entry with a DT_NULL tag marks the end"; tags that ask for what isn't supported (DT_REL,
///   DT_TEXTREL, versions and others), and tags that stand twice.
/// - The string table: its first byte "is defined to hold a null character. Likewise, a string table's last byte".
/// - DT_HASH: "the number of symbol table entries should equal nchain". DT_SYMTAB with DT_SYMENT. DT_RELA "must also
///   have DT_RELASZ and DT_RELAENT"; DT_JMPREL has DT_PLTRELSZ and DT_PLTREL; `__cap_relocs` has its size.
/// - DT_NEEDED and DT_SONAME: "the string table offset of a null-terminated string", here the name of a file.
/// - DT_INIT_ARRAY and DT_FINI_ARRAY: whole capabilities, in the memory of a segment.
/// - Each symbol but the first: its name, type, binding and section index, of which those from SHN_LORESERVE on are
///   reserved. No two definitions that aren't local have one name.
/// - Each relocation: ELF64_R_SYM is the index of a symbol.
#[tactic(auto, using(cap_base::proofs::Walk::refuses))]
pub fn read_dyn(alloc: Global, number: u32, bytes: &[u8]) -> Result<DynFile, Refusal>
    ensures value { Reads (λ f. f.records) number result (dyn_view bytes.now) }
    ensures number { IfOk result (λ f. f.number ≡ number) }
    ensures sound { IfOk result (λ f. IsRead f.records) }
{
    match read_records(alloc, bytes) {
        Ok(records) => Ok(DynFile { number, records }),
        Err(stop) => Err(stop.refusal(number)),
    }
}

impl DynFile {
    ghost use Rattle.std.specs.Prelude.{◌<◌, [], ℕ, List, All, length, slice_index_or, option_copied};
    ghost use Rattle.cap_names.specs.Hash.{system_v_hash_of};
    ghost use Rattle.cap_elf.specs.Ends.{IsInFile};
    ghost use Rattle.cap_elf.specs.Exported.{first_exported, IsOnlyExported};

    /// The number that the file was given when it was read.
    pub fn number(&self) -> u32
        ensures { result ≡ self.now.number }
    {
        self.number
    }

    /// The flags of the file's header (e_flags).
    pub fn flags(&self) -> u32
        ensures { result ≡ self.now.records.flags }
    {
        self.records.flags
    }

    /// The segments that are mapped (PT_LOAD), in ascending order. They lie within the span, and their parts of the
    /// file lie in the file that they were read from.
    pub fn segments(&self) -> &[Segment]
        ensures segments { result.now ≡ self.now.records.segments }
        ensures sound { IsRead self.now.records }
        ensures in_file { (bytes : List ℕ) → dyn_view bytes ≡ Ok self.now.records → All (IsInFile (length bytes)) result.now }
    {
        self.records.segments.as_slice()
    }

    /// The addresses that are read-only once they are relocated (PT_GNU_RELRO): the first, and the one behind the last.
    pub fn relro(&self) -> Option<(u64, u64)>
        ensures { result ≡ self.now.records.relro }
    {
        self.records.relro
    }

    /// The symbols of the dynamic symbol table, in its order; the first is the null symbol.
    pub fn symbols(&self) -> &[Symbol]
        ensures symbols { result.now ≡ self.now.records.symbols }
        ensures sound { IsRead self.now.records }
    {
        self.records.symbols.symbols()
    }

    /// The name of the symbol of this index.
    pub fn name(&self, symbol: u32) -> &[u8]
        requires { symbol < length self.now.records.symbols }
        ensures { result.now ≡ slice_index_or self.now.records.names symbol [] }
    {
        self.records.symbols.name(symbol as usize)
    }

    /// The least index whose symbol is exported (defined, and not local) and has this name, whose hash for DT_HASH is
    /// given; None exactly where there is none. No other exported symbol has the name. It takes no memory.
    #[tactic(auto, using(crate::proofs::Flags::exported_by))]
    pub fn find_exported(&self, name: &[u8], hash: u32) -> Option<u32>
        requires { hash ≡ system_v_hash_of name.now }
        ensures first { result ≡ first_exported self.now.records.symbols self.now.records.names name.now }
        ensures only { IsOnlyExported self.now.records.symbols self.now.records.names name.now result }
    {
        self.records.symbols.find(name, hash)
    }

    /// The relocations of DT_RELA, and then those of DT_JMPREL.
    pub fn relocs(&self) -> &[DynReloc]
        ensures relocs { result.now ≡ self.now.records.relocs }
        ensures sound { IsRead self.now.records }
    {
        self.records.relocs.as_slice()
    }

    /// The entries of `__cap_relocs`.
    pub fn cap_relocs(&self) -> &[CapReloc]
        ensures { result.now ≡ self.now.records.cap_relocs }
    {
        self.records.cap_relocs.as_slice()
    }

    /// The words of the hash table (DT_HASH): nbucket, nchain, the buckets and the chains.
    pub fn hash_words(&self) -> &[u32]
        ensures words { result.now ≡ self.now.records.hash_words }
        ensures sound { IsRead self.now.records }
    {
        self.records.hash_words.as_slice()
    }

    /// The file offset of the hash table.
    pub fn hash_at(&self) -> u64
        ensures { result ≡ self.now.records.hash_at }
    {
        self.records.hash_at
    }

    /// The arrays of initial and of final calls.
    pub fn arrays(&self) -> Arrays
        ensures arrays { result ≡ self.now.records.arrays }
        ensures sound { IsRead self.now.records }
    {
        self.records.arrays
    }

    /// Whether the object looks a name up in itself first (DT_SYMBOLIC, or DF_SYMBOLIC of DT_FLAGS).
    pub fn symbolic(&self) -> bool
        ensures { result ≡ self.now.records.symbolic }
    {
        self.records.symbolic
    }

    /// How many addresses the object takes: up to the highest end of a segment, rounded up to whole pages of 4,096.
    pub fn span(&self) -> u64
        ensures span { result ≡ self.now.records.span }
        ensures sound { IsRead self.now.records }
    {
        self.records.span
    }

    /// The address of the object is a multiple of this: the highest alignment of a segment, 4,096 at least.
    pub fn align(&self) -> u64
        ensures align { result ≡ self.now.records.align }
        ensures sound { IsRead self.now.records }
    {
        self.records.align
    }

    /// How many libraries the object needs (DT_NEEDED).
    pub fn needed_len(&self) -> usize
        ensures { result ≡ length self.now.records.needed }
    {
        self.records.needed.len()
    }

    /// The name of a needed library, in the order of the dynamic table.
    pub fn needed(&self, i: usize) -> &[u8]
        requires { i < length self.now.records.needed }
        ensures { result.now ≡ slice_index_or self.now.records.needed i [] }
    {
        self.records.needed[i].bytes()
    }

    /// The object's own name (DT_SONAME). None exactly where it has none.
    pub fn soname(&self) -> Option<&[u8]>
        ensures soname { option_copied result ≡ self.now.records.soname }
        ensures sound { IsRead self.now.records }
    {
        match &self.records.soname {
            Some(name) => Some(name.bytes()),
            None => None,
        }
    }
}

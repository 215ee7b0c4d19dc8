//! The records of object files, each with its own place in the file.

ghost use Rattle.std.specs.Prelude.{◌≡◌};

/// A part of a shared object that is mapped: a program header of type PT_LOAD.
#[derive(Clone, Copy, Debug, PartialEq, Eq)]
pub struct Segment {
    /// The first address, before the object is placed.
    pub vaddr: u64,
    /// How many addresses it takes.
    pub memsz: u64,
    /// Where its bytes begin in the file.
    pub offset: u64,
    /// How many of its bytes, from the first on, stand in the file; the others are zeros.
    pub filesz: u64,
    /// PF_X 1, PF_W 2, PF_R 4.
    pub flags: u32,
    /// The alignment as it stands in the file, where 0 counts as 1.
    pub align: u64,
}

/// Where a symbol is defined (st_shndx).
#[derive(Clone, Copy, Debug, PartialEq, Eq)]
pub enum Place {
    /// Nowhere (SHN_UNDEF).
    Undefined,
    /// Its value is no address (SHN_ABS).
    Absolute,
    /// In no section yet (SHN_COMMON): its value is an alignment. In relocatable objects alone.
    Common,
    /// In the section of this index.
    Section(u32),
}

/// A symbol of either kind of object. Its name stands beside it.
#[derive(Clone, Copy, Debug, PartialEq, Eq)]
pub struct Symbol {
    /// STB_LOCAL 0, STB_GLOBAL 1, STB_WEAK 2.
    pub binding: u8,
    /// STT_NOTYPE 0, STT_OBJECT 1, STT_FUNC 2, STT_SECTION 3, STT_FILE 4, STT_COMMON 5.
    pub kind: u8,
    /// STV_DEFAULT 0, STV_INTERNAL 1, STV_HIDDEN 2, STV_PROTECTED 3.
    pub visibility: u8,
    pub place: Place,
    pub value: u64,
    pub size: u64,
    /// The file offset of the symbol.
    pub at: u64,
}

/// A relocation of a shared object.
#[derive(Clone, Copy, Debug, PartialEq, Eq)]
pub struct DynReloc {
    /// The address of the slot, before the object is placed.
    pub slot: u64,
    /// The type of relocation.
    pub kind: u32,
    /// The index of the symbol.
    pub symbol: u32,
    pub addend: i64,
    /// The file offset of the relocation.
    pub at: u64,
}

/// An entry of `__cap_relocs`: a capability that is made when the object is loaded. Its addresses are those before the
/// object is placed.
#[derive(Clone, Copy, Debug, PartialEq, Eq)]
pub struct CapReloc {
    /// Where the capability is put.
    pub location: u64,
    /// Where its interval begins.
    pub object: u64,
    /// Its cursor, counted from there.
    pub offset: u64,
    /// The length of its interval.
    pub size: u64,
    /// Bit 63 for a function, bit 62 for data that is read alone, 0 for other data.
    pub permissions: u64,
    /// The file offset of the entry.
    pub at: u64,
}

/// The arrays of initial and of final calls: their addresses and sizes in bytes, 0 and 0 where there is none.
#[derive(Clone, Copy, Debug, PartialEq, Eq)]
pub struct Arrays {
    pub init_at: u64,
    pub init_size: u64,
    pub fini_at: u64,
    pub fini_size: u64,
}

/// What a section of a relocatable object holds.
#[derive(Clone, Copy, Debug, PartialEq, Eq)]
pub enum Class {
    /// Data that is read alone.
    Ro,
    /// Instructions.
    Code,
    /// An array of initial calls.
    Init,
    /// An array of final calls.
    Fini,
    /// Data that is read alone once it is relocated.
    Relro,
    /// Data that may be written.
    Data,
    /// The same, of zeros that don't stand in the file.
    Bss,
    /// Nothing that a program has in memory.
    Dropped,
}

impl Class {
    ghost use Rattle.cap_elf.specs.Classes.{is_kept as is_kept_of, is_code as is_code_of, is_array as is_array_of};

    /// Whether a program has the section in memory.
    pub fn is_kept(self) -> bool
        ensures { result ≡ is_kept_of self }
    {
        !matches!(self, Class::Dropped)
    }

    /// Whether it holds instructions.
    pub fn is_code(self) -> bool
        ensures { result ≡ is_code_of self }
    {
        matches!(self, Class::Code)
    }

    /// Whether it is an array of initial or of final calls.
    pub fn is_array(self) -> bool
        ensures { result ≡ is_array_of self }
    {
        matches!(self, Class::Init | Class::Fini)
    }
}

/// A section of a relocatable object.
#[derive(Clone, Copy, Debug, PartialEq, Eq)]
pub struct Section {
    pub class: Class,
    pub size: u64,
    /// The alignment, 1 where 0 stands in the file.
    pub align: u64,
    /// Where its bytes begin in the file.
    pub offset: u64,
    /// The file offset of its section header.
    pub at: u64,
}

/// A relocation of a relocatable object.
#[derive(Clone, Copy, Debug, PartialEq, Eq)]
pub struct Reloc {
    /// The index of the section that it changes.
    pub section: u32,
    /// Where in that section.
    pub offset: u64,
    /// The type of relocation.
    pub kind: u32,
    /// The index of the symbol.
    pub symbol: u32,
    pub addend: i64,
    /// The file offset of the relocation.
    pub at: u64,
}

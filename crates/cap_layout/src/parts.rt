//! The parts of a linked file.

/// How many records each table has, and how many bytes the names.
#[derive(Clone, Copy, Debug, PartialEq, Eq)]
pub struct Sizes {
    pub symbols: u64,
    pub relas: u64,
    pub cap_relocs: u64,
    pub names: u64,
    pub slots: u64,
    pub stubs: u64,
    pub dynamics: u64,
}

/// Where the segments of the linked file begin and end, where the tables stand, and how the file is aligned.
#[derive(Clone, Copy, Debug, PartialEq, Eq)]
pub struct Parts {
    pub ro_end: u64,
    pub code_start: u64,
    pub code_end: u64,
    pub table_start: u64,
    pub table_end: u64,
    pub data_start: u64,
    pub file_end: u64,
    pub mem_end: u64,
    pub symbols_at: u64,
    pub relas_at: u64,
    pub cap_relocs_at: u64,
    pub hash_at: u64,
    pub names_at: u64,
    pub stubs_at: u64,
    pub dynamic_at: u64,
    pub slots_at: u64,
    pub init_at: u64,
    pub init_size: u64,
    pub fini_at: u64,
    pub fini_size: u64,
    pub align: u64,
}

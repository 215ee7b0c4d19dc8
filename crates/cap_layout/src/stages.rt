//! Where the parts of each segment stand.

/// Where the tables of the first segment begin, and where the names end.
#[derive(Clone, Copy)]
pub(crate) struct Tables {
    pub(crate) symbols_at: u64,
    pub(crate) relas_at: u64,
    pub(crate) cap_relocs_at: u64,
    pub(crate) hash_at: u64,
    pub(crate) names_at: u64,
    pub(crate) names_end: u64,
}

/// The first segment: what is read alone.
#[derive(Clone, Copy)]
pub(crate) struct ReadOnly {
    pub(crate) tables: Tables,
    pub(crate) end: u64,
}

/// The second segment: instructions.
#[derive(Clone, Copy)]
pub(crate) struct CodePart {
    pub(crate) start: u64,
    pub(crate) end: u64,
}

/// Where an array of calls begins, and how many bytes it has.
#[derive(Clone, Copy)]
pub(crate) struct CallArray {
    pub(crate) at: u64,
    pub(crate) size: u64,
}

/// The third segment: what is read alone once it is relocated.
#[derive(Clone, Copy)]
pub(crate) struct Relocated {
    pub(crate) start: u64,
    pub(crate) slots_at: u64,
    pub(crate) init: CallArray,
    pub(crate) fini: CallArray,
    pub(crate) end: u64,
}

/// The fourth segment: data that may be written.
#[derive(Clone, Copy)]
pub(crate) struct Writable {
    pub(crate) file_end: u64,
    pub(crate) mem_end: u64,
}

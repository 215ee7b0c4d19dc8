//! Names with the decisions on them.

/// What a name is.
#[derive(Clone, Copy, Debug, PartialEq, Eq)]
pub enum Shape {
    /// One symbol defines it.
    Defined,
    /// Common symbols of this name were merged: the largest size, and the largest alignment.
    Common { size: u64, align: u64 },
    /// No relocatable input defines it; `weak` where every reference is weak.
    Absent { weak: bool },
}

/// The occurrence that decides on a name, and the decision.
#[derive(Clone, Copy, Debug, PartialEq, Eq)]
pub struct Entry {
    /// The place of the occurrence's file among the relocatable inputs.
    pub file: u32,
    /// The index of the symbol in that file.
    pub symbol: u32,
    pub shape: Shape,
    /// The most constraining visibility of all occurrences (st_other).
    pub visibility: u8,
}

/// How references to a name are bound.
#[derive(Clone, Copy, Debug, PartialEq, Eq)]
pub enum Bound {
    /// To the definition in the linked file.
    Local,
    /// To nothing: the name counts as absolute with value 0.
    Zero,
    /// When the file is loaded.
    Dynamic,
}

//! Modes of opening, and why a start or a call is refused.

use cap_base::Name;

/// Which objects see the definitions of an opened library (dlopen(3), RTLD_LOCAL and RTLD_GLOBAL).
#[derive(Clone, Copy, Debug, PartialEq, Eq)]
pub enum Mode {
    /// Those of its own tree.
    Local,
    /// All that are loaded from then on.
    Global,
}

/// How many objects a call loaded.
#[derive(Clone, Copy, Debug, PartialEq, Eq)]
pub struct Ready {
    pub new: u32,
}

/// Why a start or a call was refused, and the path of the file that it is about; for want of memory the path is empty.
#[derive(Debug, Drop)]
pub struct OpenRefusal {
    pub path: Name,
    pub cause: OpenCause,
}

/// Why a start or a call was refused. A check is given by its number, and `at` is the file offset that it names.
#[derive(Debug, Drop)]
pub enum OpenCause {
    /// There is no such file.
    NoFile,
    /// The file breaks its format.
    Malformed { check: u8, at: u64 },
    /// The file is in a form that isn't accepted.
    Unsupported { check: u8, at: u64 },
    /// No object in the scope defines this name.
    Unresolved { name: Name },
    /// A capability can't have these bounds exactly; the name is `-` for an entry of `__cap_relocs`.
    Inexact { name: Name, base: u64, len: u64 },
    /// So many addresses were asked for, and so many are left.
    Full { asked: u64, left: u64 },
    /// More than 256 objects, or a file of more than 2^26 bytes, or a limit of the reader.
    Limit { check: u8 },
    /// The file could not be read.
    ReadFault,
    /// There was not enough memory.
    NoMemory,
}

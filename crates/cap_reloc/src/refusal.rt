// Why a relocation is refused.
ghost use Rattle.std.specs.Prelude.{◌≡◌};
ghost use Rattle.cap_reloc.specs.declared.refusal.RelocRefusal.TheVariants.{NoMemory};

use cap_scope::Hit;
use std::alloc::{AllocError, AllocFailed};

/// The first check that the relocations of an object fail.
#[derive(Clone, Copy, Debug, PartialEq, Eq)]
pub enum RelocRefusal {
    Malformed {
        check: u8,
        at: u64,
    },
    Unsupported {
        check: u8,
        at: u64,
    },
    /// No definition was found for this symbol of the object.
    Unresolved {
        symbol: u32,
    },
    /// The bounds of a definition can't be had exactly; of none for an entry.
    Inexact {
        hit: Option<Hit>,
        base: u64,
        len: u64,
    },
    NoMemory,
}

impl From<AllocError> for RelocRefusal {
    ghost from_gives = { λ _ refusal. refusal ≡ NoMemory };

    fn from(_: AllocError) -> RelocRefusal {
        RelocRefusal::NoMemory
    }
}

impl<T: Drop> From<AllocFailed<T>> for RelocRefusal {
    ghost from_gives = { λ _ refusal. refusal ≡ NoMemory };

    fn from(_: AllocFailed<T>) -> RelocRefusal {
        RelocRefusal::NoMemory
    }
}

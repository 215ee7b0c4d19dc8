//! What the slots of an object are to hold, before anything is stored.

use cap_own::Derived;
use std::marker::Model;

/// What a slot is to hold.
#[derive(Debug, Drop)]
pub(crate) enum Held<'r> {
    /// 8 bytes of a number.
    Number(u64),
    /// A number and 8 bytes of zeros, without a tag.
    Untagged(u64),
    /// A capability, and the index of its definition's symbol in the owner's table, or 0 for an entry.
    Tagged(Derived<'r>, u32),
}

/// A slot at its loaded address, and what it is to hold.
#[derive(Debug, Drop)]
pub(crate) struct Planned<'r> {
    pub(crate) slot: u64,
    pub(crate) held: Held<'r>,
}

impl<'r> Model for Planned<'r> {
    ghost use Rattle.cap_reloc.specs.Wanted.{Pair};

    ghost Value = { Pair };

    ghost use Rattle.cap_reloc.specs.Planned.{pair_of};

    ghost view = { pair_of };
}

//! The words of a memory, one after the other.

ghost use Rattle.std.specs.Prelude.{◌≡◌, [], ◌∷◌, Some, option_map, MatchOption, IfSome};
ghost use Rattle.cap_mem.specs.IsMemory.{IsMemory};
ghost use Rattle.cap_mem.specs.Tagged.{first_granule, granule_after, tagged_word, IsTaggedGranule};
ghost use Rattle.cap_image.specs.WordWalk.{lists_from};

use cap_mem::{Memory, Note};
use std::marker::Model;

/// Memories know the words of owners below this number.
const OWNERS: u32 = 256;

/// A tagged word: its granule, and what its capability says of its definition.
#[derive(Clone, Copy)]
pub(crate) struct FoundWord {
    pub(crate) granule: u64,
    pub(crate) note: Note,
}

/// A walk over the words of a memory: those of each owner in turn, in the order of their stores.
#[derive(Drop)]
pub(crate) struct WordWalk<'m> {
    memory: &'m Memory,
    next: Option<u64>,
}

impl<'m> Model for WordWalk<'m> {
    ghost use Rattle.std.specs.Prelude.{List};
    ghost use Rattle.cap_image.specs.declared.word_walk.FoundWord.{FoundWord};

    ghost Value = { List FoundWord };

    ghost use Rattle.cap_image.specs.WalkFields.{words_left, IsWalk};

    ghost view = { words_left };

    ghost invariant = { IsWalk };
}

impl<'m> WordWalk<'m> {
    ghost use Rattle.std.specs.Prelude.{◌≡◌, [], ◌∷◌, map, MatchOption};
    ghost use Rattle.cap_mem.specs.IsMemory.{IsMemory};
    ghost use Rattle.cap_image.specs.WordWalk.{founds_of};

    pub(crate) fn new(memory: &'m Memory) -> WordWalk<'m>
        requires { IsMemory memory.now }
        ensures { result ≡ founds_of memory.entry.now.words }
    {
        let next = first_from(memory, 0);
        WordWalk { memory, next }
    }

    /// The next word, if any is left.
    pub(crate) fn take(&mut self) -> Option<FoundWord>
        ensures { MatchOption result (self.old ≡ []) (λ w. self.old ≡ w ∷ self.new) }
    {
        let granule = self.next?;
        let note = self.memory.note_at(granule)?;
        self.next = word_after(self.memory, granule, note.owner);
        Some(FoundWord { granule, note })
    }
}

/// The granule of the first word of the owners from one on.
#[tactic(auto, using(crate::proofs::WordOrder::first_more, crate::proofs::WordOrder::first_hit, crate::proofs::WordOrder::first_none))]
fn first_from(memory: &Memory, from: u32) -> Option<u64>
    ensures value { result ≡ first_granule (lists_from memory.now.words from) }
    ensures granule { IfSome result (λ g. IsTaggedGranule memory.now g) }
{
    for owner in from..OWNERS {
        if let Some(granule) = memory.first_of(owner) {
            return Some(granule);
        }
    }
    None
}

/// The granule of the word that follows that of a granule, whose owner this is.
#[tactic(auto, using(crate::proofs::WordOrder::owner_tagged, crate::proofs::WordOrder::owner_low, crate::proofs::WordOrder::after_in_list, crate::proofs::WordOrder::after_list))]
fn word_after(memory: &Memory, granule: u64, owner: u32) -> Option<u64>
    requires sound { IsMemory memory.now }
    requires owner { option_map (λ w. w.cap.owner) (tagged_word memory.now granule) ≡ Some owner }
    ensures value { result ≡ granule_after granule memory.now.words }
    ensures granule { IfSome result (λ g. IsTaggedGranule memory.now g) }
{
    match memory.next_of(granule) {
        Some(next) => Some(next),
        None => first_from(memory, owner + 1),
    }
}

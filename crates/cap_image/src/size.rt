//! How many bytes the image of memories has.

ghost use Rattle.std.specs.Prelude.{◌≡◌, ◌+◌, ◌≤◌, length, All, IfSome};
ghost use Rattle.cap_mem.specs.IsMemory.{IsMemory};
ghost use Rattle.cap_image.specs.MemoryParts.{HaveSymbols, HasItsSymbol, founds_bytes, body_for, symbol_length};
ghost use Rattle.cap_image.specs.WordWalk.{founds_of};
ghost use Rattle.cap_image.specs.Writing.{CanBeWritten, IsWritable, AreShort, image_bytes, image_of};

use crate::word_walk::{FoundWord, WordWalk};
use cap_base::NameList;
use cap_mem::Memory;

const HEADER_SIZE: usize = 16;

/// The size of an object's record without its name.
const RECORD_SIZE: usize = 18;

/// The size of a word record without its name.
const WORD_SIZE: usize = 12;

/// The size of the image of memories; None where it isn't below 2^64.
#[tactic(auto, using(crate::proofs::Sizes::nothing_size, crate::proofs::Sizes::object_size, crate::proofs::Sizes::image_size))]
pub(crate) fn image_size(
    names: &NameList,
    symbols: &[NameList],
    memories: &[Memory],
) -> Option<usize>
    requires { CanBeWritten names.now symbols.now memories.now }
    ensures { IfSome result (λ size. size ≡ length (image_bytes (image_of names.now symbols.now memories.now))) }
{
    let mut size = HEADER_SIZE;
    for (i, memory) in memories.iter().enumerate() {
        size = size.checked_add(object_size(names.name(i), symbols, memory)?)?;
    }
    Some(size)
}

/// The size of the record and the body of a memory.
fn object_size(name: &[u8], symbols: &[NameList], memory: &Memory) -> Option<usize>
    requires name { length name.now ≤ 255 }
    requires short { All AreShort symbols.now }
    requires writable { IsWritable symbols.now memory.now }
    ensures { IfSome result (λ size. size ≡ 18 + length name.now + length (body_for symbols.now memory.now)) }
{
    body_size(symbols, memory)?.checked_add(RECORD_SIZE + name.len())
}

/// The size of the body of a memory: its bytes, its tags and its word records.
#[tactic(auto, using(crate::proofs::Sizes::body_size, crate::proofs::MemoryBytes::founds_have))]
fn body_size(symbols: &[NameList], memory: &Memory) -> Option<usize>
    requires short { All AreShort symbols.now }
    requires writable { IsWritable symbols.now memory.now }
    ensures { IfSome result (λ size. size ≡ length (body_for symbols.now memory.now)) }
{
    let bytes = memory.len() as usize;
    words_size(symbols, memory)?.checked_add(bytes + bytes / 128 + 4)
}

/// The size of the records of a memory's words.
#[tactic(auto, using(crate::proofs::Sizes::words_size, crate::proofs::Sizes::no_words_size, crate::proofs::MemoryBytes::next_has, crate::proofs::MemoryBytes::rest_have))]
fn words_size(symbols: &[NameList], memory: &Memory) -> Option<usize>
    requires short { All AreShort symbols.now }
    requires sound { IsMemory memory.now }
    requires symbols { HaveSymbols symbols.now (founds_of memory.now.words) }
    ensures { IfSome result (λ size. size ≡ length (founds_bytes symbols.now (founds_of memory.now.words))) }
{
    let mut size = 0usize;
    let mut words = WordWalk::new(memory);
    while let Some(word) = words.take() {
        size = size.checked_add(WORD_SIZE + name_length(symbols, word))?;
    }
    Some(size)
}

/// The length of the name of a word's symbol.
#[tactic(auto, unfolding(crate::specs::MemoryParts::symbol_length))]
fn name_length(symbols: &[NameList], word: FoundWord) -> usize
    requires short { All AreShort symbols.now }
    requires symbol { HasItsSymbol symbols.now word }
    ensures value { result ≡ symbol_length symbols.now word }
    ensures short { result ≤ 255 }
{
    let names = &symbols[word.note.owner as usize];
    names.name(word.note.symbol as usize).len()
}

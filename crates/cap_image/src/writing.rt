//! Writing an image of memories.
//!
//! One buffer is made as large as the image (`size`), and written from front to back. The tags come from
//! `Memory::tagged`, which passes over what has none; the word records from a walk over the lists of all owners
//! (`word_walk`), which visits each word once.

ghost use Rattle.std.specs.Prelude.{◌≡◌, ◌+◌, ◌*◌, ◌^◌, ◌<◌, ◌≤◌, ◌++◌, length, All, IfOk, OnOk};
ghost use Rattle.std.specs.Int.{from_bool};
ghost use Rattle.cap_mem.specs.Tagged.{is_tagged};
ghost use Rattle.cap_image.specs.Writing.{field_bytes, header_bytes, name_bytes, object_record, image_bytes, image_of, tag_byte, tag_bytes, word_bytes, words_bytes, records_of, CanBeWritten, IsObjectName, IsWritable, AreShort};
ghost use Rattle.cap_image.specs.declared.header.Version.TheVariants.{Two};
ghost use Rattle.cap_mem.specs.IsMemory.{IsMemory};
ghost use Rattle.cap_image.specs.MemoryParts.{record_found, founds_bytes, body_for, records_below, bodies_below, EndsLow, HasItsSymbol, HaveSymbols};
ghost use Rattle.cap_image.specs.WordWalk.{IsAhead, IsFirst, founds_of};

use crate::header::MAGIC;
use crate::size::image_size;
use crate::word_walk::{FoundWord, WordWalk};
use cap_base::{NameList, NoMemory};
use cap_mem::Memory;
use std::alloc::Global;

/// The version that is written.
const VERSION: u32 = 2;

#[tactic(auto, unfolding(crate::specs::Writing::field_bytes))]
fn push_u16(text: &mut Vec<u8>, number: u16) -> Result<(), NoMemory>
    ensures { OnOk result (text.new.items ≡ text.old.items ++ field_bytes 2 number) }
{
    text.extend_from_slice(&number.to_le_bytes())?;
    Ok(())
}

#[tactic(auto, unfolding(crate::specs::Writing::field_bytes))]
fn push_u32(text: &mut Vec<u8>, number: u32) -> Result<(), NoMemory>
    ensures { OnOk result (text.new.items ≡ text.old.items ++ field_bytes 4 number) }
{
    text.extend_from_slice(&number.to_le_bytes())?;
    Ok(())
}

#[tactic(auto, unfolding(crate::specs::Writing::field_bytes))]
fn push_u64(text: &mut Vec<u8>, number: u64) -> Result<(), NoMemory>
    ensures { OnOk result (text.new.items ≡ text.old.items ++ field_bytes 8 number) }
{
    text.extend_from_slice(&number.to_le_bytes())?;
    Ok(())
}

/// Appends a name of at most 255 bytes, after its length.
#[tactic(auto, unfolding(crate::specs::Writing::name_bytes))]
fn push_name(text: &mut Vec<u8>, name: &[u8]) -> Result<(), NoMemory>
    requires { length name.now ≤ 255 }
    ensures { OnOk result (text.new.items ≡ text.old.items ++ name_bytes name.now) }
{
    push_u16(text, name.len() as u16)?;
    text.extend_from_slice(name)?;
    Ok(())
}

/// Appends the header of an image of version 2.
#[tactic(auto, unfolding(crate::specs::Writing::header_bytes))]
fn push_header(text: &mut Vec<u8>, count: u32) -> Result<(), NoMemory>
    ensures { OnOk result (text.new.items ≡ text.old.items ++ header_bytes Two count) }
{
    text.extend_from_slice(MAGIC)?;
    push_u32(text, VERSION)?;
    push_u32(text, count)?;
    Ok(())
}

/// Appends the record of a memory, with its name.
#[tactic(auto, unfolding(crate::specs::Writing::object_record))]
fn push_object(text: &mut Vec<u8>, name: &[u8], memory: &Memory) -> Result<(), NoMemory>
    requires { length name.now ≤ 255 }
    ensures { OnOk result (text.new.items ≡ text.old.items ++ object_record memory.now.base (length memory.now.bytes) name.now) }
{
    push_u64(text, memory.base())?;
    push_u64(text, memory.len())?;
    push_name(text, name)?;
    Ok(())
}

/// Appends the bytes of a memory.
fn push_bytes(text: &mut Vec<u8>, memory: &Memory) -> Result<(), NoMemory>
    requires { length memory.now.bytes < 2 ^ 36 }
    ensures value { OnOk result (text.new.items ≡ text.old.items ++ memory.now.bytes) }
    ensures sound { IsMemory memory.now }
{
    let from = text.len();
    text.resize(from + memory.len() as usize, 0)?;
    memory.load_bytes(memory.base(), &mut text[from..]);
    Ok(())
}

/// A number of `i` bits, with one bit more above them.
fn with_bit(number: u8, i: u8, bit: bool) -> u8
    requires i { i < 8 }
    requires low { number < 2 ^ i }
    ensures { result ≡ number + from_bool bit * 2 ^ i }
{
    number + (u8::from(bit) << i)
}

/// The first tagged granule from an address on, where `next` is the one from there or from before.
#[tactic(auto, using(crate::proofs::TagBytes::first_is, crate::proofs::TagBytes::none_is))]
fn first_ahead(memory: &Memory, at: u64, next: Option<u64>) -> Option<u64>
    requires { IsAhead memory.now at next }
    ensures { IsFirst memory.now at result }
{
    match next {
        Some(granule) => {
            if granule < at {
                memory.tagged(at)
            } else {
                Some(granule)
            }
        }
        None => None,
    }
}

/// Whether a granule is tagged, where `next` is the first tagged one from there or from before, and then is the first
/// from there on.
#[tactic(auto, using(crate::proofs::TagBytes::tag_is, crate::proofs::TagBytes::no_tag_is, crate::proofs::TagBytes::first_is_ahead))]
fn take_tag(memory: &Memory, granule: u64, next: &mut Option<u64>) -> bool
    requires { IsAhead memory.now granule next.old }
    ensures tag { result ≡ is_tagged memory.now granule }
    ensures ahead { IsAhead memory.now granule next.new }
{
    let first = first_ahead(memory, granule, *next);
    *next = first;
    match first {
        Some(found) => found == granule,
        None => false,
    }
}

/// The tags of the eight granules from an address on.
#[tactic(auto, using(crate::proofs::TagBytes::tags_none, crate::proofs::TagBytes::tags_more, crate::proofs::TagBytes::tags_low, crate::proofs::TagBytes::still_ahead))]
fn take_byte(memory: &Memory, at: u64, next: &mut Option<u64>) -> u8
    requires fits { at + 128 ≤ 2 ^ 64 }
    requires ahead { IsAhead memory.now at next.old }
    ensures byte { result ≡ tag_byte memory.now at }
    ensures ahead { IsAhead memory.now (at + 128) next.new }
{
    let mut byte = 0;
    for i in 0..8 {
        let tag = take_tag(memory, at + 16 * u64::from(i), next);
        byte = with_bit(byte, i, tag);
    }
    byte
}

/// Appends the tags of a memory, eight granules to a byte.
#[tactic(auto, using(crate::proofs::TagBytes::tag_bytes_none, crate::proofs::TagBytes::tag_bytes_more, crate::proofs::TagBytes::first_is_ahead))]
fn push_tags(text: &mut Vec<u8>, memory: &Memory) -> Result<(), NoMemory>
    requires { memory.now.base + length memory.now.bytes ≤ 2 ^ 64 }
    ensures { OnOk result (text.new.items ≡ text.old.items ++ tag_bytes memory.now) }
{
    let base = memory.base();
    let mut next = memory.tagged(base);
    for j in 0..memory.len() / 128 {
        let byte = take_byte(memory, base + 128 * j, &mut next);
        text.push(byte)?;
    }
    Ok(())
}

/// How many words a memory has.
#[tactic(auto, using(crate::proofs::Counts::few_words))]
fn count_words(memory: &Memory) -> u32
    requires sound { IsMemory memory.now }
    requires size { length memory.now.bytes < 2 ^ 36 }
    ensures { result ≡ length memory.now.words }
{
    let mut count = 0;
    let mut words = WordWalk::new(memory);
    while let Some(_) = words.take() {
        count += 1;
    }
    count
}

/// Appends the record of a word.
#[tactic(auto, unfolding(crate::specs::Writing::word_bytes))]
fn push_word(text: &mut Vec<u8>, symbols: &[NameList], word: FoundWord) -> Result<(), NoMemory>
    requires few { length symbols.now ≤ 256 }
    requires short { All AreShort symbols.now }
    requires symbol { HasItsSymbol symbols.now word }
    ensures { OnOk result (text.new.items ≡ text.old.items ++ word_bytes (record_found symbols.now word)) }
{
    push_u64(text, word.granule)?;
    push_u16(text, word.note.owner as u16)?;
    let names = &symbols[word.note.owner as usize];
    push_name(text, names.name(word.note.symbol as usize))?;
    Ok(())
}

/// Appends the records of a memory's words: by owner, and in the order of their stores.
#[tactic(auto, using(crate::proofs::MemoryBytes::founds_more, crate::proofs::MemoryBytes::founds_none, crate::proofs::MemoryBytes::next_has, crate::proofs::MemoryBytes::rest_have))]
fn push_records(text: &mut Vec<u8>, symbols: &[NameList], memory: &Memory) -> Result<(), NoMemory>
    requires few { length symbols.now ≤ 256 }
    requires short { All AreShort symbols.now }
    requires sound { IsMemory memory.now }
    requires symbols { HaveSymbols symbols.now (founds_of memory.now.words) }
    ensures { OnOk result (text.new.items ≡ text.old.items ++ founds_bytes symbols.now (founds_of memory.now.words)) }
{
    let mut words = WordWalk::new(memory);
    while let Some(word) = words.take() {
        push_word(text, symbols, word)?;
    }
    Ok(())
}

/// Appends how many words a memory has, and their records.
#[tactic(auto, using(crate::proofs::MemoryBytes::words_are, crate::proofs::MemoryBytes::founds_have))]
fn push_words(text: &mut Vec<u8>, symbols: &[NameList], memory: &Memory) -> Result<(), NoMemory>
    requires few { length symbols.now ≤ 256 }
    requires short { All AreShort symbols.now }
    requires sound { IsMemory memory.now }
    requires writable { IsWritable symbols.now memory.now }
    ensures { OnOk result (text.new.items ≡ text.old.items ++ words_bytes Two (records_of symbols.now memory.now.words)) }
{
    push_u32(text, count_words(memory))?;
    push_records(text, symbols, memory)?;
    Ok(())
}

/// Appends what stands of a memory behind all records: its bytes, its tags and its word records.
#[tactic(auto, unfolding(crate::specs::MemoryParts::body_for))]
fn push_body(text: &mut Vec<u8>, symbols: &[NameList], memory: &Memory) -> Result<(), NoMemory>
    requires few { length symbols.now ≤ 256 }
    requires short { All AreShort symbols.now }
    requires end { memory.now.base + length memory.now.bytes ≤ 2 ^ 64 }
    requires writable { IsWritable symbols.now memory.now }
    ensures value { OnOk result (text.new.items ≡ text.old.items ++ body_for symbols.now memory.now) }
    ensures sound { OnOk result (IsMemory memory.now) }
{
    push_bytes(text, memory)?;
    push_tags(text, memory)?;
    push_words(text, symbols, memory)?;
    Ok(())
}

/// Appends the records of all memories.
#[tactic(auto, using(crate::proofs::MemoryBytes::records_none, crate::proofs::MemoryBytes::records_more))]
fn push_objects(text: &mut Vec<u8>, names: &NameList, memories: &[Memory]) -> Result<(), NoMemory>
    requires count { length names.now ≡ length memories.now }
    requires short { All IsObjectName names.now }
    ensures { OnOk result (text.new.items ≡ text.old.items ++ records_below names.now memories.now (length memories.now)) }
{
    for (i, memory) in memories.iter().enumerate() {
        push_object(text, names.name(i), memory)?;
    }
    Ok(())
}

/// Appends what stands of each memory behind all records.
#[tactic(auto, using(crate::proofs::MemoryBytes::bodies_none, crate::proofs::SoundMemories::none_sound))]
fn push_bodies(
    text: &mut Vec<u8>,
    symbols: &[NameList],
    memories: &[Memory],
) -> Result<(), NoMemory>
    requires few { length symbols.now ≤ 256 }
    requires short { All AreShort symbols.now }
    requires end { All EndsLow memories.now }
    requires writable { All (IsWritable symbols.now) memories.now }
    ensures value { OnOk result (text.new.items ≡ text.old.items ++ bodies_below symbols.now memories.now (length memories.now)) }
    ensures sound { OnOk result (All IsMemory memories.now) }
{
    for memory in memories {
        push_body(text, symbols, memory)?;
    }
    Ok(())
}

/// Writes the image of memories, of version 2: each with its name, and with the names of its symbols by their indices.
/// The records of a memory's words go by the owner of the word's capability, and those of one owner in the order of
/// their stores; each names the symbol that the word's note says, of the owner's symbols. Where the image is made, the
/// words of each memory are those of a tagged memory, which `reading_laws` asks for.
///
/// `NoMemory` comes where the machine refuses memory for the image.
#[tactic(auto, using(crate::proofs::MemoryBytes::image_is, crate::proofs::MemoryBytes::ends_low))]
pub fn write(
    alloc: Global,
    names: &NameList,
    symbols: &[NameList],
    memories: &[Memory],
) -> Result<Vec<u8>, NoMemory>
    requires { CanBeWritten names.now symbols.now memories.now }
    ensures value { IfOk result (λ bytes. bytes.items ≡ image_bytes (image_of names.now symbols.now memories.now)) }
    ensures sound { OnOk result (All IsMemory memories.now) }
{
    let size = image_size(names, symbols, memories).ok_or(NoMemory)?;
    let mut text = Vec::with_capacity(alloc, size)?;
    push_header(&mut text, memories.len() as u32)?;
    push_objects(&mut text, names, memories)?;
    push_bodies(&mut text, symbols, memories)?;
    Ok(text)
}

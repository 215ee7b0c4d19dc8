// Tagged memory: bytes, and for each granule a bit, an owner, a note and its links.
ghost use Rattle.std.specs.Prelude.{◌≡◌, ℕ, ◌+◌, ◌-◌, ◌*◌, ◌/◌, ◌%◌, ◌^◌, ◌<◌, ◌≤◌, length, IfOk, IfSome, MatchOption, true, false, option_map};
ghost use Rattle.std.specs.List.{replace_range};
ghost use Rattle.cap_mem.specs.Tagged.{fresh_memory, is_tagged, without_granule, entered, bytes_at, bytes_with, with_cap, with_bytes, without_touched, is_touched, list_of, first_granule, tagged_word, next_granule, first_tagged, word_in, word_bytes, IsInside, IsTaggedGranule, IsFirstTagged, NoneTagged};
ghost use Rattle.cap_mem.specs.Held.{HasStored, without_range, granule_of};
ghost use Rattle.cap_mem.specs.IsMemory.{IsMemory};

use crate::bits::{clear_bit, has_bit, next_bit, set_bit};
use crate::links::Links;
use byteorder::{ByteOrder, LittleEndian};
use cap_base::NoMemory;
use cap_conc::Word;
use cap_own::{Derived, Root};
use std::alloc::Global;
use std::marker::Model;

/// The most granules of a memory: their numbers and those of 257 marks are links of 32 bits.
const MOST_GRANULES: u64 = (1 << 32) - 257;

/// The object in which the definition of a tagged word stands, and the index of the symbol in its table.
#[derive(Clone, Copy, Debug, PartialEq, Eq)]
pub struct Note {
    pub owner: u32,
    pub symbol: u32,
}

/// The memory of one mapping, with a tag for each 16 bytes.
#[derive(Drop)]
pub struct Memory {
    base: u64,
    bytes: Vec<u8>,
    tags: Vec<u64>,
    owners: Vec<u32>,
    notes: Vec<u32>,
    links: Links,
}

impl Model for Memory {
    ghost use Rattle.cap_mem.specs.Tagged.{TaggedMemory};

    ghost Value = { TaggedMemory };

    ghost use Rattle.cap_mem.specs.MemoryFields.{memory_of, AreTables};

    ghost view = { memory_of };

    ghost invariant = { AreTables };
}

/// The first granule that doesn't begin below an address.
fn first_granule_from(base: u64, from: u64) -> u64
    requires { base % 16 ≡ 0 }
    ensures reaches { from ≤ base + 16 * result }
    ensures least { (g : ℕ) → from ≤ base + 16 * g → result ≤ g }
{
    if from <= base {
        return 0;
    }
    (from - base - 1) / 16 + 1
}

/// The first granule that has one of these bytes, and the one behind the last.
fn touched_granules(from: u64, len: u64) -> (u64, u64)
    requires some { 0 < len }
    requires end { from + len < 2 ^ 63 }
    ensures first { result.0 ≡ from / 16 }
    ensures end { result.1 ≡ (from + (len - 1)) / 16 + 1 }
{
    (from / 16, (from + (len - 1)) / 16 + 1)
}

/// The 16 bytes of a word.
fn bytes_of_word(word: Word) -> [u8; 16]
    ensures { result ≡ word_bytes word }
{
    let mut bytes = [0; 16];
    LittleEndian::write_u64(&mut bytes, word.address);
    LittleEndian::write_u64(&mut bytes[8..], word.meta);
    bytes
}

/// The bytes from a place on become others.
fn copy_in(bytes: &mut Vec<u8>, from: usize, source: &[u8])
    requires { from + length source.now ≤ length bytes.old.items }
    ensures { bytes.new.items ≡ replace_range bytes.old.items from (from + length source.now) source.now }
{
    let end = from + source.len();
    bytes[from..end].copy_from_slice(source);
}

impl Memory {
    /// The memory of a mapping: zeros, without a tag. `NoMemory` comes where the machine refuses memory, and where the
    /// mapping has more than 2^32 - 257 granules.
    pub fn map(alloc: Global, root: &Root) -> Result<Memory, NoMemory>
        requires base { root.now.base % 4096 ≡ 0 }
        requires len { root.now.len % 4096 ≡ 0 }
        ensures { IfOk result (λ m. m ≡ fresh_memory root.now.base root.now.len) }
    {
        let base = root.base();
        let len = root.len();
        if len / 16 > MOST_GRANULES {
            return Err(NoMemory);
        }
        let size = (len / 16) as u32;
        let bytes = vec![in alloc; 0u8; len as usize]?;
        let tags = vec![in alloc; 0u64; size as usize / 64 + 1]?;
        let owners = vec![in alloc; 0u32; size as usize]?;
        let notes = vec![in alloc; 0u32; size as usize]?;
        let links = Links::new(alloc, size)?;
        Ok(Memory {
            base,
            bytes,
            tags,
            owners,
            notes,
            links,
        })
    }

    /// The address of the first byte.
    pub fn base(&self) -> u64
        ensures { result ≡ self.now.base }
    {
        self.base
    }

    /// The number of bytes.
    pub fn len(&self) -> u64
        ensures value { result ≡ length self.now.bytes }
        ensures sound { IsMemory self.now }
    {
        self.bytes.len() as u64
    }

    /// Copies the bytes from an address on.
    pub fn load_bytes(&self, at: u64, buf: &mut [u8])
        requires { IsInside self.now at (length buf.old) }
        ensures { buf.new ≡ bytes_at self.now at (length buf.old) }
    {
        let from = (at - self.base) as usize;
        let end = from + buf.len();
        buf.copy_from_slice(&self.bytes[from..end]);
    }

    /// Stores bytes. Each granule that they touch loses its tag, and leaves the list of its owner.
    pub fn store_bytes(&mut self, at: u64, bytes: &[u8])
        requires { IsInside self.old at (length bytes.now) }
        ensures { self.new ≡ with_bytes self.old at bytes.now }
    {
        self.clear(at, bytes.len());
        self.put(at, bytes);
    }

    /// Stores the word of a capability at a granule, which gets a tag and comes last in the list of the capability's
    /// owner.
    pub fn store_cap(&mut self, at: u64, cap: Derived<'_>, note: u32)
        requires aligned { at % 16 ≡ 0 }
        requires inside { IsInside self.old at 16 }
        requires owner { cap.cap.owner < 256 }
        ensures { self.new ≡ with_cap self.old at cap.entry.cap note }
    {
        let g = (at - self.base) / 16;
        self.untag(g);
        self.put(at, &bytes_of_word(cap.word()));
        self.tag(g, &cap, note);
    }

    /// The word at a granule, and whether it is tagged.
    pub fn word_at(&self, at: u64) -> (Word, bool)
        requires aligned { at % 16 ≡ 0 }
        requires inside { IsInside self.now at 16 }
        ensures word { result.0 ≡ word_in self.now.bytes (at - self.now.base) }
        ensures tag { result.1 ≡ is_tagged self.now at }
    {
        (self.word(at), self.has_tag(at))
    }

    /// The first tagged granule that isn't below an address.
    pub fn tagged(&self, from: u64) -> Option<u64>
        ensures first { result ≡ first_tagged self.now from }
        ensures least { MatchOption result (NoneTagged self.now from) (λ g. IsFirstTagged self.now from g) }
        ensures granule { IfSome result (λ g. IsTaggedGranule self.now g) }
    {
        let start = first_granule_from(self.base, from);
        match next_bit(&self.tags, start) {
            Some(g) => Some(self.base + g * 16),
            None => None,
        }
    }

    /// The owner and the note of a tagged granule; None where it isn't tagged.
    pub fn note_at(&self, at: u64) -> Option<Note>
        requires aligned { at % 16 ≡ 0 }
        requires inside { IsInside self.now at 16 }
        ensures { result ≡ option_map (λ w. record { owner = w.cap.owner; symbol = w.note }) (tagged_word self.now at) }
    {
        let g = (at - self.base) / 16;
        if has_bit(&self.tags, g) {
            Some(Note {
                owner: self.owners[g as usize],
                symbol: self.notes[g as usize],
            })
        } else {
            None
        }
    }

    /// The granule of an owner that was stored first.
    pub fn first_of(&self, owner: u32) -> Option<u64>
        ensures value { result ≡ first_granule (list_of self.now owner) }
        ensures granule { IfSome result (λ g. IsTaggedGranule self.now g) }
    {
        let size = (self.bytes.len() / 16) as u32;
        if owner >= 256 {
            return None;
        }
        self.granule_at(self.links.after(size + owner))
    }

    /// The granule that follows a tagged one in the list of its owner.
    pub fn next_of(&self, at: u64) -> Option<u64>
        requires { is_tagged self.now at ≡ true }
        ensures value { result ≡ next_granule self.now at }
        ensures granule { IfSome result (λ g. IsTaggedGranule self.now g) }
    {
        let g = ((at - self.base) / 16) as u32;
        self.granule_at(self.links.after(g))
    }

    /// The address of the granule of that number, if there is one.
    fn granule_at(&self, g: u32) -> Option<u64>
        ensures { result ≡ granule_of self.now g }
    {
        if (g as usize) < self.bytes.len() / 16 {
            Some(self.base + 16 * g as u64)
        } else {
            None
        }
    }

    fn word(&self, at: u64) -> Word
        requires { IsInside self.now at 16 }
        ensures { result ≡ word_in self.now.bytes (at - self.now.base) }
    {
        let from = (at - self.base) as usize;
        Word {
            address: LittleEndian::read_u64(&self.bytes[from..]),
            meta: LittleEndian::read_u64(&self.bytes[from + 8..]),
        }
    }

    fn has_tag(&self, at: u64) -> bool
        requires aligned { at % 16 ≡ 0 }
        requires inside { IsInside self.now at 16 }
        ensures { result ≡ is_tagged self.now at }
    {
        has_bit(&self.tags, (at - self.base) / 16)
    }

    /// The bytes alone, where no tagged granule has any of them.
    fn put(&mut self, at: u64, bytes: &[u8])
        requires inside { IsInside self.old at (length bytes.now) }
        requires untagged { (a : ℕ) → is_touched at (length bytes.now) a ≡ true → is_tagged self.old a ≡ false }
        ensures { self.new ≡ record self.old { bytes = bytes_with self.old at bytes.now } }
    {
        copy_in(&mut self.bytes, (at - self.base) as usize, bytes);
    }

    /// The granules of which a store takes a byte lose their tags.
    fn clear(&mut self, at: u64, len: usize)
        requires { IsInside self.old at len }
        ensures { self.new ≡ record self.old { words = without_touched at len self.old.words } }
    {
        if len > 0 {
            let touched = touched_granules(at - self.base, len as u64);
            self.clear_range(touched.0, touched.1);
        }
    }

    /// The granules from one up to another lose their tags.
    fn clear_range(&mut self, first: u64, end: u64)
        requires order { first ≤ end }
        requires inside { 16 * end ≤ length self.old.bytes }
        ensures { self.new ≡ record self.old { words = without_range self.old.base first (end - first) self.old.words } }
    {
        for g in first..end {
            self.untag(g);
        }
    }

    /// The granule loses its tag, and leaves the list that it is in.
    fn untag(&mut self, g: u64)
        requires { 16 * g < length self.old.bytes }
        ensures { self.new ≡ record self.old { words = without_granule (self.old.base + 16 * g) self.old.words } }
    {
        if has_bit(&self.tags, g) {
            clear_bit(&mut self.tags, g);
            self.links.unlink(g as u32);
        }
    }

    /// The granule, which holds the word of the capability, gets a tag, and comes last in the list of the owner.
    fn tag(&mut self, g: u64, cap: &Derived<'_>, note: u32)
        requires below { 16 * g < length self.old.bytes }
        requires owner { cap.now.cap.owner < 256 }
        requires out { is_tagged self.old (self.old.base + 16 * g) ≡ false }
        requires stored { HasStored self.old.bytes (16 * g) cap.now.cap }
        ensures { self.new ≡ record self.old { words = entered self.old.words (record { granule = self.old.base + 16 * g; cap = cap.now.cap; note = note }) } }
    {
        let owner = cap.owner();
        set_bit(&mut self.tags, g);
        self.owners[g as usize] = owner;
        self.notes[g as usize] = note;
        self.links.append(owner, g as u32);
    }
}

//! One object of an image.

use cap_base::NoMemory;
use cap_image::{Image, entries_of, has_tag};
use std::alloc::Global;
use std::marker::Model;

const GRANULE: usize = 16;

/// One object of an image, with a table that leads from a granule to its word record. Contracts see the object.
#[derive(Drop)]
pub(crate) struct Object<'a> {
    image: &'a Image,
    number: u32,
    entries: Vec<Option<u32>>,
}

impl<'a> Model for Object<'a> {
    ghost use Rattle.cap_image.specs.Parts.{ImageObject};
    ghost use Rattle.cap_audit.specs.ObjectFields.{object_in, IsObjectIn};

    ghost Value = { ImageObject };

    ghost view = { object_in };

    ghost invariant = { IsObjectIn };
}

impl<'a> Object<'a> {
    ghost use Rattle.std.specs.Prelude.{◌≡◌, ◌*◌, ◌/◌, ◌<◌, length, slice_index_or, IfOk};
    ghost use Rattle.cap_image.specs.Parts.{IsObject, no_word};
    ghost use Rattle.cap_image.specs.Records.{piece};
    ghost use Rattle.cap_image.specs.Entries.{numbered, IsNumber};
    ghost use Rattle.cap_audit.specs.Findings.{object_at, tag_of, bytes_of, record_of};

    /// Object `number` of an image.
    pub(crate) fn new(alloc: Global, image: &'a Image, number: u32) -> Result<Object<'a>, NoMemory>
        requires { number < length image.now.objects }
        ensures { IfOk result (λ o. o ≡ object_at image.now number) }
    {
        let entries = entries_of(alloc, image, number)?;
        Ok(Object {
            image,
            number,
            entries,
        })
    }

    /// The address from which it is mapped.
    pub(crate) fn base(&self) -> u64
        ensures value { result ≡ self.now.base }
        ensures sound { IsObject self.now }
    {
        self.image.base(self.number)
    }

    fn bytes(&self) -> &[u8]
        ensures { result.now ≡ self.now.bytes }
    {
        self.image.bytes(self.number)
    }

    /// A byte for eight granules.
    pub(crate) fn tags(&self) -> &[u8]
        ensures value { result.now ≡ self.now.tags }
        ensures sound { IsObject self.now }
    {
        let _sound = self.base();
        self.image.tags(self.number)
    }

    /// The bytes of the eight granules that share tag byte `j`.
    pub(crate) fn eight(&self, j: usize) -> &[u8]
        requires { j < length self.now.tags }
        ensures { result.now ≡ piece self.now.bytes (128 * j) 128 }
    {
        let _sound = self.base();
        let at = 8 * GRANULE * j;
        &self.bytes()[at..at + 8 * GRANULE]
    }

    /// Whether granule `n` is tagged.
    pub(crate) fn tag(&self, n: usize) -> bool
        requires { n < length self.now.bytes / 16 }
        ensures { result ≡ tag_of self.now n }
    {
        has_tag(self.tags(), (GRANULE * n) as u64)
    }

    /// The bytes of granule `n`.
    pub(crate) fn granule(&self, n: usize) -> &[u8]
        requires { n < length self.now.bytes / 16 }
        ensures { result.now ≡ bytes_of self.now n }
    {
        let _sound = self.base();
        let at = GRANULE * n;
        &self.bytes()[at..at + GRANULE]
    }

    /// The number of the word record of granule `n`.
    pub(crate) fn entry(&self, n: usize) -> Option<u32>
        requires { n < length self.now.bytes / 16 }
        ensures value { numbered self.now result ≡ record_of self.now n }
        ensures inside { IsNumber self.now result }
    {
        self.entries[n]
    }

    /// The owner in word record `k`.
    pub(crate) fn owner(&self, k: u32) -> u16
        requires { k < length self.now.words }
        ensures { result ≡ (slice_index_or self.now.words k no_word).owner }
    {
        self.image.word(self.number, k).owner
    }

    /// The name in word record `k`.
    pub(crate) fn word_name(&self, k: u32) -> &[u8]
        requires { k < length self.now.words }
        ensures { result.now ≡ (slice_index_or self.now.words k no_word).name }
    {
        self.image.word_name(self.number, k)
    }
}

//! An image that was read.

ghost use Rattle.cap_base.specs.Steps.{Gives, Reads};
ghost use Rattle.std.specs.Prelude.{◌≡◌, IfOk};
ghost use Rattle.cap_image.specs.Parts.{IsImage, is_tagged_in};
ghost use Rattle.cap_image.specs.Bodies.{IsInside, object_in};
ghost use Rattle.cap_image.specs.Reading.{read_image};

use crate::bodies::{Body, read_bodies};
use crate::header::{Version, read_header};
use crate::records::{piece, read_records};
use crate::tags::has_tag;
use crate::words::WordNote;
use cap_base::{Check, Refusal, Stop, refuse};
use std::alloc::Global;
use std::marker::Model;

/// An image that was read: its version, and objects in ascending order.
#[derive(Drop)]
pub struct Image {
    version: Version,
    bytes: Vec<u8>,
    bodies: Vec<Body>,
}

impl Model for Image {
    ghost use Rattle.std.specs.Prelude.{All};
    ghost use Rattle.cap_image.specs.Parts.{ImageParts, IsImage};
    ghost use Rattle.cap_image.specs.Bodies.{IsInside};
    ghost use Rattle.cap_image.specs.Reading.{parts_in};

    ghost Value = { ImageParts };

    ghost view = { λ i. parts_in i.bytes.items i.version i.bodies.items };

    ghost invariant = { λ i. IsImage (parts_in i.bytes.items i.version i.bodies.items) × All (IsInside i.bytes.items) i.bodies.items };
}

impl Image {
    ghost use Rattle.std.specs.Prelude.{◌≡◌, ◌<◌, ◌==◌, length, slice_index_or};
    ghost use Rattle.cap_image.specs.Parts.{IsObject, IsWord, no_object, no_word, tag_in};

    /// The version of the image's format.
    pub fn version(&self) -> Version
        ensures { result ≡ self.now.version }
    {
        self.version
    }

    /// How many objects there are.
    pub fn len(&self) -> u32
        ensures value { result ≡ length self.now.objects }
        ensures sound { IsImage self.now }
    {
        self.bodies.len() as u32
    }

    /// Whether there are none.
    pub fn is_empty(&self) -> bool
        ensures { result ≡ (length self.now.objects == 0) }
    {
        self.bodies.is_empty()
    }

    /// The address from which object `i` is mapped.
    pub fn base(&self, i: u32) -> u64
        requires { i < length self.now.objects }
        ensures value { result ≡ (slice_index_or self.now.objects i no_object).base }
        ensures sound { IsObject (slice_index_or self.now.objects i no_object) }
    {
        self.bodies[i as usize].of.base
    }

    /// How many bytes are mapped of object `i`.
    pub fn size(&self, i: u32) -> u64
        requires { i < length self.now.objects }
        ensures { result ≡ length (slice_index_or self.now.objects i no_object).bytes }
    {
        self.bodies[i as usize].of.size
    }

    /// The name of object `i`.
    pub fn name(&self, i: u32) -> &[u8]
        requires { i < length self.now.objects }
        ensures { result.now ≡ (slice_index_or self.now.objects i no_object).name }
    {
        let body = &self.bodies[i as usize];
        piece(&self.bytes, body.of.name_at, body.of.name_len)
    }

    /// The bytes of object `i`.
    pub fn bytes(&self, i: u32) -> &[u8]
        requires { i < length self.now.objects }
        ensures { result.now ≡ (slice_index_or self.now.objects i no_object).bytes }
    {
        let body = &self.bodies[i as usize];
        piece(&self.bytes, body.bytes_at, body.of.size as usize)
    }

    /// The tags of object `i`.
    pub fn tags(&self, i: u32) -> &[u8]
        requires { i < length self.now.objects }
        ensures { result.now ≡ (slice_index_or self.now.objects i no_object).tags }
    {
        let body = &self.bodies[i as usize];
        let size = body.of.size as usize;
        piece(&self.bytes, body.bytes_at + size, size / 128)
    }

    /// How many word records object `i` has: one for each tagged granule, or none in version 1.
    pub fn words_len(&self, i: u32) -> u32
        requires { i < length self.now.objects }
        ensures { result ≡ length (slice_index_or self.now.objects i no_object).words }
    {
        self.bodies[i as usize].words.len() as u32
    }

    /// Word record `k` of object `i`. They stand in ascending order of owners.
    pub fn word(&self, i: u32, k: u32) -> WordNote
        requires object { i < length self.now.objects }
        requires word { k < length (slice_index_or self.now.objects i no_object).words }
        ensures granule { result.granule ≡ (slice_index_or (slice_index_or self.now.objects i no_object).words k no_word).granule }
        ensures owner { result.owner ≡ (slice_index_or (slice_index_or self.now.objects i no_object).words k no_word).owner }
        ensures sound { IsWord (length self.now.objects) (slice_index_or self.now.objects i no_object).base (length (slice_index_or self.now.objects i no_object).bytes) (slice_index_or self.now.objects i no_object).tags (slice_index_or (slice_index_or self.now.objects i no_object).words k no_word) }
    {
        let place = self.bodies[i as usize].words[k as usize];
        WordNote {
            granule: place.granule,
            owner: place.owner,
        }
    }

    /// The name of the symbol that word `k` of object `i` is made from; it may be empty.
    pub fn word_name(&self, i: u32, k: u32) -> &[u8]
        requires object { i < length self.now.objects }
        requires word { k < length (slice_index_or self.now.objects i no_object).words }
        ensures { result.now ≡ (slice_index_or (slice_index_or self.now.objects i no_object).words k no_word).name }
    {
        let place = self.bodies[i as usize].words[k as usize];
        piece(&self.bytes, place.name_at, usize::from(place.name_len))
    }

    /// The tag of the granule that holds the address; false outside the mappings.
    #[tactic(auto, using(crate::proofs::Searches::any_map, crate::proofs::Searches::any_skip, crate::proofs::Searches::any_hit, crate::proofs::Searches::any_none))]
    pub fn tag(&self, at: u64) -> bool
        ensures { result ≡ tag_in self.now at }
    {
        for body in &self.bodies {
            if is_tagged(&self.bytes, body, at) {
                return true;
            }
        }
        false
    }
}

/// Whether the object holds the address, and its granule is tagged.
fn is_tagged(bytes: &[u8], body: &Body, at: u64) -> bool
    requires { IsInside bytes.now body.now }
    ensures { result ≡ is_tagged_in at (object_in bytes.now body.now) }
{
    let size = body.of.size as usize;
    let tags = piece(bytes, body.bytes_at + size, size / 128);
    body.of.base <= at && at - body.of.base < body.of.size && has_tag(tags, at - body.of.base)
}

/// Reads an image.
///
/// The refusal names file 0, and is that of the first check which the bytes fail, in the order of the format: the
/// header, each record, each body, and that nothing follows. `NoMemory` may come in place of any answer.
#[tactic(auto, using(cap_base::proofs::Walk::refuses))]
pub fn read(alloc: Global, bytes: Vec<u8>) -> Result<Image, Refusal>
    ensures value { Reads (λ image. image) 0 result (read_image bytes.items) }
    ensures sound { IfOk result IsImage }
{
    match read_parts(alloc, bytes) {
        Ok(image) => Ok(image),
        Err(stop) => Err(stop.refusal(0)),
    }
}

#[tactic(auto, unfolding(crate::specs::Reading::read_image), using(crate::proofs::Sound::is_image))]
fn read_parts(alloc: Global, bytes: Vec<u8>) -> Result<Image, Stop>
    ensures value { Gives (λ image. image) result (read_image bytes.items) }
    ensures sound { IfOk result IsImage }
{
    let header = read_header(&bytes)?;
    let records = read_records(alloc, &bytes, header.count)?;
    let bodies = read_bodies(
        alloc,
        header.version,
        &bytes,
        header.count,
        &records.items,
        records.at,
    )?;
    refuse(bodies.at < bytes.len(), Check::ImageTail, bodies.at as u64)?;
    Ok(Image {
        version: header.version,
        bytes,
        bodies: bodies.items,
    })
}

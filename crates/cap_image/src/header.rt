//! The header of an image.

ghost use Rattle.std.specs.Prelude.{◌≡◌, ◌≤◌, ◌+◌, length, OnOk, IfOk};
ghost use Rattle.cap_image.specs.Header.{reaches, version_of, header_of};

use cap_base::{Check, Fault, is_inside, refuse, u32_in};

pub(crate) const MAGIC: &[u8] = b"PURECAPI";

const MAX_OBJECTS: u32 = 256;

/// The version of an image's format.
#[derive(Clone, Copy, Debug, PartialEq, Eq)]
pub enum Version {
    /// Bytes and tags.
    One,
    /// Bytes, tags, and a record for each tagged word.
    Two,
}

/// The version of an image, and how many objects it has.
#[derive(Clone, Copy)]
pub(crate) struct Header {
    pub(crate) version: Version,
    pub(crate) count: u32,
}

/// Reads the header, which is the image's first 16 bytes.
#[tactic(auto, unfolding(crate::specs::Header::header_of))]
pub(crate) fn read_header(bytes: &[u8]) -> Result<Header, Fault>
    ensures value { result ≡ header_of bytes.now }
    ensures few { IfOk result (λ header. header.count ≤ 256) }
{
    reach(bytes, 0, 8)?;
    refuse(&bytes[..8] != MAGIC, Check::ImageMagic, 0)?;
    reach(bytes, 8, 4)?;
    let version = version_numbered(u32_in(bytes, 8))?;
    reach(bytes, 12, 4)?;
    let count = u32_in(bytes, 12);
    refuse(count > MAX_OBJECTS, Check::ImageObjects, 12)?;
    Ok(Header { version, count })
}

fn version_numbered(number: u32) -> Result<Version, Fault>
    ensures { result ≡ version_of number }
{
    match number {
        1 => Ok(Version::One),
        2 => Ok(Version::Two),
        _ => Err(Fault {
            check: Check::ImageVersion,
            at: 8,
        }),
    }
}

/// Refuses an image that ends before the end of a field.
pub(crate) fn reach(bytes: &[u8], at: usize, size: u64) -> Result<(), Fault>
    ensures value { result ≡ reaches bytes.now (at + size) }
    ensures inside { OnOk result (at + size ≤ length bytes.now) }
{
    let len = bytes.len() as u64;
    refuse(!is_inside(at as u64, size, len), Check::ImageEnd, len)
}

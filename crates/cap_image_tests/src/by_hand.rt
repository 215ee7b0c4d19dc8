//! An image by the format.

use cap_base::NoMemory;
use std::alloc::Global;

/// The parts that aren't zeros, and how many zeros follow each.
const PARTS: [(&[u8], usize); 4] = [
    // the header, and the record of the one object
    (
        b"PURECAPI\x02\0\0\0\x01\0\0\0\0\0\0\x40\0\0\0\0\0\x10\0\0\0\0\0\0\x03\0app",
        0,
    ),
    // a page with a capability in its first granule
    (b"\0\x01\0\x40\0\0\0\0\x04\x81\x45\x04\0\0\x15\0", 4096 - 16),
    // the tags
    (b"\x01", 31),
    // one word record
    (b"\x01\0\0\0\0\0\0\x40\0\0\0\0\0\0\x05\0count", 0),
];

fn push_zeros(bytes: &mut Vec<u8>, count: usize) -> Result<(), NoMemory> {
    for _ in 0..count {
        bytes.push(0)?;
    }
    Ok(())
}

/// The image of a page that holds a capability.
pub(crate) fn image_by_hand(alloc: Global) -> Result<Vec<u8>, NoMemory> {
    let mut bytes = Vec::new(alloc);
    for &(part, zeros) in &PARTS {
        bytes.extend_from_slice(part)?;
        push_zeros(&mut bytes, zeros)?;
    }
    Ok(bytes)
}

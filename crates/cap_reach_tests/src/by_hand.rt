//! An image by the format.

use cap_base::NoMemory;
use std::alloc::Global;

/// A capability to read the 16 bytes from 0x40000100 on.
const WORD: &[u8] = b"\0\x01\0\x40\0\0\0\0\x04\x81\x45\x04\0\0\x15\0";

/// The parts that aren't zeros, and how many zeros follow each.
const PARTS: [(&[u8], usize); 5] = [
    // the header of an image of version 1, and the record of the one object
    (
        b"PURECAPI\x01\0\0\0\x01\0\0\0\0\0\0\x40\0\0\0\0\0\x10\0\0\0\0\0\0\x03\0app",
        0,
    ),
    // a page with the capability in its first granule, in the granule that it covers, and behind that
    (WORD, 0x100 - 16),
    (WORD, 0),
    (WORD, 0x1000 - 0x120),
    // the tags of the granules 0, 16 and 17
    (b"\x01\0\x03", 29),
];

fn push_zeros(bytes: &mut Vec<u8>, count: usize) -> Result<(), NoMemory> {
    for _ in 0..count {
        bytes.push(0)?;
    }
    Ok(())
}

/// The image of a page with three words, of which each loads the second.
pub(crate) fn image_by_hand(alloc: Global) -> Result<Vec<u8>, NoMemory> {
    let mut bytes = Vec::new(alloc);
    for &(part, zeros) in &PARTS {
        bytes.extend_from_slice(part)?;
        push_zeros(&mut bytes, zeros)?;
    }
    Ok(bytes)
}

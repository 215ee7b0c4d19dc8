//! Objects beside those of a plain model of the demonstration, by their lengths and checksums.

use crate::*;
use cap_base::NoMemory;
use std::alloc::Global;
use std::test::Fail;

// The length and the checksum of an object.
type Sum = (usize, u64);

static OF_0: [Sum; 8] = [
    (295_504, 0x87b9_e2c7_e896_210c),
    (280_672, 0x359c_5aa4_7b40_5e91),
    (295_696, 0xa539_cab5_2f7e_aa39),
    (314_096, 0x8415_ef2f_b0c9_942f),
    (297_664, 0xbb3d_acfd_a413_089e),
    (293_456, 0xa773_bcef_edfd_7cb6),
    (306_080, 0x0bae_5ff8_a82f_6d5d),
    (281_936, 0xf553_3ed5_57b2_b9aa),
];

static OF_1: [Sum; 8] = [
    (307_904, 0xf636_a9cf_e926_3a20),
    (295_616, 0x22a1_7e10_f340_7edf),
    (292_240, 0x9f70_fd84_1b3b_692b),
    (254_768, 0xfbd2_046c_1345_499a),
    (309_456, 0x2e09_7e23_8482_5faf),
    (272_016, 0xa746_f2f1_832f_30e1),
    (306_720, 0xf443_1eb6_3721_692a),
    (280_048, 0x9284_a1ab_39ae_9548),
];

static OF_THE_LARGEST: [Sum; 8] = [
    (313_648, 0x055a_0308_9ee5_c323),
    (267_760, 0x9102_6e11_600d_503d),
    (274_576, 0x14ed_f415_57b6_9ba1),
    (313_056, 0xa532_46fb_99d6_e96a),
    (289_200, 0xf55c_f8c2_31b3_9499),
    (326_912, 0x1491_f8e9_51fa_1020),
    (272_016, 0x0b29_ea1b_e754_7e31),
    (315_696, 0x8640_7408_a284_92fa),
];

// The bytes as the digits of a number in base 257, modulo 2^64.
fn checksum(bytes: &[u8]) -> u64 {
    let mut sum = 0u64;
    for byte in bytes {
        sum = sum.wrapping_mul(257).wrapping_add(u64::from(*byte));
    }
    sum
}

fn is_next(
    alloc: Global,
    numbers: &mut Numbers,
    number: u32,
    (length, sum): Sum,
) -> Result<bool, NoMemory> {
    let file = object(alloc, numbers, number)?;
    Ok(file.len() == length && checksum(&file) == sum)
}

// Whether the objects of a number are these.
fn are(alloc: Global, number: u32, sums: &[Sum; 8]) -> Result<bool, NoMemory> {
    let mut numbers = Numbers::new(number);
    for i in 0..8 {
        if !is_next(alloc, &mut numbers, i, sums[i as usize])? {
            return Ok(false);
        }
    }
    Ok(true)
}

#[test]
fn objects_are_as_in_the_model(rt: HostRuntime) -> Result<(), Fail> {
    assert!(rt; are(rt.alloc(), 0, &OF_0)?);
    assert!(rt; are(rt.alloc(), 1, &OF_1)?);
    assert!(rt; are(rt.alloc(), u32::MAX, &OF_THE_LARGEST)?);
    Ok(())
}

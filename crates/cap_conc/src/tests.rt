ghost use Rattle.std.specs.Prelude.{◌≡◌, ◌+◌, ◌^◌, ◌<◌, ◌≤◌};

use super::*;
use std::process::Abort;

const DATA: u16 = 0x7D;

const UNSEALED: u32 = 262_143;

const SENTRY: u32 = 262_142;

/// The word decodes to the bounds and the other fields, and is what they encode to.
fn expect_word(rt: &impl Abort, word: Word, base: u64, len: u64, perms: u16, flag: bool, otype: u32)
    requires end { base + len ≤ 2 ^ 64 }
    requires from_base { base ≤ word.address }
    requires to_top { word.address ≤ base + len }
    requires object_type { otype < 2 ^ 18 }
{
    assert!(rt; exact(base, len));
    assert_eq!(rt; encode(base, len, word.address, perms, flag, otype), word);
    assert_eq!(rt;
        decode(word),
        Fields {
            base,
            top: u128::from(base) + u128::from(len),
            cursor: word.address,
            perms,
            flag,
            otype,
        }
    );
}

fn word(address: u64, meta: u64) -> Word
    ensures { result.address ≡ address }
{
    Word { address, meta }
}

#[test]
fn known_words_have_their_fields(rt: HostRuntime) {
    let w = word(0x4001_0000, 0x007D_0000_0001_8005);
    expect_word(&rt, w, 0x4001_0000, 8192, DATA, false, UNSEALED);
    let w = word(0x4000_3001, 0x007D_0000_0401_B005);
    expect_word(&rt, w, 0x4000_3001, 4095, DATA, false, UNSEALED);
    let w = word(0x4000_3008, 0x007D_0000_0003_B00C);
    expect_word(&rt, w, 0x4000_3008, 4096, DATA, false, UNSEALED);
    let w = word(0x4000_3020, 0x007D_0000_0409_B004);
    expect_word(&rt, w, 0x4000_3000, 32, DATA, false, UNSEALED);
    let w = word(0x4000_1004, 0x0017_2000_0801_8005);
    expect_word(&rt, w, 0x4000_0000, 0x2000, 0x17, true, SENTRY);
    let w = word(0x4000_0100, 0x0015_0000_0445_8104);
    expect_word(&rt, w, 0x4000_0100, 16, 0x15, false, UNSEALED);
    assert!(rt; !exact(0x4000_3004, 4096));
}

#[test]
fn null_has_the_whole_address_space(rt: HostRuntime) {
    let null = Fields {
        base: 0,
        top: 1 << 64,
        cursor: 0,
        perms: 0,
        flag: false,
        otype: UNSEALED,
    };
    assert_eq!(rt; decode(word(0, 0)), null);
}

#[test]
fn lengths_round_up(rt: HostRuntime) {
    let rows: [(u64, u64, u64); 6] = [
        (0, 0, 1),
        (4095, 4095, 1),
        (4096, 4096, 8),
        (8191, 8192, 16),
        (8192, 8192, 16),
        (1 << 63, 1 << 63, 1 << 54),
    ];
    for (len, length, alignment) in rows {
        assert!(rt; len <= 1 << 63);
        assert_eq!(rt; repr_len(len), length);
        assert_eq!(rt; repr_align(len), alignment);
    }
}

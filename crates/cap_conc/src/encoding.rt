ghost use Rattle.std.specs.Prelude.{true, ◌≡◌, ◌+◌, ◌^◌, ◌<◌, ◌≤◌};
ghost use Rattle.cap_conc.specs.Encoding.{compressed, fields_with, word_of};
ghost use Rattle.cap_conc.specs.Decoding.{DecodesTo};
ghost use Rattle.cap_conc.specs.Computed.{fields_of, is_exact};

use crate::decoding::NULL_PATTERN;
use crate::word::Word;

/// The word, as memory holds it, of a capability with exact bounds: `len` addresses from `base` on.
///
/// It is the encoding of the CHERI instruction-set architecture, version 9. The reserved bits are 0. The conditions are
/// those of `exact`, and that the cursor lies within the bounds or at their end; `decode` gives all of it back.
#[tactic(auto, unfolding(crate::specs::Encoding::word_of))]
pub fn encode(base: u64, len: u64, cursor: u64, perms: u16, flag: bool, otype: u32) -> Word
    requires exact { is_exact base len ≡ true }
    requires end { base + len ≤ 2 ^ 64 }
    requires from_base { base ≤ cursor }
    requires to_top { cursor ≤ base + len }
    requires object_type { otype < 2 ^ 18 }
    ensures word { result ≡ word_of base len cursor perms flag otype }
    ensures decodes { DecodesTo result (fields_with base len cursor perms flag otype) }
    ensures fields { fields_of result ≡ fields_with base len cursor perms flag otype }
{
    let meta = (u64::from(perms) << 48)
        + (u64::from(flag) << 45)
        + (u64::from(otype) << 27)
        + compress(base, len);
    Word {
        address: cursor,
        meta: meta ^ NULL_PATTERN,
    }
}

/// The bits of the internal exponent and of both mantissas.
fn compress(base: u64, len: u64) -> u64
    requires { is_exact base len ≡ true }
    ensures bounds { result ≡ compressed base len }
    ensures small { result < 2 ^ 27 }
{
    let end = u128::from(base) + u128::from(len);
    if len < 4096 {
        (((end & 0xFFF) as u64) << 14) + (base & 0x3FFF)
    } else {
        let exponent = len.ilog2() - 12;
        let top = ((end >> exponent) & 0xFFF) as u64 + u64::from(exponent >> 3);
        (1 << 26) + (top << 14) + ((base >> exponent) & 0x3FFF) + u64::from(exponent & 7)
    }
}

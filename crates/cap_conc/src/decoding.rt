ghost use Rattle.std.specs.Prelude.{◌≡◌, ◌+◌, ◌*◌, ◌^◌, ◌<◌, ◌≤◌};
ghost use Rattle.cap_conc.specs.Metadata.{exponent_of, bottom_of, top_of, restored_top};
ghost use Rattle.cap_conc.specs.Bounds.{IsRegion, IsMeant, corrected_top};
ghost use Rattle.cap_conc.specs.Decoding.{DecodesTo};
ghost use Rattle.cap_conc.specs.Computed.{fields_of};
ghost use Rattle.cap_conc.specs.declared.word.Fields.{Fields};

use crate::word::{Fields, Word};

/// Stored metadata XORed with this pattern is architectural metadata, so that the null capability is stored as zeros.
pub(crate) const NULL_PATTERN: u64 = 0x0000_1FFF_FC01_8004;

/// The exponent and the two mantissas of the bounds.
#[derive(Clone, Copy)]
struct Mantissas {
    exponent: u32,
    bottom: u64,
    top: u64,
}

/// The fields of a capability word, by the CHERI instruction-set architecture, version 9.
///
/// Every word has them, also one that no derivation can make. `base` is a byte address and `top` the one past the last
/// byte, of 65 bits and below `base` in some words; the reserved bits are ignored.
pub fn decode(w: Word) -> Fields
    ensures fields { DecodesTo w result }
    ensures only { (f : Fields) → DecodesTo w f → f ≡ result }
    ensures value { result ≡ fields_of w }
{
    let meta = w.meta ^ NULL_PATTERN;
    let parts = read_mantissas(meta);
    let limit = ((parts.bottom >> 11) + 7) & 7;
    let block = region_block(w.address, parts.exponent, limit);
    let base = (place(block, parts.exponent, limit, parts.bottom) & 0xFFFF_FFFF_FFFF_FFFF) as u64;
    let top = place(block, parts.exponent, limit, parts.top) & 0x1_FFFF_FFFF_FFFF_FFFF;
    Fields {
        base,
        top: correct_top(parts.exponent, base, top),
        cursor: w.address,
        perms: (meta >> 48) as u16,
        flag: (meta >> 45) & 1 == 1,
        otype: ((meta >> 27) & 0x3FFFF) as u32,
    }
}

fn read_mantissas(meta: u64) -> Mantissas
    ensures exponent { result.exponent ≡ exponent_of meta }
    ensures bottom { result.bottom ≡ bottom_of meta }
    ensures top { result.top ≡ top_of meta }
{
    let bottom = meta & 0x3FFF;
    let top = (meta >> 14) & 0xFFF;
    if (meta >> 26) & 1 == 0 {
        Mantissas {
            exponent: 0,
            bottom,
            top: restore_top(bottom, top, 0),
        }
    } else {
        let exponent = (8 * (top & 7) + (bottom & 7)).min(52) as u32;
        let bottom = bottom >> 3 << 3;
        Mantissas {
            exponent,
            bottom,
            top: restore_top(bottom, top >> 3 << 3, 1),
        }
    }
}

/// The number of region sizes below the region of the address, which is counted from 2 ^ 66 on.
fn region_block(address: u64, exponent: u32, limit: u64) -> u128
    requires exponent { exponent ≤ 52 }
    requires limit { limit < 8 }
    ensures region { IsRegion exponent limit (2 ^ 66 + address) (result * 2 ^ (exponent + 14) + limit * 2 ^ (exponent + 11)) }
    ensures bound { result * 2 ^ (exponent + 14) < 2 ^ 67 }
{
    let counted = (1u128 << 66) + u128::from(address);
    let middle = ((counted >> exponent) & 0x3FFF) as u64;
    (counted >> (exponent + 14)) - u128::from(u64::from(middle < limit << 11))
}

/// The place in the region whose middle bits are the mantissa.
fn place(block: u128, exponent: u32, limit: u64, mantissa: u64) -> u128
    requires exponent { exponent ≤ 52 }
    requires limit { limit < 8 }
    requires mantissa { mantissa < 2 ^ 14 }
    requires block { block * 2 ^ (exponent + 14) < 2 ^ 67 }
    ensures { IsMeant exponent (block * 2 ^ (exponent + 14) + limit * 2 ^ (exponent + 11)) mantissa result }
{
    let above = block + u128::from(u64::from(mantissa < limit << 11));
    ((above << 14) + u128::from(mantissa)) << exponent
}

/// The top with bit 64 as the base demands.
fn correct_top(exponent: u32, base: u64, top: u128) -> u128
    requires { top < 2 ^ 65 }
    ensures { result ≡ corrected_top exponent base top }
{
    let halves = ((top >> 63) as u64 + 4 - (base >> 63)) & 3;
    if exponent < 51 && 1 < halves {
        top ^ (1 << 64)
    } else {
        top
    }
}

/// T of 14 bits, from its low twelve bits.
fn restore_top(bottom: u64, low: u64, internal: u64) -> u64
    requires bottom { bottom < 2 ^ 14 }
    requires low { low < 2 ^ 12 }
    requires internal { internal < 2 }
    ensures { result ≡ restored_top bottom low internal }
{
    let carry = u64::from(low < bottom & 0xFFF);
    ((((bottom >> 12) + carry + internal) & 3) << 12) + low
}
